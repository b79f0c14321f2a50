// The stored nodes, and what they would be after a change.
ghost use Rattle.std.specs.Prelude.{◌≡◌, ◌<◌, length, slice_index_or, false, OnOk, option_copied};
ghost use Rattle.deprecation_graph.specs.Graph.{successors as successors_of_change};
ghost use Rattle.deprecation_graph.specs.Indexed.{list_of_node};
ghost use Rattle.deprecation_graph.specs.Kept.{lists_after, marks_after};

use crate::groups::GroupMember;
use crate::lists::Lists;
use std::alloc::AllocError;

/// For each node: whether it is active, its successors, its predecessors, and its group.
#[derive(Drop)]
pub(crate) struct KeptGraph {
    pub(crate) active: Vec<bool>,
    pub(crate) next: Lists,
    pub(crate) before: Lists,
    // For each cell in `next`, the cell in `before` that has the same edge. It is a hint: the search for the edge
    // begins there.
    pub(crate) mates: Vec<u32>,
    pub(crate) groups: Vec<GroupMember>,
}

/// A change of one node: its new successors, or `None` if the node becomes active.
#[derive(Clone, Copy)]
pub(crate) struct NodeChange<'a> {
    pub(crate) node: u32,
    pub(crate) next: Option<&'a [u32]>,
}

/// The new successors of a change; the empty list if the node becomes active.
pub(crate) fn successors(next: Option<&[u32]>) -> &[u32]
    ensures { result.now ≡ successors_of_change (option_copied next.entry) }
{
    match next {
        Some(next) => next,
        None => &[],
    }
}

/// Copies the successor list of a node into `into`. If a change is given, the list is that after the change.
pub(crate) fn read_after(
    lists: &Lists,
    change: Option<NodeChange>,
    node: u32,
    into: &mut Vec<u32>,
) -> Result<(), AllocError>
    requires { node < length lists.now.lists }
    ensures { OnOk result (into.new.items ≡ list_of_node (lists_after lists.now.lists change.entry) node) }
{
    if let Some(change) = change {
        if change.node == node {
            into.clear();
            into.extend_from_slice(successors(change.next))?;
            return Ok(());
        }
    }
    lists.read(node as usize, into)
}

/// Whether a node is active. If a change is given, the result is that after the change.
pub(crate) fn is_active_after(active: &[bool], change: Option<NodeChange>, node: u32) -> bool
    requires { node < length active.now }
    ensures { result ≡ slice_index_or (marks_after active.now change.entry) node false }
{
    if let Some(change) = change {
        if change.node == node {
            return change.next.is_none();
        }
    }
    active[node as usize]
}
