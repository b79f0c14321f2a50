// Changes of the stored nodes.
ghost use Rattle.std.specs.Prelude.{◌≡◌, ◌+◌, ◌≤◌, length, None, OnOk, option_copied};
ghost use Rattle.deprecation_graph.specs.Graph.{next_of_node, edge_count, changed_nodes, successors as successors_of, NamesNodes};
ghost use Rattle.deprecation_graph.specs.Faults.{change_fault};
ghost use Rattle.deprecation_graph.specs.Kept.{nodes_in, IsGraph, Regrows, HasRoom, KeepsGraphRoom};

use crate::groups::{join_all, recount};
use crate::kept::{KeptGraph, successors};
use crate::limits::{MOST_EDGES, MOST_NODES};
use crate::mirror::{link_all, unlink_all};
use out_of_memory::Memory;

/// Makes room for this number of further nodes and edges.
pub(crate) fn reserve_kept(kept: &mut KeptGraph, nodes: usize, edges: usize) -> Result<(), Memory>
    requires sound { IsGraph kept.old }
    requires few_nodes { length kept.old.active.items + nodes ≤ MOST_NODES }
    requires few_edges { edge_count (nodes_in kept.old) + edges ≤ MOST_EDGES }
    ensures regrown { Regrows kept.old kept.new }
    ensures reserved { OnOk result (HasRoom kept.new nodes edges) }
{
    kept.active.reserve(nodes)?;
    kept.next.reserve(nodes, nodes + edges)?;
    kept.before.reserve(nodes, nodes + edges)?;
    kept.groups.reserve(nodes)?;
    let cells = kept.next.most_cells();
    if kept.mates.len() < cells {
        kept.mates.resize(cells, 0)?;
    }
    Ok(())
}

/// Gives a node its new successors, or makes it active if `next` is `None`.
pub(crate) fn set_kept(kept: &mut KeptGraph, node: u32, next: Option<&[u32]>)
    requires sound { IsGraph kept.old }
    requires change { NamesNodes (nodes_in kept.old) node (option_copied next) }
    requires allowed { change_fault (nodes_in kept.old) node (option_copied next) ≡ None }
    requires next_spare { length (successors_of (option_copied next)) ≤ kept.old.next.spare }
    requires before_spare { length (successors_of (option_copied next)) ≤ kept.old.before.spare }
    ensures sound { IsGraph kept.new }
    ensures nodes { nodes_in kept.new ≡ changed_nodes (nodes_in kept.old) node (option_copied next.entry) }
    ensures rooms { KeepsGraphRoom kept.old kept.new (successors_of (option_copied next.entry)) (next_of_node (nodes_in kept.old) node) }
{
    let all = successors(next);
    let is_active = next.is_none();
    unlink_all(&mut kept.next, &mut kept.before, &mut kept.mates, node);
    link_all(&mut kept.next, &mut kept.before, &mut kept.mates, node, all);
    recount(&mut kept.groups, &kept.active, node, is_active);
    join_all(&mut kept.groups, node, all);
    kept.active[node as usize] = is_active;
}
