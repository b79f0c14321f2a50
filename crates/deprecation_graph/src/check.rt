// Chains, ends and sources of nodes, and whether a change of a node is allowed.
ghost use Rattle.std.specs.Prelude.{◌≡◌, ◌==◌, ◌<◌, ◌≤◌, length, slice_index_or, true, false, None, filter, find, IfOk, option_copied};
ghost use Rattle.std.specs.List.{All, list_all};
ghost use Rattle.deprecation_graph.specs.Paths.{IsClosed};
ghost use Rattle.deprecation_graph.specs.Chains.{reaches};
ghost use Rattle.deprecation_graph.specs.Graph.{next_of_node, chain_in, ends_in, sources_in, successors as successors_of, changed_nodes, NamesNodes, IsChange};
ghost use Rattle.deprecation_graph.specs.Faults.{cycle_in, is_wide_node, wide_in, change_fault, IsVerdict};
ghost use Rattle.deprecation_graph.specs.Indexed.{has_none};
ghost use Rattle.deprecation_graph.specs.Kept.{marks_after, nodes_in, nodes_after, AreFewSuccessors, IsGraph};

use crate::fault::GraphFault;
use crate::groups::{are_small, find_group};
use crate::kept::{KeptGraph, NodeChange, is_active_after, successors};
use crate::limits::{MOST_ENDS, MOST_SUCCESSORS};
use crate::search::find_all;
use std::alloc::{AllocError, Global};

// Whether `from` has no successor, or no node has `to` as a successor.
fn has_no_step(kept: &KeptGraph, from: u32, to: u32) -> bool
    requires kept { IsGraph kept.now }
    requires from { from < length kept.now.active.items }
    requires to { to < length kept.now.active.items }
    ensures { result ≡ true → reaches (next_of_node (nodes_in kept.now)) (length (nodes_in kept.now)) from to ≡ (from == to) }
{
    kept.before.is_empty(to as usize) || kept.next.is_empty(from as usize)
}

// True only if the two nodes are in different groups. The result is false if the way to the head of a group is long.
fn is_elsewhere(kept: &KeptGraph, from: u32, to: u32) -> bool
    requires kept { IsGraph kept.now }
    requires from { from < length kept.now.active.items }
    requires to { to < length kept.now.active.items }
    ensures { result ≡ true → reaches (next_of_node (nodes_in kept.now)) (length (nodes_in kept.now)) from to ≡ (from == to) }
{
    let Some(from_group) = find_group(&kept.groups, from) else {
        return false;
    };
    let Some(to_group) = find_group(&kept.groups, to) else {
        return false;
    };
    from_group != to_group
}

// True only if no path with a step leads from `from` to `to`, and this is known without a search.
fn is_apart(kept: &KeptGraph, from: u32, to: u32) -> bool
    requires kept { IsGraph kept.now }
    requires from { from < length kept.now.active.items }
    requires to { to < length kept.now.active.items }
    ensures { result ≡ true → reaches (next_of_node (nodes_in kept.now)) (length (nodes_in kept.now)) from to ≡ (from == to) }
{
    has_no_step(kept, from, to) || is_elsewhere(kept, from, to)
}

/// Whether a path leads from the node `from` to the node `to`.
pub(crate) fn is_led_to(
    alloc: Global,
    kept: &KeptGraph,
    from: u32,
    to: u32,
) -> Result<bool, AllocError>
    requires kept { IsGraph kept.now }
    requires from { from < length kept.now.active.items }
    requires to { to < length kept.now.active.items }
    ensures { IfOk result (λ led. led ≡ reaches (next_of_node (nodes_in kept.now)) (length (nodes_in kept.now)) from to) }
{
    if is_apart(kept, from, to) {
        return Ok(from == to);
    }
    let chain = find_all(alloc, &kept.next, None, from)?;
    Ok(chain.contains(&to))
}

/// The chain of a node: the nodes to which a path leads from it. If a change is given, the chain is that after the
/// change.
pub(crate) fn find_chain(
    alloc: Global,
    kept: &KeptGraph,
    change: Option<NodeChange>,
    start: u32,
) -> Result<Vec<u32>, AllocError>
    requires kept { IsGraph kept.now }
    requires closed { IsClosed (next_of_node (nodes_after kept.now change)) (length kept.now.active.items) }
    requires start { start < length kept.now.active.items }
    ensures { IfOk result (λ chain. chain.items ≡ chain_in (nodes_after kept.now change.entry) start) }
{
    find_all(alloc, &kept.next, change, start)
}

/// The sources of a node: the nodes from which a path leads to it. The search follows the predecessors.
pub(crate) fn find_sources(
    alloc: Global,
    kept: &KeptGraph,
    node: u32,
) -> Result<Vec<u32>, AllocError>
    requires kept { IsGraph kept.now }
    requires node { node < length kept.now.active.items }
    ensures { IfOk result (λ sources. sources.items ≡ sources_in (nodes_in kept.now) node) }
{
    find_all(alloc, &kept.before, None, node)
}

// The nodes of `chain` that are active. If a change is given, they are those that are active after it.
fn keep_active(
    alloc: Global,
    active: &[bool],
    change: Option<NodeChange>,
    chain: &[u32],
) -> Result<Vec<u32>, AllocError>
    requires { All (λ node. node < length active.now) chain.now }
    ensures { IfOk result (λ ends. ends.items ≡ filter (λ node. slice_index_or (marks_after active.now change.entry) node false) chain.now) }
{
    let mut ends = Vec::new(alloc);
    for node in chain {
        if is_active_after(active, change, *node) {
            ends.push(*node)?;
        }
    }
    Ok(ends)
}

/// The ends of a node. If a change is given, they are those after the change.
pub(crate) fn find_ends(
    alloc: Global,
    kept: &KeptGraph,
    change: Option<NodeChange>,
    start: u32,
) -> Result<Vec<u32>, AllocError>
    requires kept { IsGraph kept.now }
    requires closed { IsClosed (next_of_node (nodes_after kept.now change)) (length kept.now.active.items) }
    requires start { start < length kept.now.active.items }
    ensures { IfOk result (λ ends. ends.items ≡ ends_in (nodes_after kept.now change.entry) start) }
{
    let chain = find_chain(alloc, kept, change, start)?;
    keep_active(alloc, &kept.active, change, &chain)
}

// The place, from 1, of the first of these successors from which a path leads to the node.
fn find_cycle(
    alloc: Global,
    kept: &KeptGraph,
    node: u32,
    next: &[u32],
) -> Result<Option<u32>, AllocError>
    requires kept { IsGraph kept.now }
    requires node { node < length kept.now.active.items }
    requires next { All (λ successor. successor < length kept.now.active.items) next.now }
    requires few { length next.now ≤ MOST_SUCCESSORS }
    ensures { IfOk result (λ found. found ≡ cycle_in (nodes_in kept.now) node next.now) }
{
    let mut place = 0;
    for successor in next {
        place += 1;
        if is_led_to(alloc, kept, *successor, node)? {
            return Ok(Some(place));
        }
    }
    Ok(None)
}

// True only if the node is active before the change, and has at most one end after it. Then each source of the node
// loses the node as an end and gets at most one other end. So no node gets too many ends, and no search of the sources
// is needed.
fn is_narrow(alloc: Global, kept: &KeptGraph, change: NodeChange) -> Result<bool, AllocError>
    requires kept { IsGraph kept.now }
    requires change { NamesNodes (nodes_in kept.now) change.node (option_copied change.next) }
    ensures { IfOk result (λ narrow. narrow ≡ true → wide_in (changed_nodes (nodes_in kept.now) change.entry.node (option_copied change.entry.next)) ≡ None) }
{
    if !is_active_after(&kept.active, None, change.node) {
        return Ok(false);
    }
    let ends = find_ends(alloc, kept, Some(change), change.node)?;
    Ok(ends.len() <= 1)
}

// True only if no node has too many ends after the change, and the groups show it. All ends of the node's sources are
// in the group of the node and the groups of its new successors.
fn is_enclosed(alloc: Global, kept: &KeptGraph, change: NodeChange) -> Result<bool, AllocError>
    requires kept { IsGraph kept.now }
    requires change { NamesNodes (nodes_in kept.now) change.node (option_copied change.next) }
    ensures { IfOk result (λ enclosed. enclosed ≡ true → wide_in (changed_nodes (nodes_in kept.now) change.entry.node (option_copied change.entry.next)) ≡ None) }
{
    are_small(alloc, &kept.groups, change.node, successors(change.next))
}

// The first of these nodes that has too many ends after the change.
fn find_wide_among(
    alloc: Global,
    kept: &KeptGraph,
    change: NodeChange,
    nodes: &[u32],
) -> Result<Option<u32>, AllocError>
    requires kept { IsGraph kept.now }
    requires change { NamesNodes (nodes_in kept.now) change.node (option_copied change.next) }
    requires nodes { All (λ node. node < length kept.now.active.items) nodes.now }
    ensures { IfOk result (λ found. found ≡ find (is_wide_node (changed_nodes (nodes_in kept.now) change.entry.node (option_copied change.entry.next))) nodes.now) }
{
    for node in nodes {
        let ends = find_ends(alloc, kept, Some(change), *node)?;
        if ends.len() > MOST_ENDS {
            return Ok(Some(*node));
        }
    }
    Ok(None)
}

// The sources that are successors of no node.
fn keep_roots(alloc: Global, kept: &KeptGraph, sources: &[u32]) -> Result<Vec<u32>, AllocError>
    requires { All (λ source. source < length kept.now.before.lists) sources.now }
    ensures { IfOk result (λ roots. roots.items ≡ filter (has_none kept.now.before.lists) sources.now) }
{
    let mut roots = Vec::new(alloc);
    for source in sources {
        if kept.before.is_empty(*source as usize) {
            roots.push(*source)?;
        }
    }
    Ok(roots)
}

// The least node with too many ends after the change. Only a source of the changed node can get more ends than before.
// Each end of a source is also an end of every node that leads to the source. So if no source that is a successor of no
// node has too many ends, no source has.
fn find_wide_source(
    alloc: Global,
    kept: &KeptGraph,
    change: NodeChange,
) -> Result<Option<u32>, AllocError>
    requires kept { IsGraph kept.now }
    requires change { NamesNodes (nodes_in kept.now) change.node (option_copied change.next) }
    ensures { IfOk result (λ found. found ≡ wide_in (changed_nodes (nodes_in kept.now) change.entry.node (option_copied change.entry.next))) }
{
    let sources = find_sources(alloc, kept, change.node)?;
    let roots = keep_roots(alloc, kept, &sources)?;
    if find_wide_among(alloc, kept, change, &roots)?.is_none() {
        return Ok(None);
    }
    find_wide_among(alloc, kept, change, &sources)
}

// Whether each of these successors is active.
fn are_active(active: &[bool], next: &[u32]) -> bool
    requires { All (λ node. node < length active.now) next.now }
    ensures { result ≡ list_all (λ node. slice_index_or active.now node false) next.now }
{
    for successor in next {
        if !active[*successor as usize] {
            return false;
        }
    }
    true
}

// True only if a node with these successors has few ends, and this is known without a search. A node with one successor
// has the ends of this successor. A node with only active successors has these as its ends.
fn are_few(kept: &KeptGraph, next: &[u32]) -> bool
    requires { All (λ node. node < length kept.now.active.items) next.now }
    ensures { result ≡ true → AreFewSuccessors kept.now.active.items next.now }
{
    next.len() <= 1 || are_active(&kept.active, next)
}

// The least node with too many ends after the change of a node that is a successor of no node. Only the changed node
// can get too many ends.
fn find_wide_root(
    alloc: Global,
    kept: &KeptGraph,
    change: NodeChange,
) -> Result<Option<u32>, AllocError>
    requires kept { IsGraph kept.now }
    requires change { IsChange (nodes_in kept.now) change.node (option_copied change.next) }
    requires root { has_none kept.now.before.lists change.node ≡ true }
    requires acyclic { cycle_in (nodes_in kept.now) change.node (successors_of (option_copied change.next)) ≡ None }
    ensures { IfOk result (λ found. found ≡ wide_in (changed_nodes (nodes_in kept.now) change.entry.node (option_copied change.entry.next))) }
{
    if are_few(kept, successors(change.next)) {
        return Ok(None);
    }
    if is_enclosed(alloc, kept, change)? {
        return Ok(None);
    }
    find_wide_among(alloc, kept, change, &[change.node])
}

// The least node with too many ends after the change.
fn find_wide(alloc: Global, kept: &KeptGraph, change: NodeChange) -> Result<Option<u32>, AllocError>
    requires kept { IsGraph kept.now }
    requires change { IsChange (nodes_in kept.now) change.node (option_copied change.next) }
    requires acyclic { cycle_in (nodes_in kept.now) change.node (successors_of (option_copied change.next)) ≡ None }
    ensures { IfOk result (λ found. found ≡ wide_in (changed_nodes (nodes_in kept.now) change.entry.node (option_copied change.entry.next))) }
{
    if kept.before.is_empty(change.node as usize) {
        return find_wide_root(alloc, kept, change);
    }
    if is_enclosed(alloc, kept, change)? {
        return Ok(None);
    }
    if is_narrow(alloc, kept, change)? {
        return Ok(None);
    }
    find_wide_source(alloc, kept, change)
}

/// The first fault of the change.
pub(crate) fn check_change(
    alloc: Global,
    kept: &KeptGraph,
    change: NodeChange,
) -> Result<(), GraphFault>
    requires kept { IsGraph kept.now }
    requires change { IsChange (nodes_in kept.now) change.node (option_copied change.next) }
    ensures { IsVerdict result (change_fault (nodes_in kept.now) change.entry.node (option_copied change.entry.next)) }
{
    if let Some(place) = find_cycle(alloc, kept, change.node, successors(change.next))? {
        return Err(GraphFault::Cycle(place));
    }
    if let Some(node) = find_wide(alloc, kept, change)? {
        return Err(GraphFault::TooWide(node));
    }
    Ok(())
}
