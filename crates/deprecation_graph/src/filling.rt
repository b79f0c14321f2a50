// Filling a graph: the nodes get their successors one by one, each node after its own successors.
ghost use Rattle.std.specs.Prelude.{◌≡◌, ◌+◌, ◌++◌, ◌∷◌, [], ◌<◌, ◌≤◌, length, replicate, slice_index, slice_set, false, IfErr, IfOk, OnOk, None, option_copied};
ghost use Rattle.deprecation_graph.specs.declared.limits.TheConstants.{MOST_EDGES, MOST_NODES};
ghost use Rattle.deprecation_graph.specs.Graph.{changed_nodes, edge_count, next_of_node, node_of, successors as successors_in, IsChange, IsLawfulGraph};
ghost use Rattle.deprecation_graph.specs.Faults.{change_fault};
ghost use Rattle.deprecation_graph.specs.declared.filling.Mark.TheVariants as mark;
ghost use Rattle.deprecation_graph.specs.Filled.{nodes_of_lists};
ghost use Rattle.deprecation_graph.specs.Fit.{AreFit};
ghost use Rattle.deprecation_graph.specs.Filling.{is_new, mark_of, IsFilling, IsLastWaiting, IsStep, NoneIsNewer};

use crate::fault::GraphFault;
use crate::fill_fault::FillFault;
use crate::fit::{change_to, successors};
use crate::graph::DeprecationGraph;
use cpe_rows::List;
use out_of_memory::Memory;
use std::alloc::Global;

/// The state of a node in the filling of a graph.
#[derive(Clone, Copy)]
pub(crate) enum Mark {
    /// No path to it was followed yet.
    New,
    /// It waits until its successors are done.
    Waiting,
    /// It has its successors.
    Done,
}

/// The graph so far. For each node it has a mark, and the number of its successors that are known to be done. Each
/// waiting node after the first is a successor of the waiting node before it.
#[derive(Drop)]
pub(crate) struct Filling {
    pub(crate) graph: DeprecationGraph,
    pub(crate) marks: Vec<Mark>,
    pub(crate) seen: Vec<u8>,
    pub(crate) waiting: Vec<u32>,
}

// The number of edges.
fn count_edges(lists: &[Option<List<u32>>]) -> u32
    requires { AreFit lists.now }
    ensures { result ≤ MOST_EDGES }
{
    let mut count = 0;
    for list in lists {
        count += successors(list).len() as u32;
    }
    count
}

// A graph of as many active nodes as there are lists, with room for all edges.
fn bare(alloc: Global, lists: &[Option<List<u32>>]) -> Result<DeprecationGraph, Memory>
    requires { AreFit lists.now }
    ensures { IfOk result (λ graph. graph.nodes ≡ replicate (length lists.now) (node_of None)) }
{
    let mut graph = DeprecationGraph::new(alloc);
    graph.reserve(lists.len() as u32, count_edges(lists))?;
    for _ in 0..lists.len() {
        graph.add_node();
    }
    Ok(graph)
}

/// The first state of a filling: all nodes are new.
pub(crate) fn begin(alloc: Global, lists: &[Option<List<u32>>]) -> Result<Filling, Memory>
    requires { AreFit lists.now }
    ensures filling { IfOk result (λ filling. IsFilling lists.now filling) }
    ensures idle { IfOk result (λ filling. filling.waiting.items ≡ []) }
{
    let mut marks = Vec::new(alloc);
    marks.resize(lists.len(), Mark::New)?;
    let mut seen = Vec::new(alloc);
    seen.resize(lists.len(), 0)?;
    Ok(Filling {
        graph: bare(alloc, lists)?,
        marks,
        seen,
        waiting: Vec::new(alloc),
    })
}

// Makes a node wait, as the last of the waiting nodes.
fn enter(marks: &mut Vec<Mark>, waiting: &mut Vec<u32>, node: u32) -> Result<(), Memory>
    requires { node < length marks.old.items }
    ensures marks { OnOk result (marks.new.items ≡ slice_set marks.old.items node mark.Waiting) }
    ensures waiting { OnOk result (waiting.new.items ≡ waiting.old.items ++ node ∷ []) }
{
    waiting.push(node)?;
    marks[node as usize] = Mark::Waiting;
    Ok(())
}

// Marks the last waiting node as done, and removes it from the waiting nodes.
fn leave(marks: &mut Vec<Mark>, waiting: &mut Vec<u32>, node: u32)
    requires node { node < length marks.old.items }
    requires last { IsLastWaiting waiting.old.items node }
    ensures marks { marks.new.items ≡ slice_set marks.old.items node mark.Done }
    ensures waiting { waiting.old.items ≡ waiting.new.items ++ node ∷ [] }
{
    marks[node as usize] = Mark::Done;
    waiting.pop();
}

// Gives a node its successors, if the graph allows it. Usually the graph already has the room, so `reserve` does
// nothing.
fn change(
    alloc: Global,
    graph: &mut DeprecationGraph,
    node: u32,
    list: &Option<List<u32>>,
) -> Result<(), FillFault>
    requires few { length graph.old.nodes ≤ MOST_NODES }
    requires change { IsChange graph.old.nodes node list.now }
    requires room { edge_count graph.old.nodes + length (successors_in list.now) ≤ MOST_EDGES }
    ensures nodes { OnOk result (graph.new.nodes ≡ changed_nodes graph.old.nodes node list.now) }
    ensures unlawful { IfErr result (λ f. f ≡ FillFault.Unlawful → change_fault graph.old.nodes node list.now ≡ None → ⊥) }
{
    graph.reserve(0, successors(list).len() as u32)?;
    match graph.check(alloc, node, change_to(list)) {
        Ok(()) => {
            graph.set_edges(node, change_to(list));
            Ok(())
        }
        Err(GraphFault::Memory) => Err(FillFault::Memory),
        Err(GraphFault::Cycle(_)) => Err(FillFault::Unlawful),
        Err(GraphFault::TooWide(_)) => Err(FillFault::Unlawful),
    }
}

// Gives the last waiting node its successors, which are all done.
fn settle(
    alloc: Global,
    lists: &[Option<List<u32>>],
    filling: &mut Filling,
    node: u32,
) -> Result<(), FillFault>
    requires fit { AreFit lists.now }
    requires filling { IsFilling lists.now filling.old }
    requires last { IsLastWaiting filling.old.waiting.items node }
    requires seen { length (next_of_node (nodes_of_lists lists.now) node) ≤ slice_index filling.old.seen.items node }
    ensures ok { OnOk result (IsStep lists.now filling.old filling.new) }
    ensures unlawful { IfErr result (λ f. f ≡ FillFault.Unlawful → IsLawfulGraph (nodes_of_lists lists.now) → ⊥) }
{
    change(alloc, &mut filling.graph, node, &lists[node as usize])?;
    leave(&mut filling.marks, &mut filling.waiting, node);
    Ok(())
}

// One step: the last waiting node looks at its first successor that isn't known to be done.
fn step(
    alloc: Global,
    lists: &[Option<List<u32>>],
    filling: &mut Filling,
    node: u32,
) -> Result<(), FillFault>
    requires fit { AreFit lists.now }
    requires filling { IsFilling lists.now filling.old }
    requires last { IsLastWaiting filling.old.waiting.items node }
    ensures ok { OnOk result (IsStep lists.now filling.old filling.new) }
    ensures unlawful { IfErr result (λ f. f ≡ FillFault.Unlawful → IsLawfulGraph (nodes_of_lists lists.now) → ⊥) }
{
    let next = successors(&lists[node as usize]);
    let seen = filling.seen[node as usize];
    let Some(successor) = next.get(seen as usize) else {
        return settle(alloc, lists, filling, node);
    };
    match filling.marks[*successor as usize] {
        Mark::Done => {
            filling.seen[node as usize] = seen + 1;
            Ok(())
        }
        Mark::New => {
            enter(&mut filling.marks, &mut filling.waiting, *successor)?;
            Ok(())
        }
        // A path leads from the successor back to the node.
        Mark::Waiting => Err(FillFault::Unlawful),
    }
}

// Gives a new node its successors, after all nodes to which paths lead from it. The waiting nodes are in a vector, as a
// chain may be too long for the stack.
fn finish(
    alloc: Global,
    lists: &[Option<List<u32>>],
    filling: &mut Filling,
    node: u32,
) -> Result<(), FillFault>
    requires fit { AreFit lists.now }
    requires filling { IsFilling lists.now filling.old }
    requires idle { filling.old.waiting.items ≡ [] }
    requires node { node < length lists.now }
    requires new { mark_of filling.old.marks.items node ≡ mark.New }
    ensures filling { OnOk result (IsFilling lists.now filling.new) }
    ensures idle { OnOk result (filling.new.waiting.items ≡ []) }
    ensures newer { OnOk result (NoneIsNewer filling.old.marks.items filling.new.marks.items) }
    ensures entered { OnOk result (is_new (mark_of filling.new.marks.items node) ≡ false) }
    ensures unlawful { IfErr result (λ f. f ≡ FillFault.Unlawful → IsLawfulGraph (nodes_of_lists lists.now) → ⊥) }
{
    enter(&mut filling.marks, &mut filling.waiting, node)?;
    while let Some(last) = filling.waiting.last().copied() {
        step(alloc, lists, filling, last)?;
    }
    Ok(())
}

// Gives a node its successors, unless the node is done.
fn visit(
    alloc: Global,
    lists: &[Option<List<u32>>],
    filling: &mut Filling,
    node: u32,
) -> Result<(), FillFault>
    requires fit { AreFit lists.now }
    requires filling { IsFilling lists.now filling.old }
    requires idle { filling.old.waiting.items ≡ [] }
    requires node { node < length lists.now }
    ensures filling { OnOk result (IsFilling lists.now filling.new) }
    ensures idle { OnOk result (filling.new.waiting.items ≡ []) }
    ensures newer { OnOk result (NoneIsNewer filling.old.marks.items filling.new.marks.items) }
    ensures entered { OnOk result (is_new (mark_of filling.new.marks.items node) ≡ false) }
    ensures unlawful { IfErr result (λ f. f ≡ FillFault.Unlawful → IsLawfulGraph (nodes_of_lists lists.now) → ⊥) }
{
    match filling.marks[node as usize] {
        Mark::New => finish(alloc, lists, filling, node),
        Mark::Waiting => Ok(()),
        Mark::Done => Ok(()),
    }
}

/// Gives all nodes their successors.
///
/// # Errors
///
/// [`FillFault::Unlawful`] if no graph may have these nodes. [`FillFault::Memory`] if memory runs out.
pub(crate) fn finish_all(
    alloc: Global,
    lists: &[Option<List<u32>>],
    filling: &mut Filling,
) -> Result<(), FillFault>
    requires fit { AreFit lists.now }
    requires filling { IsFilling lists.now filling.old }
    requires idle { filling.old.waiting.items ≡ [] }
    ensures nodes { OnOk result (filling.new.graph.nodes ≡ nodes_of_lists lists.now) }
    ensures unlawful { IfErr result (λ f. f ≡ FillFault.Unlawful → IsLawfulGraph (nodes_of_lists lists.now) → ⊥) }
{
    for node in 0..lists.len() {
        visit(alloc, lists, filling, node as u32)?;
    }
    Ok(())
}
