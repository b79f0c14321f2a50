// A search along lists of successors or predecessors. Time and memory depend on what it finds, not on the number of
// nodes.
ghost use Rattle.std.specs.Prelude.{◌≡◌, ◌<◌, ◌∷◌, [], length, IfOk, OnOk};
ghost use Rattle.std.specs.Ordering.{nat_cmp};
ghost use Rattle.std.specs.BTreeSet as set;
ghost use Rattle.deprecation_graph.specs.Paths.{IsClosed};
ghost use Rattle.deprecation_graph.specs.Chains.{IsChain};
ghost use Rattle.deprecation_graph.specs.Searches.{Visits, IsReached};
ghost use Rattle.deprecation_graph.specs.Indexed.{list_of_node};
ghost use Rattle.deprecation_graph.specs.Kept.{lists_after};

use crate::few::find_few;
use crate::kept::{NodeChange, read_after};
use crate::lists::Lists;
use std::alloc::{AllocError, Global};
use std::collections::BTreeSet;

// Adds a number to the found numbers. If it is new, it is also added to the numbers whose lists are still to be read.
fn visit(found: &mut BTreeSet<u32>, todo: &mut Vec<u32>, node: u32) -> Result<(), AllocError>
    ensures ordered { OnOk result (set.IsOrdered nat_cmp found.new) }
    ensures visits { OnOk result (Visits found.old found.new todo.old.items todo.new.items (node ∷ [])) }
{
    if found.insert(node)? {
        todo.push(node)?;
    }
    Ok(())
}

// Adds each of these numbers to the found numbers, like `visit`.
fn visit_all(
    found: &mut BTreeSet<u32>,
    todo: &mut Vec<u32>,
    nodes: &[u32],
) -> Result<(), AllocError>
    requires { set.IsOrdered nat_cmp found.old }
    ensures ordered { OnOk result (set.IsOrdered nat_cmp found.new) }
    ensures visits { OnOk result (Visits found.old found.new todo.old.items todo.new.items nodes.now) }
{
    for node in nodes {
        visit(found, todo, *node)?;
    }
    Ok(())
}

// The numbers to which a path leads along the lists. If a change is given, the lists are those after it.
fn find_reached(
    alloc: Global,
    lists: &Lists,
    change: Option<NodeChange>,
    start: u32,
) -> Result<BTreeSet<u32>, AllocError>
    requires closed { IsClosed (list_of_node (lists_after lists.now.lists change)) (length lists.now.lists) }
    requires start { start < length lists.now.lists }
    ensures { IfOk result (IsReached (list_of_node (lists_after lists.now.lists change.entry)) start) }
{
    let mut found = BTreeSet::new(alloc);
    let mut todo = Vec::new(alloc);
    let mut list = Vec::new(alloc);
    visit(&mut found, &mut todo, start)?;
    while let Some(node) = todo.pop() {
        read_after(lists, change, node, &mut list)?;
        visit_all(&mut found, &mut todo, &list)?;
    }
    Ok(found)
}

// The numbers of a set, in increasing order.
fn keys(alloc: Global, found: &BTreeSet<u32>) -> Result<Vec<u32>, AllocError>
    ensures { IfOk result (λ v. v.items ≡ found.now.keys) }
{
    found.iter().copied().collect(alloc)
}

/// The numbers to which a path leads along the lists, in increasing order. If a change is given, the lists are those
/// after it.
pub(crate) fn find_all(
    alloc: Global,
    lists: &Lists,
    change: Option<NodeChange>,
    start: u32,
) -> Result<Vec<u32>, AllocError>
    requires closed { IsClosed (list_of_node (lists_after lists.now.lists change)) (length lists.now.lists) }
    requires start { start < length lists.now.lists }
    ensures { IfOk result (λ v. IsChain (list_of_node (lists_after lists.now.lists change.entry)) start v.items) }
{
    if let Some(few) = find_few(alloc, lists, change, start)? {
        return Ok(few);
    }
    let found = find_reached(alloc, lists, change, start)?;
    keys(alloc, &found)
}
