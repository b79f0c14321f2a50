// A search that finds few nodes. It looks for a node by a scan of one vector, which is cheaper here than a set.
ghost use Rattle.std.specs.Prelude.{◌≡◌, ◌<◌, ◌∷◌, [], length, IfOk, IfSome, OnOk};
ghost use Rattle.deprecation_graph.specs.Paths.{IsClosed};
ghost use Rattle.deprecation_graph.specs.Chains.{IsChain};
ghost use Rattle.deprecation_graph.specs.Searches.{with_number, AddsNumber};
ghost use Rattle.deprecation_graph.specs.Indexed.{list_of_node};
ghost use Rattle.deprecation_graph.specs.Kept.{lists_after};

use crate::kept::{NodeChange, read_after};
use crate::lists::Lists;
use std::alloc::{AllocError, Global};

// The most nodes that a search may find by scans.
const FEW: usize = 16;

/// Adds a number at the end, unless the vector already has it.
pub(crate) fn add(found: &mut Vec<u32>, node: u32) -> Result<(), AllocError>
    ensures { OnOk result (found.new.items ≡ with_number found.old.items node) }
{
    if !found.contains(&node) {
        found.push(node)?;
    }
    Ok(())
}

// Adds each of these numbers, unless the vector already has it.
fn add_all(found: &mut Vec<u32>, nodes: &[u32]) -> Result<(), AllocError>
    ensures { OnOk result (AddsNumber found.old.items found.new.items nodes.now) }
{
    for node in nodes {
        add(found, *node)?;
    }
    Ok(())
}

/// The numbers to which a path leads along the lists, in increasing order. If a change is given, the lists are those
/// after it. Returns `None` if more than `FEW` numbers are found, or if one list has more than `FEW` numbers.
pub(crate) fn find_few(
    alloc: Global,
    lists: &Lists,
    change: Option<NodeChange>,
    start: u32,
) -> Result<Option<Vec<u32>>, AllocError>
    requires closed { IsClosed (list_of_node (lists_after lists.now.lists change)) (length lists.now.lists) }
    requires start { start < length lists.now.lists }
    ensures { IfOk result (λ few. IfSome few (λ found. IsChain (list_of_node (lists_after lists.now.lists change.entry)) start found.items)) }
{
    let mut found = Vec::new(alloc);
    let mut list = Vec::new(alloc);
    found.push(start)?;
    // The place in `found` of the next number whose list is read.
    let mut place = 0;
    while place < found.len() {
        if found.len() > FEW {
            return Ok(None);
        }
        read_after(lists, change, found[place], &mut list)?;
        if list.len() > FEW {
            return Ok(None);
        }
        add_all(&mut found, &list)?;
        place += 1;
    }
    found.sort_unstable();
    Ok(Some(found))
}
