// The tests of the given lists before any edge is added.
ghost use Rattle.std.specs.Prelude.{◌≡◌, ◌↔◌, ◌<◌, IsTrue, length, nat_eq, option_copied};
ghost use Rattle.std.specs.List.{All, IsDistinct};
ghost use Rattle.deprecation_graph.specs.Graph.{successors as successors_in};
ghost use Rattle.deprecation_graph.specs.Filled.{IsBrief};
ghost use Rattle.deprecation_graph.specs.Fit.{IsFit, AreFit};

use crate::limits::{MOST_NODES, MOST_SUCCESSORS};
use cpe_rows::List;

/// The list as the argument of a change.
pub(crate) fn change_to(list: &Option<List<u32>>) -> Option<&[u32]>
    ensures { option_copied result ≡ list.now }
{
    match list {
        Some(next) => Some(next.as_slice()),
        None => None,
    }
}

/// The successors in the list; the empty slice if the list is `None`.
pub(crate) fn successors(list: &Option<List<u32>>) -> &[u32]
    ensures { result.now ≡ successors_in list.now }
{
    match list {
        Some(next) => next.as_slice(),
        None => &[],
    }
}

// Whether all numbers are different. The numbers are few, so each is looked for among those before it.
fn are_different(next: &[u32]) -> bool
    ensures { IsTrue result ↔ IsDistinct nat_eq next.now }
{
    for (place, node) in next.iter().enumerate() {
        if next[..place].contains(node) {
            return false;
        }
    }
    true
}

// Whether all numbers are below the count.
fn are_below(next: &[u32], count: usize) -> bool
    ensures { IsTrue result ↔ All (λ node. node < count) next.now }
{
    next.iter().all(|node| (*node as usize) < count)
}

// Whether a list has at most `MOST_SUCCESSORS` successors, all different.
fn is_brief(list: &Option<List<u32>>) -> bool
    ensures { IsTrue result ↔ IsBrief list.now }
{
    let next = successors(list);
    next.len() <= MOST_SUCCESSORS && are_different(next)
}

// Whether a list has at most `MOST_SUCCESSORS` successors, all different and below the count.
fn is_fit(list: &Option<List<u32>>, count: usize) -> bool
    ensures { IsTrue result ↔ IsFit count list.now }
{
    is_brief(list) && are_below(successors(list), count)
}

/// Whether there are at most `MOST_NODES` nodes, and each list has at most `MOST_SUCCESSORS` successors, all different
/// nodes. Cycles and ends aren't tested.
pub(crate) fn are_fit(lists: &[Option<List<u32>>]) -> bool
    ensures { IsTrue result ↔ AreFit lists.now }
{
    lists.len() <= MOST_NODES && lists.iter().all(|list| is_fit(list, lists.len()))
}
