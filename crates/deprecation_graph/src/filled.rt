// Making a graph of given nodes.
ghost use Rattle.std.specs.Prelude.{◌≡◌, IfErr, IfOk, OnOk};
ghost use Rattle.deprecation_graph.specs.Filled.{nodes_of_lists, AreAllowed};

use crate::fill_fault::FillFault;
use crate::filling::{begin, finish_all};
use crate::fit::are_fit;
use crate::graph::DeprecationGraph;
use cpe_rows::List;
use std::alloc::Global;

/// The graph whose node k is active if list k is `None`, and otherwise has the successors in list k.
///
/// Each edge is read once. Each node is changed once, before any node has it as a successor. A change needs no search
/// if the node has at most one successor. Nor does it if the groups of the node and its successors have few active
/// nodes. Otherwise it searches the chain of the node at most (see [`check`](DeprecationGraph::check)). Beside the
/// graph, the function takes some bytes of memory for each node. The stack doesn't grow with the length of a chain.
///
/// # Errors
///
/// [`FillFault::Unlawful`] exactly if no graph may have these nodes. [`FillFault::Memory`] may be returned instead of
/// any result.
pub fn fill(alloc: Global, lists: &[Option<List<u32>>]) -> Result<DeprecationGraph, FillFault>
    ensures ok { IfOk result (λ graph. graph.nodes ≡ nodes_of_lists lists.now) }
    ensures allowed { OnOk result (AreAllowed lists.now) }
    ensures unlawful { IfErr result (λ f. f ≡ FillFault.Unlawful → AreAllowed lists.now → ⊥) }
{
    if !are_fit(lists) {
        return Err(FillFault::Unlawful);
    }
    let mut filling = begin(alloc, lists)?;
    finish_all(alloc, lists, &mut filling)?;
    filling.graph.lawful();
    Ok(filling.graph)
}
