// The causes to refuse given nodes. One of them is that memory runs out.
ghost use Rattle.std.specs.Prelude.{◌≡◌};
ghost use Rattle.deprecation_graph.specs.declared.fill_fault.FillFault.TheVariants as fault;

use out_of_memory::Memory;
use thiserror::Error;

/// Why no graph of the given nodes was made.
#[derive(Clone, Copy, Debug, PartialEq, Eq, Error)]
pub enum FillFault {
    /// No graph may have these nodes. Perhaps there are too many nodes, or a successor is no node or is repeated. Or a
    /// node has too many successors or ends, or a path leads from a successor back to its node.
    #[error("no graph may have these nodes")]
    Unlawful,
    /// Memory ran out. The nodes may have another fault too.
    #[error("out of memory")]
    Memory,
}

impl From<Memory> for FillFault {
    ghost from_gives = { λ _ e. e ≡ fault.Memory };

    fn from(_error: Memory) -> FillFault {
        FillFault::Memory
    }
}
