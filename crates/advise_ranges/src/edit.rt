// Edits of advisories and items, and questions about them.
ghost use Rattle.std.specs.Prelude.{◌≡◌};
ghost use Rattle.advise_ranges.specs.declared.edit.AdviceFault.TheVariants as fault;

use crate::advisory::Advisory;
use cpe_rows::{List, Memory, Text, Wfn};

/// A change of the items or of the advisories.
#[derive(Debug, Drop)]
pub enum AdviceEdit {
    /// Adds an item.
    Item(Wfn),
    /// Removes an item.
    DropItem(Wfn),
    /// Adds an advisory.
    Put(Advisory),
    /// Removes the advisory of this id.
    Drop(Text),
}

/// A question about the items and advisories.
#[derive(Debug, Drop)]
pub enum AdviceQuery {
    /// The items that the advisory of this id affects.
    Affected(Text),
    /// The advisories that affect an item of this name. The item need not be kept.
    Advisories(Wfn),
}

/// The answer to a question.
#[derive(Debug, Drop)]
pub enum AdviceReply {
    /// The items that the advisory of this id affects, in their order, if there is such an advisory.
    Affected { id: Text, rows: Option<List<Wfn>> },
    /// The ids of the advisories that affect an item of this name, in their order.
    Advisories { name: Wfn, ids: List<Text> },
}

/// What is limited.
#[derive(Debug, Clone, Copy, PartialEq, Eq)]
pub enum AdviceWhich {
    /// The items.
    Items,
    /// The advisories.
    Advisories,
    /// The weight of all rows.
    Weight,
}

/// Why an edit is refused: its first fault, in this order.
#[derive(Debug, Clone, Copy, PartialEq, Eq)]
pub enum AdviceFault {
    /// The name of an item that is added has a special.
    Wildcards,
    /// The version of an advisory's name isn't ANY.
    Version,
    /// The item, or an advisory of this id, is kept already.
    Exists,
    /// There is no such item, or no advisory of this id.
    Unknown,
    /// With the edit, this would exceed its limit.
    Full(AdviceWhich),
    /// Memory ran out.
    Memory,
}

impl From<Memory> for AdviceFault {
    ghost from_gives = { λ _ f. f ≡ fault.Memory };

    fn from(_error: Memory) -> AdviceFault {
        AdviceFault::Memory
    }
}
