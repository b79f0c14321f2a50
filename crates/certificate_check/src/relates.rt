// The relations between an end of a fact and an end of an item that decide the truth of the fact.
ghost use Rattle.std.specs.Prelude.{◌≡◌};
ghost use Rattle.certificate_check.specs.Relates.{related, truth_of_relates, is_ruled_out};

use crate::check::is_truth;
use cpe_relation::{covers, maybe};
use cpe_rows::{Truth, Wfn};

/// A relation between an end of a fact and an end of an item, by which the fact has its truth.
#[derive(Debug, Clone, Copy, PartialEq, Eq)]
pub enum Relates {
    /// The fact's end covers the item's end, so the fact is TRUE.
    Covers,
    /// The fact's end may cover the item's end, which is known in part. The fact is UNKNOWN if no item makes it TRUE.
    MayCover,
}

impl Relates {
    /// Whether the first name has the relation to the second name. Allocates: no.
    pub fn holds(self, name: &Wfn, other: &Wfn) -> bool
        ensures { result ≡ related self name.now other.now }
    {
        match self {
            Relates::Covers => covers(name, other),
            Relates::MayCover => maybe(name, other),
        }
    }

    /// The truth of the fact that an item with this relation shows.
    pub fn truth(self) -> Truth
        ensures { result ≡ truth_of_relates self }
    {
        match self {
            Relates::Covers => Truth::True,
            Relates::MayCover => Truth::Unknown,
        }
    }

    /// Whether a fact of this truth has the relation to no item.
    pub fn is_ruled_out(self, truth: Truth) -> bool
        ensures { result ≡ is_ruled_out self truth }
    {
        match self {
            Relates::Covers => !is_truth(truth, Truth::True),
            Relates::MayCover => is_truth(truth, Truth::False),
        }
    }
}
