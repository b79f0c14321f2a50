// The truths of facts, as the tests of statements read them.

use cpe_rows::{Mode, Truth};
use facts::Facts;
use name_index::NameId;
use statement_rows::FactTruth;

// The truths that are kept of facts.
#[derive(Drop)]
pub(crate) struct Truths<'f> {
    pub(crate) facts: &'f Facts,
}

impl<'f> FactTruth for Truths<'f> {
    ghost use Rattle.verdicts.specs.Verdicts.{truths_in};

    ghost fact_truth = { λ t. truths_in t.facts.now };

    fn truth(&self, mode: Mode, fact: NameId) -> Truth {
        self.facts.truth(mode, fact)
    }
}
