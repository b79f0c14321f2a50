// Why a statement can't be added.
ghost use Rattle.std.specs.Prelude.{◌≡◌, ◌++◌, ◌∷◌, [], nat_lt};
ghost use Rattle.cpe_rows.specs.Prelude.{first_some, most, number_of_facts};
ghost use Rattle.cpe_rows.specs.declared.fault.Which.TheVariants as which;
ghost use Rattle.cpe_rows.specs.Causes.{statement_causes};
ghost use Rattle.statement_rows.specs.State.{statements_of};

use crate::count::with_facts_of;
use crate::statements::StatementRows;
use cpe_rows::{EditFault, MOST_FACTS, MOST_STATEMENTS, Statement, Which};

impl StatementRows {
    /// The first cause to refuse a statement, in the order of [`EditFault`], without the weight. There is none exactly
    /// if only the weight may refuse the edit that adds it. Allocates: no.
    pub fn statement_fault(&self, statement: &Statement) -> Option<EditFault>
        ensures { result ≡ first_some (statement_causes (statements_of self.now.rows) statement.now) }
    {
        if self.has(&statement.id) {
            return Some(EditFault::Exists);
        }
        if self.len() >= MOST_STATEMENTS {
            return Some(EditFault::Full(Which::Statements));
        }
        if self.has_too_many_facts(statement) {
            return Some(EditFault::Full(Which::Facts));
        }
        None
    }

    // Whether there would be too many fact references with those of the statement.
    fn has_too_many_facts(&self, statement: &Statement) -> bool
        ensures { result ≡ nat_lt (most which.Facts) (number_of_facts (statements_of self.now.rows ++ statement.now ∷ [])) }
    {
        with_facts_of(&statement.test, self.facts()) > MOST_FACTS
    }
}
