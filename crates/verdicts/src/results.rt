// Results of checks are set and removed.
ghost use Rattle.std.specs.Prelude.{◌≡◌, IfOk};
ghost use Rattle.name_index.specs.Table.{Names};
ghost use Rattle.cpe_rows.specs.Prelude.{after, Rows};
ghost use Rattle.cpe_rows.specs.declared.edit.Edit.TheVariants as edit;
ghost use Rattle.cpe_rows.specs.declared.test.CheckKey.{CheckKey};
ghost use Rattle.statement_rows.specs.State.{IsReadyTruth};
ghost use Rattle.verdicts.specs.Verdicts.{HasVerdicts, known_in, SameStatements, statements_in};

use crate::truths::Truths;
use crate::verdicts::Verdicts;
use cpe_rows::{CheckKey, Memory, Truth};
use statement_rows::ReadyResult;

impl Verdicts {
    /// Makes a key ready for a result. Takes all memory for it, and changes no result and no verdict.
    ///
    /// # Errors
    /// Only that memory ran out.
    pub fn ready_result(&mut self, key: CheckKey) -> Result<ReadyResult, Memory>
        ensures ready { IfOk result (IsReadyTruth self.new.statements key) }
        ensures verdicts { (names : Names) (rows : Rows) → HasVerdicts names self.old rows → HasVerdicts names self.new rows }
        ensures same { SameStatements self.old self.new }
    {
        self.statements.ready_result(key)
    }

    /// Sets the result of a check whose key is ready, in the place of its last one or else at the end. Allocates: no.
    pub fn set_result(&mut self, ready: ReadyResult, truth: Truth)
        requires { (k : CheckKey) × IsReadyTruth self.old.statements k ready }
        ensures verdicts { (k : CheckKey) (names : Names) (rows : Rows) → IsReadyTruth self.old.statements k ready → HasVerdicts names self.old rows → HasVerdicts names self.new (after rows (edit.SetCheck k truth)) }
        ensures statements { statements_in self.new ≡ statements_in self.old }
        ensures known { known_in self.new ≡ known_in self.old }
    {
        let facts = Truths { facts: &self.facts };
        self.statements.set_result(ready, truth, &facts);
    }

    /// Removes the result of a check. Allocates: no.
    pub fn remove_result(&mut self, key: &CheckKey)
        ensures verdicts { (names : Names) (rows : Rows) → HasVerdicts names self.old rows → HasVerdicts names self.new (after rows (edit.DropCheck key.now)) }
        ensures statements { statements_in self.new ≡ statements_in self.old }
        ensures known { known_in self.new ≡ known_in self.old }
    {
        let facts = Truths { facts: &self.facts };
        let _ = self.statements.remove_result(key, &facts);
    }
}
