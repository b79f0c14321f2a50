// Statements are added, in two stages.
ghost use Rattle.std.specs.Prelude.{◌≡◌, ◌≤◌, ℕ, List, IfOk, OnErr, OnOk, None, true, false};
ghost use Rattle.name_index.specs.declared.table.NameId.{NameId};
ghost use Rattle.name_index.specs.Table.{Names};
ghost use Rattle.cpe_rows.specs.Prelude.{fact_names, first_some, IsLawful, Rows};
ghost use Rattle.cpe_rows.specs.Causes.{statement_causes};
ghost use Rattle.cpe_rows.specs.declared.entry.Entry.{Entry};
ghost use Rattle.cpe_rows.specs.declared.statement.Statement.{Statement};
ghost use Rattle.facts.specs.fact_laws.Shown.{names_at, times_in_list};
ghost use Rattle.fact_boards.specs.Kept.{AreFactNames};
ghost use Rattle.facts.specs.fact_rows.Facts.{fact_at, has_end_of_fact};
ghost use Rattle.facts.specs.Facts.{is_used, table_of};
ghost use Rattle.statement_rows.specs.Askers.{AreAskers, AreAskedBut};
ghost use Rattle.statement_rows.specs.Readings.{check_keys};
ghost use Rattle.statement_rows.specs.State.{IsReadyRow, SameRows};
ghost use Rattle.verdicts.specs.Addition.{AreReady, FreshBeside, HasVerdictsBeside, IsAddition, StatementAdded};
ghost use Rattle.verdicts.specs.Verdicts.{HasVerdicts, SameStatements, statements_in};

use crate::fresh::{fresh_of, ready_facts};
use crate::truths::Truths;
use crate::verdicts::Verdicts;
use cpe_rows::{Memory, Statement};
use name_index::{NameId, NameTable, Steps};
use name_registry::Registry;
use statement_rows::ReadyStatement;
use std::alloc::Global;
use std::sync::ledger::Ledger;

/// A statement for which all memory is taken, with the facts that it adds. It has to be added, since it is no `Drop`.
pub struct Addition {
    pub(crate) statement: ReadyStatement,
    // Those of its facts that no other statement uses, each once.
    pub(crate) fresh: Vec<NameId>,
    // The names to which they lead.
    pub(crate) asked: Vec<NameId>,
}

impl Verdicts {
    /// Makes a statement of a new id ready, with the numbers of its fact references in the order of its test. Takes all
    /// memory for it, and changes no verdict.
    ///
    /// # Errors
    /// Only that memory ran out; nothing is kept of the statement then.
    pub fn ready_statement(
        &mut self,
        alloc: Global,
        registry: &Registry,
        statement: Statement,
        ids: &[NameId],
    ) -> Result<Addition, Memory>
        requires live { AreFactNames registry.now.table ids.now }
        requires named { names_at registry.now.table ids.now ≡ fact_names statement.test }
        requires none { first_some (statement_causes (statements_in self.old) statement) ≡ None }
        requires rows_before { (rows : Rows) × IsLawful rows × HasVerdicts registry.now.table self.old rows }
        ensures ready { IfOk result (IsAddition self.new registry.now.table registry.now.entries statement ids.now) }
        ensures verdicts { (rows : Rows) → HasVerdicts registry.now.table self.old rows → IfOk result (HasVerdictsBeside registry.now.table self.new rows statement) }
        ensures err { (rows : Rows) → HasVerdicts registry.now.table self.old rows → OnErr result (HasVerdicts registry.now.table self.new rows) }
        ensures same { SameStatements self.old self.new }
    {
        registry.lawful();
        self.statements.lawful();
        statement_rows::law::same_truths_judge_the_same();
        let mode = statement.mode;
        let fresh = fresh_of(&self.facts, alloc, mode, ids)?;
        let _changed = self.facts.changed(mode);
        match self.ready_rest(alloc, registry, statement, ids, &fresh) {
            Ok((statement, asked)) => {
                self.facts.lawful();
                Ok(Addition {
                    statement,
                    fresh,
                    asked,
                })
            }
            Err(memory) => {
                self.facts.remove_unused(mode, &fresh);
                self.facts.lawful();
                Err(memory)
            }
        }
    }

    // The same, except that the fresh facts are left if memory ran out.
    fn ready_rest(
        &mut self,
        alloc: Global,
        registry: &Registry,
        statement: Statement,
        ids: &[NameId],
        fresh: &[NameId],
    ) -> Result<(ReadyStatement, Vec<NameId>), Memory>
        requires live { AreFactNames registry.now.table fresh.now }
        requires once { (q : ℕ) → times_in_list q fresh.now ≤ 1 }
        requires unused { (q : ℕ) → has_end_of_fact fresh.now q ≡ true → fact_at (table_of self.old.facts statement.mode) q ≡ None }
        requires whole { (q : ℕ) → has_end_of_fact ids.now q ≡ true → has_end_of_fact fresh.now q ≡ false → is_used (table_of self.old.facts statement.mode) q ≡ true }
        requires none { first_some (statement_causes (statements_in self.old) statement) ≡ None }
        requires rows_before { (rows : Rows) × IsLawful rows × HasVerdicts registry.now.table self.old rows }
        ensures beside { FreshBeside self.old.facts self.new.facts registry.now.table statement.mode fresh.now }
        ensures facts { IfOk result (λ p. AreReady self.new.facts registry.now.table registry.now.entries statement.mode ids.now fresh.now p.1.items) }
        ensures same { SameRows self.old.statements self.new.statements }
        ensures row { IfOk result (λ p. IsReadyRow self.new.statements statement ids.now p.0) }
        ensures asked { AreAskers self.old.statements.askers → OnOk result (AreAskedBut (check_keys statement.test) self.new.statements.askers) }
        ensures left { AreAskers self.old.statements.askers → OnErr result (AreAskers self.new.statements.askers) }
    {
        let mode = statement.mode;
        let asked = ready_facts(&mut self.facts, alloc, registry, mode, ids, fresh)?;
        let ready = self.statements.ready_statement(alloc, statement, ids)?;
        Ok((ready, asked))
    }

    /// Adds the statement at the end, with its verdict. Allocates: no.
    pub fn add_statement<L: Ledger>(
        &mut self,
        table: &NameTable,
        addition: Addition,
        steps: &mut Steps<L>,
    )
        requires { (rows : Rows) × (s : Statement) × (ids : List NameId) × IsLawful rows × HasVerdictsBeside table.now self.old rows s addition × IsAddition self.old table.now rows.entries s ids addition }
        ensures { (s : Statement) (ids : List NameId) (entries : List Entry) → IsAddition self.old table.now entries s ids addition → StatementAdded self.old self.new table.now entries s addition steps.old steps.new }
    {
        statement_rows::law::same_truths_judge_the_same();
        statement_rows::law::verdicts_are_truths();
        let Addition {
            statement,
            fresh,
            asked,
        } = addition;
        self.facts.add_statement(
            table,
            statement.mode(),
            statement.ids(),
            &fresh,
            &asked,
            statement.ticket(),
            steps,
        );
        self.facts.lawful();
        let facts = Truths { facts: &self.facts };
        self.statements.add_statement(statement, &facts);
    }
}
