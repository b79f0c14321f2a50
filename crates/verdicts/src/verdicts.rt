// Verdicts: what is read of them, and which of them changed.
ghost use Rattle.std.specs.Prelude.{◌≡◌, ◌<◌, ◌≤◌, ◌^◌, [], IfSome, is_some, length, map, option_copied, option_map, position, slice_get, find};
ghost use Rattle.name_index.specs.Table.{Names};
ghost use Rattle.cpe_rows.specs.Prelude.{fact_truth, first_some, has_id, no_rows, number_of_facts, Rows, verdict};
ghost use Rattle.cpe_rows.specs.Causes.{statement_causes};
ghost use Rattle.cpe_rows.specs.Changes.{differing};
ghost use Rattle.facts.specs.fact_laws.Shown.{name_at};
ghost use Rattle.facts.specs.Facts.{is_used, table_of};
ghost use Rattle.verdicts.specs.Verdicts.{checks_in, HasVerdicts, known_in, statements_in};

use cpe_rows::{Changed, EditFault, List, Mode, Room, Statement, Text, Truth};
use facts::Facts;
use name_index::NameId;
use name_registry::Checks;
use statement_rows::StatementRows;
use std::alloc::Global;
use std::marker::Model;

/// Statements with their verdicts, the results of checks, and the facts of both modes. See the crate's page.
#[derive(Drop)]
pub struct Verdicts {
    pub(crate) facts: Facts,
    pub(crate) statements: StatementRows,
}

impl Model for Verdicts {
    ghost use Rattle.cpe_rows.specs.contracts.test.Test as test;
    ghost use Rattle.std.specs.Coded.{codes};
    ghost use Rattle.verdicts.specs.Verdicts.{VerdictsNow};

    ghost Value = { VerdictsNow };

    ghost coded = { Prim.hlevel (codes, test.the_row.coded) };

    ghost view = { λ v. record { facts = v.facts; statements = v.statements } };
}

impl Verdicts {
    /// No statements, no results and no items. Allocates: no.
    pub fn new(alloc: Global) -> Verdicts
        ensures { (names : Names) → HasVerdicts names result no_rows }
    {
        let facts = Facts::new(alloc);
        facts.lawful();
        Verdicts {
            facts,
            statements: StatementRows::new(alloc),
        }
    }

    /// How many statements there are.
    pub fn len(&self) -> usize
        ensures { result ≡ length (statements_in self.now) }
    {
        self.statements.len()
    }

    /// How many fact references the statements have, all repetitions counted.
    pub fn facts(&self) -> usize
        ensures { result ≡ number_of_facts (statements_in self.now) }
    {
        self.statements.facts()
    }

    /// The results of checks.
    pub fn results(&self) -> &Checks
        ensures { result.now.list ≡ checks_in self.now }
    {
        self.statements.results()
    }

    /// The statement of this id.
    pub fn find(&self, id: &Text) -> Option<&Statement>
        ensures { option_copied result ≡ find (has_id id.now) (statements_in self.now) }
    {
        self.statements.find(id)
    }

    /// The place of the statement of this id, from 0.
    pub fn place_of(&self, id: &Text) -> Option<usize>
        ensures { result ≡ position (has_id id.now) (statements_in self.now) }
    {
        self.statements.place_of(id)
    }

    /// The first cause to refuse a statement, without the weight.
    pub fn statement_fault(&self, statement: &Statement) -> Option<EditFault>
        ensures { result ≡ first_some (statement_causes (statements_in self.now) statement.now) }
    {
        self.statements.statement_fault(statement)
    }

    /// The statement at a place from 0, with its verdict. There is none exactly if the place is the number of
    /// statements or more.
    pub fn at(&self, place: usize) -> Option<(&Statement, Truth)>
        ensures statement { option_map (λ p. p.0.now) result ≡ slice_get (statements_in self.now) place }
        ensures verdict { (names : Names) (rows : Rows) → HasVerdicts names self.now rows → option_map (λ p. p.1) result ≡ option_map (verdict rows) (slice_get rows.statements place) }
    {
        statement_rows::law::verdicts_are_truths();
        self.statements.at(place)
    }

    /// The verdict of the statement of this id.
    pub fn verdict(&self, id: &Text) -> Option<Truth>
        ensures { (names : Names) (rows : Rows) → HasVerdicts names self.now rows → result ≡ option_map (verdict rows) (find (has_id id.now) rows.statements) }
    {
        statement_rows::law::verdicts_are_truths();
        self.statements.verdict(id)
    }

    /// The truth of a fact of a mode, if a statement uses it.
    pub fn truth_of(&self, mode: Mode, fact: NameId) -> Option<Truth>
        ensures used { is_some result ≡ is_used (table_of self.now.facts mode) fact.0 }
        ensures truth { (names : Names) (rows : Rows) → HasVerdicts names self.now rows → IfSome result (λ truth. truth ≡ fact_truth rows mode (name_at names fact)) }
    {
        if self.facts.users(mode, fact).is_empty() {
            return None;
        }
        Some(self.facts.truth(mode, fact))
    }

    /// Makes each verdict the one that callers know. Allocates: no.
    pub fn forget_changes(&mut self)
        ensures verdicts { (names : Names) (rows : Rows) → HasVerdicts names self.old rows → HasVerdicts names self.new rows }
        ensures known { (names : Names) (rows : Rows) → HasVerdicts names self.old rows → known_in self.new ≡ map (verdict rows) rows.statements }
        ensures statements { statements_in self.new ≡ statements_in self.old }
        ensures checks { checks_in self.new ≡ checks_in self.old }
    {
        statement_rows::law::verdicts_are_truths();
        self.statements.forget_changes();
    }

    /// The statements whose verdict differs from the known one, in their order. Allocates: no.
    pub fn changes(&self, room: Room<Changed>) -> List<Changed>
        requires few { length (statements_in self.now) < 2 ^ 32 }
        requires empty { room.list ≡ [] }
        requires room { length (statements_in self.now) ≤ room.spare }
        ensures { (names : Names) (next : Rows) → HasVerdicts names self.now next → result ≡ differing 0 (known_in self.now) (map (verdict next) next.statements) }
    {
        statement_rows::law::verdicts_are_truths();
        let mut room = room;
        self.statements.add_changes(&mut room);
        room.into_list()
    }
}
