// The rows of statements, and their public calls.
ghost use Rattle.std.specs.Prelude.{◌≡◌, ◌++◌, ◌∷◌, ◌+◌, ◌<◌, List, [], drop, false, find, length, map, nat_lt, position, take, IfOk, Some, option_copied, option_map, slice_get};
ghost use Rattle.std.specs.List.{AllByRecursion, list_any};
ghost use Rattle.check_results.specs.ticket_list.Rising.{IsRisingBy};
ghost use Rattle.cpe_rows.specs.Prelude.{has_id, has_key, most, number_of_facts, with_check, without_first};
ghost use Rattle.cpe_rows.specs.declared.fault.Which.TheVariants as which;
ghost use Rattle.cpe_rows.specs.declared.statement.Statement.{Statement};
ghost use Rattle.cpe_rows.specs.declared.test.CheckKey.{CheckKey};
ghost use Rattle.name_index.specs.declared.table.NameId.{NameId};
ghost use Rattle.statement_rows.specs.Askers.{AreAskers, AreAskedBut};
ghost use Rattle.statement_rows.specs.Readings.{check_keys};
ghost use Rattle.statement_rows.specs.State.{AreJudged, IsReadyTruth, IsReadyRow, SameButResultRoom, SameRoom, SameRows, StatementStored, StatementReady, at_tickets, checks_of, forget_row_change, is_of, judge, statements_of, use_in, use_of, without_verdict};

use crate::askers::{add_all, askers_of, remove_all};
use crate::count::with_facts_of;
use crate::fact_use::{FactUse, into_use};
use crate::ids::{insert_id, place_by_id, remove_id};
use crate::new_row::{ready_row, row_of, with_id, with_numbers};
use crate::ready_statement::ReadyStatement;
use crate::row::{Cause, JudgedRow};
use crate::rows::{forget_changes, refresh_rows, remove_changed, take_row};
use crate::truths::FactTruth;
use check_results::{Checks, ReadyResult};
use cpe_rows::{CheckKey, Memory, Mode, Statement, Text, Truth};
use name_index::NameId;
use std::alloc::Global;
use std::collections::HashMap;
use std::marker::Model;
use ticket_list::TicketList;

/// Statements with tickets and verdicts, and the results of checks. See the crate's page.
#[derive(Drop)]
pub struct StatementRows {
    pub(crate) rows: TicketList<JudgedRow>,
    // The tickets of the rows whose verdict differs from the known one.
    pub(crate) changed: Vec<u64>,
    by_id: HashMap<Text, u64>,
    askers: HashMap<CheckKey, Vec<u64>>,
    results: Checks,
    next: u64,
    // How many fact references the statements have.
    facts: usize,
}

impl Model for StatementRows {
    ghost use Rattle.std.specs.Prelude.{length, map, vec_capacity};
    ghost use Rattle.std.specs.HashMap.{spare};
    ghost use Rattle.std.specs.Coded.{codes};
    ghost use Rattle.cpe_rows.specs.contracts.test.Test as test;
    ghost use Rattle.statement_rows.specs.State.{State, has_statement_room, view_of};
    ghost use Rattle.statement_rows.specs.Invariant.{AreFactsCounted, AreStatementRows};

    ghost Value = { State };

    ghost coded = { Prim.hlevel (codes, test.the_row.coded) };

    ghost view = { λ b. record { rows = map view_of b.rows.items; checks = b.results.list; askers = b.askers.entries; next = b.next; ready = has_statement_room b.rows.ready (length b.rows.items) (vec_capacity b.changed) (spare b.by_id) b.next; result_room = b.results.ready } };

    ghost invariant = { λ b. AreStatementRows b.rows.items b.changed b.by_id.entries b.askers.entries b.next × AreFactsCounted b.facts b.rows.items };
}

// ---- what changes

impl StatementRows {
    /// No statements and no results. Allocates: no.
    pub fn new(alloc: Global) -> StatementRows
        ensures rows { result.rows ≡ [] }
        ensures checks { result.checks ≡ [] }
        ensures asked { AreAskers result.askers }
    {
        StatementRows {
            rows: TicketList::new(alloc),
            changed: Vec::new(alloc),
            by_id: HashMap::new(alloc),
            askers: HashMap::new(alloc),
            results: Checks::new(alloc),
            next: 0,
            facts: 0,
        }
    }

    /// Judges the statements of these tickets, and no others. Allocates: no.
    pub fn refresh<T: FactTruth>(&mut self, tickets: &[u64], facts: &T)
        ensures rows { self.new.rows ≡ at_tickets tickets.now (judge (T.fact_truth facts.now) self.old.checks) self.old.rows }
        ensures checks { self.new.checks ≡ self.old.checks }
        ensures room { SameRoom self.old self.new }
    {
        refresh_rows(
            &mut self.rows,
            &mut self.changed,
            tickets,
            Cause::Fact,
            facts,
            &self.results,
        );
    }

    /// Makes a statement of a new id ready, with the numbers of its fact references in the order of its test. Takes all
    /// memory for it.
    ///
    /// # Errors
    /// Only that memory ran out.
    pub fn ready_statement(
        &mut self,
        alloc: Global,
        statement: Statement,
        ids: &[NameId],
    ) -> Result<ReadyStatement, Memory>
        requires new { list_any (is_of statement.id) self.old.rows ≡ false }
        requires few { nat_lt (most which.Facts) (number_of_facts (statements_of self.old.rows ++ statement ∷ [])) ≡ false }
        ensures { StatementReady self.old self.new statement ids.now result }
    {
        let numbered = with_numbers(alloc, statement, ids)?;
        let id = ready_row(
            &mut self.rows,
            &mut self.changed,
            &mut self.by_id,
            &mut self.askers,
            alloc,
            &numbered.statement,
            self.next,
        );
        with_id(numbered, id, self.next)
    }

    /// Adds the statement at the end, with its verdict. Allocates: no.
    pub fn add_statement<T: FactTruth>(&mut self, ready: ReadyStatement, facts: &T)
        requires { (s : Statement) × (ids : List NameId) × IsReadyRow self.old s ids ready }
        ensures { (s : Statement) (ids : List NameId) → IsReadyRow self.old s ids ready → StatementStored self.old self.new s ids (T.fact_truth facts.now) }
    {
        let ReadyStatement {
            numbered,
            id,
            ticket,
        } = ready;
        self.facts = with_facts_of(&numbered.statement.test, self.facts);
        add_all(&mut self.askers, &numbered.statement.test, ticket);
        insert_id(&mut self.by_id, id, ticket);
        let row = row_of(numbered, ticket, facts, &self.results);
        self.rows.push(row);
        self.next += 1;
    }

    /// Removes the statement of this id, and returns which facts it used. Allocates: no.
    pub fn remove_statement(&mut self, id: &Text) -> Option<FactUse>
        ensures row { option_map use_in result ≡ option_map use_of (find (is_of id.now) self.old.rows) }
        ensures rows { self.new.rows ≡ without_first (is_of id.now) self.old.rows }
        ensures checks { self.new.checks ≡ self.old.checks }
        ensures next { self.new.next ≡ self.old.next }
        ensures asked { AreAskers self.old.askers → AreAskers self.new.askers }
    {
        match self.place_of(id) {
            Some(place) => Some(self.remove_at(place)),
            None => None,
        }
    }

    // Removes the statement at a place.
    fn remove_at(&mut self, place: usize) -> FactUse
        requires { place < length self.old.rows }
        ensures row { Some (use_in result) ≡ option_map use_of (slice_get self.old.rows place) }
        ensures rows { self.new.rows ≡ take place self.old.rows ++ drop (place + 1) self.old.rows }
        ensures checks { self.new.checks ≡ self.old.checks }
        ensures next { self.new.next ≡ self.old.next }
        ensures asked { AreAskers self.old.askers → AreAskers self.new.askers }
    {
        let row = match take_row(&mut self.rows, place) {
            Some(row) => row,
            None => unreachable!(),
        };
        self.facts -= with_facts_of(&row.numbered.statement.test, 0);
        remove_id(&mut self.by_id, &row.numbered.statement.id);
        remove_all(&mut self.askers, &row.numbered.statement.test, row.ticket);
        remove_changed(&mut self.changed, &row);
        into_use(row)
    }

    /// Makes a key ready for a result. Takes all memory for it, and changes no result and no verdict.
    ///
    /// # Errors
    /// Only that memory ran out.
    pub fn ready_result(&mut self, key: CheckKey) -> Result<ReadyResult, Memory>
        ensures same { SameButResultRoom self.old self.new }
        ensures ready { IfOk result (IsReadyTruth self.new key) }
    {
        self.results.reserve(key)
    }

    /// Sets the result of a check whose key is ready, in the place of its earlier result or else at the end. Judges the
    /// statements that ask for the check. Allocates: no.
    pub fn set_result<T: FactTruth>(&mut self, ready: ReadyResult, truth: Truth, facts: &T)
        requires { (k : CheckKey) × IsReadyTruth self.old k ready }
        ensures checks { (k : CheckKey) → IsReadyTruth self.old k ready → self.new.checks ≡ with_check k truth self.old.checks }
        ensures same { map without_verdict self.new.rows ≡ map without_verdict self.old.rows }
        ensures room { SameRoom self.old self.new }
        ensures judged { AreJudged self.old (T.fact_truth facts.now) → AreJudged self.new (T.fact_truth facts.now) }
    {
        let list = askers_of(&self.askers, ready.key());
        self.results.set(ready, truth);
        refresh_rows(
            &mut self.rows,
            &mut self.changed,
            list,
            Cause::Check(truth),
            facts,
            &self.results,
        );
    }

    /// Removes the result of a check, and returns whether there was one. Judges the statements that ask for it.
    /// Allocates: no.
    pub fn remove_result<T: FactTruth>(&mut self, key: &CheckKey, facts: &T) -> bool
        ensures found { result ≡ list_any (has_key key.now) self.old.checks }
        ensures checks { self.new.checks ≡ without_first (has_key key.now) self.old.checks }
        ensures same { map without_verdict self.new.rows ≡ map without_verdict self.old.rows }
        ensures room { SameRoom self.old self.new }
        ensures judged { AreJudged self.old (T.fact_truth facts.now) → AreJudged self.new (T.fact_truth facts.now) }
    {
        let found = self.results.remove(key);
        let truth = self.results.truth(key);
        refresh_rows(
            &mut self.rows,
            &mut self.changed,
            askers_of(&self.askers, key),
            Cause::Check(truth),
            facts,
            &self.results,
        );
        found
    }

    /// Makes each verdict the known one. Allocates: no.
    pub fn forget_changes(&mut self)
        ensures rows { self.new.rows ≡ map forget_row_change self.old.rows }
        ensures checks { self.new.checks ≡ self.old.checks }
        ensures room { SameRoom self.old self.new }
    {
        forget_changes(&mut self.rows, &mut self.changed);
    }
}

// ---- what is read

impl StatementRows {
    /// How many statements there are.
    pub fn len(&self) -> usize
        ensures { result ≡ length self.now.rows }
    {
        self.rows.len()
    }

    /// How many fact references the statements have, all repetitions counted.
    pub fn facts(&self) -> usize
        ensures { result ≡ number_of_facts (statements_of self.now.rows) }
    {
        self.facts
    }

    /// The results that are kept for checks.
    pub fn results(&self) -> &Checks
        ensures { result.now ≡ checks_of self.now }
    {
        &self.results
    }

    /// The statement at a place from 0, with its verdict. There is none exactly if the place is the number of
    /// statements or more.
    pub fn at(&self, place: usize) -> Option<(&Statement, Truth)>
        ensures statement { option_map (λ p. p.0.now) result ≡ option_map (λ j. j.statement) (slice_get self.now.rows place) }
        ensures verdict { option_map (λ p. p.1) result ≡ option_map (λ j. j.verdict) (slice_get self.now.rows place) }
    {
        match self.rows.at(place) {
            Some(row) => Some((&row.numbered.statement, row.verdict)),
            None => None,
        }
    }

    /// The place of the statement of this id, from 0.
    pub fn place_of(&self, id: &Text) -> Option<usize>
        ensures { result ≡ position (is_of id.now) self.now.rows }
    {
        place_by_id(&self.rows, &self.by_id, id)
    }

    /// The statement of this id.
    pub fn find(&self, id: &Text) -> Option<&Statement>
        ensures { option_copied result ≡ find (has_id id.now) (statements_of self.now.rows) }
    {
        match self.place_of(id) {
            Some(place) => self.statement_at(place),
            None => None,
        }
    }

    /// Which facts the statement of this id uses: its mode, the numbers of its fact references in the order of its
    /// test, and its ticket.
    pub fn use_of(&self, id: &Text) -> Option<(Mode, &[NameId], u64)>
        ensures { option_map (λ u. (u.0, u.1.now, u.2)) result ≡ option_map use_of (find (is_of id.now) self.now.rows) }
    {
        match self.place_of(id) {
            Some(place) => self.use_at(place),
            None => None,
        }
    }

    /// The verdict of the statement of this id.
    pub fn verdict(&self, id: &Text) -> Option<Truth>
        ensures { result ≡ option_map (λ j. j.verdict) (find (is_of id.now) self.now.rows) }
    {
        match self.place_of(id) {
            Some(place) => self.verdict_at(place),
            None => None,
        }
    }

    /// Tickets rise, and the next one is above all. Does nothing: its clauses are for proofs.
    pub fn lawful(&self)
        ensures rising { IsRisingBy (λ j. j.ticket) self.now.rows }
        ensures below { AllByRecursion (λ j. j.ticket < self.now.next) self.now.rows }
    {
        let _rows = &self.rows;
    }

    // Whether a statement has this id.
    pub(crate) fn has(&self, id: &Text) -> bool
        ensures { result ≡ list_any (is_of id.now) self.now.rows }
    {
        match self.place_of(id) {
            Some(_) => true,
            None => false,
        }
    }

    // The statement at a place.
    fn statement_at(&self, place: usize) -> Option<&Statement>
        ensures { option_copied result ≡ option_map (λ j. j.statement) (slice_get self.now.rows place) }
    {
        match self.rows.at(place) {
            Some(row) => Some(&row.numbered.statement),
            None => None,
        }
    }

    // Which facts the statement at a place uses.
    fn use_at(&self, place: usize) -> Option<(Mode, &[NameId], u64)>
        ensures { option_map (λ u. (u.0, u.1.now, u.2)) result ≡ option_map use_of (slice_get self.now.rows place) }
    {
        match self.rows.at(place) {
            Some(row) => Some((
                row.numbered.statement.mode,
                row.numbered.ids.as_slice(),
                row.ticket,
            )),
            None => None,
        }
    }

    // The verdict of the statement at a place.
    pub(crate) fn verdict_at(&self, place: usize) -> Option<Truth>
        ensures { result ≡ option_map (λ j. j.verdict) (slice_get self.now.rows place) }
    {
        match self.rows.at(place) {
            Some(row) => Some(row.verdict),
            None => None,
        }
    }
}
