// The facts of one mode.
ghost use Rattle.std.specs.Prelude.{◌≡◌, ◌≢◌, ◌||◌, ℕ, [], true, false, None, Some, OnOk, OnErr};
ghost use Rattle.std.specs.Option.{option_map};
ghost use Rattle.cpe_rows.specs.declared.statement.Mode.TheVariants.{Follow};
ghost use Rattle.ticket_list.specs.Rising.{IsRising};
ghost use Rattle.fact_rows.specs.Facts.{AreLinkedFacts, ends_of_fact, fact_at, facts_with_end, has_end_of_fact, has_fact_room, is_fact, is_under_one, IsUnder, IsUnderNone, KeepsLinks, OthersStay, SameElsewhere, SameOthers, times_among, truth_of_fact, users_of, with_ends};
ghost use Rattle.fact_rows.specs.Calls.{EndsSet, FactAdded, FactLinked, FactRemoved, FactUnlinked, Refreshed, SameFacts, UsersTo};
ghost use Rattle.fact_rows.specs.Rows.{count_if};
ghost use Rattle.ticket_list.specs.Tickets.{ends_with, is_empty, with_last, without};

use crate::links::{facts_of, link, unlink, unlink_old};
use crate::refresh::{clear_changed, refresh_ends, refresh_facts};
use crate::row::{FactRow, new_row};
use crate::rows::{
    add_row, add_user, ends_of, has, remove_row, remove_user, reserve_row, reserve_user, set_ends,
    truth_of, users_of,
};
use cpe_rows::{Memory, Mode, Truth};
use level_board::LevelBoard;
use name_index::NameId;
use std::alloc::Global;
use std::collections::HashMap;
use std::marker::Model;

/// The facts of one mode, by the numbers of their names. See the crate's page.
#[derive(Drop)]
pub struct FactRows {
    rows: HashMap<u32, FactRow>,
    // The facts of each end, in any order.
    by_end: HashMap<u32, Vec<NameId>>,
    changed: Vec<NameId>,
}

impl Model for FactRows {
    ghost use Rattle.fact_rows.specs.Facts.{FactTable, IsTable};

    ghost Value = { FactTable };

    ghost view = { λ f. record { rows = f.rows.entries; by_end = f.by_end.entries; changed = f.changed.items } };

    ghost invariant = { λ f. IsTable f.rows.entries f.by_end.entries f.changed };
}

impl FactRows {
    /// A table without facts. Allocates: no.
    pub fn new(alloc: Global) -> FactRows
        ensures facts { (q : ℕ) → fact_at result q ≡ None }
        ensures links { (e : ℕ) → facts_with_end result e ≡ [] }
        ensures linked { AreLinkedFacts result }
        ensures changed { result.changed ≡ [] }
    {
        FactRows {
            rows: HashMap::new(alloc),
            by_end: HashMap::new(alloc),
            changed: Vec::new(alloc),
        }
    }

    // ---- reads

    /// Whether a name is a fact.
    pub fn has(&self, fact: NameId) -> bool
        ensures { result ≡ is_fact self.now fact.0 }
    {
        has(&self.rows, fact.0)
    }

    /// The ends of a fact, or none if it is no fact.
    pub fn ends_of(&self, fact: NameId) -> &[NameId]
        ensures { result.now ≡ ends_of_fact self.now fact.0 }
    {
        ends_of(&self.rows, fact.0)
    }

    /// The tickets that use a fact, in the order in which they were added.
    pub fn users_of(&self, fact: NameId) -> &[u64]
        ensures { result.now ≡ users_of self.now fact.0 }
    {
        users_of(&self.rows, fact.0)
    }

    /// The truth of a fact, or UNKNOWN if it is no fact.
    pub fn truth_of(&self, fact: NameId) -> Truth
        ensures { result ≡ truth_of_fact self.now fact.0 }
    {
        truth_of(&self.rows, fact.0)
    }

    /// The facts of an end, in any order.
    pub fn facts_of(&self, end: NameId) -> &[NameId]
        ensures { result.now ≡ facts_with_end self.now end.0 }
    {
        facts_of(&self.by_end, end.0)
    }

    /// The facts whose truth was replaced, each once.
    pub fn changed(&self) -> &[NameId]
        ensures value { result.now ≡ self.now.changed }
        ensures facts { (q : ℕ) → has_end_of_fact self.now.changed q ≡ true → is_fact self.now q ≡ true }
        ensures once { (q : ℕ) → times_among self.now.changed q ≡ count_if (has_end_of_fact self.now.changed q) }
    {
        &self.changed
    }

    // ---- calls that take memory

    /// Adds a fact with these ends, without users, and links it to them. It has room for one user.
    ///
    /// # Errors
    /// Only that memory ran out. It is then no fact, and only ends that listed it before list it.
    pub fn add_fact(&mut self, alloc: Global, fact: NameId, ends: Vec<NameId>) -> Result<(), Memory>
        requires { fact_at self.old fact.0 ≡ None }
        ensures { FactAdded self.old self.new fact.0 ends.items result }
    {
        let row = new_row(alloc, ends)?;
        if reserve_row(&mut self.rows, &mut self.changed).is_err() {
            drop(row);
            return Err(Memory);
        }
        add_row(&mut self.rows, &mut self.by_end, alloc, fact, row)
    }

    /// Reserves room for one more user of a fact.
    ///
    /// # Errors
    /// Only that memory ran out.
    pub fn reserve_user(&mut self, fact: NameId) -> Result<(), Memory>
        requires { is_fact self.old fact.0 ≡ true }
        ensures same { SameFacts self.old self.new }
        ensures truths { (q : ℕ) → truth_of_fact self.new q ≡ truth_of_fact self.old q }
        ensures changed { self.new.changed ≡ self.old.changed }
        ensures others { OthersStay fact.0 self.old self.new }
        ensures room { OnOk result (has_fact_room self.new fact.0 ≡ true) }
    {
        reserve_user(&mut self.rows, fact.0)
    }

    /// Adds a fact to the facts of each of these ends, unless it is among them. Its own ends are unchanged.
    ///
    /// # Errors
    /// Only that memory ran out. The fact may then be among the facts of some of them.
    pub fn link(&mut self, alloc: Global, fact: NameId, ends: &[NameId]) -> Result<(), Memory>
        ensures { FactLinked self.old self.new fact.0 ends.now result }
    {
        link(&mut self.by_end, alloc, fact, ends)
    }

    // ---- calls that take none

    /// Removes a fact from the facts of those of these ends that are none of its own. Allocates: no.
    pub fn unlink(&mut self, fact: NameId, ends: &[NameId])
        ensures { FactUnlinked self.old self.new fact.0 ends.now }
    {
        unlink_old(&mut self.by_end, fact, ends, ends_of(&self.rows, fact.0));
    }

    /// Gives a fact other ends, to which [`FactRows::link`] linked it. It is removed from the facts of its old ends
    /// that are not among the new ones. Its truth is unchanged until it is refreshed. No-op if it is no fact.
    /// Allocates: no.
    pub fn set_ends(&mut self, fact: NameId, ends: Vec<NameId>)
        ensures { EndsSet self.old self.new fact.0 ends.items }
    {
        unlink_old(&mut self.by_end, fact, ends_of(&self.rows, fact.0), &ends);
        set_ends(&mut self.rows, fact.0, ends);
    }

    /// Removes a fact that is not among the changed ones, and its links. Allocates: no.
    pub fn remove_fact(&mut self, fact: NameId)
        requires { has_end_of_fact self.old.changed fact.0 ≡ false }
        ensures { FactRemoved self.old self.new fact.0 }
    {
        unlink(&mut self.by_end, fact, ends_of(&self.rows, fact.0));
        remove_row(&mut self.rows, fact.0);
    }

    /// Appends a ticket to the users of a fact, unless it is already the last of them. Allocates: no.
    pub fn add_user(&mut self, fact: NameId, ticket: u64)
        requires { (has_fact_room self.old fact.0 || ends_with ticket (users_of self.old fact.0)) ≡ true }
        ensures { UsersTo self.old self.new fact.0 (with_last ticket (users_of self.old fact.0)) }
    {
        add_user(&mut self.rows, fact.0, ticket);
    }

    /// Removes a user of a fact, whose users rise. Returns whether none is left. Allocates: no.
    pub fn remove_user(&mut self, fact: NameId, ticket: u64) -> bool
        requires { IsRising (users_of self.old fact.0) }
        ensures users { UsersTo self.old self.new fact.0 (without ticket (users_of self.old fact.0)) }
        ensures none { result ≡ is_empty (users_of self.new fact.0) }
    {
        remove_user(&mut self.rows, fact.0, ticket)
    }

    // ---- truths

    /// Computes again, in mode follow, the truth of each fact that any of these ends lists. Allocates: no. Cost: that
    /// of their ends.
    pub fn refresh_ends(&mut self, ends: &[NameId], board: &LevelBoard)
        ensures { Refreshed self.old self.new (is_under_one self.old ends.now) Follow board.now }
    {
        refresh_ends(&mut self.rows, &mut self.changed, &self.by_end, ends, board);
    }

    /// Computes again the truth of each of these facts, in a mode. Names that are no facts are skipped. Allocates: no.
    pub fn refresh_facts(&mut self, mode: Mode, facts: &[NameId], board: &LevelBoard)
        ensures { Refreshed self.old self.new (has_end_of_fact facts.now) mode board.now }
    {
        refresh_facts(&mut self.rows, &mut self.changed, mode, facts, board);
    }

    /// Clears the list of changed facts. Allocates: no.
    pub fn clear_changed(&mut self)
        ensures cleared { self.new.changed ≡ [] }
        ensures stay { (q : ℕ) → fact_at self.new q ≡ fact_at self.old q }
        ensures links { (e : ℕ) → facts_with_end self.new e ≡ facts_with_end self.old e }
    {
        clear_changed(&mut self.rows, &mut self.changed);
    }
}
