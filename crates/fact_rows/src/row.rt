// The row of a fact.
ghost use Rattle.std.specs.Prelude.{◌≡◌, ◌||◌, [], true, false, nat_lt, length, vec_capacity, IfOk, OnOk};
ghost use Rattle.cpe_rows.specs.declared.truth.Truth.TheVariants.{Unknown};
ghost use Rattle.ticket_list.specs.Rising.{IsRising};
ghost use Rattle.fact_rows.specs.Facts.{truth_differs, new_fact, has_end_of_fact, leads_by, seen_fact, with_ends};
ghost use Rattle.fact_rows.specs.Rows.{is_news, fact_row_with};
ghost use Rattle.ticket_list.specs.Tickets.{ends_with, is_empty, with_last, without};
ghost use Rattle.fact_rows.specs.Truths.{truth_at_ends};

use crate::ends::truth_by;
use cpe_rows::{Memory, Mode, Truth};
use level_board::LevelBoard;
use name_index::NameId;
use std::alloc::Global;
use ticket_list::{append_ticket, remove_ticket};

// A fact: its ends, the tickets that use it, rising, its truth, and whether it is in the list of changed facts.
#[derive(Drop)]
pub(crate) struct FactRow {
    pub(crate) ends: Vec<NameId>,
    pub(crate) users: Vec<u64>,
    pub(crate) truth: Truth,
    pub(crate) changed: bool,
}

// A fact with these ends and without users. It has room for one.
pub(crate) fn new_row(alloc: Global, ends: Vec<NameId>) -> Result<FactRow, Memory>
    ensures seen { IfOk result (λ r. seen_fact r ≡ new_fact ends.items) }
    ensures unchanged { IfOk result (λ r. r.changed ≡ false) }
{
    match Vec::with_capacity(alloc, 1) {
        Ok(users) => Ok(FactRow {
            ends,
            users,
            truth: Truth::Unknown,
            changed: false,
        }),
        Err(_) => {
            drop(ends);
            Err(Memory)
        }
    }
}

// Whether two truths differ.
fn differ(a: Truth, b: Truth) -> bool
    ensures { result ≡ truth_differs a b }
{
    match (a, b) {
        (Truth::True, Truth::True) => false,
        (Truth::False, Truth::False) => false,
        (Truth::Error, Truth::Error) => false,
        (Truth::Unknown, Truth::Unknown) => false,
        _ => true,
    }
}

impl FactRow {
    // Reserves room for one more user.
    pub(crate) fn reserve_user(&mut self) -> Result<(), Memory>
        ensures ends { self.new.ends ≡ self.old.ends }
        ensures users { self.new.users.items ≡ self.old.users.items }
        ensures truth { self.new.truth ≡ self.old.truth }
        ensures changed { self.new.changed ≡ self.old.changed }
        ensures room { OnOk result (nat_lt (length self.new.users.items) (vec_capacity self.new.users) ≡ true) }
    {
        match self.users.reserve(1) {
            Ok(()) => Ok(()),
            Err(_) => Err(Memory),
        }
    }

    // Appends a ticket to the users, unless it is already at the end of the list.
    pub(crate) fn add_user(&mut self, ticket: u64)
        requires { (nat_lt (length self.old.users.items) (vec_capacity self.old.users) || ends_with ticket self.old.users.items) ≡ true }
        ensures users { self.new.users.items ≡ with_last ticket self.old.users.items }
        ensures ends { self.new.ends ≡ self.old.ends }
        ensures truth { self.new.truth ≡ self.old.truth }
        ensures changed { self.new.changed ≡ self.old.changed }
    {
        append_ticket(&mut self.users, ticket);
    }

    // Removes a user. Returns whether none is left.
    pub(crate) fn remove_user(&mut self, ticket: u64) -> bool
        requires { IsRising self.old.users.items }
        ensures users { self.new.users.items ≡ without ticket self.old.users.items }
        ensures ends { self.new.ends ≡ self.old.ends }
        ensures truth { self.new.truth ≡ self.old.truth }
        ensures changed { self.new.changed ≡ self.old.changed }
        ensures none { result ≡ is_empty self.new.users.items }
    {
        remove_ticket(&mut self.users, ticket);
        self.users.is_empty()
    }

    // Sets the truth of a fact. Returns whether the fact has to be added to the list of changed ones.
    fn set_truth(&mut self, truth: Truth) -> bool
        ensures row { self.new ≡ fact_row_with truth self.old }
        ensures news { result ≡ is_news truth self.old }
    {
        let differs = differ(self.truth, truth);
        let news = differs & !self.changed;
        self.truth = truth;
        self.changed |= differs;
        news
    }

    // Computes the truth of a fact again. Returns whether the fact has to be added to the list of changed ones.
    pub(crate) fn refresh(&mut self, mode: Mode, fact: NameId, board: &LevelBoard) -> bool
        ensures row { self.new ≡ fact_row_with (truth_at_ends board.now (leads_by mode fact.0 self.old.ends.items)) self.old }
        ensures news { result ≡ is_news (truth_at_ends board.now (leads_by mode fact.0 self.old.ends.items)) self.old }
    {
        let truth = truth_by(board, mode, fact, &self.ends);
        self.set_truth(truth)
    }

    // Clears the flag that the fact is in the list of changed ones.
    pub(crate) fn clear(&mut self)
        ensures ends { self.new.ends ≡ self.old.ends }
        ensures users { self.new.users ≡ self.old.users }
        ensures truth { self.new.truth ≡ self.old.truth }
        ensures changed { self.new.changed ≡ false }
    {
        self.changed = false;
    }
}
