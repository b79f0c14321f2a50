// The verdicts that differ from the known ones, as changes of rows.
ghost use Rattle.std.specs.Prelude.{◌≡◌, ◌<◌, ◌≤◌, ◌+◌, ◌++◌, ◌^◌, [], length, map, slice_get, option_map};
ghost use Rattle.std.specs.List.{cons_option};
ghost use Rattle.cpe_rows.specs.Changes.{differing};
ghost use Rattle.statement_rows.specs.State.{change_at, changed_places};

use crate::rows::place_of;
use crate::statements::StatementRows;
use cpe_rows::{Changed, Room, Truth};

impl StatementRows {
    /// Adds a change for each statement whose verdict differs from the known one, in the order of their places. Looks
    /// at no others. Allocates: no.
    pub fn add_changes(&self, changes: &mut Room<Changed>)
        requires few { length self.now.rows < 2 ^ 32 }
        requires room { length self.now.rows ≤ changes.old.spare }
        ensures { changes.new.list ≡ changes.old.list ++ differing 0 (map (λ j. j.known) self.now.rows) (map (λ j. j.verdict) self.now.rows) }
    {
        for number in 0..self.changed_len() {
            add_change(self.change(number), changes);
        }
    }

    // The change with this number among them, from 0.
    fn change(&self, number: usize) -> Option<Changed>
        requires { length self.now.rows < 2 ^ 32 }
        ensures { result ≡ option_map (change_at self.now) (slice_get (changed_places self.now) number) }
    {
        match self.changed_at(number) {
            Some(place) => Some(Changed {
                place: place as u32,
                before: self.known_at(place),
                after: self.verdict_at(place),
            }),
            None => None,
        }
    }

    // How many statements have another verdict than the known one.
    fn changed_len(&self) -> usize
        ensures { result ≡ length (changed_places self.now) }
    {
        count(&self.changed)
    }

    // The place of one of them, by its number among them from 0. Places rise from number to number.
    fn changed_at(&self, number: usize) -> Option<usize>
        ensures { result ≡ slice_get (changed_places self.now) number }
    {
        match ticket_number(&self.changed, number) {
            Some(ticket) => place_of(&self.rows, ticket),
            None => None,
        }
    }

    // The known verdict of the statement at a place.
    fn known_at(&self, place: usize) -> Option<Truth>
        ensures { result ≡ option_map (λ j. j.known) (slice_get self.now.rows place) }
    {
        match self.rows.at(place) {
            Some(row) => Some(row.known),
            None => None,
        }
    }
}

fn ticket_number(list: &[u64], number: usize) -> Option<u64>
    ensures { result ≡ slice_get list.now number }
{
    list.get(number).copied()
}

fn count(list: &[u64]) -> usize
    ensures { result ≡ length list.now }
{
    list.len()
}

// Adds the change at the end, if there is one.
fn add_change(changed: Option<Changed>, changes: &mut Room<Changed>)
    requires { 1 ≤ changes.old.spare }
    ensures list { changes.new.list ≡ changes.old.list ++ cons_option changed [] }
    ensures spare { changes.old.spare ≤ changes.new.spare + 1 }
{
    if let Some(changed) = changed {
        changes.put_last(changed);
    }
}
