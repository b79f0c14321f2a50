// Entries in their order: their names, and for each name the other parts of its entry.
ghost use Rattle.std.specs.Prelude.{◌≡◌, ◌<◌, IfOk, Some, filter, find, length, not, option_and_then, option_map, position, slice_get, option_copied};
ghost use Rattle.std.specs.List.{list_any};
ghost use Rattle.names_in_order.specs.Prelude.{IsLower, near_count, places_covered, StepsWithin};
ghost use Rattle.cpe_rows.specs.Prelude.{is_active, is_named, rows_found as found, state_of};
ghost use Rattle.cpe_dictionary.specs.Listed.{entries_of, entry_with, names_of_entries};

use crate::kept::{EntryDetails, entry_of, state_of};
use crate::search::wanted_at;
use cpe_rows::{Deprecation, Entry, List, Memory, Row, State, Wfn};
use name_index::Steps;
use names_in_order::NamesInOrder;
use std::alloc::Global;
use std::marker::Model;
use std::sync::ledger::Ledger;

/// Entries in the order in which they were added, read with a table of names. [`GrowingEntries::with`] returns them.
/// Contracts see the list of the entries.
///
/// An entry is found by the hash of its name, by its place and by its product.
#[derive(Drop)]
pub struct Entries<'t> {
    names: NamesInOrder<'t>,
    // The entries' parts other than the names, in the same order.
    details: &'t [EntryDetails],
}

impl<'t> Model for Entries<'t> {
    ghost use Rattle.std.specs.Prelude.{◌≡◌, List, length};
    ghost use Rattle.cpe_rows.specs.declared.entry.Entry.{Entry};
    ghost use Rattle.cpe_dictionary.specs.Listed.{entries_of};

    ghost Value = { List Entry };

    ghost view = { λ e. entries_of e.names e.details.now };

    ghost invariant = { λ e. length e.names ≡ length e.details.now };
}

// The details at a place, if there are any.
pub(crate) fn details_at(all: &[EntryDetails], place: usize) -> Option<&EntryDetails>
    ensures { option_copied result ≡ slice_get all.now place }
{
    all.get(place)
}

// A name together with its details, if there are any.
fn beside<'e>(
    name: &'e Wfn,
    details: Option<&'e EntryDetails>,
) -> Option<(&'e Wfn, &'e EntryDetails)>
    ensures { option_map (λ e. entry_with (e.0.now, e.1.now)) result ≡ option_map (λ d. entry_with (name.now, d.now)) details.entry }
{
    match details {
        Some(details) => Some((name, details)),
        None => None,
    }
}

impl<'t> Entries<'t> {
    /// Entries of these names and these details.
    pub(crate) fn new(names: NamesInOrder<'t>, details: &'t [EntryDetails]) -> Entries<'t>
        requires { length names ≡ length details.now }
        ensures { result ≡ entries_of names.entry details.now }
    {
        Entries { names, details }
    }
}

impl Entries<'_> {
    /// The number of entries.
    pub fn len(&self) -> usize
        ensures { result ≡ length self.now }
    {
        self.names.len()
    }

    /// The number of deprecated entries. The function reads all entries.
    pub fn count_deprecated(&self) -> usize
        ensures { result ≡ length (filter (λ e. not (is_active e)) self.now) }
    {
        let mut count = 0;
        for details in self.details {
            if details.deprecation.is_some() {
                count += 1;
            }
        }
        count
    }

    /// The place, from 0, of the entry of this name. It is found by the hash of the name.
    pub fn place_of(&self, name: &Wfn) -> Option<usize>
        ensures { result ≡ position (is_named name.now) self.now }
    {
        self.names.find(name)
    }

    /// Whether an entry has this name.
    pub fn has(&self, name: &Wfn) -> bool
        ensures { result ≡ list_any (is_named name.now) self.now }
    {
        self.names.find(name).is_some()
    }

    /// The details of the entry of this name.
    pub(crate) fn find(&self, name: &Wfn) -> Option<&EntryDetails>
        ensures { option_map (λ d. entry_with (name.now, d.now)) result ≡ find (is_named name.now) self.now }
    {
        match self.names.find(name) {
            Some(place) => details_at(self.details, place),
            None => None,
        }
    }

    /// The name and the details of the entry at a place.
    pub(crate) fn get_index(&self, place: usize) -> Option<(&Wfn, &EntryDetails)>
        ensures entry { option_map (λ e. entry_with (e.0.now, e.1.now)) result ≡ slice_get self.now place }
    {
        match self.names.name_at(place) {
            Some(name) => beside(name, details_at(self.details, place)),
            None => None,
        }
    }

    /// Whether the entry at a place is active.
    pub fn is_active(&self, place: usize) -> bool
        requires { place < length self.now }
        ensures { option_map is_active (slice_get self.now place) ≡ Some result }
    {
        match self.get_index(place) {
            Some((_, details)) => details.deprecation.is_none(),
            None => unreachable!(),
        }
    }

    /// The state of the entry of this name: active, or deprecated by a kind.
    pub fn state_of(&self, name: &Wfn) -> Option<State>
        ensures { result ≡ option_map state_of (find (is_named name.now) self.now) }
    {
        match self.find(name) {
            Some(details) => Some(state_of(details)),
            None => None,
        }
    }

    /// The deprecation of the entry at a place, if it has one.
    pub fn deprecation_at(&self, place: usize) -> Option<&Deprecation>
        ensures { option_copied result ≡ option_and_then (λ e. e.deprecation) (slice_get self.now place) }
    {
        match self.get_index(place) {
            Some((_, details)) => details.deprecation.as_ref(),
            None => None,
        }
    }

    /// The name of the entry at a place.
    pub fn name_at(&self, place: usize) -> Option<&Wfn>
        ensures { option_copied result ≡ option_map (λ e. e.name) (slice_get self.now place) }
    {
        match self.get_index(place) {
            Some((name, _)) => Some(name),
            None => None,
        }
    }

    /// A copy of the entry of this name, if there is one.
    ///
    /// # Errors
    /// [`Memory`] if memory runs out.
    pub fn entry_of(&self, alloc: Global, name: &Wfn) -> Result<Option<Entry>, Memory>
        ensures { IfOk result (λ e. e ≡ find (is_named name.now) self.now) }
    {
        match self.find(name) {
            Some(details) => Ok(Some(entry_of(alloc, name, details)?)),
            None => Ok(None),
        }
    }

    /// Summaries of the entries that a name in lower case covers, in order; if `active_only` is true, only of the
    /// active entries. A step is a look at the name of an entry. Each entry whose product is near the product of the
    /// given name is looked at at most once. No other entry is looked at.
    ///
    /// # Errors
    /// [`Memory`] if memory runs out. The number of steps is bounded in this case too.
    pub fn rows_found<L: Ledger>(
        &self,
        alloc: Global,
        asked: &Wfn,
        active_only: bool,
        steps: &mut Steps<L>,
    ) -> Result<List<Row>, Memory>
        requires { IsLower asked.now }
        ensures rows { IfOk result (λ rs. rs ≡ found asked.now active_only self.now) }
        ensures steps { StepsWithin steps.old steps.new (near_count asked.now (names_of_entries self.now)) }
    {
        let places = self.covered_places(alloc, asked, steps)?;
        wanted_at(alloc, self, &places, active_only)
    }

    /// The places of the entries that a name in lower case covers, in increasing order. Each look at a name is counted
    /// as a step.
    ///
    /// # Errors
    /// [`Memory`] if memory runs out. The number of steps is bounded in this case too.
    pub(crate) fn covered_places<L: Ledger>(
        &self,
        alloc: Global,
        asked: &Wfn,
        steps: &mut Steps<L>,
    ) -> Result<Vec<usize>, Memory>
        requires { IsLower asked.now }
        ensures covered { IfOk result (λ places. places.items ≡ places_covered asked.now (names_of_entries self.now)) }
        ensures steps { StepsWithin steps.old steps.new (near_count asked.now (names_of_entries self.now)) }
    {
        self.names.covered_places(alloc, asked, steps)
    }
}
