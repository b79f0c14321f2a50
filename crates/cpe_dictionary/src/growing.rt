// Entries as they are stored, beside a table of names.
ghost use Rattle.std.specs.Prelude.{◌≡◌, ◌<◌, ◌++◌, ◌∷◌, [], IfOk, OnOk, length, map, option_map, position, slice_get, vec_capacity, false};
ghost use Rattle.std.specs.List.{cons_option, filter_map, list_any};
ghost use Rattle.name_index.specs.Prelude.{IsLive, kept_at, same_name};
ghost use Rattle.cpe_rows.specs.Prelude.{is_named};
ghost use Rattle.cpe_rows.specs.Lent.{entry_lent};
ghost use Rattle.names_in_order.specs.InOrder.{AreInOrder, names_numbered};
ghost use Rattle.names_in_order.specs.Room.{MayPush};
ghost use Rattle.cpe_dictionary.specs.GivenEntries.{details_given};
ghost use Rattle.cpe_dictionary.specs.Listed.{AreListed, details_written, entries_at, entries_listed, entries_of, entry_with, new_entry};
ghost use Rattle.cpe_dictionary.specs.EntryRoom.{HasNoteRoom, MayPushEntry, SameEntries};

use crate::entries::{Entries, details_at};
use crate::entry_ref::lent;
use crate::kept::{EntryDetails, rewrite};
use crate::note_room::NoteRoom;
use cpe_rows::{Deprecation, EntryRef, List, Memory, Note, Provenance, Text};
use name_index::{NameId, NameTable};
use names_in_order::GrowingNames;
use std::alloc::Global;
use std::marker::Model;

/// Entries as they are stored, in the order in which they were added. For each entry there is the number of its name in
/// a table that others share, and the other parts of the entry. The entries are those of
/// [`with`](GrowingEntries::with).
#[derive(Drop)]
pub struct GrowingEntries {
    names: GrowingNames,
    // The entries' parts other than the names, in the same order.
    details: Vec<EntryDetails>,
}

impl Model for GrowingEntries {
    ghost use Rattle.std.specs.Prelude.{◌-◌, length, vec_capacity};
    ghost use Rattle.cpe_dictionary.specs.Listed.{EntryList};

    ghost Value = { EntryList };

    ghost view = { λ e. record { names = e.names; details = e.details.items; spare = vec_capacity e.details - length e.details.items } };
}

// Adds an entry at the end. Its name has the number `id` in the table.
fn append_entry(
    table: &NameTable,
    names: &mut GrowingNames,
    all: &mut Vec<EntryDetails>,
    id: NameId,
    details: EntryDetails,
)
    requires order { AreInOrder table.now names.old.held names.old.numbers }
    requires even { length names.old.numbers ≡ length all.old.items }
    requires live { IsLive table.now id.0 }
    requires fresh { list_any (same_name (kept_at table.now id.0).name) (names_numbered table.now names.old.numbers) ≡ false }
    requires room { MayPush table.now names.old id.0 }
    requires spare { length all.old.items < vec_capacity all.old }
    ensures order { AreInOrder table.now names.new.held names.new.numbers }
    ensures even { length names.new.numbers ≡ length all.new.items }
    ensures entries { entries_of (names_numbered table.now names.new.numbers) all.new.items ≡ entries_of (names_numbered table.now names.old.numbers) all.old.items ++ entry_with ((kept_at table.now id.0).name, details) ∷ [] }
{
    names_in_order::law::orders_stay();
    names.push(table, id);
    all.push_reserved(details);
}

// Takes memory for a further note of the entry at a place, if there is one.
fn note_room_at(alloc: Global, all: &[EntryDetails], place: usize) -> Result<NoteRoom, Memory>
    ensures { IfOk result (λ r. HasNoteRoom all.now place r) }
{
    match details_at(all, place) {
        Some(details) => NoteRoom::new(alloc, details.provenance.notes.as_slice()),
        None => Ok(NoteRoom::none(alloc)),
    }
}

// Rewrites the details at a place, if there are any.
fn rewrite_at(
    all: &mut Vec<EntryDetails>,
    place: usize,
    deprecation: Option<Deprecation>,
    note: Option<Note>,
    room: NoteRoom,
)
    requires { HasNoteRoom all.old.items place room }
    ensures { all.new.items ≡ details_written deprecation note place all.old.items }
{
    if place < all.as_slice().len() {
        rewrite(&mut all[place], deprecation, note, room);
    }
}

// Adds the number of the name at a place to `numbers`, if there is a name at this place.
fn push_number(names: &GrowingNames, place: u32, numbers: &mut Vec<NameId>) -> Result<(), Memory>
    ensures { OnOk result (numbers.new.items ≡ numbers.old.items ++ filter_map (slice_get names.now.numbers) (place ∷ [])) }
{
    if let Some(id) = names.number_at(place as usize) {
        numbers.push(id)?;
    }
    Ok(())
}

// The numbers of the names at these places.
fn numbers_at(alloc: Global, names: &GrowingNames, places: &[u32]) -> Result<Vec<NameId>, Memory>
    ensures { IfOk result (λ v. v.items ≡ filter_map (slice_get names.now.numbers) places.now) }
{
    let mut numbers = Vec::with_capacity(alloc, places.len())?;
    for place in places {
        push_number(names, *place, &mut numbers)?;
    }
    Ok(numbers)
}

// Adds the reference `found` to `lent`, if there is one.
fn push_lent<'t>(found: Option<EntryRef<'t>>, lent: &mut Vec<EntryRef<'t>>) -> Result<(), Memory>
    ensures { OnOk result (map entry_lent lent.new.items ≡ map entry_lent lent.old.items ++ cons_option (option_map entry_lent found.entry) []) }
{
    match found {
        Some(entry) => Ok(lent.push(entry)?),
        None => Ok(()),
    }
}

// Gives each entry's details the deprecation at the same place, or none.
fn give_all(all: &mut Vec<EntryDetails>, deprecations: List<Option<Deprecation>>)
    requires { length deprecations ≡ length all.old.items }
    ensures { all.new.items ≡ details_given all.old.items deprecations }
{
    let mut place = 0;
    for deprecation in deprecations.into_vec() {
        all[place].deprecation = deprecation;
        place += 1;
    }
}

impl GrowingEntries {
    /// No entries. Allocates: no.
    pub fn new(alloc: Global) -> GrowingEntries
        ensures held { result.names.held ≡ [] }
        ensures numbers { result.names.numbers ≡ [] }
        ensures details { result.details ≡ [] }
    {
        GrowingEntries {
            names: GrowingNames::new(alloc),
            details: Vec::new(alloc),
        }
    }

    /// The entries, read with the table of their names.
    pub fn with<'t>(&'t self, table: &'t NameTable) -> Entries<'t>
        requires { AreListed table.now self.now }
        ensures { result ≡ entries_listed table.now self.now }
    {
        Entries::new(self.names.with(table), self.details.as_slice())
    }

    /// The place, from 0, of the entry whose name has the number `id` in the table. Only one place is looked at.
    pub fn place_of(&self, table: &NameTable, id: NameId) -> Option<usize>
        requires listed { AreListed table.now self.now }
        requires live { IsLive table.now id.0 }
        ensures { result ≡ position (is_named (kept_at table.now id.0).name) (entries_listed table.now self.now) }
    {
        self.names.place_of(table, id)
    }

    /// A reference to the entry at a place from 0. There is none exactly if the place is the number of entries or more.
    pub fn entry_at<'t>(&'t self, table: &'t NameTable, k: usize) -> Option<EntryRef<'t>>
        requires { AreListed table.now self.now }
        ensures { option_map entry_lent result ≡ slice_get (entries_listed table.now self.now) k }
    {
        match self.names.number_at(k) {
            Some(id) => lent(table.name(id), details_at(&self.details, k)),
            None => None,
        }
    }

    /// References to the entries of these numbers, which are their places from 0. A number without an entry is skipped.
    ///
    /// # Errors
    /// [`Memory`] if memory runs out.
    pub fn lent_at<'t>(
        &'t self,
        table: &'t NameTable,
        alloc: Global,
        numbers: &[u32],
    ) -> Result<Vec<EntryRef<'t>>, Memory>
        requires { AreListed table.now self.now }
        ensures { IfOk result (λ lent. map entry_lent lent.items ≡ entries_at (entries_listed table.now self.now) numbers.now) }
    {
        let mut lent = Vec::with_capacity(alloc, numbers.len())?;
        for number in numbers {
            push_lent(self.entry_at(table, *number as usize), &mut lent)?;
        }
        Ok(lent)
    }

    /// The numbers, in the table, of the names of the entries at these places. A place without an entry is skipped.
    ///
    /// # Errors
    /// [`Memory`] if memory runs out.
    pub fn ids_at(&self, alloc: Global, numbers: &[u32]) -> Result<Vec<NameId>, Memory>
        ensures { IfOk result (λ v. v.items ≡ filter_map (slice_get self.now.names.numbers) numbers.now) }
    {
        numbers_at(alloc, &self.names, numbers)
    }

    /// Takes the memory that [`push`](GrowingEntries::push) needs for an entry whose name has the number `id` in the
    /// table. The entries are unchanged.
    ///
    /// # Errors
    /// [`Memory`] if memory runs out.
    pub fn reserve(&mut self, table: &NameTable, id: NameId) -> Result<(), Memory>
        requires { IsLive table.now id.0 }
        ensures same { SameEntries self.old self.new }
        ensures ok { OnOk result (MayPushEntry table.now self.new id.0) }
    {
        self.details.reserve(1)?;
        self.names.reserve(table, id)
    }

    /// Adds an active entry at the end. Its name has the number `id` in the table. No entry may have this name, and the
    /// room has to be reserved. The title and the provenance are moved. Allocates: no.
    pub fn push(&mut self, table: &NameTable, id: NameId, title: Text, provenance: Provenance)
        requires listed { AreListed table.now self.old }
        requires live { IsLive table.now id.0 }
        requires absent { list_any (is_named (kept_at table.now id.0).name) (entries_listed table.now self.old) ≡ false }
        requires room { MayPushEntry table.now self.old id.0 }
        ensures listed { AreListed table.now self.new }
        ensures entries { entries_listed table.now self.new ≡ entries_listed table.now self.old ++ new_entry (kept_at table.now id.0).name title provenance ∷ [] }
    {
        let details = EntryDetails {
            title,
            provenance,
            deprecation: None,
        };
        append_entry(table, &mut self.names, &mut self.details, id, details);
    }

    /// Memory for a further note of the entry at a place; [`rewrite_at`](GrowingEntries::rewrite_at) needs it. If no
    /// entry is at the place, the memory may be of any size.
    ///
    /// # Errors
    /// [`Memory`] if memory runs out.
    pub fn note_room(&self, alloc: Global, place: usize) -> Result<NoteRoom, Memory>
        ensures { IfOk result (λ room. HasNoteRoom self.now.details place room) }
    {
        note_room_at(alloc, &self.details, place)
    }

    /// Gives the entry at a place this deprecation, or makes it active if there is none. A note, if given, is added at
    /// the end of the entry's notes. If no entry is at the place, nothing is changed. Allocates: no. If the memory of
    /// the notes is full, all notes are moved into the room.
    pub fn rewrite_at(
        &mut self,
        place: usize,
        deprecation: Option<Deprecation>,
        note: Option<Note>,
        room: NoteRoom,
    )
        requires { HasNoteRoom self.old.details place room }
        ensures names { self.new.names ≡ self.old.names }
        ensures details { self.new.details ≡ details_written deprecation note place self.old.details }
    {
        rewrite_at(&mut self.details, place, deprecation, note, room);
    }

    /// Gives each entry the deprecation at its place, or none, instead of its old one. Notes are unchanged.
    pub fn give_all(&mut self, deprecations: List<Option<Deprecation>>)
        requires { length deprecations ≡ length self.old.details }
        ensures names { self.new.names ≡ self.old.names }
        ensures details { self.new.details ≡ details_given self.old.details deprecations }
    {
        give_all(&mut self.details, deprecations);
    }
}
