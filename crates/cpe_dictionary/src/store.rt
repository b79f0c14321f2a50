// A dictionary as it is stored, beside a table of names.
ghost use Rattle.std.specs.Prelude.{◌≡◌, ◌+◌, ◌++◌, ◌∷◌, [], ◌≤◌, IfOk, OnOk, length, map, option_copied, option_map, position, slice_get, false};
ghost use Rattle.std.specs.List.{filter_map, list_any};
ghost use Rattle.name_index.specs.Prelude.{IsLive, kept_at};
ghost use Rattle.cpe_rows.specs.Prelude.{chain, is_named, IsDictionary, most};
ghost use Rattle.cpe_rows.specs.declared.fault.Which.TheVariants as Which;
ghost use Rattle.cpe_dictionary.specs.Kept.{entries_in, FitsTable, new_entry, rewritten, written};
ghost use Rattle.cpe_rows.specs.Lent.{entry_lent};
ghost use Rattle.cpe_dictionary.specs.Plans.{IsAllowed, numbered_successors};
ghost use Rattle.cpe_dictionary.specs.Room.{MayAddEntry, MayChange, SameStored};
ghost use Rattle.deprecation_graph.specs.Graph.{successors};

use crate::by_number::{changes_by_number, edits_by_number};
use crate::dictionary::Dictionary;
use crate::growing::GrowingEntries;
use crate::note_room::NoteRoom;
use crate::plans::Plan;
use cpe_rows::{Deprecation, EntryRef, Memory, Note, Provenance, Text, Wfn};
use deprecation_graph::DeprecationGraph;
use name_index::{NameId, NameTable};
use std::alloc::Global;
use std::marker::Model;

/// A dictionary as it is stored. It has the numbers of its entries' names in a table that others share, and beside each
/// number the other parts of the entry. Its entries are those of [`with`](KeptDictionary::with).
#[derive(Drop)]
pub struct KeptDictionary {
    alloc: Global,
    pub(crate) entries: GrowingEntries,
    pub(crate) graph: DeprecationGraph,
}

impl Model for KeptDictionary {
    ghost use Rattle.cpe_dictionary.specs.Kept.{Stored};
    ghost use Rattle.cpe_dictionary.specs.Room.{stored_of};

    ghost Value = { Stored };

    ghost view = { λ d. stored_of d.entries d.graph };
}

// The number of successors of a change.
fn count(next: Option<&[u32]>) -> usize
    ensures { result ≡ length (successors (option_copied next.entry)) }
{
    match next {
        Some(next) => next.len(),
        None => 0,
    }
}

impl KeptDictionary {
    /// The dictionary without entries. Allocates: no.
    pub fn new(alloc: Global) -> KeptDictionary
        ensures held { result.names.held ≡ [] }
        ensures numbers { result.names.numbers ≡ [] }
        ensures details { result.details ≡ [] }
        ensures nodes { result.nodes ≡ [] }
    {
        KeptDictionary {
            alloc,
            entries: GrowingEntries::new(alloc),
            graph: DeprecationGraph::new(alloc),
        }
    }

    /// The entries, read with the table of their names.
    pub fn with<'t>(&'t self, table: &'t NameTable) -> Dictionary<'t>
        requires { FitsTable table.now self.now }
        ensures { result ≡ entries_in table.now self.now }
    {
        Dictionary::new(self.alloc, self.entries.with(table), &self.graph)
    }

    /// The number of the entry whose name has the number `id` in the table, if there is such an entry. Only one place
    /// is looked at.
    pub fn number_of(&self, table: &NameTable, id: NameId) -> Option<u32>
        requires fits { FitsTable table.now self.now }
        requires live { IsLive table.now id.0 }
        ensures { result ≡ position (is_named (kept_at table.now id.0).name) (entries_in table.now self.now) }
    {
        match self.place_of(table, id) {
            Some(place) => Some(place as u32),
            None => None,
        }
    }

    // The place of the entry whose name has the number `id` in the table.
    fn place_of(&self, table: &NameTable, id: NameId) -> Option<usize>
        requires fits { FitsTable table.now self.now }
        requires live { IsLive table.now id.0 }
        ensures { result ≡ position (is_named (kept_at table.now id.0).name) (entries_in table.now self.now) }
    {
        self.entries.place_of(table, id)
    }

    /// A reference to the entry at a place from 0. There is none exactly if the place is the number of entries or more.
    pub fn entry_at<'t>(&'t self, table: &'t NameTable, k: usize) -> Option<EntryRef<'t>>
        requires { FitsTable table.now self.now }
        ensures { option_map entry_lent result ≡ slice_get (entries_in table.now self.now) k }
    {
        self.entries.entry_at(table, k)
    }

    /// References to the entries of the chain of a name; none if no entry has the name. The function searches only the
    /// chain.
    ///
    /// # Errors
    /// [`Memory`] if memory runs out.
    pub fn chain_lent<'t>(
        &'t self,
        table: &'t NameTable,
        alloc: Global,
        name: &Wfn,
    ) -> Result<Vec<EntryRef<'t>>, Memory>
        requires { FitsTable table.now self.now }
        ensures { IfOk result (λ links. map entry_lent links.items ≡ chain (entries_in table.now self.now) name.now) }
    {
        let numbers = self.with(table).chain_numbers(alloc, name)?;
        self.entries.lent_at(table, alloc, &numbers)
    }

    /// The numbers, in the table, of the names of these entries. The entries are given by their places.
    ///
    /// # Errors
    /// [`Memory`] if memory runs out.
    pub fn ids_at(&self, alloc: Global, numbers: &[u32]) -> Result<Vec<NameId>, Memory>
        ensures { IfOk result (λ v. v.items ≡ filter_map (slice_get self.now.names.numbers) numbers.now) }
    {
        self.entries.ids_at(alloc, numbers)
    }

    /// Takes the memory that [`add`](KeptDictionary::add) needs for an entry whose name has the number `id` in the
    /// table. The entries are unchanged.
    ///
    /// # Errors
    /// [`Memory`] if memory runs out.
    pub fn reserve_entry(&mut self, table: &NameTable, id: NameId) -> Result<(), Memory>
        requires fits { FitsTable table.now self.old }
        requires live { IsLive table.now id.0 }
        requires few { length (entries_in table.now self.old) + 1 ≤ most Which.Entries }
        ensures same { SameStored self.old self.new }
        ensures fits { FitsTable table.now self.new }
        ensures entries { entries_in table.now self.new ≡ entries_in table.now self.old }
        ensures ok { OnOk result (MayAddEntry table.now self.new id.0) }
    {
        edits_by_number();
        self.graph.reserve(1, 0)?;
        self.entries.reserve(table, id)
    }

    /// Adds an active entry at the end. Its name has the number `id` in the table. No entry may have this name, and the
    /// room has to be reserved. The title and the provenance are moved. Allocates: no.
    pub fn add(&mut self, table: &NameTable, id: NameId, title: Text, provenance: Provenance)
        requires fits { FitsTable table.now self.old }
        requires live { IsLive table.now id.0 }
        requires absent { list_any (is_named (kept_at table.now id.0).name) (entries_in table.now self.old) ≡ false }
        requires few { length (entries_in table.now self.old) + 1 ≤ most Which.Entries }
        requires lawful { IsDictionary (entries_in table.now self.old ++ new_entry (kept_at table.now id.0).name title provenance ∷ []) }
        requires room { MayAddEntry table.now self.old id.0 }
        ensures fits { FitsTable table.now self.new }
        ensures entries { entries_in table.now self.new ≡ entries_in table.now self.old ++ new_entry (kept_at table.now id.0).name title provenance ∷ [] }
    {
        changes_by_number();
        self.entries.push(table, id, title, provenance);
        self.graph.add_node();
    }

    /// Takes the memory that [`commit`](KeptDictionary::commit) needs for a planned change: for its edges, and for a
    /// note. Returns the room for the note. The entries are unchanged.
    ///
    /// # Errors
    /// [`Memory`] if memory runs out.
    pub fn reserve_change(&mut self, table: &NameTable, plan: &Plan) -> Result<NoteRoom, Memory>
        requires fits { FitsTable table.now self.old }
        requires allowed { IsAllowed (entries_in table.now self.old) plan.now.number plan.now.next }
        ensures same { SameStored self.old self.new }
        ensures fits { FitsTable table.now self.new }
        ensures entries { entries_in table.now self.new ≡ entries_in table.now self.old }
        ensures ok { IfOk result (λ room. MayChange self.new plan.now room) }
    {
        let _ = table;
        edits_by_number();
        self.graph.reserve(0, count(plan.next()) as u32)?;
        self.entries.note_room(self.alloc, plan.number as usize)
    }

    /// Makes a planned change for which there is room. The entry gets this deprecation, or becomes active if there is
    /// none. A note, if given, is added at the end of the entry's notes. Allocates: no.
    pub fn commit(
        &mut self,
        table: &NameTable,
        plan: &Plan,
        deprecation: Option<Deprecation>,
        note: Option<Note>,
        room: NoteRoom,
    )
        requires fits { FitsTable table.now self.old }
        requires numbers { plan.now.next ≡ numbered_successors (entries_in table.now self.old) deprecation }
        requires allowed { IsAllowed (entries_in table.now self.old) plan.now.number plan.now.next }
        requires lawful { IsDictionary (written (rewritten deprecation note) plan.now.number (entries_in table.now self.old)) }
        requires room { MayChange self.old plan.now room }
        ensures fits { FitsTable table.now self.new }
        ensures entries { entries_in table.now self.new ≡ written (rewritten deprecation note) plan.now.number (entries_in table.now self.old) }
    {
        let _ = table;
        changes_by_number();
        self.entries
            .rewrite_at(plan.number as usize, deprecation, note, room);
        self.graph.set_edges(plan.number, plan.next());
    }
}
