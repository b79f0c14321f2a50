// A registry: one table of names, and the entries and items as numbers of the table.
ghost use Rattle.std.specs.Prelude.{◌≡◌, ◌+◌, ◌++◌, ◌∷◌, [], ◌<◌, ◌≤◌, ℕ, IfOk, IfSome, IsNone, List, None, OnOk, Some, false, find, length, map, option_copied, option_map, position, slice_get, true};
ghost use Rattle.std.specs.List.{filter_map, list_any};
ghost use Rattle.cpe_rows.specs.Prelude.{chain, is_named, is_same, IsDictionary, IsLower, most, Values, without_first};
ghost use Rattle.cpe_rows.specs.declared.fault.Which.TheVariants as limit;
ghost use Rattle.name_index.specs.Table.{IsNameTable, HasName, IsLive, kept_at, Releases};
ghost use Rattle.cpe_dictionary.specs.Kept.{new_entry, rewritten, written};
ghost use Rattle.cpe_rows.specs.Lent.{entry_lent};
ghost use Rattle.cpe_dictionary.specs.Plans.{IsAllowed, numbered_successors};
ghost use Rattle.name_registry.specs.Moved.{EntryAdded, EntryChanged, ItemRegistered, NameHeld, SameRegistry};
ghost use Rattle.fact_laws.specs.Shown.{names_at};
ghost use Rattle.name_registry.specs.Registered.{AreHeld, AreRegistryNames, HasChangeRoom, HasEntryRoom, HasItemRoom, name_in};

use check_results::ItemSlots;
use cpe_dictionary::{Dictionary, KeptDictionary, NoteRoom, Plan};
use cpe_rows::{Deprecation, EntryRef, Memory, Note, Provenance, Text, Wfn};
use name_index::{NameId, NameTable};
use names_in_order::{MarkedNumbers, PushNumber};
use std::alloc::Global;
use std::marker::Model;

/// One table of names, with the entries of a dictionary and the items of an inventory (NIST IR 7697, 7698). Entries and
/// items are kept as numbers of the table. Contracts see the table, the entries and the items.
#[derive(Drop)]
pub struct Registry {
    pub(crate) table: NameTable,
    pub(crate) dictionary: KeptDictionary,
    pub(crate) items: MarkedNumbers,
}

impl Model for Registry {
    ghost use Rattle.name_registry.specs.Registered.{AreFitting, Registered, registered};

    ghost Value = { Registered };

    ghost view = { λ r. registered r.table r.dictionary r.items };

    ghost invariant = { λ r. AreFitting r.table r.dictionary r.items.numbers };
}

impl Registry {
    /// An empty registry. Allocates: no.
    pub fn new(alloc: Global) -> Registry
        ensures table { result.table ≡ [] }
        ensures entries { result.entries ≡ [] }
        ensures items { result.items ≡ [] }
        ensures held { AreHeld result [] }
    {
        fact_laws::law::lists_are_shown();
        names_in_order::law::orders_stay();
        cpe_rows::law::rows_stay_lawful();
        Registry {
            table: NameTable::new(alloc),
            dictionary: KeptDictionary::new(alloc),
            items: MarkedNumbers::new(alloc),
        }
    }

    /// Law: the names of the table are different, and in lower case.
    pub fn lawful(&self)
        ensures { IsNameTable self.now.table }
    {
        self.table.lawful();
    }

    /// The entries.
    pub fn dictionary(&self) -> Dictionary<'_>
        ensures { result ≡ self.now.entries }
    {
        self.dictionary.with(&self.table)
    }

    /// The number of items.
    pub fn items_len(&self) -> usize
        ensures { result ≡ length self.now.items }
    {
        self.items.len()
    }

    /// The table of names.
    pub fn table(&self) -> &NameTable
        ensures { result.now ≡ self.now.table }
    {
        &self.table
    }

    /// The entry at a place from 0, borrowed. None exactly if the place is the number of entries or more.
    pub fn entry_at(&self, k: usize) -> Option<EntryRef<'_>>
        ensures { option_map entry_lent result ≡ slice_get self.now.entries k }
    {
        self.dictionary.entry_at(&self.table, k)
    }

    /// The entries of a name's chain, borrowed; none if the name has no entry. Searches the chain only.
    ///
    /// # Errors
    /// Only if memory runs out.
    pub fn chain_lent(&self, alloc: Global, name: &Wfn) -> Result<Vec<EntryRef<'_>>, Memory>
        ensures { IfOk result (λ links. map entry_lent links.items ≡ chain self.now.entries name.now) }
    {
        self.dictionary.chain_lent(&self.table, alloc, name)
    }

    /// The items by their slots. There are at most twice as many slots as items.
    pub fn item_slots(&self) -> ItemSlots<'_>
        ensures names { filter_map (λ slot. slot) result ≡ self.now.items }
        ensures dense { length result ≤ length self.now.items + length self.now.items }
    {
        ItemSlots::new(&self.table, self.items.slots())
    }

    /// The number of a name, found by the name's hash. If there is none, neither an entry nor an item has the name.
    pub fn find(&self, name: &Wfn) -> Option<NameId>
        ensures live { IfSome result (λ id. IsLive self.now.table id.0) }
        ensures named { IfSome result (λ id. name_in self.now.table id ≡ name.now) }
        ensures none { IsNone result → (id : ℕ) → HasName self.now.table id name.now → ⊥ }
        ensures no_entry { IsNone result → list_any (is_named name.now) self.now.entries ≡ false }
        ensures no_item { IsNone result → list_any (is_same name.now) self.now.items ≡ false }
    {
        check_results::law::item_laws();
        self.table.find(name)
    }

    /// The name of a number. This isn't counted as a look.
    pub fn name(&self, id: NameId) -> &Wfn
        requires { IsLive self.now.table id.0 }
        ensures { result.now ≡ name_in self.now.table id }
    {
        self.table.name(id)
    }

    /// The place of the entry of this name, if there is one. Takes one look-up.
    pub fn entry_number(&self, id: NameId) -> Option<u32>
        requires { IsLive self.now.table id.0 }
        ensures { result ≡ position (is_named (name_in self.now.table id)) self.now.entries }
    {
        self.dictionary.number_of(&self.table, id)
    }

    /// Whether an item has this name. Takes one look-up.
    pub fn has_item(&self, id: NameId) -> bool
        requires { IsLive self.now.table id.0 }
        ensures { result ≡ list_any (is_same (name_in self.now.table id)) self.now.items }
    {
        self.table.lawful();
        check_results::law::item_laws();
        self.items.has(id)
    }

    /// The first item, in the order of items, that has one of these numbers, if there is one. Takes one look-up for
    /// each number. Allocates: no.
    pub fn first_item_of(&self, ids: &[NameId]) -> Option<&Wfn>
        requires { AreRegistryNames self.now.table ids.now }
        ensures { option_copied result ≡ find (λ n. list_any (is_same n) (names_at self.now.table ids.now)) self.now.items }
    {
        self.table.lawful();
        check_results::law::item_laws();
        match self.items.first_of(ids) {
            Some(id) => Some(self.table.name(id)),
            None => None,
        }
    }
}

impl Registry {
    /// The number of a name in lower case, which is held once more. The caller has this hold, until an entry or an item
    /// takes it over, or it is [released](Registry::release). The name is found by its hash, and copied only if it is
    /// new.
    ///
    /// # Errors
    /// Only if memory runs out. The registry is then unchanged.
    pub fn hold(&mut self, name: &Wfn) -> Result<NameId, Memory>
        requires lower { IsLower name.now }
        requires few { (id : ℕ) → HasName self.old.table id name.now → (kept_at self.old.table id).holds < 4294967295 }
        ensures { NameHeld self.old self.new name.now result }
    {
        names_in_order::law::orders_stay();
        fact_laws::law::tables_are_lists();
        self.table.hold(name)
    }

    /// The same, except that the name is moved into the table and not copied.
    ///
    /// # Errors
    /// Only if memory runs out. The registry is then unchanged.
    pub fn hold_moved(&mut self, name: Wfn) -> Result<NameId, Memory>
        requires lower { IsLower name }
        requires few { (id : ℕ) → HasName self.old.table id name → (kept_at self.old.table id).holds < 4294967295 }
        ensures { NameHeld self.old self.new name result }
    {
        names_in_order::law::orders_stay();
        fact_laws::law::tables_are_lists();
        self.table.hold_moved(name)
    }

    /// Releases a hold that no entry and no item has. Allocates: no.
    pub fn release(&mut self, id: NameId)
        requires live { IsLive self.old.table id.0 }
        requires held { (others : List Values) × AreHeld self.old (name_in self.old.table id ∷ others) }
        ensures released { Releases self.old.table self.new.table id.0 }
        ensures entries { self.new.entries ≡ self.old.entries }
        ensures items { self.new.items ≡ self.old.items }
        ensures others { (others : List Values) → AreHeld self.old (name_in self.old.table id ∷ others) → AreHeld self.new others }
    {
        self.table.lawful();
        names_in_order::law::orders_stay();
        fact_laws::law::tables_are_lists();
        self.table.release(id);
    }

    /// Makes room for an entry whose name has this number.
    ///
    /// # Errors
    /// Only if memory runs out.
    pub fn reserve_entry(&mut self, id: NameId) -> Result<(), Memory>
        requires live { IsLive self.old.table id.0 }
        requires few { length self.old.entries + 1 ≤ most limit.Entries }
        ensures same { SameRegistry self.old self.new }
        ensures room { OnOk result (HasEntryRoom self.new id) }
    {
        self.dictionary.reserve_entry(&self.table, id)
    }

    /// Adds an entry without a deprecation. The entry takes over a hold of its name, which must be the name of no other
    /// entry. Allocates: no.
    pub fn add_entry(&mut self, id: NameId, title: Text, provenance: Provenance)
        requires live { IsLive self.old.table id.0 }
        requires absent { list_any (is_named (name_in self.old.table id)) self.old.entries ≡ false }
        requires few { length self.old.entries + 1 ≤ most limit.Entries }
        requires lawful { IsDictionary (self.old.entries ++ new_entry (name_in self.old.table id) title provenance ∷ []) }
        requires room { HasEntryRoom self.old id }
        ensures { EntryAdded self.old self.new id (new_entry (name_in self.old.table id) title provenance) }
    {
        fact_laws::law::lists_are_shown();
        self.dictionary.add(&self.table, id, title, provenance);
    }

    /// Makes room for a planned change of a deprecation. Returns the room for the note.
    ///
    /// # Errors
    /// Only if memory runs out.
    pub fn reserve_change(&mut self, plan: &Plan) -> Result<NoteRoom, Memory>
        requires { IsAllowed self.old.entries plan.now.number plan.now.next }
        ensures same { SameRegistry self.old self.new }
        ensures room { IfOk result (HasChangeRoom self.new plan.now) }
    {
        self.dictionary.reserve_change(&self.table, plan)
    }

    /// Makes a planned change: the entry gets this deprecation, or none, and the note is appended to its notes.
    /// Allocates: no.
    pub fn change(
        &mut self,
        plan: &Plan,
        deprecation: Option<Deprecation>,
        note: Note,
        room: NoteRoom,
    )
        requires numbers { plan.now.next ≡ numbered_successors self.old.entries deprecation }
        requires allowed { IsAllowed self.old.entries plan.now.number plan.now.next }
        requires lawful { IsDictionary (written (rewritten deprecation (Some note)) plan.now.number self.old.entries) }
        requires room { HasChangeRoom self.old plan.now room }
        ensures { EntryChanged self.old self.new (written (rewritten deprecation (Some note)) plan.now.number self.old.entries) }
    {
        self.dictionary
            .commit(&self.table, plan, deprecation, Some(note), room);
    }

    /// Makes room for an item whose name has this number.
    ///
    /// # Errors
    /// Only if memory runs out.
    pub fn reserve_item(&mut self, id: NameId) -> Result<(), Memory>
        ensures same { SameRegistry self.old self.new }
        ensures room { OnOk result (HasItemRoom self.new id) }
    {
        self.items.reserve(id)
    }

    /// Adds an item. The item takes over a hold of its name, which must be the name of no other item. Allocates: no.
    pub fn add_item(&mut self, id: NameId)
        requires live { IsLive self.old.table id.0 }
        requires absent { list_any (is_same (name_in self.old.table id)) self.old.items ≡ false }
        requires room { HasItemRoom self.old id }
        ensures { ItemRegistered self.old self.new id }
    {
        check_results::law::item_laws();
        names_in_order::law::orders_stay();
        fact_laws::law::lists_are_shown();
        self.items.push(id);
    }

    /// Removes an item. The caller then has the item's hold of the name, until it is [released](Registry::release).
    /// Allocates: no.
    pub fn drop_item(&mut self, id: NameId)
        requires live { IsLive self.old.table id.0 }
        requires has { list_any (is_same (name_in self.old.table id)) self.old.items ≡ true }
        ensures table { self.new.table ≡ self.old.table }
        ensures entries { self.new.entries ≡ self.old.entries }
        ensures items { self.new.items ≡ without_first (is_same (name_in self.old.table id)) self.old.items }
        ensures others { (others : List Values) → AreHeld self.old others → AreHeld self.new (name_in self.old.table id ∷ others) }
    {
        self.table.lawful();
        check_results::law::item_laws();
        fact_laws::law::lists_are_shown();
        self.items.remove(id);
    }
}
