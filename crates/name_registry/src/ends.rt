// The ends of names, and the names that lead to an entry, by their numbers.
ghost use Rattle.std.specs.Prelude.{◌≡◌, ◌∷◌, [], IfOk, Some, filter, map, position};
ghost use Rattle.std.specs.List.{list_any};
ghost use Rattle.cpe_rows.specs.Prelude.{ends, is_named, is_same, leads_to};
ghost use Rattle.cpe_rows.specs.declared.entry.Entry.{Entry};
ghost use Rattle.name_index.specs.Table.{IsLive};
ghost use Rattle.fact_laws.specs.Shown.{names_at};
ghost use Rattle.cpe_dictionary.specs.Kept.{entry_names_at as entry_names_at};
ghost use Rattle.cpe_dictionary.specs.Plans.{IsAllowed, ends_by};
ghost use Rattle.name_registry.specs.Registered.{AreRegistryNames, items_leading, name_in};

use crate::registry::Registry;
use cpe_dictionary::Plan;
use cpe_rows::Memory;
use name_index::NameId;
use std::alloc::Global;
use std::slice::from_ref;

impl Registry {
    /// The numbers of the ends of a name. A name without an entry is its own end. Searches the entry's chain.
    ///
    /// # Errors
    /// Only if memory runs out.
    pub fn ends_of(&self, alloc: Global, id: NameId) -> Result<Vec<NameId>, Memory>
        requires { IsLive self.now.table id.0 }
        ensures live { IfOk result (λ v. AreRegistryNames self.now.table v.items) }
        ensures names { IfOk result (λ v. names_at self.now.table v.items ≡ ends self.now.entries (name_in self.now.table id)) }
    {
        match self.entry_number(id) {
            Some(number) => self.entry_ends(alloc, id, number),
            None => alone(alloc, id),
        }
    }

    // The ends of a name that has the entry at this place.
    fn entry_ends(&self, alloc: Global, id: NameId, number: u32) -> Result<Vec<NameId>, Memory>
        requires live { IsLive self.now.table id.0 }
        requires number { position (is_named (name_in self.now.table id)) self.now.entries ≡ Some number }
        ensures live { IfOk result (λ v. AreRegistryNames self.now.table v.items) }
        ensures names { IfOk result (λ v. names_at self.now.table v.items ≡ ends self.now.entries (name_in self.now.table id)) }
    {
        let numbers = self.dictionary().ends(alloc, self.name(id), number)?;
        self.ids_at(alloc, &numbers)
    }

    /// The numbers of the ends that a name would have after the planned change. Searches the chain that the name's
    /// entry would have.
    ///
    /// # Errors
    /// Only if memory runs out.
    pub fn ends_after(&self, alloc: Global, plan: &Plan, id: NameId) -> Result<Vec<NameId>, Memory>
        requires live { IsLive self.now.table id.0 }
        requires allowed { IsAllowed self.now.entries plan.now.number plan.now.next }
        ensures live { IfOk result (λ v. AreRegistryNames self.now.table v.items) }
        ensures names { IfOk result (λ v. names_at self.now.table v.items ≡ ends_by self.now.entries (Some plan.now) (name_in self.now.table id)) }
    {
        match self.entry_number(id) {
            Some(number) => self.entry_ends_after(alloc, plan, id, number),
            None => alone(alloc, id),
        }
    }

    // The ends, after the planned change, of a name that has the entry at this place.
    fn entry_ends_after(
        &self,
        alloc: Global,
        plan: &Plan,
        id: NameId,
        number: u32,
    ) -> Result<Vec<NameId>, Memory>
        requires live { IsLive self.now.table id.0 }
        requires number { position (is_named (name_in self.now.table id)) self.now.entries ≡ Some number }
        requires allowed { IsAllowed self.now.entries plan.now.number plan.now.next }
        ensures live { IfOk result (λ v. AreRegistryNames self.now.table v.items) }
        ensures names { IfOk result (λ v. names_at self.now.table v.items ≡ ends_by self.now.entries (Some plan.now) (name_in self.now.table id)) }
    {
        let numbers = self
            .dictionary()
            .ends_after(alloc, plan, self.name(id), number)?;
        self.ids_at(alloc, &numbers)
    }

    /// The numbers of the names of an entry's sources, in the order of entries. Searches the deprecations backwards, in
    /// time in proportion to the sources and the deprecations' successors that lead to them. The entry is given by its
    /// name and its place.
    ///
    /// # Errors
    /// Only if memory runs out.
    pub fn sources_of(&self, alloc: Global, id: NameId, number: u32) -> Result<Vec<NameId>, Memory>
        requires live { IsLive self.now.table id.0 }
        requires number { position (is_named (name_in self.now.table id)) self.now.entries ≡ Some number }
        ensures live { IfOk result (λ v. AreRegistryNames self.now.table v.items) }
        ensures names { IfOk result (λ v. names_at self.now.table v.items ≡ map (λ (e : Entry). e.name) (filter (λ (e : Entry). leads_to self.now.entries e.name (name_in self.now.table id)) self.now.entries)) }
    {
        let sources = self.dictionary().sources(alloc, self.name(id), number)?;
        self.ids_at(alloc, sources.numbers())
    }

    /// The numbers of the items that lead to a name. If the name has an entry, they are the items among the entry's
    /// sources, in the order of entries. Otherwise the name alone can be such an item. Searches backwards, as
    /// [`sources_of`](Registry::sources_of).
    ///
    /// # Errors
    /// Only if memory runs out.
    pub fn items_to(&self, alloc: Global, id: NameId) -> Result<Vec<NameId>, Memory>
        requires { IsLive self.now.table id.0 }
        ensures live { IfOk result (λ v. AreRegistryNames self.now.table v.items) }
        ensures names { IfOk result (λ v. names_at self.now.table v.items ≡ items_leading self.now.entries self.now.items (name_in self.now.table id)) }
    {
        match self.entry_number(id) {
            Some(number) => {
                let sources = self.sources_of(alloc, id, number)?;
                self.items_among(alloc, &sources)
            }
            None => self.items_among(alloc, from_ref(&id)),
        }
    }

    /// The names of a list that are items, in the order of the list. Takes one look-up for each name.
    ///
    /// # Errors
    /// Only if memory runs out.
    pub fn items_among(&self, alloc: Global, ids: &[NameId]) -> Result<Vec<NameId>, Memory>
        requires { AreRegistryNames self.now.table ids.now }
        ensures live { IfOk result (λ v. AreRegistryNames self.now.table v.items) }
        ensures names { IfOk result (λ v. names_at self.now.table v.items ≡ filter (λ s. list_any (is_same s) self.now.items) (names_at self.now.table ids.now)) }
    {
        let mut items = Vec::new(alloc);
        for id in ids {
            if self.has_item(*id) {
                items.push(*id)?;
            }
        }
        Ok(items)
    }

    // The numbers of the names of the entries at these places.
    fn ids_at(&self, alloc: Global, numbers: &[u32]) -> Result<Vec<NameId>, Memory>
        ensures live { IfOk result (λ v. AreRegistryNames self.now.table v.items) }
        ensures names { IfOk result (λ v. names_at self.now.table v.items ≡ entry_names_at self.now.entries numbers.now) }
    {
        self.dictionary.ids_at(alloc, numbers)
    }
}

// A list of one number: a name without an entry leads to itself alone.
fn alone(alloc: Global, id: NameId) -> Result<Vec<NameId>, Memory>
    ensures { IfOk result (λ v. v.items ≡ id ∷ []) }
{
    let mut numbers = Vec::with_capacity(alloc, 1)?;
    numbers.push(id)?;
    Ok(numbers)
}
