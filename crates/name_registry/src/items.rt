// The names of some items, in the order of items.
ghost use Rattle.std.specs.Prelude.{◌≡◌, IfOk};
ghost use Rattle.check_results.specs.Slots.{names_in_slots};
ghost use Rattle.name_registry.specs.Registered.{AreRegistryNames, PutsItemsInOrder};

use crate::registry::Registry;
use cpe_rows::{List, Memory, Wfn};
use name_index::{NameId, NameTable};
use std::alloc::Global;

impl Registry {
    /// The names of these items, which are given in any order, in the order of items. Sorts their places, and reads no
    /// other item.
    ///
    /// # Errors
    /// Only if memory runs out.
    pub fn items_in_order(&self, alloc: Global, found: &[NameId]) -> Result<List<Wfn>, Memory>
        requires { AreRegistryNames self.now.table found.now }
        ensures { IfOk result (PutsItemsInOrder self.now found.now) }
    {
        self.table.lawful();
        let ids = self.items.in_order(alloc, found)?;
        names_of(alloc, &self.table, &ids)
    }
}

// The names of these numbers.
fn names_of(alloc: Global, table: &NameTable, ids: &[NameId]) -> Result<List<Wfn>, Memory>
    ensures { IfOk result (λ found. found ≡ names_in_slots table.now ids.now) }
{
    let mut found = List::new(alloc);
    for id in ids {
        if let Some(name) = table.get(*id) {
            found.push(name.copy(alloc)?)?;
        }
    }
    Ok(found)
}
