// Why an entry or an item can't be added.
ghost use Rattle.std.specs.Prelude.{◌≡◌};
ghost use Rattle.cpe_rows.specs.Causes.{entry_causes, item_causes};
ghost use Rattle.cpe_rows.specs.Prelude.{first_some};
ghost use Rattle.cpe_rows.specs.declared.entry.Entry.{Entry};
ghost use Rattle.name_index.specs.Table.{IsLive};
ghost use Rattle.name_registry.specs.Registered.{name_in};

use crate::registry::Registry;
use cpe_rows::{EditFault, MOST_ITEMS, Which};
use name_index::NameId;

impl Registry {
    /// The first cause to refuse a new entry of this name, without the weight. Allocates: no.
    pub fn entry_fault(&self, id: NameId) -> Option<EditFault>
        requires { IsLive self.now.table id.0 }
        ensures { (entry : Entry) → entry.name ≡ name_in self.now.table id → result ≡ first_some (entry_causes self.now.entries entry) }
    {
        let number = self.entry_number(id);
        self.dictionary().entry_fault(self.name(id), number)
    }

    /// The first cause to refuse a new item of this name, without the weight. Allocates: no.
    pub fn item_fault(&self, id: NameId) -> Option<EditFault>
        requires { IsLive self.now.table id.0 }
        ensures { result ≡ first_some (item_causes self.now.items (name_in self.now.table id)) }
    {
        if self.has_item(id) {
            return Some(EditFault::Exists);
        }
        if self.items_len() >= MOST_ITEMS {
            return Some(EditFault::Full(Which::Items));
        }
        None
    }
}
