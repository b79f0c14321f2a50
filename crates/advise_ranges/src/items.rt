// Items with a table of their own.
ghost use Rattle.std.specs.Prelude.{◌≡◌, ◌∷◌, ◌++◌, [], List, OnOk, OnErr, false, length, true};
ghost use Rattle.std.specs.Bool.{OnFalse};
ghost use Rattle.std.specs.List.{list_any};
ghost use Rattle.cpe_rows.specs.Prelude.{is_same, IsLower, Values, without_first};
ghost use Rattle.name_index.specs.Table.{kept_at};
ghost use Rattle.names_in_order.specs.InOrder.{names_numbered, same_id};
ghost use Rattle.names_in_order.specs.Owned.{AreOwn};

use crate::view::ItemView;
use cpe_rows::{Memory, Wfn};
use name_index::{NameId, NameTable};
use names_in_order::{ChangingNames, add_name};
use std::alloc::Global;
use std::marker::Model;

/// Names in lower case, in the order in which they were added. Nothing else uses their table. Contracts see the list of
/// these names.
#[derive(Drop)]
pub(crate) struct Items {
    table: NameTable,
    names: ChangingNames,
}

impl Model for Items {
    ghost Value = { List Values };

    ghost view = { λ i. names_numbered i.table i.names.numbers };

    ghost invariant = { λ i. AreOwn i.table i.names.held i.names.numbers };
}

// Removes a number, and releases its name.
fn remove_number(table: &mut NameTable, names: &mut ChangingNames, id: NameId)
    requires own { AreOwn table.old names.old.held names.old.numbers }
    requires has { list_any (same_id id) names.old.numbers ≡ true }
    ensures own { AreOwn table.new names.new.held names.new.numbers }
    ensures names { names_numbered table.new names.new.numbers ≡ without_first (is_same (kept_at table.old id.0).name) (names_numbered table.old names.old.numbers) }
{
    check_results::law::item_laws();
    names_in_order::law::orders_stay();
    table.lawful();
    names.remove(table, id);
    table.release(id);
}

// Removes a name, if it is there, and returns whether it was.
fn remove_name(table: &mut NameTable, names: &mut ChangingNames, name: &Wfn) -> bool
    requires own { AreOwn table.old names.old.held names.old.numbers }
    ensures own { AreOwn table.new names.new.held names.new.numbers }
    ensures found { result ≡ list_any (is_same name.now) (names_numbered table.old names.old.numbers) }
    ensures names { names_numbered table.new names.new.numbers ≡ without_first (is_same name.now) (names_numbered table.old names.old.numbers) }
    ensures unchanged { OnFalse result (names_numbered table.new names.new.numbers ≡ names_numbered table.old names.old.numbers) }
{
    check_results::law::item_laws();
    match names.find(table, name) {
        Some(id) => {
            remove_number(table, names, id);
            true
        }
        None => false,
    }
}

impl Items {
    /// No items. Allocates: no.
    pub(crate) fn new(alloc: Global) -> Items
        ensures { result ≡ [] }
    {
        names_in_order::law::orders_stay();
        Items {
            table: NameTable::new(alloc),
            names: ChangingNames::new(alloc),
        }
    }

    /// The number of items.
    pub(crate) fn len(&self) -> usize
        ensures { result ≡ length self.now }
    {
        self.names.len()
    }

    /// The items as a list, in which items are found by hash and by product.
    pub(crate) fn all(&self) -> ItemView<'_>
        ensures { result ≡ self.now }
    {
        ItemView::new(&self.table, &self.names)
    }

    /// Adds an item of a new name at the end. The name is in lower case, and is moved.
    ///
    /// # Errors
    /// Only that memory ran out. The items are then unchanged.
    pub(crate) fn add(&mut self, name: Wfn) -> Result<(), Memory>
        requires lower { IsLower name }
        requires fresh { list_any (is_same name) self.old ≡ false }
        ensures ok { OnOk result (self.new ≡ self.old ++ name ∷ []) }
        ensures err { OnErr result (self.new ≡ self.old) }
    {
        check_results::law::item_laws();
        add_name(&mut self.table, &mut self.names, name)
    }

    /// Removes the item of this name, and returns whether there was one. The other items keep their order.
    pub(crate) fn remove(&mut self, name: &Wfn) -> bool
        ensures found { result ≡ list_any (is_same name.now) self.old }
        ensures items { self.new ≡ without_first (is_same name.now) self.old }
        ensures unchanged { OnFalse result (self.new ≡ self.old) }
    {
        remove_name(&mut self.table, &mut self.names, name)
    }
}
