// The items of an inventory by their slots.
ghost use Rattle.std.specs.Prelude.{◌≡◌, get_or, length, map, None, option_copied};
ghost use Rattle.check_results.specs.Slots.{slot_name};

use cpe_rows::Wfn;
use name_index::{NameId, NameTable};
use std::marker::Model;

/// The slots of the items of an inventory, with the table of their names. A slot is empty if its item was removed.
/// Contracts see the list of the slots, each with the name of its item, if there is one.
#[derive(Drop)]
pub struct ItemSlots<'t> {
    table: &'t NameTable,
    slots: &'t [Option<NameId>],
}

impl<'t> Model for ItemSlots<'t> {
    ghost use Rattle.std.specs.Prelude.{List, Option, map};
    ghost use Rattle.cpe_rows.specs.cpe_name.Eleven.{Values};
    ghost use Rattle.check_results.specs.Slots.{slot_name};

    ghost Value = { List (Option Values) };

    ghost view = { λ s. map (slot_name s.table.now) s.slots.now };
}

impl<'t> ItemSlots<'t> {
    /// The slots, with the table of their names.
    pub fn new(table: &'t NameTable, slots: &'t [Option<NameId>]) -> ItemSlots<'t>
        ensures { result ≡ map (slot_name table.now) slots.now }
    {
        ItemSlots { table, slots }
    }
}

// The name of the item in a slot, if there is one.
fn name_in(table: &NameTable, slot: Option<NameId>) -> Option<&Wfn>
    ensures { option_copied result ≡ slot_name table.now slot }
{
    match slot {
        Some(id) => table.get(id),
        None => None,
    }
}

impl<'t> ItemSlots<'t> {
    /// The number of slots.
    pub fn len(&self) -> usize
        ensures { result ≡ length self.now }
    {
        self.slots.len()
    }

    /// The name of the item in a slot, if there is one.
    pub fn at(&self, slot: usize) -> Option<&'t Wfn>
        ensures { option_copied result ≡ get_or self.now slot None }
    {
        match self.slots.get(slot) {
            Some(id) => name_in(self.table, *id),
            None => None,
        }
    }
}
