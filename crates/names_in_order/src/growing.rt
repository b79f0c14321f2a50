// Lists of names, with an index by product, from which no name is ever removed.
ghost use Rattle.std.specs.Prelude.{◌≡◌, ◌+◌, ◌++◌, ◌∷◌, [], IfOk, OnOk, cond, length, position, slice_get, Some, false, option_copied};
ghost use Rattle.std.specs.List.{list_any, IsDistinct};
ghost use Rattle.name_index.specs.Prelude.{is_covered, IsLive, IsLower, IsOrder, kept_at, same_name, SameElements, StepsWithin};
ghost use Rattle.names_in_order.specs.Held.{places_of_name};
ghost use Rattle.names_in_order.specs.InOrder.{AreInOrder, AreListedNames, names_numbered, same_id};
ghost use Rattle.names_in_order.specs.Places.{looked_count, near_count, places_covered};
ghost use Rattle.names_in_order.specs.Room.{MayPush, SameRoll};

use crate::added::{add_number, reserve_number};
use crate::numbers::NumbersInOrder;
use cpe_relation::{covers_in_order, deciding_order};
use name_index::{Attribute, Memory, NameId, NameIndex, NameTable, Steps, Wfn};
use std::alloc::Global;
use std::marker::Model;
use std::sync::ledger::Ledger;

/// Different names in the order in which they were added, by their numbers in a table that other lists use, too. No
/// name is ever removed. Contracts see what the index holds, the numbers, and the reserved room.
///
/// A name takes about 30 bytes here, and more in the table.
#[derive(Drop)]
pub struct GrowingNames {
    index: NameIndex,
    numbers: NumbersInOrder,
}

impl Model for GrowingNames {
    ghost use Rattle.names_in_order.specs.InOrder.{Roll};
    ghost use Rattle.names_in_order.specs.Room.{roll_of};

    ghost Value = { Roll };

    ghost view = { λ n. roll_of n.index n.numbers };
}

/// The names of a [`GrowingNames`], together with the table of their numbers. Each name is found by its hash, by its
/// place, and by its product. Contracts see the list of the names.
#[derive(Drop)]
pub struct NamesInOrder<'t> {
    table: &'t NameTable,
    index: &'t NameIndex,
    numbers: &'t NumbersInOrder,
}

impl<'t> Model for NamesInOrder<'t> {
    ghost use Rattle.std.specs.Prelude.{List};
    ghost use Rattle.name_index.specs.cpe_name.Eleven.{Values};
    ghost use Rattle.names_in_order.specs.InOrder.{AreInOrder, names_numbered};

    ghost Value = { List Values };

    ghost view = { λ n. names_numbered n.table.now n.numbers.now.numbers };

    ghost invariant = { λ n. AreInOrder n.table.now n.index.now.held n.numbers.now.numbers };
}

// The place of a live number of the table, if the number is in the list.
fn place_of(table: &NameTable, numbers: &NumbersInOrder, id: NameId) -> Option<usize>
    requires all { AreListedNames table.now numbers.now.numbers }
    requires live { IsLive table.now id.0 }
    ensures { result ≡ position (same_name (kept_at table.now id.0).name) (names_numbered table.now numbers.now.numbers) }
{
    table.lawful();
    numbers.place_of(id)
}

// The place of a name, which is found by its hash, if the name is in the list.
fn find_place(table: &NameTable, numbers: &NumbersInOrder, name: &Wfn) -> Option<usize>
    requires { AreListedNames table.now numbers.now.numbers }
    ensures { result ≡ position (same_name name.now) (names_numbered table.now numbers.now.numbers) }
{
    match table.find(name) {
        Some(id) => place_of(table, numbers, id),
        None => None,
    }
}

// Appends the place of a live number to `places`, if the number is in the list.
fn push_place(
    table: &NameTable,
    numbers: &NumbersInOrder,
    id: NameId,
    places: &mut Vec<usize>,
) -> Result<(), Memory>
    requires all { AreListedNames table.now numbers.now.numbers }
    requires live { IsLive table.now id.0 }
    ensures { OnOk result (places.new.items ≡ places.old.items ++ places_of_name (names_numbered table.now numbers.now.numbers) table.now id) }
{
    if let Some(place) = place_of(table, numbers, id) {
        places.push(place)?;
    }
    Ok(())
}

// Looks at the name of a held number, and appends its place to `places` if `name` covers it.
fn push_covered<L: Ledger>(
    order: &[Attribute],
    table: &NameTable,
    numbers: &NumbersInOrder,
    id: NameId,
    name: &Wfn,
    places: &mut Vec<usize>,
    steps: &mut Steps<L>,
) -> Result<(), Memory>
    requires order { IsOrder order.now }
    requires all { AreListedNames table.now numbers.now.numbers }
    requires live { IsLive table.now id.0 }
    ensures places { OnOk result (places.new.items ≡ cond (is_covered table.now name.now id) (places.old.items ++ places_of_name (names_numbered table.now numbers.now.numbers) table.now id) places.old.items) }
    ensures step { steps.new ≡ steps.old + 1 }
{
    let other = table.look(id, steps);
    if covers_in_order(order, name, other) {
        push_place(table, numbers, id, places)?;
    }
    Ok(())
}

// The places of the names that the name covers, in any order.
fn find_places<L: Ledger>(
    alloc: Global,
    table: &NameTable,
    index: &NameIndex,
    numbers: &NumbersInOrder,
    name: &Wfn,
    steps: &mut Steps<L>,
) -> Result<Vec<usize>, Memory>
    requires order { AreInOrder table.now index.now.held numbers.now.numbers }
    requires lower { IsLower name.now }
    ensures covered { IfOk result (λ places. SameElements (places_covered name.now (names_numbered table.now numbers.now.numbers)) places.items) }
    ensures steps { StepsWithin steps.old steps.new (near_count name.now (names_numbered table.now numbers.now.numbers)) }
    ensures looked { OnOk result (steps.new ≡ steps.old + looked_count name.now (names_numbered table.now numbers.now.numbers)) }
{
    table.lawful();
    numbers.lawful();
    let order = deciding_order(alloc, name)?;
    let mut places = Vec::new(alloc);
    for id in index.with_covered_product(table, name) {
        push_covered(&order, table, numbers, id, name, &mut places, steps)?;
    }
    Ok(places)
}

impl GrowingNames {
    /// No names. Allocates: no.
    pub fn new(alloc: Global) -> GrowingNames
        ensures held { result.held ≡ [] }
        ensures numbers { result.numbers ≡ [] }
    {
        GrowingNames {
            index: NameIndex::new(alloc),
            numbers: NumbersInOrder::new(alloc),
        }
    }

    /// How many names the list has.
    pub fn len(&self) -> usize
        ensures { result ≡ length self.now.numbers }
    {
        self.numbers.len()
    }

    /// The place, from 0, of a live number of the table, if the number is in the list. Reads one place only.
    pub fn place_of(&self, table: &NameTable, id: NameId) -> Option<usize>
        requires order { AreInOrder table.now self.now.held self.now.numbers }
        requires live { IsLive table.now id.0 }
        ensures { result ≡ position (same_name (kept_at table.now id.0).name) (names_numbered table.now self.now.numbers) }
    {
        place_of(table, &self.numbers, id)
    }

    /// The number at a place, from 0, if the list has this place.
    pub fn number_at(&self, place: usize) -> Option<NameId>
        ensures { result ≡ slice_get self.now.numbers place }
    {
        self.numbers.get(place)
    }

    /// The list of names, read through the table of their numbers.
    pub fn with<'t>(&'t self, table: &'t NameTable) -> NamesInOrder<'t>
        requires { AreInOrder table.now self.now.held self.now.numbers }
        ensures { result ≡ names_numbered table.now self.now.numbers }
    {
        NamesInOrder {
            table,
            index: &self.index,
            numbers: &self.numbers,
        }
    }

    /// Reserves the memory that [`push`](GrowingNames::push) needs to append a live number of the table. The list is
    /// unchanged. The mean cost doesn't depend on the length of the list, except to find the place of a new product.
    ///
    /// # Errors
    /// Only that memory ran out.
    pub fn reserve(&mut self, table: &NameTable, id: NameId) -> Result<(), Memory>
        requires { IsLive table.now id.0 }
        ensures same { SameRoll self.old self.new }
        ensures ok { OnOk result (MayPush table.now self.new id.0) }
    {
        reserve_number(table, &mut self.index, &mut self.numbers, id)
    }

    /// Appends a live number for which room is reserved, and whose name is not yet in the list. The cost doesn't depend
    /// on the length of the list. Allocates: no.
    pub fn push(&mut self, table: &NameTable, id: NameId)
        requires order { AreInOrder table.now self.old.held self.old.numbers }
        requires live { IsLive table.now id.0 }
        requires fresh { list_any (same_name (kept_at table.now id.0).name) (names_numbered table.now self.old.numbers) ≡ false }
        requires room { MayPush table.now self.old id.0 }
        ensures order { AreInOrder table.now self.new.held self.new.numbers }
        ensures numbers { self.new.numbers ≡ self.old.numbers ++ id ∷ [] }
    {
        add_number(table, &mut self.index, &mut self.numbers, id);
    }
}

impl NamesInOrder<'_> {
    /// How many names the list has.
    pub fn len(&self) -> usize
        ensures { result ≡ length self.now }
    {
        self.numbers.len()
    }

    /// The place of a name, from 0, if the name is in the list. The name is found by its hash.
    pub fn find(&self, name: &Wfn) -> Option<usize>
        ensures { result ≡ position (same_name name.now) self.now }
    {
        find_place(self.table, self.numbers, name)
    }

    /// The name at a place, from 0, if the list has this place.
    pub fn name_at(&self, place: usize) -> Option<&Wfn>
        ensures { option_copied result ≡ slice_get self.now place }
    {
        match self.numbers.get(place) {
            Some(id) => Some(self.table.name(id)),
            None => None,
        }
    }

    /// The places of the names that a name in lower case covers, rising. A step is a look at a name. The search looks
    /// once at each name whose product the given name's product covers, and at no other name. The given name's product
    /// is near each of these products.
    ///
    /// # Errors
    /// Only that memory ran out. The bound on steps holds then, too.
    pub fn covered_places<L: Ledger>(
        &self,
        alloc: Global,
        name: &Wfn,
        steps: &mut Steps<L>,
    ) -> Result<Vec<usize>, Memory>
        requires { IsLower name.now }
        ensures covered { IfOk result (λ places. places.items ≡ places_covered name.now self.now) }
        ensures steps { StepsWithin steps.old steps.new (near_count name.now self.now) }
        ensures looked { OnOk result (steps.new ≡ steps.old + looked_count name.now self.now) }
    {
        let mut places = find_places(alloc, self.table, self.index, self.numbers, name, steps)?;
        places.sort_unstable();
        Ok(places)
    }

    /// Law: no name is twice in the list.
    pub fn lawful(&self)
        ensures { IsDistinct same_name self.now }
    {
        self.table.lawful();
        self.numbers.lawful();
    }
}
