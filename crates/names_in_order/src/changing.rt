// Lists of names, with an index by product, from which names can be removed.
ghost use Rattle.std.specs.Prelude.{◌≡◌, ◌≢◌, ◌≤◌, ◌+◌, ◌++◌, ◌∷◌, [], ℕ, IfOk, IfSome, OnOk, cond, filter, is_some, length, slice_get, None, Some, false, true};
ghost use Rattle.std.specs.List.{IsDistinct, list_any};
ghost use Rattle.name_index.specs.Prelude.{covers, HasName, is_covered, IsLive, IsLower, kept_at, same_name, StepsWithin};
ghost use Rattle.names_in_order.specs.InOrder.{AreInOrder, AreListedNames, names_numbered, same_id};
ghost use Rattle.names_in_order.specs.Marked.{numbers_in, without_first_place};
ghost use Rattle.names_in_order.specs.Places.{looked_count, near_count};
ghost use Rattle.names_in_order.specs.Room.{MayPush, SameRoll};

use crate::added::{add_number, reserve_number};
use crate::marked::MarkedNumbers;
use name_index::{Memory, NameId, NameIndex, NameTable, Steps, Wfn};
use std::alloc::Global;
use std::marker::Model;
use std::sync::ledger::Ledger;

/// Different names in the order in which they were added, by their numbers in a table that other lists use, too. Any of
/// the names can be removed. Contracts see what the index holds, the numbers, and the reserved room.
///
/// A removed number leaves a mark at its place. There are never more marks than numbers. A name takes about 34 bytes
/// here, and more in the table.
#[derive(Drop)]
pub struct ChangingNames {
    index: NameIndex,
    numbers: MarkedNumbers,
}

impl Model for ChangingNames {
    ghost use Rattle.names_in_order.specs.InOrder.{Roll};
    ghost use Rattle.names_in_order.specs.Room.{roll_of};

    ghost Value = { Roll };

    ghost view = { λ n. roll_of n.index n.numbers };
}

// Removes a number of the list, from the index and from the list.
fn remove_number(table: &NameTable, index: &mut NameIndex, numbers: &mut MarkedNumbers, id: NameId)
    requires order { AreInOrder table.now index.old.held numbers.old.numbers }
    requires has { list_any (same_id id) numbers.old.numbers ≡ true }
    ensures order { AreInOrder table.now index.new.held numbers.new.numbers }
    ensures numbers { numbers.new.numbers ≡ without_first_place (same_id id) numbers.old.numbers }
    ensures gone { (k : ℕ) → slice_get numbers.new.numbers k ≢ Some id }
{
    name_index::law::fitting_laws();
    numbers.lawful();
    index.drop_name(table, id);
    numbers.remove(id);
}

// The number, if it is in the list.
fn if_has(numbers: &MarkedNumbers, id: NameId) -> Option<NameId>
    ensures { result ≡ cond (list_any (same_id id) numbers.now.numbers) (Some id) None }
{
    if numbers.has(id) {
        return Some(id);
    }
    None
}

// The number of a name, if it is in the list. The name is found by its hash.
fn find_number(table: &NameTable, numbers: &MarkedNumbers, name: &Wfn) -> Option<NameId>
    requires { AreListedNames table.now numbers.now.numbers }
    ensures found { IfSome result (λ id. HasName table.now id.0 name.now) }
    ensures has { IfSome result (λ id. list_any (same_id id) numbers.now.numbers ≡ true) }
    ensures any { is_some result ≡ list_any (same_name name.now) (names_numbered table.now numbers.now.numbers) }
{
    table.lawful();
    match table.find(name) {
        Some(id) => if_has(numbers, id),
        None => None,
    }
}

// The numbers whose names are covered by the name, in the order of the list.
fn find_covered<L: Ledger>(
    alloc: Global,
    table: &NameTable,
    index: &NameIndex,
    numbers: &MarkedNumbers,
    name: &Wfn,
    steps: &mut Steps<L>,
) -> Result<Vec<NameId>, Memory>
    requires order { AreInOrder table.now index.now.held numbers.now.numbers }
    requires lower { IsLower name.now }
    ensures covered { IfOk result (λ v. v.items ≡ filter (is_covered table.now name.now) numbers.now.numbers) }
    ensures steps { StepsWithin steps.old steps.new (near_count name.now (names_numbered table.now numbers.now.numbers)) }
    ensures looked { OnOk result (steps.new ≡ steps.old + looked_count name.now (names_numbered table.now numbers.now.numbers)) }
{
    let found = index.covered_by(alloc, table, name, steps)?;
    numbers.in_order(alloc, &found)
}

impl ChangingNames {
    /// No names. Allocates: no.
    pub fn new(alloc: Global) -> ChangingNames
        ensures held { result.held ≡ [] }
        ensures numbers { result.numbers ≡ [] }
    {
        ChangingNames {
            index: NameIndex::new(alloc),
            numbers: MarkedNumbers::new(alloc),
        }
    }

    /// How many names the list has.
    pub fn len(&self) -> usize
        ensures { result ≡ length self.now.numbers }
    {
        self.numbers.len()
    }

    /// Whether a number is in the list. Reads one place only.
    pub fn has(&self, id: NameId) -> bool
        ensures { result ≡ list_any (same_id id) self.now.numbers }
    {
        self.numbers.has(id)
    }

    /// The number of a name, if it is in the list. The name is found by its hash.
    pub fn find(&self, table: &NameTable, name: &Wfn) -> Option<NameId>
        requires { AreInOrder table.now self.now.held self.now.numbers }
        ensures found { IfSome result (λ id. HasName table.now id.0 name.now) }
        ensures has { IfSome result (λ id. list_any (same_id id) self.now.numbers ≡ true) }
        ensures any { is_some result ≡ list_any (same_name name.now) (names_numbered table.now self.now.numbers) }
    {
        find_number(table, &self.numbers, name)
    }

    /// The numbers by place, with marks at the places of removed numbers. There are no more marks than numbers.
    pub fn slots(&self) -> &[Option<NameId>]
        ensures numbers { numbers_in result.now ≡ self.now.numbers }
        ensures dense { length result.now ≤ length self.now.numbers + length self.now.numbers }
    {
        self.numbers.slots()
    }

    /// Reserves the memory that [`push`](ChangingNames::push) needs to append a live number of the table. The list is
    /// unchanged. The mean cost doesn't depend on the length of the list, except to find the place of a new product.
    ///
    /// # Errors
    /// Only that memory ran out.
    pub fn reserve(&mut self, table: &NameTable, id: NameId) -> Result<(), Memory>
        requires { IsLive table.now id.0 }
        ensures same { SameRoll self.old self.new }
        ensures ok { OnOk result (MayPush table.now self.new id.0) }
    {
        reserve_number(table, &mut self.index, &mut self.numbers, id)
    }

    /// Appends a live number for which room is reserved, and whose name is not yet in the list. The cost doesn't depend
    /// on the length of the list. Allocates: no.
    pub fn push(&mut self, table: &NameTable, id: NameId)
        requires order { AreInOrder table.now self.old.held self.old.numbers }
        requires live { IsLive table.now id.0 }
        requires fresh { list_any (same_name (kept_at table.now id.0).name) (names_numbered table.now self.old.numbers) ≡ false }
        requires room { MayPush table.now self.old id.0 }
        ensures order { AreInOrder table.now self.new.held self.new.numbers }
        ensures numbers { self.new.numbers ≡ self.old.numbers ++ id ∷ [] }
    {
        add_number(table, &mut self.index, &mut self.numbers, id);
    }

    /// Removes a number of the list; the other numbers stay in their order. The mean cost doesn't depend on the length
    /// of the list, except for the walk to the number in the list of its product. Allocates: no.
    pub fn remove(&mut self, table: &NameTable, id: NameId)
        requires order { AreInOrder table.now self.old.held self.old.numbers }
        requires has { list_any (same_id id) self.old.numbers ≡ true }
        ensures order { AreInOrder table.now self.new.held self.new.numbers }
        ensures numbers { self.new.numbers ≡ without_first_place (same_id id) self.old.numbers }
        ensures gone { (k : ℕ) → slice_get self.new.numbers k ≢ Some id }
    {
        remove_number(table, &mut self.index, &mut self.numbers, id);
    }

    /// The numbers whose names are covered by a name in lower case, in the order of the list. A step is a look at a
    /// name. The search looks once at each name whose product the given name's product covers, and at no other name.
    /// The given name's product is near each of these products.
    ///
    /// # Errors
    /// Only that memory ran out. The bound on steps holds then, too.
    pub fn covered<L: Ledger>(
        &self,
        alloc: Global,
        table: &NameTable,
        name: &Wfn,
        steps: &mut Steps<L>,
    ) -> Result<Vec<NameId>, Memory>
        requires order { AreInOrder table.now self.now.held self.now.numbers }
        requires lower { IsLower name.now }
        ensures live { IfOk result (λ v. AreListedNames table.now v.items) }
        ensures covered { IfOk result (λ v. names_numbered table.now v.items ≡ filter (covers name.now) (names_numbered table.now self.now.numbers)) }
        ensures steps { StepsWithin steps.old steps.new (near_count name.now (names_numbered table.now self.now.numbers)) }
        ensures looked { OnOk result (steps.new ≡ steps.old + looked_count name.now (names_numbered table.now self.now.numbers)) }
    {
        find_covered(alloc, table, &self.index, &self.numbers, name, steps)
    }

    /// Law: no number is twice in the list.
    pub fn lawful(&self)
        ensures { IsDistinct same_id self.now.numbers }
    {
        self.numbers.lawful();
    }
}
