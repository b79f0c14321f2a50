// Lists of numbers in order, and the place of each number.
ghost use Rattle.std.specs.Prelude.{◌≡◌, ◌≢◌, ◌++◌, ◌∷◌, [], ◌<◌, ◌^◌, ℕ, length, position, slice_get, vec_capacity, Some};
ghost use Rattle.std.specs.List.{IsDistinct};
ghost use Rattle.names_in_order.specs.InOrder.{same_id, place_found, HavePlaceOfNumber};

use crate::added::PushNumber;
use crate::free_place::make_place;
use name_index::{Memory, NameId};
use std::alloc::Global;
use std::marker::Model;

/// Different numbers in order; the place of each is found from the number. Contracts see the list, and the reserved
/// room.
#[derive(Drop)]
pub(crate) struct NumbersInOrder {
    // The number at each place.
    numbers: Vec<NameId>,
    // The place of each number, kept by number, up to the largest number in the list.
    places: Vec<u32>,
}

impl Model for NumbersInOrder {
    ghost use Rattle.std.specs.Prelude.{length, vec_capacity};
    ghost use Rattle.names_in_order.specs.InOrder.{HavePlaceOfNumber};
    ghost use Rattle.names_in_order.specs.Room.{NumberList, spare_places};

    ghost Value = { NumberList };

    ghost view = { λ n. record { numbers = n.numbers.items; reach = length n.places.items; spare = spare_places (vec_capacity n.numbers) (length n.numbers.items) } };

    ghost invariant = { λ n. HavePlaceOfNumber n.numbers.items n.places.items };
}

// The place that is kept for a number.
fn kept_place(places: &[u32], id: NameId) -> Option<u32>
    ensures { result ≡ slice_get places.now id.0 }
{
    places.get(id.0 as usize).copied()
}

// The place, if the number is there.
fn confirmed(numbers: &[NameId], place: u32, id: NameId) -> Option<usize>
    ensures { result ≡ place_found (slice_get numbers.now place) place id }
{
    match numbers.get(place as usize) {
        Some(other) => if_same(*other, id, place),
        None => None,
    }
}

// The place, if the two numbers are equal.
fn if_same(other: NameId, id: NameId, place: u32) -> Option<usize>
    ensures { result ≡ place_found (Some other) place id }
{
    if other.0 == id.0 {
        return Some(place as usize);
    }
    None
}

// Appends a number that is not yet in the list, and for which room is reserved.
fn append_number(numbers: &mut Vec<NameId>, places: &mut Vec<u32>, id: NameId)
    requires placed { HavePlaceOfNumber numbers.old.items places.old.items }
    requires fresh { (k : ℕ) → slice_get numbers.old.items k ≢ Some id }
    requires known { id.0 < length places.old.items }
    requires room { length numbers.old.items < vec_capacity numbers.old }
    requires few { length numbers.old.items < 2 ^ 32 }
    ensures placed { HavePlaceOfNumber numbers.new.items places.new.items }
    ensures numbers { numbers.new.items ≡ numbers.old.items ++ id ∷ [] }
{
    let place = numbers.as_slice().len();
    numbers.push_reserved(id);
    places[id.0 as usize] = place as u32;
}

impl NumbersInOrder {
    /// No numbers. Allocates: no.
    pub(crate) fn new(alloc: Global) -> NumbersInOrder
        ensures { result.numbers ≡ [] }
    {
        NumbersInOrder {
            numbers: Vec::new(alloc),
            places: Vec::new(alloc),
        }
    }

    /// How many numbers the list has.
    pub(crate) fn len(&self) -> usize
        ensures { result ≡ length self.now.numbers }
    {
        self.numbers.len()
    }

    /// The number at a place, from 0, if the list has this place.
    pub(crate) fn get(&self, place: usize) -> Option<NameId>
        ensures { result ≡ slice_get self.now.numbers place }
    {
        self.numbers.get(place).copied()
    }

    /// The place of a number, if it is in the list. Doesn't search: only the number at the remembered place is compared.
    pub(crate) fn place_of(&self, id: NameId) -> Option<usize>
        ensures { result ≡ position (same_id id) self.now.numbers }
    {
        match kept_place(&self.places, id) {
            Some(place) => confirmed(&self.numbers, place, id),
            None => None,
        }
    }

    /// Law: no number is twice in the list.
    pub(crate) fn lawful(&self)
        ensures { IsDistinct same_id self.now.numbers }
    {
        let _numbers = &self.numbers;
    }
}

impl PushNumber for NumbersInOrder {
    ghost list = { λ n. n };

    fn reserve(&mut self, id: NameId) -> Result<(), Memory> {
        make_place(&mut self.numbers, &mut self.places, id)
    }

    fn push(&mut self, id: NameId) {
        append_number(&mut self.numbers, &mut self.places, id);
    }
}
