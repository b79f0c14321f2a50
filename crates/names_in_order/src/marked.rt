// Lists of numbers in order, from which numbers can be removed, and the place of each number.
ghost use Rattle.std.specs.Prelude.{◌≡◌, ◌≤◌, ◌<◌, ◌+◌, ◌^◌, ◌++◌, ◌∷◌, [], IfOk, IfSome, IsSome, OnOk, cond, false, find, get_or, length, set, slice_get, take, vec_capacity, None, Some};
ghost use Rattle.std.specs.List.{IsDistinct, list_any};
ghost use Rattle.names_in_order.specs.InOrder.{same_id};
ghost use Rattle.names_in_order.specs.Marked.{AreClosing, AreMarkedPlaces, HavePlaces, IsFirstPlace, PutsInOrder, closing_numbers, earlier as earlier_of, found_place, is_slot_of, numbers_in, places_of, standing_at, without_first_place};

use crate::added::PushNumber;
use crate::free_place::make_place;
use name_index::{Memory, NameId};
use std::alloc::Global;
use std::marker::Model;

/// Different numbers in the order in which they were added. Any of them can be removed. Contracts see their list, and
/// the reserved room.
///
/// A removed number leaves a mark in its slot. If there are more marks than numbers, the marks are removed and the
/// numbers move up. So the mean cost of a removal doesn't depend on the length of the list.
#[derive(Drop)]
pub struct MarkedNumbers {
    // The slot at each place: a number or a mark.
    slots: Vec<Option<NameId>>,
    // The place of each number, kept by number, up to the largest number that was ever in the list.
    places: Vec<u32>,
    // How many slots have a number.
    len: usize,
}

impl Model for MarkedNumbers {
    ghost use Rattle.std.specs.Prelude.{length, vec_capacity};
    ghost use Rattle.names_in_order.specs.Marked.{AreMarkedPlaces, numbers_in};
    ghost use Rattle.names_in_order.specs.Room.{NumberList, spare_places};

    ghost Value = { NumberList };

    ghost view = { λ n. record { numbers = numbers_in n.slots.items; reach = length n.places.items; spare = spare_places (vec_capacity n.slots) (length n.slots.items) } };

    ghost invariant = { λ n. AreMarkedPlaces n.slots.items n.places.items n.len };
}

// The slot at a place, or a mark if there is no such place.
fn slot_at(slots: &[Option<NameId>], place: usize) -> Option<NameId>
    ensures { result ≡ get_or slots.now place None }
{
    match slots.get(place) {
        Some(slot) => *slot,
        None => None,
    }
}

// The place that is kept for a number.
fn kept_place(places: &[u32], id: NameId) -> Option<u32>
    ensures { result ≡ slice_get places.now id.0 }
{
    places.get(id.0 as usize).copied()
}

// Whether the slot has the number.
fn is_in_slot(id: NameId, slot: Option<NameId>) -> bool
    ensures { result ≡ is_slot_of id slot }
{
    match slot {
        Some(other) => id.0 == other.0,
        None => false,
    }
}

// The place, if its slot has the number.
fn confirmed(slots: &[Option<NameId>], place: usize, id: NameId) -> Option<usize>
    ensures { result ≡ cond (is_slot_of id (get_or slots.now place None)) (Some place) None }
{
    if is_in_slot(id, slot_at(slots, place)) {
        return Some(place);
    }
    None
}

// The place of a number, if it is in the list.
fn find_place(slots: &[Option<NameId>], places: &[u32], id: NameId) -> Option<usize>
    ensures { result ≡ found_place slots.now (slice_get places.now id.0) id }
{
    match kept_place(places, id) {
        Some(place) => confirmed(slots, place as usize, id),
        None => None,
    }
}

// The earlier of two places.
fn earlier(first: Option<usize>, place: Option<usize>) -> Option<usize>
    ensures { result ≡ earlier_of first place }
{
    match (first, place) {
        (Some(one), Some(other)) => Some(if other < one { other } else { one }),
        (Some(one), None) => Some(one),
        (None, _) => place,
    }
}

// The first place whose slot has one of the numbers `ids`.
fn first_place(slots: &[Option<NameId>], places: &[u32], ids: &[NameId]) -> Option<usize>
    requires { HavePlaces slots.now places.now }
    ensures { IsFirstPlace slots.now ids.now result }
{
    let mut first = None;
    for id in ids {
        first = earlier(first, find_place(slots, places, *id));
    }
    first
}

// Appends a number that is not yet in the list, and for which room is reserved.
fn append_slot(slots: &mut Vec<Option<NameId>>, places: &mut Vec<u32>, len: usize, id: NameId)
    requires marked { AreMarkedPlaces slots.old.items places.old.items len }
    requires fresh { list_any (same_id id) (numbers_in slots.old.items) ≡ false }
    requires known { id.0 < length places.old.items }
    requires room { length slots.old.items < vec_capacity slots.old }
    requires few { length slots.old.items < 2 ^ 32 }
    ensures numbers { numbers_in slots.new.items ≡ numbers_in slots.old.items ++ id ∷ [] }
    ensures marked { AreMarkedPlaces slots.new.items places.new.items (len + 1) }
    ensures few { len < 2 ^ 32 }
{
    let place = slots.as_slice().len();
    slots.push_reserved(Some(id));
    places[id.0 as usize] = place as u32;
}

// Moves the number at place `read`, if there is one, up to place `write`. Returns the next place to write.
fn move_up(
    slots: &mut Vec<Option<NameId>>,
    places: &mut Vec<u32>,
    read: usize,
    write: usize,
) -> usize
    requires closing { AreClosing slots.old.items places.old.items read write }
    requires within { read < length slots.old.items }
    ensures closing { AreClosing slots.new.items places.new.items (read + 1) result }
    ensures numbers { closing_numbers slots.new.items (read + 1) result ≡ closing_numbers slots.old.items read write }
    ensures len { length slots.new.items ≡ length slots.old.items }
{
    match slot_at(slots, read) {
        Some(id) => {
            slots[write] = Some(id);
            places[id.0 as usize] = write as u32;
            write + 1
        }
        None => write,
    }
}

// Moves all numbers up, so that no mark is before a number. Returns how many numbers there are.
fn move_all_up(slots: &mut Vec<Option<NameId>>, places: &mut Vec<u32>) -> usize
    requires placed { HavePlaces slots.old.items places.old.items }
    requires few { length slots.old.items ≤ 2 ^ 32 }
    ensures closed { AreClosing slots.new.items places.new.items (length slots.new.items) result }
    ensures numbers { numbers_in (take result slots.new.items) ≡ numbers_in slots.old.items }
{
    let count = slots.len();
    let mut write = 0;
    for read in 0..count {
        write = move_up(slots, places, read, write);
    }
    write
}

// Removes all marks, in place.
fn close_up(slots: &mut Vec<Option<NameId>>, places: &mut Vec<u32>)
    requires placed { HavePlaces slots.old.items places.old.items }
    requires few { length slots.old.items ≤ 2 ^ 32 }
    ensures placed { HavePlaces slots.new.items places.new.items }
    ensures full { length slots.new.items ≡ length (numbers_in slots.new.items) }
    ensures few { length slots.new.items ≤ 2 ^ 32 }
    ensures numbers { numbers_in slots.new.items ≡ numbers_in slots.old.items }
{
    let count = move_all_up(slots, places);
    slots.truncate(count);
}

// Removes all marks, if there are more marks than numbers.
fn close_up_sparse(slots: &mut Vec<Option<NameId>>, places: &mut Vec<u32>, len: usize)
    requires placed { HavePlaces slots.old.items places.old.items }
    requires counted { len ≡ length (numbers_in slots.old.items) }
    requires fewer { len ≤ length slots.old.items }
    requires few { length slots.old.items ≤ 2 ^ 32 }
    ensures marked { AreMarkedPlaces slots.new.items places.new.items len }
    ensures numbers { numbers_in slots.new.items ≡ numbers_in slots.old.items }
{
    if slots.len() - len > len {
        close_up(slots, places);
    }
}

// Replaces the number at a place by a mark. Returns how many numbers are left.
fn take_out(
    slots: &mut Vec<Option<NameId>>,
    places: &mut Vec<u32>,
    len: usize,
    place: usize,
) -> usize
    requires marked { AreMarkedPlaces slots.old.items places.old.items len }
    requires there { IsSome (get_or slots.old.items place None) }
    ensures marked { AreMarkedPlaces slots.new.items places.new.items result }
    ensures numbers { numbers_in slots.new.items ≡ numbers_in (set slots.old.items place None) }
{
    slots[place] = None;
    let left = len - 1;
    close_up_sparse(slots, places, left);
    left
}

// Appends the place that is kept for a number to `kept`.
fn push_place(places: &[u32], id: NameId, kept: &mut Vec<u32>) -> Result<(), Memory>
    ensures { OnOk result (kept.new.items ≡ kept.old.items ++ places_of places.now (id ∷ [])) }
{
    if let Some(place) = kept_place(places, id) {
        kept.push(place)?;
    }
    Ok(())
}

// The places that are kept for these numbers.
fn kept_places(alloc: Global, places: &[u32], ids: &[NameId]) -> Result<Vec<u32>, Memory>
    ensures { IfOk result (λ kept. kept.items ≡ places_of places.now ids.now) }
{
    let mut kept = Vec::with_capacity(alloc, ids.len())?;
    for id in ids {
        push_place(places, *id, &mut kept)?;
    }
    Ok(kept)
}

// Appends the number at a place to `ids`, if the place's slot has a number.
fn push_number(slots: &[Option<NameId>], place: u32, ids: &mut Vec<NameId>) -> Result<(), Memory>
    ensures { OnOk result (ids.new.items ≡ ids.old.items ++ standing_at slots.now (place ∷ [])) }
{
    if let Some(id) = slot_at(slots, place as usize) {
        ids.push(id)?;
    }
    Ok(())
}

// The numbers at these places.
fn numbers_at(
    alloc: Global,
    slots: &[Option<NameId>],
    places: &[u32],
) -> Result<Vec<NameId>, Memory>
    ensures { IfOk result (λ ids. ids.items ≡ standing_at slots.now places.now) }
{
    let mut ids = Vec::with_capacity(alloc, places.len())?;
    for place in places {
        push_number(slots, *place, &mut ids)?;
    }
    Ok(ids)
}

// The numbers `found`, in the order of the list.
fn put_in_order(
    alloc: Global,
    slots: &[Option<NameId>],
    places: &[u32],
    found: &[NameId],
) -> Result<Vec<NameId>, Memory>
    requires { HavePlaces slots.now places.now }
    ensures { IfOk result (λ ids. PutsInOrder (numbers_in slots.now) found.now ids.items) }
{
    let mut kept = kept_places(alloc, places, found)?;
    kept.sort_unstable();
    numbers_at(alloc, slots, &kept)
}

impl MarkedNumbers {
    /// No numbers. Allocates: no.
    pub fn new(alloc: Global) -> MarkedNumbers
        ensures { result.numbers ≡ [] }
    {
        MarkedNumbers {
            slots: Vec::new(alloc),
            places: Vec::new(alloc),
            len: 0,
        }
    }

    /// How many numbers the list has.
    pub fn len(&self) -> usize
        ensures { result ≡ length self.now.numbers }
    {
        self.len
    }

    /// Whether a number is in the list. Reads one place only.
    pub fn has(&self, id: NameId) -> bool
        ensures { result ≡ list_any (same_id id) self.now.numbers }
    {
        find_place(&self.slots, &self.places, id).is_some()
    }

    /// The numbers by place, with marks at the places of removed numbers. There are no more marks than numbers.
    pub fn slots(&self) -> &[Option<NameId>]
        ensures numbers { numbers_in result.now ≡ self.now.numbers }
        ensures dense { length result.now ≤ length self.now.numbers + length self.now.numbers }
    {
        &self.slots
    }

    /// Removes a number, if it is in the list; the other numbers stay in their order. The mean cost doesn't depend on
    /// the length of the list. Allocates: no.
    pub fn remove(&mut self, id: NameId)
        ensures { self.new.numbers ≡ without_first_place (same_id id) self.old.numbers }
    {
        if let Some(place) = find_place(&self.slots, &self.places, id) {
            self.len = take_out(&mut self.slots, &mut self.places, self.len, place);
        }
    }

    /// The numbers `found`, which are in any order, in the order of the list. Sorts their places, and reads no others.
    /// The clause says nothing about numbers that are not in the list.
    ///
    /// # Errors
    /// Only that memory ran out.
    pub fn in_order(&self, alloc: Global, found: &[NameId]) -> Result<Vec<NameId>, Memory>
        ensures { IfOk result (λ ids. PutsInOrder self.now.numbers found.now ids.items) }
    {
        put_in_order(alloc, &self.slots, &self.places, found)
    }

    /// The first number of the list that is among `ids`, if there is one. Reads one place for each number of `ids`.
    /// Allocates: no.
    pub fn first_of(&self, ids: &[NameId]) -> Option<NameId>
        ensures { result ≡ find (λ id. list_any (same_id id) ids.now) self.now.numbers }
    {
        match first_place(&self.slots, &self.places, ids) {
            Some(place) => slot_at(&self.slots, place),
            None => None,
        }
    }

    /// Law: no number is twice in the list.
    pub fn lawful(&self)
        ensures { IsDistinct same_id self.now.numbers }
    {
        let _slots = &self.slots;
    }
}

impl PushNumber for MarkedNumbers {
    ghost list = { λ n. n };

    fn reserve(&mut self, id: NameId) -> Result<(), Memory> {
        make_place(&mut self.slots, &mut self.places, id)
    }

    fn push(&mut self, id: NameId) {
        append_slot(&mut self.slots, &mut self.places, self.len, id);
        self.len += 1;
    }
}
