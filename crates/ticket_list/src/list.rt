// A list of elements with tickets.
ghost use Rattle.std.specs.Prelude.{◌≡◌, ◌≤◌, ◌<◌, ◌+◌, ◌-◌, ◌^◌, ℕ, take, vec_capacity, false, [], ◌∷◌, ◌++◌, true, find, length, position, set, slice_get, OnOk, option_copied};
ghost use Rattle.std.specs.List.{AllByRecursion};
ghost use Rattle.ticket_list.specs.Rising.{IsRisingBy};
ghost use Rattle.ticket_list.specs.Slots.{AreSlots, element_at, elements, ends_with_element, marks_from, slot_for, slot_ticket, occurs_at};
ghost use Rattle.ticket_list.specs.declared.slots.Slot.TheVariants.{Mark};
ghost use Rattle.ticket_list.specs.TicketList.{has_ticket, with_change, without_ticket};

use crate::marks::{count_before, enter, skip};
use crate::slots::{Slot, change_at, close_up, element_at, ends_with_mark, mark, slot_of};
use crate::ticketed::{Change, Ticketed};
use std::alloc::{AllocError, Global};
use std::marker::Model;

// The largest number of marks at a time.
const MOST_MARKS: usize = 1024;

/// A list whose elements have rising tickets. Contracts see the elements, and whether there is room for one more.
///
/// A removed element leaves a mark in its slot. If there is no room for a further mark, all marks are removed and the
/// elements move up. This happens when 1,024 slots are marks. In a short list it happens earlier, but not before about
/// a quarter of the slots are marks. So on average a removal moves at most about four elements of a short list, and a
/// thousandth of a long one.
#[derive(Drop)]
pub struct TicketList<T: Ticketed> {
    slots: Vec<Slot<T>>,
    // The slots that are marks, in rising order.
    marks: Vec<usize>,
}

impl<T: Ticketed> Model for TicketList<T> {
    ghost use Rattle.std.specs.Prelude.{length, nat_lt, vec_capacity};
    ghost use Rattle.ticket_list.specs.Slots.{AreSlots, elements};
    ghost use Rattle.ticket_list.specs.TicketList.{TicketRows, listed_code};

    ghost Value = { TicketRows T };

    ghost coded = { listed_code T.code };

    ghost view = { λ l. record { items = elements l.slots.items; ready = nat_lt (length l.slots.items) (vec_capacity l.slots) } };

    ghost invariant = { λ l. AreSlots T.ticket_of l.slots.items l.marks.items };
}

impl<T: Ticketed + Drop> TicketList<T> {
    /// An empty list. Allocates: no.
    pub fn new(alloc: Global) -> TicketList<T>
        ensures { result.items ≡ [] }
    {
        TicketList {
            slots: Vec::new(alloc),
            marks: Vec::new(alloc),
        }
    }

    /// The number of elements.
    pub fn len(&self) -> usize
        ensures count { result ≡ length self.now.items }
        ensures few { result < 2 ^ 63 }
    {
        count_elements(&self.slots, &self.marks)
    }

    /// The element at a place, from 0. None exactly if the place is the number of elements or more.
    pub fn at(&self, place: usize) -> Option<&T>
        ensures { option_copied result ≡ slice_get self.now.items place }
    {
        element_of_place(&self.slots, &self.marks, place)
    }

    /// The element with this ticket, if there is one.
    pub fn find(&self, ticket: u64) -> Option<&T>
        ensures { option_copied result ≡ find (has_ticket T.ticket_of ticket) self.now.items }
    {
        find_element(&self.slots, ticket)
    }

    /// The place, from 0, of the element with this ticket, if there is one.
    pub fn place_of(&self, ticket: u64) -> Option<usize>
        ensures { result ≡ position (has_ticket T.ticket_of ticket) self.now.items }
    {
        find_place(&self.slots, &self.marks, ticket)
    }

    /// Makes room for one more element.
    ///
    /// # Errors
    /// Only if memory runs out.
    pub fn reserve(&mut self) -> Result<(), AllocError>
        ensures items { self.new.items ≡ self.old.items }
        ensures ready { OnOk result (self.new.ready ≡ true) }
    {
        let marks = (self.slots.len() / 4).min(MOST_MARKS);
        self.marks.reserve(marks.saturating_sub(self.marks.len()))?;
        self.slots.reserve(1)
    }

    /// Appends an element whose ticket is above all other tickets. Allocates: no.
    pub fn push(&mut self, element: T)
        requires ready { self.old.ready ≡ true }
        requires last { AllByRecursion (λ x. T.ticket_of x < T.ticket_of element) self.old.items }
        ensures { self.new.items ≡ self.old.items ++ element ∷ [] }
    {
        push_element(&mut self.slots, &self.marks, element);
    }

    /// Changes the element with this ticket, if there is one. Allocates: no.
    pub fn change<C: Change<T>>(&mut self, ticket: u64, change: &C)
        requires { (x : T) → T.ticket_of (C.changed change.now x) ≡ T.ticket_of x }
        ensures items { self.new.items ≡ with_change T.ticket_of ticket (C.changed change.now) self.old.items }
        ensures ready { self.new.ready ≡ self.old.ready }
    {
        change_element(&mut self.slots, &self.marks, ticket, change);
    }

    /// Removes the element with this ticket and returns it, if there is one. Allocates: no.
    pub fn remove(&mut self, ticket: u64) -> Option<T>
        ensures element { result ≡ find (has_ticket T.ticket_of ticket) self.old.items }
        ensures items { self.new.items ≡ without_ticket T.ticket_of ticket self.old.items }
    {
        take_element(&mut self.slots, &mut self.marks, ticket)
    }

    /// Law: the tickets rise.
    pub fn lawful(&self)
        ensures { IsRisingBy T.ticket_of self.now.items }
    {
        let _slots = &self.slots;
    }
}

// The number of slots that aren't marks.
fn count_elements<T: Ticketed>(slots: &[Slot<T>], marks: &[usize]) -> usize
    requires { AreSlots T.ticket_of slots.now marks.now }
    ensures count { result ≡ length (elements slots.now) }
    ensures few { result + length marks.now < 2 ^ 63 }
{
    slots.len() - marks.len()
}

fn element_of_place<'l, T: Ticketed>(
    slots: &'l [Slot<T>],
    marks: &[usize],
    place: usize,
) -> Option<&'l T>
    requires { AreSlots T.ticket_of slots.now marks.now }
    ensures { option_copied result ≡ slice_get (elements slots.now) place }
{
    if place >= count_elements(slots, marks) {
        return None;
    }
    element_at(slots, skip(place, marks))
}

fn find_element<T: Ticketed>(slots: &[Slot<T>], ticket: u64) -> Option<&T>
    requires { IsRisingBy (slot_ticket T.ticket_of) slots.now }
    ensures { option_copied result ≡ find (has_ticket T.ticket_of ticket) (elements slots.now) }
{
    match slot_of(slots, ticket) {
        Some(slot) => element_at(slots, slot),
        None => None,
    }
}

fn find_place<T: Ticketed>(slots: &[Slot<T>], marks: &[usize], ticket: u64) -> Option<usize>
    requires { AreSlots T.ticket_of slots.now marks.now }
    ensures { result ≡ position (has_ticket T.ticket_of ticket) (elements slots.now) }
{
    match slot_of(slots, ticket) {
        Some(slot) => Some(slot - count_before(marks, slot)),
        None => None,
    }
}

fn change_element<T: Ticketed, C: Change<T>>(
    slots: &mut Vec<Slot<T>>,
    marks: &[usize],
    ticket: u64,
    change: &C,
)
    requires kept { AreSlots T.ticket_of slots.old.items marks.now }
    requires same { (x : T) → T.ticket_of (C.changed change.now x) ≡ T.ticket_of x }
    ensures kept { AreSlots T.ticket_of slots.new.items marks.now }
    ensures items { elements slots.new.items ≡ with_change T.ticket_of ticket (C.changed change.now) (elements slots.old.items) }
    ensures room { vec_capacity slots.new ≡ vec_capacity slots.old }
    ensures len { length slots.new.items ≡ length slots.old.items }
{
    if let Some(slot) = slot_of(slots, ticket) {
        change_at(slots, slot, change);
    }
}

fn push_element<T: Ticketed>(slots: &mut Vec<Slot<T>>, marks: &[usize], element: T)
    requires kept { AreSlots T.ticket_of slots.old.items marks.now }
    requires room { length slots.old.items < vec_capacity slots.old }
    requires last { AllByRecursion (λ x. T.ticket_of x < T.ticket_of element) (elements slots.old.items) }
    ensures kept { AreSlots T.ticket_of slots.new.items marks.now }
    ensures items { elements slots.new.items ≡ elements slots.old.items ++ element ∷ [] }
{
    slots.push_reserved(Slot::Element(element));
}

fn take_element<T: Ticketed + Drop>(
    slots: &mut Vec<Slot<T>>,
    marks: &mut Vec<usize>,
    ticket: u64,
) -> Option<T>
    requires { AreSlots T.ticket_of slots.old.items marks.old.items }
    ensures kept { AreSlots T.ticket_of slots.new.items marks.new.items }
    ensures element { result ≡ find (has_ticket T.ticket_of ticket) (elements slots.old.items) }
    ensures items { elements slots.new.items ≡ without_ticket T.ticket_of ticket (elements slots.old.items) }
{
    match slot_of(slots, ticket) {
        Some(slot) => take_out(slots, marks, slot, ticket),
        None => None,
    }
}

// Removes the element in a slot. The element has this ticket.
fn take_out<T: Ticketed + Drop>(
    slots: &mut Vec<Slot<T>>,
    marks: &mut Vec<usize>,
    slot: usize,
    ticket: u64,
) -> Option<T>
    requires kept { AreSlots T.ticket_of slots.old.items marks.old.items }
    requires slot { slot ≡ slot_for T.ticket_of ticket slots.old.items }
    requires present { occurs_at T.ticket_of slots.old.items slot ticket ≡ true }
    ensures kept { AreSlots T.ticket_of slots.new.items marks.new.items }
    ensures element { result ≡ find (has_ticket T.ticket_of ticket) (elements slots.old.items) }
    ensures items { elements slots.new.items ≡ without_ticket T.ticket_of ticket (elements slots.old.items) }
{
    let element = mark(slots, slot, ticket);
    if marks.len() < marks.capacity().min(MOST_MARKS) {
        enter(marks, slot);
        trim(slots, marks);
    } else {
        close_up(slots);
        marks.clear();
    }
    element
}

// Removes the marks at the end of the slots.
fn trim<T: Ticketed + Drop>(slots: &mut Vec<Slot<T>>, marks: &mut Vec<usize>)
    requires rising { IsRisingBy (slot_ticket T.ticket_of) slots.old.items }
    requires marked { marks.old.items ≡ marks_from 0 slots.old.items }
    ensures kept { AreSlots T.ticket_of slots.new.items marks.new.items }
    ensures items { elements slots.new.items ≡ elements slots.old.items }
{
    while ends_with_mark(slots) {
        drop_last(slots, marks);
    }
}

// Removes the last slot, which is a mark.
fn drop_last<T: Ticketed + Drop>(slots: &mut Vec<Slot<T>>, marks: &mut Vec<usize>)
    requires rising { IsRisingBy (slot_ticket T.ticket_of) slots.old.items }
    requires marked { marks.old.items ≡ marks_from 0 slots.old.items }
    requires mark { ends_with_element slots.old.items ≡ false }
    ensures rising { IsRisingBy (slot_ticket T.ticket_of) slots.new.items }
    ensures marked { marks.new.items ≡ marks_from 0 slots.new.items }
    ensures items { elements slots.new.items ≡ elements slots.old.items }
    ensures fewer { length slots.new.items < length slots.old.items }
{
    shorten(slots);
    shorten(marks);
}

// Removes the last element of a list.
fn shorten<T: Drop>(list: &mut Vec<T>)
    ensures { list.new.items ≡ take (length list.old.items - 1) list.old.items }
{
    list.pop();
}
