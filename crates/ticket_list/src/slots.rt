// Slots: elements in the order of their tickets, and marks of removed elements.
ghost use Rattle.std.specs.Prelude.{◌≡◌, ◌≤◌, ◌<◌, ℕ, cond, length, nat_eq, nat_lt, set, slice_get, vec_capacity, None, Some, filter, option_copied};
ghost use Rattle.std.specs.Prelude.{false, not, true, IfNone, IfSome};
ghost use Rattle.ticket_list.specs.Rising.{IsRisingBy, prefix};
ghost use Rattle.ticket_list.specs.Slots.{changed_slot, element_at, ends_with_element, is_element, slot_for, slot_ticket, occurs_at};
ghost use Rattle.ticket_list.specs.declared.slots.Slot.TheVariants.{Mark};

use crate::ticketed::{Change, Ticketed};
use std::mem;

// An element, or the mark of a removed element, with this element's ticket.
#[derive(Drop)]
pub(crate) enum Slot<T> {
    Element(T),
    Mark(u64),
}

// The ticket of the element in a slot, or of the removed element.
fn slot_ticket<T: Ticketed>(slot: &Slot<T>) -> u64
    ensures { result ≡ slot_ticket T.ticket_of slot.now }
{
    match slot {
        Slot::Element(element) => element.ticket(),
        Slot::Mark(ticket) => *ticket,
    }
}

fn is_element<T>(slot: &Slot<T>) -> bool
    ensures { result ≡ is_element slot.now }
{
    match slot {
        Slot::Element(_) => true,
        Slot::Mark(_) => false,
    }
}

// The number of slots with a lower ticket.
fn count_below<T: Ticketed>(slots: &[Slot<T>], ticket: u64) -> usize
    requires { IsRisingBy (slot_ticket T.ticket_of) slots.now }
    ensures count { result ≡ prefix (λ s. nat_lt (slot_ticket T.ticket_of s) ticket) slots.now }
    ensures bound { result ≤ length slots.now }
{
    slots.partition_point(|slot| slot_ticket(slot) < ticket)
}

// The element in a slot, if there is one.
pub(crate) fn element_at<T>(slots: &[Slot<T>], slot: usize) -> Option<&T>
    ensures { option_copied result ≡ element_at slots.now slot }
{
    match slots.get(slot) {
        Some(Slot::Element(element)) => Some(element),
        Some(Slot::Mark(_)) => None,
        None => None,
    }
}

// Whether the slot has an element with this ticket.
fn occurs_at<T: Ticketed>(slots: &[Slot<T>], slot: usize, ticket: u64) -> bool
    ensures { result ≡ occurs_at T.ticket_of slots.now slot ticket }
{
    match element_at(slots, slot) {
        Some(element) => element.ticket() == ticket,
        None => false,
    }
}

// The slot of a ticket, if no ticket is missing between the first slot's ticket and this ticket.
fn unbroken_slot<T: Ticketed>(slots: &[Slot<T>], ticket: u64) -> usize {
    match slots {
        [] => 0,
        [first, ..] => ticket.saturating_sub(slot_ticket(first)) as usize,
    }
}

// The slot of the element with this ticket. No search is needed if no ticket before it is missing.
pub(crate) fn slot_of<T: Ticketed>(slots: &[Slot<T>], ticket: u64) -> Option<usize>
    requires { IsRisingBy (slot_ticket T.ticket_of) slots.now }
    ensures slot { IfSome result (λ k. k ≡ slot_for T.ticket_of ticket slots.now) }
    ensures present { IfSome result (λ k. occurs_at T.ticket_of slots.now k ticket ≡ true) }
    ensures absent { IfNone result (occurs_at T.ticket_of slots.now (slot_for T.ticket_of ticket slots.now) ticket ≡ false) }
{
    let unbroken = unbroken_slot(slots, ticket);
    if occurs_at(slots, unbroken, ticket) {
        return Some(unbroken);
    }
    let slot = count_below(slots, ticket);
    if occurs_at(slots, slot, ticket) {
        Some(slot)
    } else {
        None
    }
}

fn change_slot<T, C: Change<T>>(slots: &mut [Slot<T>], slot: usize, change: &C)
    requires { slot < length slots.old }
    ensures { slots.new ≡ changed_slot slot (C.changed change.now) slots.old }
{
    match &mut slots[slot] {
        Slot::Element(element) => change.change(element),
        Slot::Mark(_) => (),
    }
}

// Changes the element in a slot.
pub(crate) fn change_at<T, C: Change<T>>(slots: &mut Vec<Slot<T>>, slot: usize, change: &C)
    requires { slot < length slots.old.items }
    ensures slots { slots.new.items ≡ changed_slot slot (C.changed change.now) slots.old.items }
    ensures capacity { vec_capacity slots.new ≡ vec_capacity slots.old }
{
    change_slot(slots, slot, change);
}

fn mark_slot<T>(slots: &mut [Slot<T>], slot: usize, ticket: u64) -> Option<T>
    requires { slot < length slots.old }
    ensures element { result ≡ element_at slots.old slot }
    ensures slots { slots.new ≡ set slots.old slot (Mark ticket) }
{
    match mem::replace(&mut slots[slot], Slot::Mark(ticket)) {
        Slot::Element(element) => Some(element),
        Slot::Mark(_) => None,
    }
}

// Replaces the element in a slot by a mark, and returns the element.
pub(crate) fn mark<T>(slots: &mut Vec<Slot<T>>, slot: usize, ticket: u64) -> Option<T>
    requires { slot < length slots.old.items }
    ensures element { result ≡ element_at slots.old.items slot }
    ensures slots { slots.new.items ≡ set slots.old.items slot (Mark ticket) }
{
    mark_slot(slots, slot, ticket)
}

// Removes the marks from the slots.
pub(crate) fn close_up<T: Drop>(slots: &mut Vec<Slot<T>>)
    ensures { slots.new.items ≡ filter is_element slots.old.items }
{
    slots.retain(|slot| is_element(slot));
}

// Whether the last slot is a mark.
pub(crate) fn ends_with_mark<T>(slots: &[Slot<T>]) -> bool
    ensures { result ≡ not (ends_with_element slots.now) }
{
    match slots {
        [] => false,
        [.., last] => !is_element(last),
    }
}
