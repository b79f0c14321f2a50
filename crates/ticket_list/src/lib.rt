//! A list whose elements have tickets: numbers that rise from the first element to the last. Any element can be
//! removed. A removal moves few other elements, so its cost hardly depends on the length of the list.
//!
//! In contracts the list is a plain list. An element is found by its ticket or by its place, by a binary search. A
//! caller that keeps tickets, and no places, has nothing to renumber after a removal. Rising lists of tickets alone are
//! plain vectors ([`add_ticket`], [`append_ticket`], [`remove_ticket`]).
#![tactic(auto)]

mod list;
mod marks;
mod slots;
mod ticketed;
mod tickets;

pub use list::TicketList;
pub use ticketed::{Change, Ticketed};
pub use tickets::{add_ticket, append_ticket, remove_ticket};
