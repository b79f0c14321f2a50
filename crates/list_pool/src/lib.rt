//! Many lists of numbers in one vector of slots, for owners whose lists must grow without taking memory.
//!
//! Only [`Pool::reserve`] takes memory. In contracts a [`Pool`] shows the list of each live name, with the cell of each
//! element. It also shows the number `spare`: how many lists and cells can be added without memory. Slots of removed
//! elements and lists are used again. A slot has 16 bytes. A list takes one slot, and one more for each of its
//! elements.
//!
//! [`Pool::first`] and [`Pool::next`] visit the cells of a list, and [`Pool::value`] reads a cell. Nothing is copied.
#![tactic(auto)]

mod pool;
mod store;

pub use out_of_memory::Memory;
pub use pool::{CellName, ListName, MOST_SLOTS, Pool};
