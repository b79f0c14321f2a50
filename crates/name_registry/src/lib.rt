//! The known names, and who holds them: one table of names, the entries of a dictionary (NIST IR 7697), and the items
//! of an inventory (NIST IR 7698). Entries and items are numbers of this table.
//!
//! A [`Registry`] holds a name once for each entry and each item that has it. An edit in progress, or a statement, may
//! hold further names. A name is moved into the table or found by its hash once ([`Registry::hold`],
//! [`Registry::find`]). After that its number is used, also for the ends of a name and for the names that lead to it
//! ([`Registry::ends_of`], [`Registry::sources_of`]). By the property `AreHeld`, the table has exactly the held names.
//! The contract of each function says how these names change.
//!
//! A registry keeps the order of the items, and no index of them by product. It puts items that others found into this
//! order ([`Registry::items_in_order`], [`Registry::first_item_of`]).
//!
//! All memory for an entry, an item or a changed deprecation is taken first ([`Registry::reserve_entry`],
//! [`Registry::reserve_item`], [`Registry::reserve_change`]). Then the change is made, and can't fail.
#![tactic(auto)]

mod ends;
mod faults;
mod given;
mod items;
mod registry;

pub use check_results::Checks;
pub use registry::Registry;
