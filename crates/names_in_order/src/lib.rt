//! Lists of names by their numbers in a shared table of names. Each list keeps the order in which its names were added.
//! A search by product returns the names that a given name covers, and compares only few names.
//!
//! A [`GrowingNames`] keeps the numbers of names, and none of them is ever removed. Together with its table
//! ([`GrowingNames::with`]) it is a list of names. A name is found by its hash, by its place or by its product. From a
//! [`ChangingNames`], names can also be removed. A [`MarkedNumbers`] keeps only numbers, for callers that find names
//! without an index.
//!
//! By the law [`orders_stay`], a list is unchanged if other lists hold and release names of the table. The law
//! [`orders_without`] describes a list after a number was removed. If a list has a table for itself, the list holds
//! each name once: [`add_name`] appends a name to either kind of list ([`PushHeld`]).
//!
//! A call that reserves takes all memory for a name, and the call that adds this name can't fail
//! ([`GrowingNames::reserve`], [`GrowingNames::push`]).
#![tactic(auto)]

mod added;
mod changing;
mod free_place;
mod growing;
pub mod law;
mod marked;
mod numbers;
mod owned;

pub use added::PushNumber;
pub use changing::ChangingNames;
pub use growing::{GrowingNames, NamesInOrder};
pub use marked::MarkedNumbers;
pub use owned::{PushHeld, add_name};
