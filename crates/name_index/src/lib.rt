//! Names by number, and indexes of names by product, so that a search compares few names.
//!
//! A [`NameTable`] keeps different names in lower case. For each name it counts the holds, and keeps the number of its
//! product. A [`NameIndex`] has some numbers of a table, by product. [`NameIndex::near`] visits the numbers whose
//! products are near a given name's product. [`NameIndex::covered_by`] returns the numbers whose names a given name
//! covers. It takes one look at each name whose product the given name's product covers.
//!
//! A look is a call of [`NameTable::look`], which counts a step. A search gets each name that it compares by a look.
//! Four things are not counted as looks: finding a name by its hash, finding a product, comparing two products, and
//! reading the name of a known number ([`NameTable::name`], [`NameTable::get`]).
//!
//! An index fits a table if each number of the index is live in the table, with the product number that the index has
//! for it. A number is live if a name has it in the table. The law [`fitting_laws`] lists the changes that keep an
//! index fitting. So a number is removed from the index before its name is released for the last time.
//!
//! A table finds the products near a given product without visiting all products. For this it keeps the numbers of its
//! products in two orders (module `products`). Each order groups the products by their shape: ANY, NA, a plain text, a
//! text with only a trail, a text with only a lead, or a text with both. Within a shape the products are sorted by
//! their bodies: in one order from the front, in the other from the back. So all products of a shape whose bodies begin
//! or end with a given text are neighbours, and two binary searches find them. `cpe_relation` defines which products
//! are near.
//!
//! An order is a list of numbers in blocks (module `blocks`). Adding a number moves at most 1,024 other numbers, and
//! the places of the blocks after it. After a removal, two neighbouring blocks that together fill at most half a block
//! become one block. So the memory stays in proportion to the numbers.
#![tactic(auto)]

mod blocks;
mod cover;
mod index;
mod keys;
pub mod law;
mod near;
mod numbered;
mod order;
mod piece;
mod products;
mod put;
mod search;
mod table;
mod take;
mod walk;
mod wanted;

pub use cpe_name::{Attribute, Wfn};
pub use cpe_values::Memory;
pub use index::NameIndex;
pub use near::Near;
pub use products::Side;
pub use step_count::Steps;
pub use table::{NameId, NameTable, ProductId};
