//! The relation of two names (NIST IR 7696): of each attribute, of the names as a whole, and whether one name covers
//! the other. Letters are compared in lower case. Each call answers for any two values or names. Only
//! [`deciding_order`] takes memory.
//!
//! [`compare_values`] is the report's table. A source that is a pattern has `*` or `?` before or after its body. It
//! matches a plain text that consists of characters that the lead allows, the body, and characters that the trail
//! allows. `*` allows any number of characters, `??` at most two, and an empty lead or trail none. So `sp??` matches
//! `sp`, `sp1` and `sp12`. Each way to split the text is tried: `*ab` matches `abab`.
//!
//! [`compare_names`] returns the relations of all attributes ([`Relations`]) and the relation of the names. The names
//! are DISJOINT if one attribute is DISJOINT. Otherwise they are EQUAL if all attributes are EQUAL, SUBSET if all are
//! SUBSET or EQUAL, and SUPERSET if all are SUPERSET or EQUAL. Otherwise they are UNDEFINED. [`compare_lent`] does the
//! same for names whose texts are stored elsewhere, such as in a line.
//!
//! If a name is compared with many targets, [`covers_in_order`] compares the deciding attributes first.
//! [`deciding_order`] finds their order once.
//!
//! [`near`] is a coarser relation of products: a name covers another only if its product is near the other's product.
//! The products near a given product are found by the prefixes and the ends of their texts.
//!
//! A target that is known only in part has specials. No name covers such a target, but a name may cover it ([`maybe`]):
//! each attribute is SUPERSET, EQUAL or UNDEFINED, and at least one is UNDEFINED.
//!
//! Some laws are functions without effect: [`one_relation`](law::one_relation), [`cover_laws`](law::cover_laws),
//! [`relation_laws`](law::relation_laws) and [`maybe_laws`](law::maybe_laws). Two laws that one might expect fail if names
//! have specials:
//! - [`covers`] is not reflexive for names with specials. The relation of `8.*` to itself is UNDEFINED, as is each
//!   relation to a target with a special.
//! - With specials, a relation does not give the relation of the swapped names. `8.*` to `8.0` is SUPERSET, but `8.0`
//!   to `8.*` is UNDEFINED. `sp??` to `sp123` is DISJOINT, but `sp123` to `sp??` is UNDEFINED.
//!
//! A body is found in a text by the Two-Way algorithm (module `standing`; Crochemore and Perrin, "Two-way
//! string-matching", Journal of the ACM 38, 1991). The search takes no memory. The number of compared bytes is linear
//! in the length of text and body together. This bound is a known property of the algorithm, and no clause states it.
//! The result of the search is proved. If the body is short or the places are few, each place is tried instead.
#![tactic(auto)]

mod above;
mod cut;
mod folded;
pub mod law;
mod matching;
mod names;
mod nearness;
mod order;
mod partly;
mod relation;
mod search;
mod seen;
mod standing;
mod table;

pub use cpe_values::{Edge, Memory, Pattern, Value};
pub use names::{compare_lent, compare_names, covers};
pub use nearness::near;
pub use order::{covers_in_order, deciding_order};
pub use partly::maybe;
pub use relation::{Relation, Relations};
pub use table::compare_values;
