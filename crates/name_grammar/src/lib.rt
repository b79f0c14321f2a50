//! What the grammars of both bindings share: the place at which a text stops fitting a grammar, ways to combine
//! scanners, and scanners of given bytes.
//!
//! The contracts of the bindings use the definitions. The proofs of these contracts use the lemmas.
#![tactic(auto)]

mod scan;

pub use scan::{but_last, prefix_of, scan_byte, scan_literal};
