//! The values of an attribute (NIST IR 7695, 5.3): ANY, NA, or a text of a lead, a body and a trail.
//!
//! [`Pattern::new`] makes a text, or returns what is wrong with its parts. A [`ValueRef`] is a borrowed value: it is to
//! [`Value`] as `&str` is to `String`. The module `spelling` has the spelling of a text in a well-formed name (5.3) and
//! in a formatted string (6.2). The module `scan` has the scanners of spelled texts. If a scanner depends on the style
//! of the spelling, the style is its parameter. Scanners allocate no memory.
#![tactic(auto)]

ghost use Rattle.std.specs.Prelude.{◌≡◌, ◌++◌, ℕ, List, Ok};
ghost use Rattle.name_grammar.specs.Scanned.{Scans, HeadFails};
ghost use Rattle.cpe_values.specs.declared.spelling.Style.{Style};
ghost use Rattle.cpe_values.specs.Scanning.{is_star, is_mark, edge_end, stem_end};
ghost use Rattle.cpe_values.specs.Stems.{IsEdgeText, IsStem, EndsStem};

mod bare;
mod borrowed;
mod case;
mod equal;
mod scan;
mod short;
mod spelling;
mod unspell;
mod value;

pub use bare::{skip_bare, skip_lower_word, skip_word};
pub use borrowed::{TextRef, ValueRef};
pub use out_of_memory::Memory;
pub use scan::{scan_edge, scan_stem, starts_body};
pub use spelling::{Style, is_bare_byte, is_digit_byte, is_letter_byte, push_spelling};
pub use unspell::{lend_spelling, read_spelling};
pub use value::{Edge, Pattern, Value, ValueFault};

/// Law: [`scan_edge`] takes exactly the spelled leads and trails, and [`scan_stem`] takes exactly the spelled bodies
/// with their trails. Each such text is taken if the bytes after it don't extend it. A scanner stops at the first byte
/// at which no such text can continue.
pub fn spelled_texts()
    ensures edges { Scans IsEdgeText edge_end }
    ensures edge { (u r : List ℕ) → IsEdgeText u → HeadFails is_star r → HeadFails is_mark r → edge_end (u ++ r) ≡ Ok r }
    ensures stems { (here : Style) → Scans (IsStem here) (stem_end here) }
    ensures stem { (here : Style) (u r : List ℕ) → IsStem here u → EndsStem here r → stem_end here (u ++ r) ≡ Ok r }
{}
