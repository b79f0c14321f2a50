//! Formatted strings: the binding that writes a name as eleven components (NIST IR 7695, 6.2).
//!
//! A text is scanned once, from left to right, without allocation. The scan decides whether the text is a formatted
//! string, and finds its components. From these components, a function makes the name, or writes another text of the
//! name.
#![tactic(auto)]

ghost use Rattle.std.specs.Prelude.{◌≡◌, ℕ, List, ◌+◌, ◌*◌, ◌≤◌, length, Ok, Err, Some, None, IfOk, IfErr, MatchResult};
ghost use Rattle.cpe_name.specs.Prelude.{IsName, IsWfnText, Values, WfnText};
ghost use Rattle.cpe_name.specs.Text.{output_text};
ghost use Rattle.cpe_fs.specs.Grammar.{fs_text, Fs, LeavesAt, RefusesFs};
ghost use Rattle.cpe_fs.specs.Bound.{bound, Binds};
ghost use Rattle.cpe_fs.specs.Unbound.{read_fs, unbound, HasOutputText};
ghost use Rattle.cpe_fs.specs.Writing.{WritesBound, WritesOutput};

mod bind;
mod bound;
mod component;
mod lend;
mod scan;
mod values;
mod write;

use crate::bound::put_string;
use crate::scan::scan_fs;
use crate::values::Components;
use crate::write::FromComponents;
pub use bind::{append_fs, bind_fs, fs_len};
pub use component::{ComponentFault, bind_component, read_component_is, unbind_component};
use cpe_name::{put_output, read_name, scan_wfn};
pub use cpe_name::{ATTRIBUTES, Attribute, NameRef, Wfn};
pub use lend::lend_fs;
use std::alloc::Global;
use thiserror::Error;

/// A bound on the bytes of an output text that aren't in its values: names of attributes, brackets, commas and quotes.
pub const UNBOUND_FRAME: usize = 127;

/// A bound on the bytes of a formatted string that aren't in the values of the text from which it is made: `cpe:2.3`,
/// eleven colons, and a `*` for each value that the text omits.
pub const BOUND_FRAME: usize = 29;

/// Why no name was read from a text.
#[derive(Clone, Copy, Debug, PartialEq, Eq, Error)]
pub enum FsFault {
    /// No name has this text. The number is the place at which the text goes wrong: the length of its longest beginning
    /// that is also the beginning of a formatted string. The text has an error at the byte after that beginning, or
    /// ends there too early.
    #[error("no name has this text: it goes wrong at byte {0}")]
    At(usize),
    /// Memory ran out.
    #[error("out of memory")]
    Memory,
}

/// The name that has this formatted string (NIST IR 7695, 6.2.3). Letters keep their case.
///
/// # Errors
///
/// `At` with the place, exactly if no name has this text. `Memory` if a name has this text, but memory runs out.
pub fn unbind_fs(alloc: Global, text: &[u8]) -> Result<Wfn, FsFault>
    // The returned name has this text.
    ensures found { IfOk result (λ name. Fs name text.now) }
    // If a name has this text, it is returned, unless memory runs out.
    ensures only { (name : Values) → Fs name text.now → MatchResult result (λ found. found ≡ name) (λ fault. fault ≡ FsFault.Memory) }
    // The error `At` has the place of the text, which no name has. The error `Memory` means that some name has the
    // text.
    ensures refused { IfErr result (λ fault. RefusesFs fault text.now) }
{
    let components = match scan_fs(text) {
        Ok(components) => components,
        Err(left) => return Err(FsFault::At(text.len() - left)),
    };
    match read_name(&mut Components { alloc }, &components) {
        Ok(name) => Ok(name),
        Err(_) => Err(FsFault::Memory),
    }
}

/// Writes an output text into `room`, from `at` on, and returns the place after it. It is the output text of the name
/// that has this formatted string. The bytes of `room` from the returned place on are unspecified. Allocates: no.
///
/// # Errors
///
/// The place of the text as in [`FsFault::At`], exactly if no name has it. `room` is then unchanged.
pub fn write_unbound(room: &mut [u8], at: usize, text: &[u8]) -> Result<usize, usize>
    requires { at + 2 * length text.now + UNBOUND_FRAME ≤ length room.old }
    ensures { WritesOutput Fs LeavesAt unbound text.now at (at + 2 * length text.now + UNBOUND_FRAME) room.old room.new result }
{
    match scan_fs(text) {
        Ok(components) => Ok(put_output::<FromComponents>(room, at, &components)),
        Err(left) => Err(text.len() - left),
    }
}

/// Law: `read_fs` returns the name that has a text as its formatted string. If no name has the text, it returns the
/// text's place.
pub fn read_fs_is()
    ensures named { (name : Values) (s : List ℕ) → Fs name s → read_fs s ≡ Ok name }
    ensures found { (name : Values) (s : List ℕ) → read_fs s ≡ Ok name → Fs name s }
    ensures refused { (s : List ℕ) (place : ℕ) → read_fs s ≡ Err place → LeavesAt s place }
{}

/// Law: `unbound` returns the output text of the name that has a text as its formatted string. If no name has the text,
/// it returns the text's place.
pub fn unbound_is()
    ensures named { (name : Values) (s : List ℕ) → Fs name s → unbound s ≡ Ok (output_text name) }
    ensures found { (s text : List ℕ) → unbound s ≡ Ok text → HasOutputText s text }
    ensures refused { (s : List ℕ) (place : ℕ) → unbound s ≡ Err place → LeavesAt s place }
{}

/// Law: each name has one formatted string, and no text is the formatted string of two names. So, from what [`bind_fs`]
/// writes, [`unbind_fs`] reads the same name. And `bind_fs` writes again each text that `unbind_fs` has read.
pub fn one_text()
    ensures some { (name : Values) → IsName name → Fs name (fs_text name) }
    ensures text { (name : Values) (a b : List ℕ) → Fs name a → Fs name b → a ≡ b }
    ensures name { (a b : Values) (text : List ℕ) → Fs a text → Fs b text → a ≡ b }
{}

/// Writes a formatted string into `room`, from `at` on, and returns the place after it. It is the formatted string of
/// the name that has this text (NIST IR 7695, 5 and 6.2.2). The bytes of `room` from the returned place on are
/// unspecified. Returns `None` exactly if no name has the text; `room` is then unchanged. Allocates: no.
pub fn write_bound(room: &mut [u8], at: usize, text: &[u8]) -> Option<usize>
    requires { at + length text.now + BOUND_FRAME ≤ length room.old }
    ensures { WritesBound fs_text bound text.now at (at + length text.now + BOUND_FRAME) room.old room.new result }
{
    let Some(written) = scan_wfn(text) else {
        return None;
    };
    Some(put_string(room, at, &written))
}

/// Law: `bound` returns the formatted string of the name that has a text. If no name has the text, it returns nothing.
pub fn bound_is()
    ensures named { (name : Values) (s : List ℕ) → WfnText name s → bound s ≡ Some (fs_text name) }
    ensures found { (s text : List ℕ) → bound s ≡ Some text → Binds s text }
    ensures none { (s : List ℕ) → bound s ≡ None → ¬ (IsWfnText s) }
{}
