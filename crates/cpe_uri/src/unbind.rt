// Reads URIs, and texts in either binding: returns their names, or writes the output texts of these names (NIST IR
// 7695, 6.1.3 and 6.2.3).
ghost use Rattle.std.specs.Prelude.{◌≡◌, ℕ, List, ◌+◌, ◌*◌, ◌≤◌, length, Ok, Err, IfOk, IfErr, MatchResult};
ghost use Rattle.cpe_name.specs.Eleven.{Values};
ghost use Rattle.cpe_name.specs.Text.{output_text};
ghost use Rattle.cpe_fs.specs.Writing.{WritesOutput};
ghost use Rattle.cpe_uri.specs.Grammar.{Uri, LeavesUri, RefusesUri};
ghost use Rattle.cpe_uri.specs.Unbound.{read_uri, unbound_uri, SaysUri};
ghost use Rattle.cpe_uri.specs.EitherBinding.{begins_as_uri, UriOrFs, LeavesUriOrFs, RefusesUriOrFs, SaysFault, read_any, unbound_any, SaysAny};

use crate::scan::scan_uri;
use crate::values::name_at;
use crate::write::FromPieces;
use crate::{UNBOUND_FRAME, UriFault};
use cpe_fs::{FsFault, unbind_fs, write_unbound};
use cpe_name::{Wfn, put_output};
use std::alloc::Global;

/// The name that has this URI, in any accepted spelling (NIST IR 7695, 6.1.3). The name is in lower case.
///
/// # Errors
///
/// `At` with the place, exactly if no name has this text. `Memory` if a name has this text, but memory runs out.
pub fn unbind_uri(alloc: Global, text: &[u8]) -> Result<Wfn, UriFault>
    // The returned name has this text.
    ensures found { IfOk result (λ name. Uri name text.now) }
    // If a name has this text, it is returned, unless memory runs out.
    ensures only { (name : Values) → Uri name text.now → MatchResult result (λ found. found ≡ name) (λ fault. fault ≡ UriFault.Memory) }
    // The error `At` has the place of the text, which no name has. The error `Memory` means that some name has the
    // text.
    ensures refused { IfErr result (λ fault. RefusesUri fault text.now) }
{
    let spans = match scan_uri(text) {
        Ok(spans) => spans,
        Err(left) => return Err(UriFault::At(text.len() - left)),
    };
    Ok(name_at(alloc, &spans)?)
}

/// Writes an output text into `room`, from `at` on, and returns the place after it. It is the output text of the name
/// that has this URI. The bytes of `room` from the returned place on are unspecified. Allocates: no.
///
/// # Errors
///
/// The place of the text as in [`UriFault::At`], exactly if no name has it. `room` is then unchanged.
pub fn write_unbound_uri(room: &mut [u8], at: usize, text: &[u8]) -> Result<usize, usize>
    requires { at + 2 * length text.now + UNBOUND_FRAME ≤ length room.old }
    ensures { WritesOutput Uri LeavesUri unbound_uri text.now at (at + 2 * length text.now + UNBOUND_FRAME) room.old room.new result }
{
    match scan_uri(text) {
        Ok(spans) => Ok(put_output::<FromPieces>(room, at, &spans)),
        Err(left) => Err(text.len() - left),
    }
}

/// Law: `read_uri` returns the name that has a text as its URI. If no name has the text, it returns the text's place.
pub fn read_uri_is()
    ensures named { (name : Values) (s : List ℕ) → Uri name s → read_uri s ≡ Ok name }
    ensures found { (name : Values) (s : List ℕ) → read_uri s ≡ Ok name → Uri name s }
    ensures refused { (s : List ℕ) (place : ℕ) → read_uri s ≡ Err place → LeavesUri s place }
{}

/// Law: `unbound_uri` returns the output text of the name that has a text as its URI. If no name has the text, it
/// returns the text's place.
pub fn unbound_uri_is()
    ensures named { (name : Values) (s : List ℕ) → Uri name s → unbound_uri s ≡ Ok (output_text name) }
    ensures found { (s text : List ℕ) → unbound_uri s ≡ Ok text → SaysUri s text }
    ensures refused { (s : List ℕ) (place : ℕ) → unbound_uri s ≡ Err place → LeavesUri s place }
{}

pub(crate) fn begins_as_uri(text: &[u8]) -> bool
    ensures { result ≡ begins_as_uri text.now }
{
    matches!(
        text,
        [b'c' | b'C', b'p' | b'P', b'e' | b'E', b':', b'/', ..]
    )
}

impl From<FsFault> for UriFault {
    ghost use Rattle.std.specs.Prelude.{◌≡◌};
    ghost use Rattle.cpe_uri.specs.EitherBinding.{same_fault};

    ghost from_gives = { λ fault e. e ≡ same_fault fault };

    fn from(fault: FsFault) -> UriFault {
        match fault {
            FsFault::At(place) => UriFault::At(place),
            FsFault::Memory => UriFault::Memory,
        }
    }
}

/// The name that has this text in one of the two bindings (NIST IR 7695, 6.1.3 and 6.2.3). A text that begins with
/// `cpe:/`, in any letter case, is read as by [`unbind_uri`]. Any other text is read as by [`unbind_fs`].
///
/// # Errors
///
/// `At` with the place, exactly if no name has this text. `Memory` if a name has this text, but memory runs out.
pub fn unbind_any(alloc: Global, text: &[u8]) -> Result<Wfn, UriFault>
    ensures found { IfOk result (λ name. UriOrFs name text.now) }
    ensures only { (name : Values) → UriOrFs name text.now → MatchResult result (λ found. found ≡ name) (λ fault. fault ≡ UriFault.Memory) }
    ensures refused { IfErr result (λ fault. RefusesUriOrFs fault text.now) }

    // The result equals that of the function `read_any`.
    ensures read { MatchResult result (λ name. read_any text.now ≡ Ok name) (λ fault. SaysFault fault (read_any text.now)) }
{
    read_either(alloc, text)
}

// This function is apart from its only caller, `unbind_any`. So the prover derives the caller's clause `read` from
// these three clauses alone.
fn read_either(alloc: Global, text: &[u8]) -> Result<Wfn, UriFault>
    ensures found { IfOk result (λ name. UriOrFs name text.now) }
    ensures only { (name : Values) → UriOrFs name text.now → MatchResult result (λ found. found ≡ name) (λ fault. fault ≡ UriFault.Memory) }
    ensures refused { IfErr result (λ fault. RefusesUriOrFs fault text.now) }
{
    if begins_as_uri(text) {
        return unbind_uri(alloc, text);
    }
    Ok(unbind_fs(alloc, text)?)
}

/// Writes an output text into `room`, from `at` on, and returns the place after it. It is the output text of the name
/// that [`unbind_any`] reads from this text. The bytes of `room` from the returned place on are unspecified. Allocates:
/// no.
///
/// # Errors
///
/// The place of the text as in [`UriFault::At`], exactly if no name has it. `room` is then unchanged.
pub fn write_unbound_any(room: &mut [u8], at: usize, text: &[u8]) -> Result<usize, usize>
    requires { at + 2 * length text.now + UNBOUND_FRAME ≤ length room.old }
    ensures { WritesOutput UriOrFs LeavesUriOrFs unbound_any text.now at (at + 2 * length text.now + UNBOUND_FRAME) room.old room.new result }
{
    if begins_as_uri(text) {
        write_unbound_uri(room, at, text)
    } else {
        write_unbound(room, at, text)
    }
}

/// Law: `read_any` returns the name that has a text in one of the two bindings. If no name has the text, it returns the
/// text's place.
pub fn read_any_is()
    ensures named { (name : Values) (s : List ℕ) → UriOrFs name s → read_any s ≡ Ok name }
    ensures found { (name : Values) (s : List ℕ) → read_any s ≡ Ok name → UriOrFs name s }
    ensures refused { (s : List ℕ) (place : ℕ) → read_any s ≡ Err place → LeavesUriOrFs s place }
{}

/// Law: `unbound_any` returns the output text of the name that has a text in one of the two bindings. If no name has
/// the text, it returns the text's place.
pub fn unbound_any_is()
    ensures named { (name : Values) (s : List ℕ) → UriOrFs name s → unbound_any s ≡ Ok (output_text name) }
    ensures found { (s text : List ℕ) → unbound_any s ≡ Ok text → SaysAny s text }
    ensures refused { (s : List ℕ) (place : ℕ) → unbound_any s ≡ Err place → LeavesUriOrFs s place }
{}
