// A name in another form.
ghost use Rattle.std.specs.Prelude.{◌≡◌, ◌≤◌, ◌+◌, ◌-◌, ◌*◌, ◌^◌, min, IfOk, MatchResult, Ok, Err, length, take};
ghost use Rattle.cpe_uri.specs.declared.TheConstants.{UNBOUND_FRAME};
ghost use Rattle.c_library.specs.Forms.{form_of};
ghost use Rattle.c_library.specs.CallResults.{FitsBuffer, FillsBuffer, ReturnsCode};

use crate::call_result::{Answer, CallResult};
use byte_room::put;
use cpe_fs::write_bound;
use cpe_uri::{UNBOUND_FRAME, write_bound_uri, write_unbound_any};
use std::alloc::Global;

/// The form in which a name is written.
#[derive(Clone, Copy)]
pub(crate) enum Form {
    /// The text of the well-formed name, written from a formatted string or a URI.
    Wfn,
    /// The formatted string, written from the text of a well-formed name.
    Fs,
    /// The canonical URI, written from the text of a well-formed name.
    Uri,
}

/// Writes into `out` the text of the well-formed name that has this formatted string or URI (NIST IR 7695, 6.1.3 and
/// 6.2.3). If no name has the text, the number of the result is the place of the refusal.
///
/// If the text to write is longer than `out`, nothing is written, and the number is the length of this text.
#[unsafe(no_mangle)]
pub extern "C" fn cpe_c_unbind(alloc: Global, text: &[u8], out: &mut [u8]) -> Answer
    ensures { ReturnsCode (FillsBuffer (form_of Form.Wfn text.now) out.old out.new) result }
{
    give_form(alloc, Form::Wfn, text, out).in_c()
}

/// Writes into `out` the formatted string of the well-formed name that has this text (NIST IR 7695, 6.2.2). If no
/// name has the text, the number of the result is 0, because the refusal has no place.
///
/// If the formatted string is longer than `out`, nothing is written, and the number is the length of the string.
#[unsafe(no_mangle)]
pub extern "C" fn cpe_c_bind_fs(alloc: Global, text: &[u8], out: &mut [u8]) -> Answer
    ensures { ReturnsCode (FillsBuffer (form_of Form.Fs text.now) out.old out.new) result }
{
    give_form(alloc, Form::Fs, text, out).in_c()
}

/// Writes into `out` the canonical URI of the well-formed name that has this text (NIST IR 7695, 6.1.2). If no name
/// has the text, the number of the result is 0, because the refusal has no place.
///
/// If the URI is longer than `out`, nothing is written, and the number is the length of the URI.
#[unsafe(no_mangle)]
pub extern "C" fn cpe_c_bind_uri(alloc: Global, text: &[u8], out: &mut [u8]) -> Answer
    ensures { ReturnsCode (FillsBuffer (form_of Form.Uri text.now) out.old out.new) result }
{
    give_form(alloc, Form::Uri, text, out).in_c()
}

// Writes a name in another form into `out` (NIST IR 7695, 6.1 and 6.2). If no name has the text, the number of the
// result is the place of the refusal, or 0 if the refusal has no place. If the form is longer than `out`, nothing is
// written, and the number is the length of the form.
//
// Allocates: only if `out` is shorter than the longest form that a text of this length may have.
fn give_form(alloc: Global, form: Form, text: &[u8], out: &mut [u8]) -> CallResult
    ensures { FillsBuffer (form_of form text.now) out.old out.new result }
{
    let most = most_of(text);
    if most <= out.len() {
        return match write_form(form, out, text) {
            Ok(end) => CallResult::Done(end),
            Err(place) => CallResult::Refused(place),
        };
    }
    match Vec::from_elem(alloc, 0u8, most) {
        Ok(mut room) => give_by_room(form, text, &mut room, out),
        Err(_) => CallResult::Memory,
    }
}

// A number of bytes that is enough for any form of the text; at most the highest number of 64 bits.
fn most_of(text: &[u8]) -> usize
    ensures { result ≡ min (3 * length text.now + UNBOUND_FRAME) (2 ^ 64 - 1) }
{
    text.len().saturating_mul(3).saturating_add(UNBOUND_FRAME)
}

// Writes the form into a room that is long enough, and then into `out`.
fn give_by_room(form: Form, text: &[u8], room: &mut [u8], out: &mut [u8]) -> CallResult
    requires { 3 * length text.now + UNBOUND_FRAME ≤ length room.old }
    ensures { FillsBuffer (form_of form text.now) out.old out.new result }
{
    match write_form(form, room, text) {
        Ok(end) => give(&room[..end], out),
        Err(place) => CallResult::Refused(place),
    }
}

// Writes the form into the room. Each form has at most three bytes for each byte of the text, and the bytes of the
// frame.
fn write_form(form: Form, room: &mut [u8], text: &[u8]) -> Result<usize, usize>
    requires { 3 * length text.now + UNBOUND_FRAME ≤ length room.old }
    ensures form { MatchResult result (λ end. form_of form text.now ≡ Ok (take end room.new)) (λ place. form_of form text.now ≡ Err place) }
    ensures within { IfOk result (λ end. end ≤ length room.old) }
    ensures length { length room.new ≡ length room.old }
{
    match form {
        Form::Wfn => write_unbound_any(room, 0, text),
        Form::Fs => write_bound(room, 0, text).ok_or(0),
        Form::Uri => write_bound_uri(room, 0, text).ok_or(0),
    }
}

/// Writes a text at the beginning of `out`. If `out` is too short, writes nothing, and the number of the result is
/// the length of the text.
pub(crate) fn give(text: &[u8], out: &mut [u8]) -> CallResult
    ensures { FitsBuffer text.now out.old out.new result }
{
    if text.len() <= out.len() {
        CallResult::Done(put(out, 0, text))
    } else {
        CallResult::Short(text.len())
    }
}
