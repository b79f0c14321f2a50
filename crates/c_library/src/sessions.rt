// Sessions that C keeps. C passes to these calls only what they left in `kept`.
ghost use Rattle.std.specs.Prelude.{◌≡◌, ◌<◌, IsSome, None};
ghost use Rattle.c_library.specs.CallResults.{ReturnsCode};
ghost use Rattle.c_library.specs.Holding.{BeginsCall, Moves};
ghost use Rattle.c_library.specs.Talk.{Repeats, TakesEnd, TakesLine};

use crate::call_result::{Answer, CallResult};
use crate::kept::{KeptTalk, discard, keep_begun};
use crate::talk::{Talk, end, repeat, say};
use line_session::Steps;
use std::alloc::Global;
use std::marker::Brand;
use std::mem::replace;
use std::sync::ledger::{Blank, Ledger};

/// Begins a session of the command that one word names, or two words, and keeps the session in `kept`. `second` is
/// empty if one word names the command. The session answers lines as a run of this command does. If no session
/// begins, `kept` is unchanged. `kept` must have no session before the call, because that session would not be
/// dropped.
#[unsafe(no_mangle)]
pub extern "C" fn cpe_c_begin(
    alloc: Global,
    word: &[u8],
    second: &[u8],
    kept: &mut KeptTalk,
) -> Answer
    requires { kept.old.value ≡ None }
    ensures { ReturnsCode (BeginsCall word.now second.now kept.old.value kept.new.value) result }
{
    keep_begun(alloc, word, second, kept).in_c()
}

/// Answers a line: `out` has the bytes that a run would have written for it. If `out` is too short for them, nothing
/// is written, and the number of the result is their length; [`cpe_c_again`] writes them. A text with a newline is no
/// line. A session takes no line if it ended before, or if memory ran out in it before. In these cases the session is
/// unchanged, and the code says why.
#[unsafe(no_mangle)]
pub extern "C" fn cpe_c_line(
    alloc: Global,
    kept: &mut KeptTalk,
    piece: &[u8],
    out: &mut [u8],
) -> Answer
    requires { IsSome kept.old.value }
    ensures { Moves kept.old.value kept.new.value (λ old new. TakesLine old new piece.now out.old out.new) result }
{
    let mut whole = replace(kept, KeptTalk::none(alloc)).into_box();
    let call_result = say_counted::<Brand>(alloc, &mut whole, piece, out, Blank::new(1));
    *kept = KeptTalk::of(whole);
    call_result.in_c()
}

// Answers a line, and counts looks in a ledger of its own.
fn say_counted<L: Ledger>(
    alloc: Global,
    talk: &mut Talk,
    piece: &[u8],
    out: &mut [u8],
    blank: Blank,
) -> CallResult
    requires name { blank.name ≡ L.name }
    requires parts { blank.parts ≡ L.parts }
    requires some { 0 < blank.parts }
    ensures { TakesLine talk.old talk.new piece.now out.old out.new result }
{
    let mut steps = Steps::<L>::new(blank);
    say(alloc, talk, piece, out, &mut steps)
}

/// Ends a session: `out` has the bytes that a run would have written at the end, and `status` is the exit status of
/// that run. If `out` is too short, nothing is written, and the number of the result is the length of the bytes. If
/// the session ended before, or memory ran out in it before, the session and `status` are unchanged.
#[unsafe(no_mangle)]
pub extern "C" fn cpe_c_end(
    alloc: Global,
    kept: &mut KeptTalk,
    out: &mut [u8],
    status: &mut u8,
) -> Answer
    requires { IsSome kept.old.value }
    ensures { Moves kept.old.value kept.new.value (λ old new. TakesEnd old new out.old out.new status.old status.new) result }
{
    let mut whole = replace(kept, KeptTalk::none(alloc)).into_box();
    let call_result = end_counted::<Brand>(alloc, &mut whole, out, status, Blank::new(1));
    *kept = KeptTalk::of(whole);
    call_result.in_c()
}

fn end_counted<L: Ledger>(
    alloc: Global,
    talk: &mut Talk,
    out: &mut [u8],
    status: &mut u8,
    blank: Blank,
) -> CallResult
    requires name { blank.name ≡ L.name }
    requires parts { blank.parts ≡ L.parts }
    requires some { 0 < blank.parts }
    ensures { TakesEnd talk.old talk.new out.old out.new status.old status.new result }
{
    let mut steps = Steps::<L>::new(blank);
    end(alloc, talk, out, status, &mut steps)
}

/// Writes the last answer into `out` again, unless memory ran out in the session. If `out` is too short, nothing is
/// written, and the number of the result is the length of the bytes.
#[unsafe(no_mangle)]
pub extern "C" fn cpe_c_again(alloc: Global, kept: &mut KeptTalk, out: &mut [u8]) -> Answer
    requires { IsSome kept.old.value }
    ensures { Moves kept.old.value kept.new.value (λ old new. Repeats old new out.old out.new) result }
{
    let whole = replace(kept, KeptTalk::none(alloc)).into_box();
    let call_result = repeat(&whole, out);
    *kept = KeptTalk::of(whole);
    call_result.in_c()
}

/// Drops a session. Then `kept` has none.
#[unsafe(no_mangle)]
pub extern "C" fn cpe_c_close(alloc: Global, kept: &mut KeptTalk)
    requires { IsSome kept.old.value }
    ensures { kept.new.value ≡ None }
{
    discard(replace(kept, KeptTalk::none(alloc)).into_box());
}
