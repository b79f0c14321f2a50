// A session that C keeps.
ghost use Rattle.std.specs.Prelude.{◌≡◌, true, false};
ghost use Rattle.line_session.specs.cpe_io.Lines.{has_newline};
ghost use Rattle.c_library.specs.CallResults.{FitsBuffer};
ghost use Rattle.c_library.specs.Talk.{EndsCall, SpeaksCall};

use crate::call_result::CallResult;
use crate::forms::give;
use crate::speaking::{Speaking, fall_silent, speak};
use line_session::{Progress, Steps};
use memchr::memchr;
use std::alloc::Global;
use std::sync::ledger::Ledger;

/// What a session still accepts.
#[derive(Clone, Copy)]
pub(crate) enum Phase {
    /// The session accepts lines, and its end.
    Open,
    /// The session ended. Its last answer can be read again.
    Ended,
    /// Memory ran out in the session. It answers nothing more.
    Broken,
}

/// A session whose lines are given one by one: the command that answers them, the progress so far, and the last
/// answer.
#[derive(Drop)]
pub(crate) struct Talk {
    pub(crate) speaking: Speaking,
    pub(crate) progress: Progress,
    pub(crate) phase: Phase,
}

/// Answers a line: `out` has the bytes that a run would have written for it. If `out` is too short for them, nothing
/// is written, and the number of the result is their length. A text with a newline is no line: the session is
/// unchanged then. It is also unchanged if it ended before, or if memory ran out in it before. If memory runs out in
/// this call, the session takes no more lines.
pub(crate) fn say<L: Ledger>(
    alloc: Global,
    talk: &mut Talk,
    piece: &[u8],
    out: &mut [u8],
    steps: &mut Steps<L>,
) -> CallResult
    ensures over { (talk.old.phase ≡ Phase.Open → ⊥) → (result ≡ CallResult.Over) × (talk.new ≡ talk.old) }
    ensures line { talk.old.phase ≡ Phase.Open → has_newline piece.now ≡ true → (result ≡ CallResult.NotALine) × (talk.new ≡ talk.old) }
    ensures said { talk.old.phase ≡ Phase.Open → has_newline piece.now ≡ false → SpeaksCall talk.old talk.new piece.now out.old out.new result }
{
    match talk.phase {
        Phase::Open if has_newline(piece) => CallResult::NotALine,
        Phase::Open => say_line(alloc, talk, piece, out, steps),
        Phase::Ended | Phase::Broken => CallResult::Over,
    }
}

fn has_newline(piece: &[u8]) -> bool
    ensures { result ≡ has_newline piece.now }
{
    memchr(b'\n', piece).is_some()
}

fn say_line<L: Ledger>(
    alloc: Global,
    talk: &mut Talk,
    piece: &[u8],
    out: &mut [u8],
    steps: &mut Steps<L>,
) -> CallResult
    requires { talk.old.phase ≡ Phase.Open }
    ensures { SpeaksCall talk.old talk.new piece.now out.old out.new result }
{
    match speak(alloc, &mut talk.speaking, &mut talk.progress, piece, steps) {
        Ok(()) => give(talk.progress.page.text(), out),
        Err(_) => {
            talk.phase = Phase::Broken;
            CallResult::Memory
        }
    }
}

/// Ends a session: `out` has the bytes that a run would have written at the end, and `status` is the exit status of
/// that run. If `out` is too short, nothing is written, and the number of the result is the length of the bytes. If
/// the session ended before, or memory ran out in it before, the session and `status` are unchanged.
pub(crate) fn end<L: Ledger>(
    alloc: Global,
    talk: &mut Talk,
    out: &mut [u8],
    status: &mut u8,
    steps: &mut Steps<L>,
) -> CallResult
    ensures over { (talk.old.phase ≡ Phase.Open → ⊥) → (result ≡ CallResult.Over) × (talk.new ≡ talk.old) × (status.new ≡ status.old) }
    ensures ended { talk.old.phase ≡ Phase.Open → EndsCall talk.old talk.new out.old out.new status.new result }
{
    match talk.phase {
        Phase::Open => end_open(alloc, talk, out, status, steps),
        Phase::Ended | Phase::Broken => CallResult::Over,
    }
}

fn end_open<L: Ledger>(
    alloc: Global,
    talk: &mut Talk,
    out: &mut [u8],
    status: &mut u8,
    steps: &mut Steps<L>,
) -> CallResult
    ensures { EndsCall talk.old talk.new out.old out.new status.new result }
{
    match fall_silent(alloc, &talk.speaking, &mut talk.progress, steps) {
        Ok(ending) => {
            talk.phase = Phase::Ended;
            *status = ending.number();
            give(talk.progress.page.text(), out)
        }
        Err(_) => {
            talk.phase = Phase::Broken;
            CallResult::Memory
        }
    }
}

/// Writes the last answer into `out` again, unless memory ran out in the session. If `out` is too short, nothing is
/// written, and the number of the result is the length of the answer.
pub(crate) fn repeat(talk: &Talk, out: &mut [u8]) -> CallResult
    ensures over { talk.now.phase ≡ Phase.Broken → result ≡ CallResult.Over }
    ensures again { (talk.now.phase ≡ Phase.Broken → ⊥) → FitsBuffer talk.now.progress.page out.old out.new result }
{
    match talk.phase {
        Phase::Broken => CallResult::Over,
        Phase::Open | Phase::Ended => give(talk.progress.page.text(), out),
    }
}
