// The loop over the lines of a source.
ghost use Rattle.std.specs.Prelude.{◌≡◌, ◌+◌, ◌<◌, ◌^◌, ◌++◌, ◌||◌, is_err, true, Some, None, ℕ, List, OnOk, OnErr, IfSome, is_none};
ghost use Rattle.cpe_io.specs.Causes.{Rose};
ghost use Rattle.cpe_io.specs.Lines.{lines};
ghost use Rattle.cpe_io.specs.Shown.{lent};
ghost use Rattle.line_session.specs.Session.{next_says, next_writes, after_next, next_cost, text_cost, total_cost, line_says, state_after, writes, reports};
ghost use Rattle.line_session.specs.Task.{task};
ghost use Rattle.line_session.specs.Ran.{Ran, Reached, Counted, Completes};
ghost use Rattle.step_count.specs.Within.{StepsWithin};
ghost use Rattle.line_session.specs.Pages.{stage_of, Finishes, IsBeforeOrAfter};

use crate::progress::Progress;
use crate::refusal::{TooLong, push_refusal};
use crate::speaker::{NumberedLine, Reason, Speaker};
use crate::status::Status;
use cpe_io::{Found, LineReader, Sink, Source, write_all};
use std::alloc::{AllocError, Global};
use std::sync::ledger::Ledger;
use step_count::Steps;

/// The greatest number of bytes that a run takes.
pub const MOST_BYTES: u64 = 1 << 40;

/// Answers each line of the source, and returns the status of the run.
///
/// The page is written before each read, so each line is answered before the run waits for more input. The page is also
/// written whenever it has 65,536 bytes.
pub fn answer_lines<T: Speaker, S: Source, K: Sink, L: Ledger>(
    alloc: Global,
    speaker: &T,
    state: &mut T::State,
    source: &mut S,
    sink: &mut K,
    steps: &mut Steps<L>,
) -> Status
    ensures ran { Ran (S.left source.old) (S.left source.new) (K.held sink.old) (K.held sink.new) (task (T.session speaker.now) state.old)
        (Reached (T.session speaker.now) state.old state.new steps.old steps.new) result }
    ensures source { Counted Status.ReadFault (S.faults source.old) (S.faults source.new) result }
    ensures sink { Counted Status.WriteFault (K.faults sink.old) (K.faults sink.new) result }
    ensures complete { ¬ Rose (S.faults source.old) (S.faults source.new) → ¬ Rose (K.faults sink.old) (K.faults sink.new)
        → Completes (S.left source.old) (task (T.session speaker.now) state.old) result }
{
    let Ok(mut reader) = LineReader::new(alloc, MOST_BYTES) else {
        return Status::Memory;
    };
    let mut progress = Progress::new(alloc);
    loop {
        if let Err(fault) = progress.page.flush_if_due(reader.holds_line(), sink) {
            return Status::from(fault);
        }
        let found = match reader.find_line(source) {
            Ok(found) => found,
            Err(fault) => return Status::from(fault),
        };
        if is_end(found) {
            return finish(alloc, speaker, state, &mut progress, sink, steps);
        }
        if answer_line(
            alloc,
            speaker,
            state,
            &mut progress,
            found,
            reader.text(),
            steps,
        )
        .is_err()
        {
            return Status::Memory;
        }
    }
}

/// Answers each line of the source as [`answer_lines`] does, from a first state that the caller gives away.
pub fn answer_from<T: Speaker, S: Source, K: Sink, L: Ledger>(
    alloc: Global,
    speaker: &T,
    first: T::State,
    source: &mut S,
    sink: &mut K,
    steps: &mut Steps<L>,
) -> Status
where
    T::State: Drop,
    ensures ran { Ran (S.left source.old) (S.left source.new) (K.held sink.old) (K.held sink.new) (task (T.session speaker.now) first)
        (λ taken status. StepsWithin steps.old steps.new (total_cost (T.session speaker.now) first (lines taken))) result }
    ensures source { Counted Status.ReadFault (S.faults source.old) (S.faults source.new) result }
    ensures sink { Counted Status.WriteFault (K.faults sink.old) (K.faults sink.new) result }
    ensures complete { ¬ Rose (S.faults source.old) (S.faults source.new) → ¬ Rose (K.faults sink.old) (K.faults sink.new)
        → Completes (S.left source.old) (task (T.session speaker.now) first) result }
{
    let mut state = first;
    answer_lines(alloc, speaker, &mut state, source, sink, steps)
}

// Whether there are no more lines.
fn is_end(found: Found) -> bool
    ensures { (text : List ℕ) → result ≡ is_none (lent found text) }
{
    matches!(found, Found::End)
}

// Appends what a line writes to the page, and counts the line.
pub fn answer_line<T: Speaker, L: Ledger>(
    alloc: Global,
    speaker: &T,
    state: &mut T::State,
    progress: &mut Progress,
    found: Found,
    text: &[u8],
    steps: &mut Steps<L>,
) -> Result<(), AllocError>
    requires { progress.old.number + 1 < 2 ^ 64 }
    ensures text { OnOk result (IfSome (lent found text.now)
        (λ line. progress.new.page ≡ progress.old.page ++ next_writes (T.session speaker.now) (stage_of progress.old state.old) line)) }
    ensures stage { OnOk result (IfSome (lent found text.now)
        (λ line. stage_of progress.new state.new ≡ after_next (T.session speaker.now) (stage_of progress.old state.old) line)) }
    ensures err { OnErr result (IfSome (lent found text.now)
        (λ line. IsBeforeOrAfter (next_says (T.session speaker.now) (stage_of progress.old state.old) line) state.old state.new)) }
    ensures counts { IfSome (lent found text.now)
        (λ line. StepsWithin steps.old steps.new (next_cost (T.session speaker.now) (stage_of progress.old state.old) line)) }
{
    progress.number += 1;
    match found {
        Found::Text => answer_text(alloc, speaker, state, progress, text, steps),
        Found::TooLong => refuse(alloc, speaker, progress, &TooLong),
        Found::End => Ok(()),
    }
}

// Answers a line that is not too long and that is already counted: appends what it writes to the page.
fn answer_text<T: Speaker, L: Ledger>(
    alloc: Global,
    speaker: &T,
    state: &mut T::State,
    progress: &mut Progress,
    text: &[u8],
    steps: &mut Steps<L>,
) -> Result<(), AllocError>
    ensures text { OnOk result (progress.new.page ≡ progress.old.page ++ writes (T.session speaker.now).quiet progress.old.number
        (line_says (T.session speaker.now) state.old progress.old.number (Some text.now))) }
    ensures state { OnOk result (state.new ≡ state_after state.old (line_says (T.session speaker.now) state.old progress.old.number (Some text.now))) }
    ensures err { OnErr result (IsBeforeOrAfter (line_says (T.session speaker.now) state.old progress.old.number (Some text.now)) state.old state.new) }
    ensures refused { OnOk result (progress.new.refused ≡ progress.old.refused
        || is_err (line_says (T.session speaker.now) state.old progress.old.number (Some text.now))) }
    ensures number { progress.new.number ≡ progress.old.number }
    ensures counts { StepsWithin steps.old steps.new (text_cost (T.session speaker.now) state.old progress.old.number text.now) }
{
    if text.is_empty() {
        return Ok(());
    }
    let line = NumberedLine {
        number: progress.number,
        text,
    };
    match speaker.say(alloc, state, &mut progress.page, &line, steps)? {
        Some(reason) => refuse(alloc, speaker, progress, &reason),
        None => Ok(()),
    }
}

// Appends what a refused line writes to the page.
fn refuse<T: Speaker, R: Reason>(
    alloc: Global,
    speaker: &T,
    progress: &mut Progress,
    reason: &R,
) -> Result<(), AllocError>
    ensures text { OnOk result (progress.new.page ≡ progress.old.page
        ++ reports (T.session speaker.now).quiet progress.old.number (R.text reason.now)) }
    ensures refused { progress.new.refused ≡ true }
    ensures number { progress.new.number ≡ progress.old.number }
{
    progress.refused = true;
    if speaker.is_quiet() {
        return Ok(());
    }
    push_refusal(alloc, &mut progress.page, progress.number, reason)
}

// Writes the page, and then what the session writes at the end of the input.
pub fn finish<T: Speaker, K: Sink, L: Ledger>(
    alloc: Global,
    speaker: &T,
    state: &T::State,
    progress: &mut Progress,
    sink: &mut K,
    steps: &mut Steps<L>,
) -> Status
    ensures finishes { Finishes (K.held sink.old) (K.held sink.new) (progress.old.page ++ (T.session speaker.now).ends state.now) progress.old.refused result }
    ensures sink { Counted Status.WriteFault (K.faults sink.old) (K.faults sink.new) result }
    ensures read { ¬ (result ≡ Status.ReadFault) }
    ensures counts { StepsWithin steps.old steps.new ((T.session speaker.now).end_cost state.now) }
{
    if let Err(fault) = speaker.say_end(alloc, state, &mut progress.page, sink, steps) {
        return Status::from(fault);
    }
    match write_all(sink, progress.page.text()) {
        Ok(()) if progress.refused => Status::SomeRefused,
        Ok(()) => Status::Done,
        Err(fault) => Status::from(fault),
    }
}
