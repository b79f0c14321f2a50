// Sessions whose caller gives the lines one by one, and takes the answer to each.
ghost use Rattle.std.specs.Prelude.{◌≡◌, Some, IfOk, IfErr, OnOk, OnErr, length};
ghost use Rattle.std.specs.Io.KnownBytes.{WriteAppends};
ghost use Rattle.cpe_io.specs.Causes.{HasSinkCause};
ghost use Rattle.cpe_io.specs.Lines.{line_of, strip_carriage_return};
ghost use Rattle.cpe_io.specs.Writes.{TakesSome};
ghost use Rattle.step_count.specs.Within.{StepsWithin};
ghost use Rattle.line_session.specs.Session.{after_next, next_cost, next_says, next_writes};
ghost use Rattle.line_session.specs.Statuses.{status_of};
ghost use Rattle.line_session.specs.Pages.{IsBeforeOrAfter, stage_of};

use crate::page::Page;
use crate::progress::Progress;
use crate::session::{answer_line, finish};
use crate::speaker::Speaker;
use crate::status::Status;
use cpe_io::{Found, LONGEST, Sink, SinkFault};
use std::alloc::{AllocError, Global};
use std::mem::replace;
use std::sync::ledger::Ledger;
use step_count::Steps;

/// Answers the next line of a session. The line is given without its newline. The page then has what the line writes,
/// and nothing else.
///
/// # Errors
/// Only that memory ran out. The line has then changed the state fully, or not at all. The page may be lost, and no
/// further line can be answered.
pub fn answer_given<T: Speaker, L: Ledger>(
    alloc: Global,
    speaker: &T,
    state: &mut T::State,
    progress: &mut Progress,
    piece: &[u8],
    steps: &mut Steps<L>,
) -> Result<(), AllocError>
    ensures text { OnOk result (progress.new.page ≡ next_writes (T.session speaker.now) (stage_of progress.old state.old) (line_of piece.now)) }
    ensures stage { OnOk result (stage_of progress.new state.new ≡ after_next (T.session speaker.now) (stage_of progress.old state.old) (line_of piece.now)) }
    ensures err { OnErr result (IsBeforeOrAfter (next_says (T.session speaker.now) (stage_of progress.old state.old) (line_of piece.now)) state.old state.new) }
    ensures counts { StepsWithin steps.old steps.new (next_cost (T.session speaker.now) (stage_of progress.old state.old) (line_of piece.now)) }
{
    progress.page.clear();
    if progress.number == u64::MAX {
        return Err(AllocError);
    }
    let found = if piece.len() <= LONGEST {
        Found::Text
    } else {
        Found::TooLong
    };
    answer_line(
        alloc,
        speaker,
        state,
        progress,
        found,
        without_return(piece),
        steps,
    )
}

// The bytes without the carriage return at their end, if there is one.
fn without_return(piece: &[u8]) -> &[u8]
    ensures { result.now ≡ strip_carriage_return piece.now }
{
    match piece {
        [prefix @ .., b'\r'] => prefix,
        _ => piece,
    }
}

/// Ends a session. The page then has what the session writes at the end of its lines, and nothing else. The status
/// shows whether a line was refused.
///
/// # Errors
/// Only that memory ran out. The page may be lost then.
pub fn end_given<T: Speaker, L: Ledger>(
    alloc: Global,
    speaker: &T,
    state: &T::State,
    progress: &mut Progress,
    steps: &mut Steps<L>,
) -> Result<Status, AllocError>
    ensures ended { IfOk result (λ status. (progress.new.page ≡ (T.session speaker.now).ends state.now) × (status ≡ status_of progress.old.refused)) }
    ensures counts { StepsWithin steps.old steps.new ((T.session speaker.now).end_cost state.now) }
{
    progress.page.clear();
    let mut end = Page::new(alloc);
    let status = finish(alloc, speaker, state, progress, &mut end, steps);
    progress.page = end;
    match status {
        Status::Done | Status::SomeRefused => Ok(status),
        _ => Err(AllocError),
    }
}

/// A page is a sink that keeps all that is written to it. It fails only if memory runs out.
impl Sink for Page {
    ghost held = { λ page. Some page };

    ghost faults = { λ page. 0 };

    fn write(&mut self, bytes: &[u8]) -> Result<usize, SinkFault> {
        match self.push(bytes) {
            Ok(()) => Ok(bytes.len()),
            Err(_) => Err(SinkFault::Memory),
        }
    }
}
