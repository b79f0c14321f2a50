// The command that answers the lines of a session, and the state that the lines leave.
ghost use Rattle.std.specs.Prelude.{◌≡◌, ◌∷◌, [], ℕ, List, IfOk, OnOk, Option};
ghost use Rattle.line_session.specs.cpe_io.Lines.{line_of};
ghost use Rattle.c_library.specs.Talks.{written_before, is_continued};

use cpe_command::{
    Advise, Advisories, Compare, Convert, Cover, Engine, NameCommand, Names, RecordCommand,
};
use line_session::{Each, Progress, Status, Steps, answer_given, end_given};
use std::alloc::{AllocError, Global};
use std::sync::ledger::Ledger;

/// The command that answers the lines of a session, with the state that the lines change.
#[derive(Drop)]
pub(crate) enum Speaking {
    /// Each line is one name, which is written in another form.
    Name(NameCommand),
    /// Each line has a source and a target. Their relations are written.
    Compare,
    /// Each line is a record, which edits these rows or asks about them.
    Records(RecordCommand, Engine),
    /// Each line is a record, which is written in the second format.
    Convert,
    /// Each line is a record, which edits these items and advisories or asks about them.
    Advise(Advisories),
    /// Each line is a name. At the end, the names that no other name covers are written.
    Cover(Names),
}

/// Answers a line: the page has what a run would have written for it.
///
/// # Errors
/// Memory ran out. The session takes no more lines then.
pub(crate) fn speak<L: Ledger>(
    alloc: Global,
    speaking: &mut Speaking,
    progress: &mut Progress,
    piece: &[u8],
    steps: &mut Steps<L>,
) -> Result<(), AllocError>
    ensures { OnOk result ((more : List (Option (List ℕ)))
        → is_continued speaking.old progress.old (line_of piece.now ∷ more) ≡ written_before progress.new.page (is_continued speaking.new progress.new more)) }
{
    match speaking {
        Speaking::Name(command) => answer_given(
            alloc,
            &Each(*command),
            &mut (),
            progress,
            piece,
            steps,
        ),
        Speaking::Compare => {
            answer_given(alloc, &Each(Compare), &mut (), progress, piece, steps)
        }
        Speaking::Records(command, engine) => {
            answer_given(alloc, command, engine, progress, piece, steps)
        }
        Speaking::Convert => {
            answer_given(alloc, &Each(Convert), &mut (), progress, piece, steps)
        }
        Speaking::Advise(advisories) => {
            answer_given(alloc, &Advise, advisories, progress, piece, steps)
        }
        Speaking::Cover(names) => answer_given(alloc, &Cover, names, progress, piece, steps),
    }
}

/// Ends a session: the page has what a run would have written at the end. The result is the status of that run.
///
/// # Errors
/// Memory ran out.
pub(crate) fn fall_silent<L: Ledger>(
    alloc: Global,
    speaking: &Speaking,
    progress: &mut Progress,
    steps: &mut Steps<L>,
) -> Result<Status, AllocError>
    ensures { IfOk result (λ status. is_continued speaking.now progress.old [] ≡ record { text = progress.new.page; status = status }) }
{
    match speaking {
        Speaking::Name(command) => end_given(alloc, &Each(*command), &(), progress, steps),
        Speaking::Compare => end_given(alloc, &Each(Compare), &(), progress, steps),
        Speaking::Records(command, engine) => end_given(alloc, command, engine, progress, steps),
        Speaking::Convert => end_given(alloc, &Each(Convert), &(), progress, steps),
        Speaking::Advise(advisories) => end_given(alloc, &Advise, advisories, progress, steps),
        Speaking::Cover(names) => end_given(alloc, &Cover, names, progress, steps),
    }
}
