// Sessions over lines that a table makes; nothing is read.
ghost use Rattle.std.specs.Prelude.{◌≡◌, ◌⊎◌, ◌<◌, ℕ, List, OnOk, Option};
ghost use Rattle.cpe_io.specs.Causes.{Rose};
ghost use Rattle.line_session.specs.Table.{made_lines};
ghost use Rattle.line_session.specs.Task.{Fixed, speech, spoken};
ghost use Rattle.line_session.specs.Ran.{Ran, Counted, ReachedBy};

use crate::page::Page;
use crate::progress::Progress;
use crate::session::{answer_line, finish};
use crate::speaker::Speaker;
use crate::status::Status;
use crate::table::Table;
use cpe_io::{Found, Sink};
use std::alloc::{AllocError, Global};
use std::sync::ledger::Ledger;
use step_count::Steps;

/// Answers the rows of a table, one after another, as if they were lines that are read.
pub fn answer_made<T: Speaker, R: Table, K: Sink, L: Ledger>(
    alloc: Global,
    speaker: &T,
    state: &mut T::State,
    made: &R,
    sink: &mut K,
    steps: &mut Steps<L>,
) -> Status
    ensures ran { (left : Option (List ℕ)) → let ls = made_lines (R.text made.now) (R.count made.now) in
        Ran left left (K.held sink.old) (K.held sink.new) (Fixed (spoken (speech (T.session speaker.now) state.old) ls))
        (λ taken status. ReachedBy (T.session speaker.now) state.old state.new steps.old steps.new ls ls status) result }
    ensures sink { Counted Status.WriteFault (K.faults sink.old) (K.faults sink.new) result }
    ensures read { ¬ (result ≡ Status.ReadFault) }
    ensures complete { ¬ Rose (K.faults sink.old) (K.faults sink.new)
        → (result ≡ (spoken (speech (T.session speaker.now) state.old) (made_lines (R.text made.now) (R.count made.now))).status) ⊎ (result ≡ Status.Memory) }
{
    let count = made.len();
    let mut line = Page::new(alloc);
    let mut progress = Progress::new(alloc);
    for k in 0..count {
        if make_line(alloc, made, k, &mut line).is_err() {
            return Status::Memory;
        }
        if answer_line(
            alloc,
            speaker,
            state,
            &mut progress,
            Found::Text,
            line.text(),
            steps,
        )
        .is_err()
        {
            return Status::Memory;
        }
        if let Err(fault) = progress.page.flush_if_full(sink) {
            return Status::from(fault);
        }
    }
    finish(alloc, speaker, state, &mut progress, sink, steps)
}

// Writes a row of the table over the previous line.
fn make_line<R: Table>(alloc: Global, made: &R, k: usize, line: &mut Page) -> Result<(), AllocError>
    requires { k < R.count made.now }
    ensures { OnOk result (line.new ≡ R.text made.now k) }
{
    line.clear();
    made.put(alloc, k, line)
}
