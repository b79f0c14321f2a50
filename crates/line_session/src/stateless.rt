// Speakers without a state, which answer each text by itself.
ghost use Rattle.std.specs.Prelude.{◌≡◌, ℕ, List, Result, IfOk};
ghost use Rattle.cpe_io.specs.Causes.{Rose};
ghost use Rattle.line_session.specs.Session.{printed, stateless};
ghost use Rattle.line_session.specs.Task.{task};
ghost use Rattle.line_session.specs.Ran.{Ran, Anything, Counted, Completes};
ghost use Rattle.line_session.specs.Pages.{AppendsPage};

use crate::page::Page;
use crate::session::answer_lines;
use crate::speaker::{NumberedLine, Reason, Speaker};
use crate::status::Status;
use cpe_io::{Sink, SinkFault, Source};
use std::alloc::{AllocError, Global};
use std::sync::ledger::Ledger;
use step_count::Steps;

/// Answers texts without a state. Nothing is written at the end of the input, and no steps are counted.
pub trait Stateless {
    /// Why a text is refused.
    type Reason: Reason + Drop;

    /// What a text writes, or why it is refused.
    ghost says: { Self → List ℕ → Result (List ℕ) Self.Reason };

    /// Appends what a text writes to the page. If the text is refused, returns the reason, and the page is unchanged.
    fn say(
        &self,
        alloc: Global,
        page: &mut Page,
        text: &[u8],
    ) -> Result<Option<Self::Reason>, AllocError>
        ensures { IfOk result (AppendsPage (says self.now text.now) page.old page.new) };
}

/// A speaker that answers each text by itself.
#[derive(Clone, Copy, Debug)]
pub struct Each<T>(pub T);

impl<T: Stateless> Speaker for Each<T> {
    type State = ();

    type Reason = T::Reason;

    ghost session = { λ each. stateless (λ text. printed T.Reason.text (T.says each.0 text)) };

    fn is_quiet(&self) -> bool {
        false
    }

    fn say<L: Ledger>(
        &self,
        alloc: Global,
        _state: &mut (),
        page: &mut Page,
        line: &NumberedLine<'_>,
        _steps: &mut Steps<L>,
    ) -> Result<Option<T::Reason>, AllocError> {
        self.0.say(alloc, page, line.text)
    }

    fn say_end<K: Sink, L: Ledger>(
        &self,
        _alloc: Global,
        _state: &(),
        _page: &mut Page,
        _sink: &mut K,
        _steps: &mut Steps<L>,
    ) -> Result<(), SinkFault> {
        Ok(())
    }
}

/// Answers each line of the source by itself, as [`answer_lines`] does.
pub fn answer_each<T: Stateless, S: Source, K: Sink, L: Ledger>(
    alloc: Global,
    each: &Each<T>,
    source: &mut S,
    sink: &mut K,
    steps: &mut Steps<L>,
) -> Status
    ensures ran { Ran (S.left source.old) (S.left source.new) (K.held sink.old) (K.held sink.new)
        (task (stateless (λ text. printed T.Reason.text (T.says each.now.0 text))) tt) Anything result }
    ensures steps { steps.new ≡ steps.old }
    ensures source { Counted Status.ReadFault (S.faults source.old) (S.faults source.new) result }
    ensures sink { Counted Status.WriteFault (K.faults sink.old) (K.faults sink.new) result }
    ensures complete { ¬ Rose (S.faults source.old) (S.faults source.new) → ¬ Rose (K.faults sink.old) (K.faults sink.new)
        → Completes (S.left source.old) (task (stateless (λ text. printed T.Reason.text (T.says each.now.0 text))) tt) result }
{
    answer_lines(alloc, each, &mut (), source, sink, steps)
}
