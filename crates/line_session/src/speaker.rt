// Speakers, which answer lines.
ghost use Rattle.std.specs.Prelude.{◌≡◌, ◌++◌, ℕ, List, IfOk, OnOk, OnErr, option_map};
ghost use Rattle.cpe_io.specs.Causes.{HasSinkCause};
ghost use Rattle.cpe_io.specs.Writes.{AppendsPrefix};
ghost use Rattle.line_session.specs.Session.{Session};
ghost use Rattle.step_count.specs.Within.{StepsWithin};
ghost use Rattle.line_session.specs.Pages.{IsBeforeOrAfter, IsAppended, Pours};

use crate::page::Page;
use cpe_io::{Sink, SinkFault};
use std::alloc::{AllocError, Global};
use std::sync::ledger::Ledger;
use step_count::Steps;

/// The bytes of a line, and the line's number from 1.
#[derive(Clone, Copy, Debug)]
pub struct NumberedLine<'t> {
    pub number: u64,
    pub text: &'t [u8],
}

/// Why a line is refused.
pub trait Reason {
    /// The printed form of the reason.
    ghost text: { Self → List ℕ };

    /// Appends the printed reason to the page.
    fn push(&self, alloc: Global, page: &mut Page) -> Result<(), AllocError>
        ensures { OnOk result (page.new ≡ page.old ++ text self.now) };
}

/// Answers lines one after another, and keeps a state.
pub trait Speaker {
    /// The state that lines change.
    type State;

    /// Why a line is refused.
    type Reason: Reason + Drop;

    /// The session: what lines write, how they change the state, and the steps that they may take.
    ghost session: { Self → Session Self.State };

    /// Whether a refused line writes nothing.
    fn is_quiet(&self) -> bool
        ensures { result ≡ (session self.now).quiet };

    /// Appends what a text writes to the page, and changes the state. If the text is refused, returns the reason, and
    /// page and state are unchanged.
    ///
    /// # Errors
    /// Only that memory ran out. The line has then changed the state fully, or not at all.
    fn say<L: Ledger>(
        &self,
        alloc: Global,
        state: &mut Self::State,
        page: &mut Page,
        line: &NumberedLine<'_>,
        steps: &mut Steps<L>,
    ) -> Result<Option<Self::Reason>, AllocError>
        ensures said { IfOk result (λ refused.
            IsAppended ((session self.now).says state.old line.now.number line.now.text.now) state.old state.new page.old page.new (option_map Self.Reason.text refused)) }
        ensures err { OnErr result (IsBeforeOrAfter ((session self.now).says state.old line.now.number line.now.text.now) state.old state.new) }
        ensures counts { StepsWithin steps.old steps.new ((session self.now).cost state.old line.now.number line.now.text.now) };

    /// Appends to the page what the session writes at the end of the input. A prefix of the page may be written to the
    /// sink.
    fn say_end<K: Sink, L: Ledger>(
        &self,
        alloc: Global,
        state: &Self::State,
        page: &mut Page,
        sink: &mut K,
        steps: &mut Steps<L>,
    ) -> Result<(), SinkFault>
        ensures ok { OnOk result (Pours (K.held sink.old) (K.held sink.new) page.old page.new ((session self.now).ends state.now)) }
        ensures prefix { AppendsPrefix (K.held sink.old) (K.held sink.new) (page.old ++ (session self.now).ends state.now) }
        ensures cause { HasSinkCause (K.faults sink.old) (K.faults sink.new) result }
        ensures counts { StepsWithin steps.old steps.new ((session self.now).end_cost state.now) };
}
