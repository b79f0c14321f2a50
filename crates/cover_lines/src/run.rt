// A whole run of the command.
ghost use Rattle.std.specs.Prelude.{◌≡◌, []};
ghost use Rattle.line_session.specs.Prelude.{Rose, StepsWithin};
ghost use Rattle.line_session.specs.Ran.{Ran, Completes, Counted};
ghost use Rattle.line_session.specs.Task.{task};
ghost use Rattle.cover_lines.specs.Lines.{cover_session, cover_steps};

use crate::names::Names;
use crate::speaker::Cover;
use line_session::{Sink, Source, Status, answer_from};
use name_index::Steps;
use std::alloc::Global;
use std::sync::ledger::Ledger;

/// The status of a run of the command. It adds the name of each line of the source. At the end of the source it writes
/// the names that no other of them covers.
///
/// [`answer_from`] says what is written at each status. A step is a look at a name. Only the end of the source takes
/// steps.
pub fn cover<S: Source, K: Sink, L: Ledger>(
    alloc: Global,
    source: &mut S,
    sink: &mut K,
    steps: &mut Steps<L>,
) -> Status
    ensures ran { Ran (S.left source.old) (S.left source.new) (K.held sink.old) (K.held sink.new) (task cover_session [])
        (λ taken status. StepsWithin steps.old steps.new (cover_steps taken)) result }
    ensures source { Counted Status.ReadFault (S.faults source.old) (S.faults source.new) result }
    ensures sink { Counted Status.WriteFault (K.faults sink.old) (K.faults sink.new) result }
    ensures complete { ¬ Rose (S.faults source.old) (S.faults source.new) → ¬ Rose (K.faults sink.old) (K.faults sink.new)
        → Completes (S.left source.old) (task cover_session []) result }
{
    answer_from(alloc, &Cover, Names::new(alloc), source, sink, steps)
}
