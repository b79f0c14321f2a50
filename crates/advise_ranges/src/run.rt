// A whole run of the command.
ghost use Rattle.std.specs.Prelude.{◌≡◌};
ghost use Rattle.line_session.specs.Prelude.{Rose, StepsWithin};
ghost use Rattle.line_session.specs.Ran.{Ran, Completes, Counted};
ghost use Rattle.line_session.specs.Task.{task};
ghost use Rattle.advise_ranges.specs.Rows.{no_advice_rows};
ghost use Rattle.advise_ranges.specs.Records.{advice_session, advice_steps};

use crate::advisories::Advisories;
use crate::speaker::Advise;
use line_session::{Sink, Source, Status, answer_from};
use name_index::Steps;
use std::alloc::Global;
use std::sync::ledger::Ledger;

/// The status of a run of the command. It answers each line of the source as a record, and begins without items and
/// advisories.
///
/// [`answer_from`] says what is written at each status. A step is a look at the name of an item. Only a question takes
/// steps.
pub fn advise<S: Source, K: Sink, L: Ledger>(
    alloc: Global,
    source: &mut S,
    sink: &mut K,
    steps: &mut Steps<L>,
) -> Status
    ensures ran { Ran (S.left source.old) (S.left source.new) (K.held sink.old) (K.held sink.new) (task advice_session no_advice_rows)
        (λ taken status. StepsWithin steps.old steps.new (advice_steps taken)) result }
    ensures source { Counted Status.ReadFault (S.faults source.old) (S.faults source.new) result }
    ensures sink { Counted Status.WriteFault (K.faults sink.old) (K.faults sink.new) result }
    ensures complete { ¬ Rose (S.faults source.old) (S.faults source.new) → ¬ Rose (K.faults sink.old) (K.faults sink.new)
        → Completes (S.left source.old) (task advice_session no_advice_rows) result }
{
    answer_from(alloc, &Advise, Advisories::new(alloc), source, sink, steps)
}
