// The run of `drill` over the generated records.
ghost use Rattle.std.specs.Prelude.{◌≡◌, ◌⊎◌, ℕ, List, Option};
ghost use Rattle.line_session.specs.Prelude.{Counted, Fixed, Ran, Rose, StepsWithin};
ghost use Rattle.cpe_rows.specs.Rows.{no_rows};
ghost use Rattle.drill_lines.specs.Looks.{record_looks};
ghost use Rattle.drill_lines.specs.Outcome.{summed};
ghost use Rattle.drill_lines.specs.Drill.{undrilled, drill_session, drill_transcript, LeavesRows};

use crate::drilled::Drilled;
use crate::summary::push_summary;
use crate::tables::GeneratedRecords;
use cpe_engine::{Engine, Steps};
use line_session::{NumberedLine, Page, Sink, SinkFault, Speaker, Status, TooLong, answer_made};
use std::alloc::{AllocError, Global};
use std::mem::replace;
use std::sync::ledger::Ledger;

// The first `count` generated records. The reasons of refused records are not written: these records are counted.
#[derive(Clone, Copy)]
struct Drilling {
    count: u32,
}

impl Speaker for Drilling {
    type State = Drilled;

    type Reason = TooLong;

    ghost session = { λ drill. drill_session drill.count };

    fn is_quiet(&self) -> bool {
        false
    }

    fn say<L: Ledger>(
        &self,
        alloc: Global,
        state: &mut Drilled,
        _page: &mut Page,
        line: &NumberedLine<'_>,
        steps: &mut Steps<L>,
    ) -> Result<Option<TooLong>, AllocError> {
        state.read(alloc, line.text, steps)?;
        Ok(None)
    }

    fn say_end<K: Sink, L: Ledger>(
        &self,
        _alloc: Global,
        state: &Drilled,
        page: &mut Page,
        _sink: &mut K,
        _steps: &mut Steps<L>,
    ) -> Result<(), SinkFault> {
        match push_summary(page, self.count, state) {
            Ok(()) => Ok(()),
            Err(_) => Err(SinkFault::Memory),
        }
    }
}

/// Writes twelve lines: the outcome of the first `count` generated records. Their edits are applied, and their
/// questions are answered.
pub fn drill<K: Sink, L: Ledger>(
    alloc: Global,
    count: u32,
    engine: &mut Engine,
    sink: &mut K,
    steps: &mut Steps<L>,
) -> Status
    requires { engine.old ≡ no_rows }
    ensures ran { (left : Option (List ℕ)) → Ran left left (K.held sink.old) (K.held sink.new) (Fixed (drill_transcript count))
        (λ taken status. LeavesRows count engine.new status) result }
    ensures steps { StepsWithin steps.old steps.new (summed record_looks count) }
    ensures sink { Counted Status.WriteFault (K.faults sink.old) (K.faults sink.new) result }
    ensures read { ¬ (result ≡ Status.ReadFault) }
    ensures complete { ¬ Rose (K.faults sink.old) (K.faults sink.new) → (result ≡ Status.Done) ⊎ (result ≡ Status.Memory) }
{
    let mut drilled = Drilled::new(replace(engine, Engine::new(alloc)));
    let status = drill_records(alloc, count, &mut drilled, sink, steps);
    put_back(engine, drilled.into_engine());
    status
}

fn put_back(engine: &mut Engine, kept: Engine)
    ensures { engine.new ≡ kept }
{
    replace(engine, kept).discard();
}

fn drill_records<K: Sink, L: Ledger>(
    alloc: Global,
    count: u32,
    drilled: &mut Drilled,
    sink: &mut K,
    steps: &mut Steps<L>,
) -> Status
    requires { drilled.old ≡ undrilled }
    ensures ran { (left : Option (List ℕ)) → Ran left left (K.held sink.old) (K.held sink.new) (Fixed (drill_transcript count))
        (λ taken status. LeavesRows count drilled.new.engine status) result }
    ensures steps { StepsWithin steps.old steps.new (summed record_looks count) }
    ensures sink { Counted Status.WriteFault (K.faults sink.old) (K.faults sink.new) result }
    ensures read { ¬ (result ≡ Status.ReadFault) }
    ensures complete { ¬ Rose (K.faults sink.old) (K.faults sink.new) → (result ≡ Status.Done) ⊎ (result ≡ Status.Memory) }
{
    let records = GeneratedRecords { count };
    answer_made(alloc, &Drilling { count }, drilled, &records, sink, steps)
}
