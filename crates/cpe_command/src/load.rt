// The command `load`: the whole input is read as a snapshot.
ghost use Rattle.std.specs.Prelude.{◌≡◌, ◌++◌, ◌<◌, ℕ, List, OnOk, IfOk, IfErr, flat_map, Option};
ghost use Rattle.line_session.specs.Prelude.{AppendsPrefix, Fixed, HasSinkCause, Pours};
ghost use Rattle.line_session.specs.Ran.{Ran, Anything, Counted};
ghost use Rattle.snapshot_bytes.specs.States.{Snap, most_bytes};
ghost use Rattle.drill_lines.specs.Summary.{number_line};
ghost use Rattle.cpe_command.specs.Loading.{counts_text, IsNoSnapshot, load_says, LoadLeaves, refusal_reported, state_text, state_reported};

use crate::table::pour_verdicts;
use cpe_io::{Sink, SinkFault, write_all};
use cpe_rows::Counts;
use drill_lines::{NumberLine, push_number_lines};
use engine_snapshot::{Engine, MOST_BYTES, read_snapshot};
use line_session::{Listener, Page, Status, Steps, write_text};
use snapshot_bytes::LoadFault;
use std::alloc::{AllocError, Global};
use std::marker::Brand;
use std::mem::replace;
use std::sync::ledger::{Blank, Ledger};

/// The line that is written if the input is no snapshot.
const REFUSAL: &[u8] = b"refused snapshot\n";

/// The command `load`: the input is a snapshot. Its rows are kept, and their counts and verdicts are written.
#[derive(Clone, Copy, Debug, PartialEq, Eq)]
pub(crate) struct Load;

impl Listener for Load {
    type State = Engine;

    ghost says = { λ load. load_says };

    ghost leaves = { λ load. LoadLeaves };

    ghost longest = { λ load. most_bytes };

    fn most(&self) -> usize {
        MOST_BYTES
    }

    fn say<K: Sink>(
        &self,
        alloc: Global,
        state: &mut Engine,
        input: &[u8],
        sink: &mut K,
    ) -> Status {
        snapshot_bytes::law::states_have_snapshots();
        match load_counted::<Brand>(alloc, input, Blank::new(1)) {
            Ok(engine) => {
                engine.lawful();
                put(state, engine);
                write_state(alloc, state, sink)
            }
            Err(LoadFault::NotSnapshot) => refuse(sink),
            Err(LoadFault::Memory) => Status::Memory,
        }
    }

    fn say_too_long<K: Sink>(&self, alloc: Global, state: &mut Engine, sink: &mut K) -> Status {
        let _ = alloc;
        let _ = state;
        engine_snapshot::law::snapshots_are_within();
        refuse(sink)
    }
}

// Puts an engine in the place of another one. A call drops the other one: a drop in place would be proved here, for
// each part of the engine.
fn put(state: &mut Engine, engine: Engine)
    ensures { state.new ≡ engine }
{
    replace(state, engine).discard();
}

// Reads a snapshot, and counts looks in a ledger of its own. No clause bounds the looks of a load.
fn load_counted<L: Ledger>(alloc: Global, bytes: &[u8], blank: Blank) -> Result<Engine, LoadFault>
    requires name { blank.name ≡ L.name }
    requires parts { blank.parts ≡ L.parts }
    requires some { 0 < blank.parts }
    ensures loaded { IfOk result (λ e. Snap e bytes.now) }
    ensures refused { IfErr result (λ f. f ≡ LoadFault.NotSnapshot → IsNoSnapshot bytes.now) }
{
    let mut steps = Steps::<L>::new(blank);
    read_snapshot(alloc, bytes, &mut steps)
}

fn refuse<K: Sink>(sink: &mut K) -> Status
    ensures ran { (left : Option (List ℕ)) → Ran left left (K.held sink.old) (K.held sink.new) (Fixed refusal_reported) Anything result }
    ensures sink { Counted Status.WriteFault (K.faults sink.old) (K.faults sink.new) result }
{
    write_text(sink, REFUSAL, Status::SomeRefused)
}

// Writes the counts and the verdicts of the rows.
fn write_state<K: Sink>(alloc: Global, engine: &Engine, sink: &mut K) -> Status
    ensures ran { (left : Option (List ℕ)) → Ran left left (K.held sink.old) (K.held sink.new) (Fixed (state_reported engine.now)) Anything result }
    ensures sink { Counted Status.WriteFault (K.faults sink.old) (K.faults sink.new) result }
{
    let mut page = Page::new(alloc);
    if let Err(fault) = pour_state(alloc, engine, &mut page, sink) {
        return Status::from(fault);
    }
    match write_all(sink, page.text()) {
        Ok(()) => Status::Done,
        Err(fault) => Status::from(fault),
    }
}

// Appends the counts and the verdicts of the rows to the page. Writes full pages to the sink meanwhile.
fn pour_state<K: Sink>(
    alloc: Global,
    engine: &Engine,
    page: &mut Page,
    sink: &mut K,
) -> Result<(), SinkFault>
    ensures ok { OnOk result (Pours (K.held sink.old) (K.held sink.new) page.old page.new (state_text engine.now)) }
    ensures prefix { AppendsPrefix (K.held sink.old) (K.held sink.new) (page.old ++ state_text engine.now) }
    ensures cause { HasSinkCause (K.faults sink.old) (K.faults sink.new) result }
{
    match push_counts(page, &engine.counts()) {
        Ok(()) => pour_verdicts(alloc, engine, page, sink),
        Err(_) => Err(SinkFault::Memory),
    }
}

// Appends the number of rows of each kind.
fn push_counts(page: &mut Page, counts: &Counts) -> Result<(), AllocError>
    ensures { OnOk result (page.new ≡ page.old ++ counts_text counts.now) }
{
    push_number_lines(
        page,
        &[
            NumberLine(b"entries", counts.entries),
            NumberLine(b"deprecated", counts.deprecated),
            NumberLine(b"items", counts.items),
            NumberLine(b"statements", counts.statements),
            NumberLine(b"checks", counts.checks),
        ],
    )
}
