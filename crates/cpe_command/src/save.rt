// The snapshot of the rows.
ghost use Rattle.std.specs.Prelude.{◌++◌, OnOk};
ghost use Rattle.line_session.specs.Prelude.{AppendsPrefix, HasSinkCause, Pours};
ghost use Rattle.cpe_records.specs.snapshot_bytes.States.{snapshot};

use engine_snapshot::{Engine, write_snapshot};
use line_session::{Page, Sink, SinkFault, pour_text};
use std::alloc::Global;

/// Writes the page, and then the snapshot of the rows, to the sink. The last bytes may be left on the page.
///
/// # Errors
/// A write failed, or memory ran out. A prefix of the page and the snapshot may be written then.
pub(crate) fn pour_snapshot<K: Sink>(
    alloc: Global,
    engine: &Engine,
    page: &mut Page,
    sink: &mut K,
) -> Result<(), SinkFault>
    ensures ok { OnOk result (Pours (K.held sink.old) (K.held sink.new) page.old page.new (snapshot engine.now)) }
    ensures prefix { AppendsPrefix (K.held sink.old) (K.held sink.new) (page.old ++ snapshot engine.now) }
    ensures cause { HasSinkCause (K.faults sink.old) (K.faults sink.new) result }
{
    match write_snapshot(alloc, engine) {
        Ok(bytes) => pour_text(page, &bytes, sink),
        Err(_) => Err(SinkFault::Memory),
    }
}
