// The table of verdicts.
ghost use Rattle.std.specs.Prelude.{◌≡◌, ◌++◌, [], OnOk, codes, length, slice_get, decimal};
ghost use Rattle.std.specs.Option.{option_map_or};
ghost use Rattle.line_session.specs.Prelude.{AppendsPrefix, HasSinkCause, Pours};
ghost use Rattle.line_replies.specs.Replies.{statement_line, verdict_table};

use engine_snapshot::Engine;
use line_replies::push_verdict;
use line_session::{Page, Sink, SinkFault, Table, pour_table};
use std::alloc::{AllocError, Global};

// The lines of the verdicts, one for each statement.
#[derive(Clone, Copy)]
struct Lines<'e> {
    engine: &'e Engine,
}

impl Table for Lines<'_> {
    ghost count = { λ lines. length lines.engine.now.statements };

    ghost text = { λ lines k. option_map_or (statement_line lines.engine.now) (slice_get lines.engine.now.statements k) [] };

    fn len(&self) -> usize {
        let engine = self.engine;
        engine.statements_len()
    }

    fn put(&self, alloc: Global, k: usize, page: &mut Page) -> Result<(), AllocError> {
        let _ = alloc;
        let engine = self.engine;
        match engine.statement_at(k) {
            Some((statement, truth)) => push_verdict(page, statement.id.as_str(), Some(truth)),
            None => Ok(()),
        }
    }
}

/// Appends the table of verdicts to the page. Writes full pages to the sink meanwhile.
///
/// # Errors
/// A write failed, or memory ran out. A prefix of the page and the table may be written then.
pub fn pour_verdicts<K: Sink>(
    alloc: Global,
    engine: &Engine,
    page: &mut Page,
    sink: &mut K,
) -> Result<(), SinkFault>
    ensures ok { OnOk result (Pours (K.held sink.old) (K.held sink.new) page.old page.new (verdict_table engine.now)) }
    ensures prefix { AppendsPrefix (K.held sink.old) (K.held sink.new) (page.old ++ verdict_table engine.now) }
    ensures cause { HasSinkCause (K.faults sink.old) (K.faults sink.new) result }
{
    match push_head(page, engine.statements_len()) {
        Ok(()) => pour_table(alloc, &Lines { engine }, page, sink),
        Err(_) => Err(SinkFault::Memory),
    }
}

// Appends the first line of the table, which has the number of verdicts.
fn push_head(page: &mut Page, count: usize) -> Result<(), AllocError>
    ensures { OnOk result (page.new ≡ page.old ++ (codes "verdicts " ++ decimal count ++ codes "\n")) }
{
    page.push_numbered(b"verdicts ", count as u64)?;
    page.push(b"\n")
}
