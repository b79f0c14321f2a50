// Texts of many rows, and long texts.
ghost use Rattle.std.specs.Prelude.{◌≡◌, ◌<◌, ◌++◌, ℕ, List, OnOk};
ghost use Rattle.cpe_io.specs.Causes.{HasSinkCause};
ghost use Rattle.cpe_io.specs.Writes.{AppendsPrefix};
ghost use Rattle.line_session.specs.Pages.{Pours};
ghost use Rattle.line_session.specs.Table.{rows_text};

use crate::page::Page;
use cpe_io::{Sink, SinkFault, write_all};
use std::alloc::{AllocError, Global};

/// A text of rows, each of which can be written alone.
pub trait Table {
    /// The number of rows.
    ghost count: { Self → ℕ };

    /// The text of each row, by the row's number from 0.
    ghost text: { Self → ℕ → List ℕ };

    fn len(&self) -> usize
        ensures { result ≡ count self.now };

    /// Appends the text of row `k` to the page.
    fn put(&self, alloc: Global, k: usize, page: &mut Page) -> Result<(), AllocError>
        requires { k < count self.now }
        ensures { OnOk result (page.new ≡ page.old ++ text self.now k) };
}

/// Appends all rows of a table to the page. Whenever the page is full, writes it to the sink.
pub fn pour_table<R: Table, K: Sink>(
    alloc: Global,
    table: &R,
    page: &mut Page,
    sink: &mut K,
) -> Result<(), SinkFault>
    ensures ok { OnOk result (Pours (K.held sink.old) (K.held sink.new) page.old page.new (rows_text (R.text table.now) (R.count table.now))) }
    ensures prefix { AppendsPrefix (K.held sink.old) (K.held sink.new) (page.old ++ rows_text (R.text table.now) (R.count table.now)) }
    ensures cause { HasSinkCause (K.faults sink.old) (K.faults sink.new) result }
{
    let count = table.len();
    for k in 0..count {
        pour_row(alloc, table, k, page, sink)?;
    }
    Ok(())
}

fn pour_row<R: Table, K: Sink>(
    alloc: Global,
    table: &R,
    k: usize,
    page: &mut Page,
    sink: &mut K,
) -> Result<(), SinkFault>
    requires { k < R.count table.now }
    ensures ok { OnOk result (Pours (K.held sink.old) (K.held sink.new) page.old page.new (R.text table.now k)) }
    ensures prefix { AppendsPrefix (K.held sink.old) (K.held sink.new) (page.old ++ R.text table.now k) }
    ensures cause { HasSinkCause (K.faults sink.old) (K.faults sink.new) result }
{
    if table.put(alloc, k, page).is_err() {
        return Err(SinkFault::Memory);
    }
    page.flush_if_full(sink)
}

/// Writes the page, and then a text, to the sink. The text is not copied.
pub fn pour_text<K: Sink>(page: &mut Page, text: &[u8], sink: &mut K) -> Result<(), SinkFault>
    ensures ok { OnOk result (Pours (K.held sink.old) (K.held sink.new) page.old page.new text.now) }
    ensures prefix { AppendsPrefix (K.held sink.old) (K.held sink.new) (page.old ++ text.now) }
    ensures cause { HasSinkCause (K.faults sink.old) (K.faults sink.new) result }
{
    page.flush_if_due(false, sink)?;
    write_all(sink, text)
}
