// Runs that read nothing.
ghost use Rattle.std.specs.Prelude.{◌≡◌, ◌⊎◌, ℕ, List, Option};
ghost use Rattle.cpe_io.specs.Causes.{Rose};
ghost use Rattle.line_session.specs.Statuses.{IsEnding};
ghost use Rattle.line_session.specs.Table.{rows_text};
ghost use Rattle.line_session.specs.Task.{Fixed};
ghost use Rattle.line_session.specs.Ran.{Ran, Anything, Counted};

use crate::page::Page;
use crate::status::Status;
use crate::table::{Table, pour_table};
use cpe_io::{Sink, write_all};
use std::alloc::Global;

/// Writes a text, and returns the given status, or that of a fault.
pub fn write_text<K: Sink>(sink: &mut K, text: &[u8], status: Status) -> Status
    requires { IsEnding status }
    ensures ran { (left : Option (List ℕ)) → Ran left left (K.held sink.old) (K.held sink.new) (Fixed (record { text = text.now; status = status })) Anything result }
    ensures sink { Counted Status.WriteFault (K.faults sink.old) (K.faults sink.new) result }
    ensures read { ¬ (result ≡ Status.ReadFault) }
    ensures complete { ¬ Rose (K.faults sink.old) (K.faults sink.new) → (result ≡ status) ⊎ (result ≡ Status.Memory) }
{
    match write_all(sink, text) {
        Ok(()) => status,
        Err(fault) => Status::from(fault),
    }
}

/// Writes a table, a page at a time, and returns the status.
pub fn write_table<R: Table, K: Sink>(alloc: Global, table: &R, sink: &mut K) -> Status
    ensures ran { (left : Option (List ℕ)) → Ran left left (K.held sink.old) (K.held sink.new)
        (Fixed (record { text = rows_text (R.text table.now) (R.count table.now); status = Status.Done })) Anything result }
    ensures sink { Counted Status.WriteFault (K.faults sink.old) (K.faults sink.new) result }
    ensures read { ¬ (result ≡ Status.ReadFault) }
    ensures complete { ¬ Rose (K.faults sink.old) (K.faults sink.new) → (result ≡ Status.Done) ⊎ (result ≡ Status.Memory) }
{
    let mut page = Page::new(alloc);
    if let Err(fault) = pour_table(alloc, table, &mut page, sink) {
        return Status::from(fault);
    }
    match write_all(sink, page.text()) {
        Ok(()) => Status::Done,
        Err(fault) => Status::from(fault),
    }
}
