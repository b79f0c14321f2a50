// Rows that are read one after another. Each is added before the next is read, so at most one row is kept outside the
// engine.
ghost use Rattle.std.specs.Prelude.{◌≡◌, [], IfErr, OnOk};
ghost use Rattle.cpe_rows.specs.Prelude.{IsLawful};
ghost use Rattle.snapshot_bytes.specs.Reading.{entry_at, many, name_at, result_at, statement_at};
ghost use Rattle.engine_snapshot.specs.Begun.{AreFine, with_items, with_statements};
ghost use Rattle.engine_snapshot.specs.Read.{AreEntriesPut, ArePut, NonePut, with_placed, with_results};

use crate::puts::{put_entry, put_item, put_result, put_statement};
use crate::runs::PlacedDeprecations;
use cpe_engine::{Engine, Steps};
use cpe_rows::{Statement, Wfn};
use snapshot_bytes::{Cursor, KeptResult, LoadFault, Part, PlacedEntry};
use std::alloc::Global;
use std::sync::ledger::Ledger;

/// Reads this number of entries, and adds them at the end as active ones. Their deprecations are kept in the form with
/// places.
pub(crate) fn read_entries<L: Ledger>(
    alloc: Global,
    cursor: &mut Cursor<'_>,
    count: u32,
    engine: &mut Engine,
    deprecations: &mut PlacedDeprecations,
    steps: &mut Steps<L>,
) -> Result<(), LoadFault>
    requires { deprecations.old ≡ [] }
    ensures ok { OnOk result (AreEntriesPut (many entry_at count cursor.old) cursor.new engine.old engine.new deprecations.new) }
    ensures refused { IfErr result (NonePut with_placed AreFine (many entry_at count cursor.old) engine.old) }
{
    for _ in 0..count {
        let placed = PlacedEntry::take(alloc, cursor)?;
        put_entry(alloc, engine, deprecations, placed, steps)?;
    }
    Ok(())
}

/// Reads this number of items, and adds them at the end.
pub(crate) fn read_items<L: Ledger>(
    alloc: Global,
    cursor: &mut Cursor<'_>,
    count: u32,
    engine: &mut Engine,
    steps: &mut Steps<L>,
) -> Result<(), LoadFault>
    ensures ok { OnOk result (ArePut with_items (many name_at count cursor.old) cursor.new engine.old engine.new) }
    ensures refused { IfErr result (NonePut with_items IsLawful (many name_at count cursor.old) engine.old) }
{
    for _ in 0..count {
        let name = Wfn::take(alloc, cursor)?;
        put_item(engine, name, steps)?;
    }
    Ok(())
}

/// Reads this number of statements, and adds them at the end.
pub(crate) fn read_statements<L: Ledger>(
    alloc: Global,
    cursor: &mut Cursor<'_>,
    count: u32,
    engine: &mut Engine,
    steps: &mut Steps<L>,
) -> Result<(), LoadFault>
    ensures ok { OnOk result (ArePut with_statements (many statement_at count cursor.old) cursor.new engine.old engine.new) }
    ensures refused { IfErr result (NonePut with_statements IsLawful (many statement_at count cursor.old) engine.old) }
{
    for _ in 0..count {
        let statement = Statement::take(alloc, cursor)?;
        put_statement(engine, statement, steps)?;
    }
    Ok(())
}

/// Reads this number of results, and adds them at the end.
pub(crate) fn read_results<L: Ledger>(
    alloc: Global,
    cursor: &mut Cursor<'_>,
    count: u32,
    engine: &mut Engine,
    steps: &mut Steps<L>,
) -> Result<(), LoadFault>
    ensures ok { OnOk result (ArePut with_results (many result_at count cursor.old) cursor.new engine.old engine.new) }
    ensures refused { IfErr result (NonePut with_results IsLawful (many result_at count cursor.old) engine.old) }
{
    for _ in 0..count {
        let kept = KeptResult::take(alloc, cursor)?;
        put_result(engine, kept, steps)?;
    }
    Ok(())
}
