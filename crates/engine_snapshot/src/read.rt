// An engine that is read from its snapshot, row by row.
ghost use Rattle.std.specs.Prelude.{◌≡◌, IfErr, IfOk, OnOk};
ghost use Rattle.cpe_rows.specs.Prelude.{IsLawful, Rows};
ghost use Rattle.snapshot_bytes.specs.Reading.{entry_at, many};
ghost use Rattle.snapshot_bytes.specs.States.{Snap};
ghost use Rattle.engine_snapshot.specs.Read.{AreEntriesLoaded, NoEntries, Others, with_others};

use crate::law;
use crate::loops::{read_entries, read_items, read_results, read_statements};
use crate::meant::give_all;
use crate::runs::PlacedDeprecations;
use cpe_engine::{Engine, Steps};
use snapshot_bytes::{Cursor, Head, LoadFault, read_head};
use std::alloc::Global;
use std::sync::ledger::Ledger;

/// The greatest number of bytes of a snapshot: 24 more than the greatest weight of rows.
pub const MOST_BYTES: usize = 536_870_936;

// Drops an engine that has only some of the rows, and returns the given fault.
fn discard(engine: Engine, fault: LoadFault) -> LoadFault
    ensures { result ≡ fault }
{
    engine.discard();
    fault
}

// Drops an engine, and deprecations that its entries have not got, and returns the given fault.
fn let_both_go(engine: Engine, deprecations: PlacedDeprecations, fault: LoadFault) -> LoadFault
    ensures { result ≡ fault }
{
    drop(deprecations);
    discard(engine, fault)
}

// An engine with the entries that are read next. First all entries are added as active ones, and then they get their
// deprecations all at once, because a successor may be later in the list than the entry that it replaces.
fn load_entries<L: Ledger>(
    alloc: Global,
    cursor: &mut Cursor<'_>,
    count: u32,
    steps: &mut Steps<L>,
) -> Result<Engine, LoadFault>
    ensures loaded { IfOk result (AreEntriesLoaded (many entry_at count cursor.old) cursor.new) }
    ensures refused { IfErr result (λ f. f ≡ LoadFault.NotSnapshot → NoEntries (many entry_at count cursor.old)) }
{
    let mut engine = Engine::new(alloc);
    let mut deprecations = PlacedDeprecations::new(alloc);
    match read_entries(alloc, cursor, count, &mut engine, &mut deprecations, steps) {
        Ok(()) => give_all(alloc, engine, deprecations),
        Err(fault) => Err(let_both_go(engine, deprecations, fault)),
    }
}

// Reads all rows after the entries, to the end of the bytes, and adds them.
fn read_others<L: Ledger>(
    alloc: Global,
    cursor: &mut Cursor<'_>,
    head: Head,
    engine: &mut Engine,
    steps: &mut Steps<L>,
) -> Result<(), LoadFault>
    ensures ok { OnOk result ((others : Others head cursor.old) × (engine.new ≡ with_others engine.old others)) }
    ensures refused { IfErr result (λ f. f ≡ LoadFault.NotSnapshot → (others : Others head cursor.old) → IsLawful (with_others engine.old others) → ⊥) }
{
    read_items(alloc, cursor, head.items, engine, steps)?;
    read_statements(alloc, cursor, head.statements, engine, steps)?;
    read_results(alloc, cursor, head.results, engine, steps)?;
    if cursor.is_done() {
        Ok(())
    } else {
        Err(LoadFault::NotSnapshot)
    }
}

/// The engine whose snapshot is exactly these bytes. Each row is added as it is read. Beside the engine, only the
/// places of the successors of deprecated entries are kept.
///
/// # Errors
/// That no lawful rows have this snapshot, or that memory ran out.
pub fn read_snapshot<L: Ledger>(
    alloc: Global,
    bytes: &[u8],
    steps: &mut Steps<L>,
) -> Result<Engine, LoadFault>
    ensures loaded { IfOk result (λ e. Snap e bytes.now) }
    ensures refused { IfErr result (λ f. f ≡ LoadFault.NotSnapshot → (rows : Rows) → IsLawful rows → Snap rows bytes.now → ⊥) }
{
    law::snapshots_are_within();
    if bytes.len() > MOST_BYTES {
        return Err(LoadFault::NotSnapshot);
    }
    let mut cursor = Cursor::new(bytes);
    let head = read_head(&mut cursor)?;
    let mut engine = load_entries(alloc, &mut cursor, head.entries, steps)?;
    match read_others(alloc, &mut cursor, head, &mut engine, steps) {
        Ok(()) => Ok(engine),
        Err(fault) => Err(discard(engine, fault)),
    }
}
