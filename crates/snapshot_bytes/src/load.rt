// Reads all rows of a snapshot from bytes.
ghost use Rattle.std.specs.Prelude.{◌≡◌};
ghost use Rattle.snapshot_bytes.specs.Reading.{Took, Found, IsReadAs, is_few, mark_at, numbers_at, head_at, rows_at, rows_of};
ghost use Rattle.snapshot_bytes.specs.StoredRows.{Reads};

use crate::cursor::Cursor;
use crate::fault::LoadFault;
use crate::parts::many;
use crate::rows::{KeptResult, PlacedEntry, PlacedRows};
use cpe_rows::{MOST_CHECKS, MOST_ENTRIES, MOST_ITEMS, MOST_STATEMENTS, Statement, Wfn};
use std::alloc::Global;

/// The number of rows of each kind.
#[derive(Clone, Copy)]
pub struct Head {
    /// The number of entries.
    pub entries: u32,
    /// The number of items.
    pub items: u32,
    /// The number of statements.
    pub statements: u32,
    /// The number of results of checks.
    pub results: u32,
}

#[tactic(auto, unfolding(crate::specs::Reading::mark_at))]
fn mark(cursor: &mut Cursor<'_>) -> Result<(), LoadFault>
    ensures { Found result cursor.new (mark_at cursor.old) }
{
    let bytes = cursor.bytes(8)?;
    if bytes == b"CPESNAP1".as_slice() {
        Ok(())
    } else {
        Err(LoadFault::NotSnapshot)
    }
}

#[tactic(auto, unfolding(crate::specs::Reading::numbers_at))]
fn numbers(cursor: &mut Cursor<'_>) -> Result<Head, LoadFault>
    ensures { Found result cursor.new (numbers_at cursor.old) }
{
    mark(cursor)?;
    let entries = cursor.number()?;
    let items = cursor.number()?;
    let statements = cursor.number()?;
    let results = cursor.number()?;
    Ok(Head {
        entries,
        items,
        statements,
        results,
    })
}

// Whether the numbers of rows are within their limits.
fn is_few(head: Head) -> bool
    ensures { result ≡ is_few head }
{
    head.entries as usize <= MOST_ENTRIES
        && head.items as usize <= MOST_ITEMS
        && head.statements as usize <= MOST_STATEMENTS
        && head.results as usize <= MOST_CHECKS
}

/// The head of a snapshot, which is before the rows: the mark, and the number of rows of each kind, within its limit.
///
/// # Errors
/// `NotSnapshot` if the bytes don't begin with a head.
#[tactic(auto, unfolding(crate::specs::Reading::head_at))]
pub fn read_head(cursor: &mut Cursor<'_>) -> Result<Head, LoadFault>
    ensures { Found result cursor.new (head_at cursor.old) }
{
    let head = numbers(cursor)?;
    if is_few(head) {
        Ok(head)
    } else {
        Err(LoadFault::NotSnapshot)
    }
}

#[tactic(auto, unfolding(crate::specs::Reading::rows_at))]
fn rows(alloc: Global, cursor: &mut Cursor<'_>, head: Head) -> Result<PlacedRows, LoadFault>
    ensures { Took result cursor.new (rows_at head cursor.old) }
{
    let entries = many::<PlacedEntry>(alloc, cursor, head.entries)?;
    let items = many::<Wfn>(alloc, cursor, head.items)?;
    let statements = many::<Statement>(alloc, cursor, head.statements)?;
    let results = many::<KeptResult>(alloc, cursor, head.results)?;
    Ok(PlacedRows {
        entries,
        items,
        statements,
        results,
    })
}

#[tactic(auto, unfolding(crate::specs::Reading::rows_of))]
fn all(alloc: Global, bytes: &[u8]) -> Result<PlacedRows, LoadFault>
    ensures { IsReadAs result (rows_of bytes.now) }
{
    let mut cursor = Cursor::new(bytes);
    let head = read_head(&mut cursor)?;
    let rows = rows(alloc, &mut cursor, head)?;
    if cursor.is_done() {
        Ok(rows)
    } else {
        Err(LoadFault::NotSnapshot)
    }
}

/// The rows whose snapshot is exactly these bytes.
///
/// No number in the bytes is trusted. A list grows only if a further part was read, and a text is copied only if all of
/// its bytes are there.
///
/// # Errors
/// `NotSnapshot` if the bytes are the snapshot of no rows; `Memory` if memory runs out.
pub fn read_rows(alloc: Global, bytes: &[u8]) -> Result<PlacedRows, LoadFault>
    ensures { Reads bytes.now result }
{
    all(alloc, bytes)
}
