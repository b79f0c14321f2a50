// A snapshot with one row of each kind, whose rows are read in one call.
use snapshot_bytes::{PlacedEntry, PlacedRows, names_at, read_rows};
use std::alloc::Global;

// The bytes of a snapshot: an entry, an item, a statement with a check, and the result of this check.
const ROWS: &[u8] =
    b"CPESNAP1\0\0\0\x01\0\0\0\x01\0\0\0\x01\0\0\0\x01\0\0\0\x1dcpe:2.3:a:v:p:1:*:*:*:*:*:*:*\0\0\0\x01T\0\0\0\0\0\0\0\0\0\0\0\0\0\0\0\0\x1dcpe:2.3:a:*:*:*:*:*:*:*:*:*:*\0\0\0\x01s\0\0\0\0\0\0\x01\0\0\0\0\x01\x02\0\0\0\x01x\0\0\0\x01y\0\0\0\x01z\0\0\0\x01x\0\0\0\x01y\0\0\0\x01z\x02";

fn is_named(alloc: Global, entries: &[PlacedEntry], place: u32) -> bool {
    match names_at(alloc, entries, &[place]) {
        Ok(names) => {
            let is_so = names.len() == 1;
            drop(names);
            is_so
        }
        Err(_) => false,
    }
}

fn has_each(alloc: Global, rows: &PlacedRows) -> bool {
    rows.entries.len() == 1
        && rows.items.len() == 1
        && rows.statements.len() == 1
        && rows.results.len() == 1
        && is_named(alloc, rows.entries.as_slice(), 0)
        && !is_named(alloc, rows.entries.as_slice(), 1)
}

fn is_read(alloc: Global, bytes: &[u8]) -> bool {
    match read_rows(alloc, bytes) {
        Ok(rows) => {
            let has_each = has_each(alloc, &rows);
            drop(rows);
            has_each
        }
        Err(_) => false,
    }
}

#[test]
fn a_row_of_each_kind_is_read(rt: HostRuntime) {
    assert!(rt; is_read(rt.alloc(), ROWS));
}
