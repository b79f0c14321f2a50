// Laws of snapshots. These functions do nothing: their clauses are the laws.
ghost use Rattle.std.specs.Prelude.{◌≡◌, ◌++◌, codes, length};
ghost use Rattle.cpe_rows.specs.Rows.{no_rows};
ghost use Rattle.snapshot_bytes.specs.Cases.{one_item, three_rows, three_rows_bytes};
ghost use Rattle.snapshot_bytes.specs.States.{snapshot, PlacesArePositions, SnapshotsAreShort, SnapshotsAreWithin, StatesAreClear, StatesHaveOne, StatesHaveSnapshots};
ghost use Rattle.snapshot_bytes.specs.StoredRows.{SnapshotsAreClear, SnapshotsAreRead};

/// Law: different rows have different snapshots. Rows that were written are read again, unless memory runs out.
pub fn snapshots_are_clear()
    ensures clear { SnapshotsAreClear }
    ensures read { SnapshotsAreRead }
{}

/// Law: different states have different snapshots. A lawful state whose texts are UTF-8 has exactly one snapshot.
pub fn states_have_snapshots()
    ensures clear { StatesAreClear }
    ensures some { StatesHaveSnapshots }
    ensures one { StatesHaveOne }
{}

/// Law: the place of a successor is the place at which a search for its name finds the entry.
pub fn places_are_positions()
    ensures { PlacesArePositions }
{}

/// Law: the snapshot of a lawful state has at most 24 bytes more than the weight of its rows. So it has at most
/// 536,870,936 bytes.
pub fn snapshots_are_short()
    ensures short { SnapshotsAreShort }
    ensures within { SnapshotsAreWithin }
{}

/// Law, by examples: the snapshot of a state without rows is the mark and 16 zero bytes. The snapshot of the item
/// `cpe:/a` has 57 bytes. The snapshot of two entries and a kept result is written out.
pub fn small_snapshots()
    ensures empty { snapshot no_rows ≡ codes "CPESNAP1" ++ codes "\0\0\0\0\0\0\0\0\0\0\0\0\0\0\0\0" }
    ensures item { length (snapshot one_item) ≡ 57 }
    ensures rows { snapshot three_rows ≡ three_rows_bytes }
{}
