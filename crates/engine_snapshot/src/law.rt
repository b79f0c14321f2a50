// Laws of snapshots of engines. The function does nothing: its clause is the law.
ghost use Rattle.engine_snapshot.specs.Within.{SnapsAreWithin};

/// No snapshot of lawful rows has more than 536,870,936 bytes, so a reader may refuse longer bytes.
pub fn snapshots_are_within()
    ensures { SnapsAreWithin }
{
    snapshot_bytes::law::states_have_snapshots();
    snapshot_bytes::law::snapshots_are_short();
}
