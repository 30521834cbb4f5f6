ghost use Rattle.hx_store.specs.Reading.{SnapshotsComeBack};

/// A store with the slots of a snapshot, as [`crate::Store::install`] leaves it, has the floor, the
/// object, and where marks are kept the committed marks and touches of each key of which something
/// is committed in the store that [`crate::Store::snapshot`] took it of; of no other key it has
/// anything, and it has nothing pending.
pub fn snapshots_come_back()
    ensures { SnapshotsComeBack }
{}
