//! A stream as a snapshot: its units' texts under their ids, and how many ids were given.
//!
//! A session that begins from a snapshot has the units and the ids that the stream had, and gives no
//! id again. `Snapshot` holds what is written down; `Snapshot::read` reads its texts, once, and
//! refuses what no stream has. Above are whoever writes snapshots down and whoever begins from them.

mod ids;
mod read_snapshot;
mod snapshot;
mod texts;

pub use read_snapshot::{ReadSnapshot, SnapshotRefused};
pub use snapshot::Snapshot;

#[cfg(test)]
mod tests;
