//! Steps of a session, as the records of a journal keep them.
//!
//! A `RecordedStep` is what one record keeps: an edit or the edits of a group, the edits of a load, or a
//! snapshot of the stream. `keep_group` and `keep_load` give what `Journal::append` is to be passed, and
//! `keep_snapshot` what `Journal::rewrite` is; `read` gives the steps back of which `open` found the
//! lines. Below are edit_journal, which keeps lines in a file, and stream_edits, whose edits and
//! snapshots these are.
mod keeping;
mod reading;
mod reading_edits;
mod reading_units;
mod step;

pub use keeping::{keep_group, keep_load, keep_snapshot};
pub use reading::read;
pub use step::{EditList, RecordedStep};
pub use stream_edits::snapshots::Snapshot;
