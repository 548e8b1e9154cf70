//! What is prepared before an edit, a group or a load is asked for.

use crate::UnitChange;
use crate::undo_redo::unit_texts::UnitTexts;
use bytes::Bytes;
use h264_types::pictures::AuId;

/// What an edit changes, to be taken in without memory once it is accepted: these units stand in the
/// place of those of a range.
#[derive(Debug, Drop)]
pub struct PreparedEdit {
    pub(crate) at: usize,
    pub(crate) rest: usize,
    pub(crate) ids: Vec<AuId>,
    pub(crate) texts: Vec<Bytes>,
    pub(crate) ids_given: u32,
    pub(crate) change: UnitChange,
}

/// What edits that are made together change, to be taken in without memory once they are accepted.
#[derive(Debug, Drop)]
pub struct PreparedGroup {
    pub(crate) units: UnitTexts,
    pub(crate) changes: Vec<UnitChange>,
}

/// A step that is under way: what its edits changed so far.
#[derive(Debug, Drop)]
pub struct OpenStep {
    pub(crate) changes: Vec<UnitChange>,
}
