//! Which units an edit changed: all of them are compared, before and after.

use super::trees::{Key, Tree, key_at};
use access_unit::Unit;
use h264_types::pictures::AuId;
use stand_in_session::Changed;
use std::alloc::{AllocError, Global};
use unit_outcomes::Outcome;

/// A unit's id, its key where it is valid, and the number of its fault where it has one.
pub(super) type Row = (AuId, Option<Tree>, Option<u8>);

/// The units of a stream as they are compared.
pub(super) fn rows_of(
    alloc: Global,
    units: &[(AuId, Unit)],
    outcomes: &[Outcome],
    keys: &[Key],
) -> Result<Vec<Row>, AllocError> {
    let mut rows = Vec::new(alloc);
    for (unit, outcome) in units.iter().zip(outcomes) {
        let tree = key_at(keys, Some(unit.0)).map(|key| key.tree);
        let fault = match outcome {
            Outcome::Fault(fault) => Some(fault.number()),
            _ => None,
        };
        rows.push((unit.0, tree, fault))?;
    }
    Ok(rows)
}

/// From the first to the last unit that wasn't there before as it is.
pub(super) fn changed(before: &[Row], after: &[Row]) -> Changed {
    let mut changed = Changed { from: 0, count: 0 };
    for (at, row) in after.iter().enumerate() {
        let at = at as u64;
        if !before.contains(row) {
            if changed.count == 0 {
                changed.from = at;
            }
            changed.count = at.saturating_sub(changed.from).saturating_add(1);
        }
    }
    changed
}
