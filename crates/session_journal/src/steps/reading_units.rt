//! A snapshot is read from the lines of a record.

ghost use Rattle.std.specs.Prelude.{◌≡◌, ◌++◌, ◌∷◌, [], ℕ, List, Some, map, IfOk, IfSome, IsSome};
ghost use Rattle.session_journal.specs.RecordRows.{row_of_given, row_of_unit};
ghost use Rattle.session_journal.specs.Records.{rows_in};
ghost use Rattle.stream_edits.specs.Snapshots.{SnapshotValue};

use bytes::Bytes;
use edit_journal::{Kind, Line, RowStep};
use h264_types::pictures::AuId;
use std::alloc::{AllocError, Global};
use stream_edits::snapshots::Snapshot;

/// The unit of which this is kept.
fn unit_of(kept: &RowStep) -> Result<Option<(AuId, Bytes)>, AllocError>
    ensures kept { IfOk result (λ unit. IfSome unit (λ unit. kept.now ≡ row_of_unit unit)) }
    ensures only { (unit : ℕ × List ℕ) → kept.now ≡ row_of_unit unit
        → IfOk result (λ read. read ≡ Some unit) }
{
    match kept.kind {
        Kind::Unit if kept.named == 0 => Ok(Some((AuId::new(kept.id), kept.text.clone()?))),
        _ => Ok(None),
    }
}

/// How many ids this keeps as given.
fn ids_of(kept: &RowStep) -> Option<u32>
    ensures kept { IfSome result (λ ids. kept.now ≡ row_of_given ids) }
    ensures only { (ids : ℕ) → kept.now ≡ row_of_given ids → result ≡ Some ids }
{
    match kept.kind {
        Kind::Given if kept.named == 0 && kept.text.is_empty() => Some(kept.id),
        _ => None,
    }
}

/// The units that lines keep.
fn read_units(alloc: Global, lines: &[Line]) -> Result<Option<Vec<(AuId, Bytes)>>, AllocError>
    ensures kept { IfOk result (λ read. IfSome read (λ units.
        rows_in lines.now ≡ map row_of_unit units.items)) }
    ensures only { (units : List (ℕ × List ℕ)) → rows_in lines.now ≡ map row_of_unit units
        → IfOk result (λ read. IsSome read × IfSome read (λ read. read.items ≡ units)) }
{
    let mut units = Vec::new(alloc);
    for line in lines {
        let Some(unit) = unit_of(&line.step)? else {
            return Ok(None);
        };
        units.push(unit)?;
    }
    Ok(Some(units))
}

/// The snapshot that lines keep.
pub(crate) fn read_snapshot(alloc: Global, lines: &[Line]) -> Result<Option<Snapshot>, AllocError>
    ensures kept { IfOk result (λ read. IfSome read (λ snapshot. rows_in lines.now
        ≡ map row_of_unit snapshot.units ++ row_of_given snapshot.ids_given ∷ [])) }
    ensures only { (snapshot : SnapshotValue)
        → rows_in lines.now ≡ map row_of_unit snapshot.units ++ row_of_given snapshot.ids_given ∷ []
        → IfOk result (λ read. read ≡ Some snapshot) }
{
    let Some((last, front)) = lines.split_last() else {
        return Ok(None);
    };
    let Some(ids_given) = ids_of(&last.step) else {
        return Ok(None);
    };
    match read_units(alloc, front)? {
        Some(units) => Ok(Some(Snapshot::new(units, ids_given))),
        None => Ok(None),
    }
}
