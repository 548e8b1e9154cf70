//! Edits and ids as tables of tests have them.

ghost use Rattle.std.specs.Prelude.{◌≡◌, IfOk, map, true};
ghost use Rattle.session_builders.specs.Edits.{edit_in_row};

use bytes::Bytes;
use h264_types::pictures::AuId;
use stand_in_session::{Edit, InsertionPoint};
use std::alloc::{AllocError, Global};

/// An edit as a row has it.
#[derive(Clone, Copy)]
pub enum EditRow {
    /// An insertion before all units.
    First(&'static [u8]),
    /// An insertion after the unit of this id.
    After(u32, &'static [u8]),
    Delete(u32),
    Replace(u32, &'static [u8]),
}

/// The edit of a row.
pub fn edit_of(told: EditRow) -> Edit
    ensures { result ≡ edit_in_row told }
{
    match told {
        EditRow::First(text) => Edit::Insert(InsertionPoint::First, Bytes::from_static(text)),
        EditRow::After(id, text) => {
            Edit::Insert(
                InsertionPoint::After(AuId::new(id)),
                Bytes::from_static(text),
            )
        }
        EditRow::Delete(id) => Edit::Delete(AuId::new(id)),
        EditRow::Replace(id, text) => Edit::Replace(AuId::new(id), Bytes::from_static(text)),
    }
}

/// The edits of a row, in its order.
pub fn edits_of(alloc: Global, told: &[EditRow]) -> Result<Vec<Edit>, AllocError>
    ensures { IfOk result (λ edits. edits.items ≡ map edit_in_row told.now) }
{
    let mut edits = Vec::with_capacity(alloc, told.len())?;
    for told in told {
        edits.push(edit_of(*told))?;
    }
    Ok(edits)
}

/// Whether the ids have these numbers.
pub fn are_ids(ids: &[AuId], wanted: &[u32]) -> bool
    ensures same { result ≡ true → ids.now ≡ wanted.now }
    ensures other { ids.now ≡ wanted.now → result ≡ true }
{
    ids.len() == wanted.len()
        && ids
            .iter()
            .zip(wanted)
            .all(|(id, wanted)| id.number() == *wanted)
}
