//! Accepted edits as results: as parameters of `group` have them.

ghost use Rattle.std.specs.Prelude.{◌≡◌, IfOk, map};
ghost use Rattle.base64.specs.Engines.{standard};
ghost use Rattle.base64.specs.GeneralPurpose.{encode_of};
ghost use Rattle.serve_answers.specs.JournalAnswers.{after_of, edit_answer, entry_answer};

use crate::words::Digits;
use bytes::Bytes;
use h264_types::pictures::AuId;
use serde::Serialize;
use serve_requests::Listed;
use std::alloc::{AllocError, Global};
use stream_edits::{Edit, InsertionPoint, JournalEntry};

/// Edits that were accepted together.
#[derive(Debug, Drop, Serialize)]
pub struct EntryAnswer {
    pub edits: Listed<EditAnswer>,
}

/// An edit.
#[derive(Debug, Drop, Serialize)]
#[serde(rename_all = "snake_case")]
pub enum EditAnswer {
    /// A unit more, behind the one of this id or before all.
    Insert { after: Option<u32>, bytes: Digits },
    Delete { id: u32 },
    Replace { id: u32, bytes: Digits },
}

impl EntryAnswer {
    /// Edits that were accepted together.
    pub fn of(alloc: Global, entry: &JournalEntry) -> Result<EntryAnswer, AllocError>
        ensures { IfOk result (λ answer. answer ≡ entry_answer entry.now) }
    {
        Ok(EntryAnswer {
            edits: Listed::new(edits(alloc, entry.edits())?),
        })
    }
}

/// The edits of an entry.
fn edits(alloc: Global, edits: &[Edit]) -> Result<Vec<EditAnswer>, AllocError>
    ensures { IfOk result (λ answers. answers.items ≡ map edit_answer edits.now) }
{
    let mut answers = Vec::with_capacity(alloc, edits.len())?;
    for edit in edits {
        answers.push(EditAnswer::of(alloc, edit)?)?;
    }
    Ok(answers)
}

impl EditAnswer {
    /// An edit.
    fn of(alloc: Global, edit: &Edit) -> Result<EditAnswer, AllocError>
        ensures { IfOk result (λ answer. answer ≡ edit_answer edit.now) }
    {
        match edit {
            Edit::Insert(place, text) => Ok(EditAnswer::Insert {
                after: after_of(*place),
                bytes: digits(alloc, text)?,
            }),
            Edit::Delete(id) => Ok(EditAnswer::Delete { id: id.number() }),
            Edit::Replace(id, text) => Ok(EditAnswer::Replace {
                id: id.number(),
                bytes: digits(alloc, text)?,
            }),
        }
    }
}

/// The id of the unit behind which one is inserted; none before all.
fn after_of(place: InsertionPoint) -> Option<u32>
    ensures { result ≡ after_of place }
{
    match place {
        InsertionPoint::First => None,
        InsertionPoint::After(id) => Some(id.number()),
    }
}

/// A text as base64.
fn digits(alloc: Global, text: &Bytes) -> Result<Digits, AllocError>
    ensures { IfOk result (λ digits. digits ≡ encode_of standard text.now) }
{
    Digits::of_bytes(alloc, text.as_slice())
}
