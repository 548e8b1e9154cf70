//! Edits whose texts are read.

ghost use Rattle.std.specs.Prelude.{◌≡◌, IfErr, IfOk};
ghost use Rattle.annexb.specs.ByteStream.{joined};
ghost use Rattle.access_unit.specs.Answers.{IsAccepted};
ghost use Rattle.stream_edits.specs.declared.edits.Edit.TheVariants.{Insert};
ghost use Rattle.stream_edits.specs.Edits.{Register};
ghost use Rattle.stream_edits.specs.Reading.{IsHashedFor};
ghost use Rattle.stream_edits.specs.Refusals.{IsRefused, IsRefusedText};

use crate::edits::{Edit, InsertionPoint};
use crate::refusals::EditRefused;
use access_unit::read_shared;
use bytes::Bytes;
use h264_types::base::Shared;
use picture_keys::HashedUnit;
use std::alloc::{AllocError, Global};
use std::marker::Model;

/// An edit with the unit that its text is read as, if it has one. Clauses see the edit.
#[derive(Debug)]
pub struct ReadEdit {
    pub(crate) edit: Edit,
    pub(crate) unit: Option<Shared<HashedUnit>>,
}

// By hand, so that whoever drops one is proved over one call.
impl Drop for ReadEdit {
    fn drop(self) {
        let ReadEdit { edit: _, unit: _ } = self;
    }
}

impl Model for ReadEdit {
    ghost use Rattle.stream_edits.specs.declared.edits.Edit.{Edit as EditValue};
    ghost use Rattle.stream_edits.specs.Reading.{IsUnitOf};

    ghost Value = { EditValue };

    ghost view = { λ read. read.edit };

    ghost invariant = { λ read. IsUnitOf read.edit read.unit };
}

impl ReadEdit {
    /// The insertion of a unit, whose text is that of its NAL units joined. No byte of a lone one
    /// is copied, and nothing is read.
    pub fn insertion(
        alloc: Global,
        place: InsertionPoint,
        unit: HashedUnit,
    ) -> Result<ReadEdit, AllocError>
        ensures ok { IfOk result (λ read. read ≡ Insert place (joined unit)) }
        ensures accepted { IsAccepted (joined unit) unit }
    {
        let text = unit.unit().text(alloc)?;
        Ok(ReadEdit {
            edit: Edit::Insert(place, text),
            unit: Some(Shared::new(alloc, unit)?),
        })
    }

    /// The edit.
    pub fn edit(&self) -> &Edit
        ensures { result.now ≡ self.now }
    {
        &self.edit
    }

    /// How many bytes were hashed for it: those of the slices of its unit, once.
    pub fn hashed(&self) -> usize
        ensures { IsHashedFor self.now result }
    {
        match &self.unit {
            Some(unit) => unit.hashed(),
            None => 0,
        }
    }

    /// The edit, without the unit.
    pub fn into_edit(self) -> Edit
        ensures { result ≡ self }
    {
        let ReadEdit { edit, unit: _ } = self;
        edit
    }
}

impl Edit {
    /// The edit with its text read, or why it is refused whatever the stream is, which is for its
    /// text. Memory may stand in for another refusal, as `change_of` says. No byte is copied. An
    /// edit without a text is never refused.
    pub fn read(self, alloc: Global) -> Result<ReadEdit, EditRefused>
        ensures ok { IfOk result (λ read. read ≡ self) }
        ensures err { IfErr result (λ refused. (old : Register) → IsRefused old self refused) }
    {
        match self {
            Edit::Insert(place, text) => {
                let unit = Some(read_text(alloc, &text)?);
                let edit = Edit::Insert(place, text);
                Ok(ReadEdit { edit, unit })
            }
            Edit::Delete(id) => {
                let edit = Edit::Delete(id);
                Ok(ReadEdit { edit, unit: None })
            }
            Edit::Replace(id, text) => {
                let unit = Some(read_text(alloc, &text)?);
                let edit = Edit::Replace(id, text);
                Ok(ReadEdit { edit, unit })
            }
        }
    }
}

/// The unit of the text of an edit. Its slices' bytes are hashed here, once.
fn read_text(alloc: Global, text: &Bytes) -> Result<Shared<HashedUnit>, EditRefused>
    ensures ok { IfOk result (IsAccepted text.now) }
    ensures err { IfErr result (IsRefusedText text.now) }
{
    let unit = read_shared(alloc, text)?;
    Ok(Shared::new(alloc, HashedUnit::of(unit))?)
}
