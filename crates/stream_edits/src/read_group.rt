//! Groups of edits whose texts are read.

ghost use Rattle.std.specs.Prelude.{◌≡◌, ◌≤◌, IfErr, IfOk, length};
ghost use Rattle.access_unit.specs.StreamUnits.{most_units};
ghost use Rattle.stream_edits.specs.Edits.{Register};
ghost use Rattle.stream_edits.specs.GroupReading.{AreReadUpTo};
ghost use Rattle.stream_edits.specs.GroupRefusals.{IsGroupRefused, IsUntaken};
ghost use Rattle.stream_edits.specs.Groups.{IsSized, most_edits};

use crate::edits::Edit;
use crate::group_refused::GroupRefused;
use crate::read_edit::ReadEdit;
use crate::refusals::EditRefused;
use access_unit::MOST_UNITS;
use std::alloc::{AllocError, Global};
use std::marker::Model;

/// How many edits a group has at most that is asked for.
pub const MOST_EDITS: usize = 1_024;

/// A group of one edit at least and 65,536 at most, with the units that their texts are read as, up
/// to the first text that is refused. Clauses see the edits.
#[derive(Debug)]
pub struct ReadGroup {
    edits: Vec<Edit>,
    pub(crate) read: Vec<ReadEdit>,
    /// Why the text of the next one is refused, if one is.
    pub(crate) refused: Option<EditRefused>,
}

// By hand, so that whoever drops one is proved over one call.
impl Drop for ReadGroup {
    fn drop(self) {
        let ReadGroup {
            edits: _,
            read: _,
            refused: _,
        } = self;
    }
}

impl Model for ReadGroup {
    ghost use Rattle.std.specs.Prelude.{List};
    ghost use Rattle.stream_edits.specs.declared.edits.Edit.{Edit as EditValue};
    ghost use Rattle.stream_edits.specs.GroupReading.{IsReadGroup};

    ghost Value = { List EditValue };

    ghost view = { λ group. group.edits.items };

    ghost invariant = { λ group. IsReadGroup group.edits.items group.read.items group.refused };
}

impl ReadGroup {
    /// The group of these edits with their texts read, or why it is refused whatever the stream is:
    /// for its size, or for lack of memory. A text that is refused is answered when the group is
    /// made, since an edit before it may be refused for the stream. No byte is copied.
    pub fn read(alloc: Global, edits: Vec<Edit>) -> Result<ReadGroup, GroupRefused>
        ensures ok { IfOk result (λ group. (group ≡ edits.items) × IsSized group) }
        ensures few { IfOk result (λ group. length group ≤ most_edits) }
        ensures err { IfErr result (λ refused. (old : Register)
            → IsGroupRefused old edits.items refused) }
    {
        group_of(alloc, edits, MOST_EDITS)
    }

    /// The group of the edits of an undo or a redo, as `read` gives it, of which there may be as many
    /// as a stream has units.
    pub fn of_step(alloc: Global, edits: Vec<Edit>) -> Result<ReadGroup, GroupRefused>
        ensures ok { IfOk result (λ group. (group ≡ edits.items) × IsSized group) }
        ensures err { IfErr result (λ refused. (old : Register)
            → IsGroupRefused old edits.items refused) }
        ensures untaken { IfErr result (IsUntaken most_units edits.items) }
    {
        group_of(alloc, edits, MOST_UNITS)
    }

    /// The edits.
    pub fn edits(&self) -> &[Edit]
        ensures edits { result.now ≡ self.now }
        ensures sized { IsSized self.now }
    {
        &self.edits
    }

    /// The edits, without the units.
    pub fn into_edits(self) -> Vec<Edit>
        ensures { result.items ≡ self }
    {
        let ReadGroup {
            edits,
            read: _,
            refused: _,
        } = self;
        edits
    }
}

/// The group of these edits, of which there may be so many, with their texts read.
fn group_of(alloc: Global, edits: Vec<Edit>, most: usize) -> Result<ReadGroup, GroupRefused>
    requires { (most_edits ≤ most) × (most ≤ most_units) }
    ensures ok { IfOk result (λ group. (group ≡ edits.items) × IsSized group) }
    ensures few { IfOk result (λ group. length group ≤ most) }
    ensures err { IfErr result (λ refused. (old : Register)
        → IsGroupRefused old edits.items refused) }
    ensures untaken { IfErr result (IsUntaken most edits.items) }
{
    if edits.is_empty() {
        return Err(GroupRefused::Empty);
    }
    if edits.len() > most {
        return Err(GroupRefused::TooLarge);
    }
    let (read, refused) = read_texts(alloc, &edits)?;
    Ok(ReadGroup {
        edits,
        read,
        refused,
    })
}

/// The edits with their texts read, up to the first text that is refused, and that refusal.
fn read_texts(
    alloc: Global,
    edits: &[Edit],
) -> Result<(Vec<ReadEdit>, Option<EditRefused>), AllocError>
    ensures { IfOk result (λ texts. AreReadUpTo edits.now texts.0.items texts.1) }
{
    let mut read = Vec::with_capacity(alloc, edits.len())?;
    for index in 0..edits.len() {
        match edits[index].copy()?.read(alloc) {
            Ok(edit) => read.push(edit)?,
            Err(refused) => return Ok((read, Some(refused))),
        }
    }
    Ok((read, None))
}
