//! Groups of edits that make changes, and what takes changes back.

ghost use Rattle.std.specs.Prelude.{◌≡◌, ◌≢◌, ◌+◌, length, IfErr, IfOk};
ghost use Rattle.edit_history.specs.Changes.{ChangesAll};
ghost use Rattle.edit_history.specs.declared.refusals.NotUndone.TheVariants.{Unfit};
ghost use Rattle.edit_history.specs.Groups.{LeadsAll};
ghost use Rattle.edit_history.specs.Refusals.{IsRefusedFor};
ghost use Rattle.edit_history.specs.Texts.{IsStream, Texts};
ghost use Rattle.stream_edits.specs.Edits.{Register};

use crate::changes::UnitChange;
use crate::draft::TextDraft;
use crate::refusals::NotUndone;
use h264_types::pictures::AuId;
use std::alloc::{AllocError, Global};
use stream_edits::Edit;

/// A group of edits that takes a step back, or makes it again.
#[derive(Debug, Drop)]
pub struct StepGroup {
    /// The edits, to be made together.
    pub edits: Vec<Edit>,
    /// What they change, one after the other.
    pub changes: Vec<UnitChange>,
    /// The ids of the units once they are made.
    pub ids: Vec<AuId>,
    /// How many ids are given then.
    pub ids_given: u32,
}

/// The edits that make the changes, one for each, of a stream with these ids and with so many ids
/// given. An edit names an id that one before it gives.
pub(crate) fn group_of(
    alloc: Global,
    ids: &[AuId],
    ids_given: u32,
    changes: Vec<UnitChange>,
) -> Result<StepGroup, NotUndone>
    ensures ok { IfOk result (λ group. (old : Register) (before : Texts) (after : Texts)
        → IsStream old before ids.now ids_given → ChangesAll before changes.items after
        → LeadsAll old group.edits.items after group.ids.items group.ids_given) }
    ensures changes { IfOk result (λ group. group.changes.items ≡ changes.items) }
    ensures err { IfErr result (IsRefusedFor (ids_given + length changes.items)) }
    ensures fit { IfErr result (λ refused. (old : Register) (before : Texts) (after : Texts)
        → IsStream old before ids.now ids_given → ChangesAll before changes.items after
        → refused ≢ Unfit) }
{
    let mut draft = TextDraft::new(alloc, ids, ids_given)?;
    let edits = draft.make_all(alloc, &changes)?;
    let TextDraft { ids, ids_given } = draft;
    Ok(StepGroup {
        edits,
        changes,
        ids,
        ids_given,
    })
}

/// The changes once more. They share the bytes.
pub(crate) fn copies_of(
    alloc: Global,
    changes: &[UnitChange],
) -> Result<Vec<UnitChange>, AllocError>
    ensures { IfOk result (λ copies. copies.items ≡ changes.now) }
{
    let mut copies = Vec::with_capacity(alloc, changes.len())?;
    for change in changes {
        copies.push(change.copy()?)?;
    }
    Ok(copies)
}

/// What takes the changes back, the last first. It shares the bytes.
pub(crate) fn inverse_of(
    alloc: Global,
    changes: &[UnitChange],
) -> Result<Vec<UnitChange>, AllocError>
    ensures back { IfOk result (λ inverse. (old : Texts) (new : Texts)
        → ChangesAll old changes.now new → ChangesAll new inverse.items old) }
    ensures length { IfOk result (λ inverse. length inverse.items ≡ length changes.now) }
{
    let mut inverse = Vec::with_capacity(alloc, changes.len())?;
    for index in 0..changes.len() {
        let last = &changes[changes.len() - 1 - index];
        inverse.push(last.inverse()?)?;
    }
    Ok(inverse)
}
