//! The ids of a stream under the edits of a group.

ghost use Rattle.std.specs.Prelude.{◌≡◌, ◌≢◌, ℕ, List, ◌<◌, ◌≤◌, ◌+◌, Some, length, IfErr, IfOk, OnOk};
ghost use Rattle.edit_history.specs.Changes.{Changes, ChangesAll, IsWithin, IsMore};
ghost use Rattle.edit_history.specs.declared.refusals.NotUndone.TheVariants.{Unfit};
ghost use Rattle.edit_history.specs.Groups.{Leads, LeadsAll};
ghost use Rattle.edit_history.specs.Refusals.{IsRefusedFor};
ghost use Rattle.edit_history.specs.Texts.{IsStream, Texts};
ghost use Rattle.stream_edits.specs.Edits.{Register};
ghost use Rattle.picture_keys.specs.Units.{AreDifferent};
ghost use Rattle.stream_edits.specs.Streams.{start_among};

use crate::changes::UnitChange;
use crate::refusals::NotUndone;
use bytes::Bytes;
use h264_types::pictures::AuId;
use std::alloc::{AllocError, Global};
use stream_edits::{Edit, InsertionPoint};

/// The ids of a stream beside the one that is kept, on which the edits of a group are made one after
/// the other, and how many ids were given.
#[derive(Debug, Drop)]
pub(crate) struct TextDraft {
    pub(crate) ids: Vec<AuId>,
    pub(crate) ids_given: u32,
}

impl TextDraft {
    /// The ids as they are, before any edit.
    pub(crate) fn new(alloc: Global, ids: &[AuId], ids_given: u32) -> Result<TextDraft, AllocError>
        ensures ids { IfOk result (λ draft. draft.ids.items ≡ ids.now) }
        ensures given { IfOk result (λ draft. draft.ids_given ≡ ids_given) }
    {
        Ok(TextDraft {
            ids: ids.to_vec(alloc)?,
            ids_given,
        })
    }

    /// The edits that make the changes, made on the draft one after the other.
    pub(crate) fn make_all(
        &mut self,
        alloc: Global,
        changes: &[UnitChange],
    ) -> Result<Vec<Edit>, NotUndone>
        ensures ok { IfOk result (λ edits. (old : Register) (before : Texts) (after : Texts)
            → IsStream old before self.old.ids.items self.old.ids_given
            → ChangesAll before changes.now after
            → LeadsAll old edits.items after self.new.ids.items self.new.ids_given) }
        ensures err { IfErr result (IsRefusedFor (self.old.ids_given + length changes.now)) }
        ensures fit { IfErr result (λ refused. (old : Register) (before : Texts) (after : Texts)
            → IsStream old before self.old.ids.items self.old.ids_given
            → ChangesAll before changes.now after → refused ≢ Unfit) }
    {
        let mut edits = Vec::with_capacity(alloc, changes.len())?;
        for change in changes {
            edits.push(self.make(change)?)?;
        }
        Ok(edits)
    }

    /// The edit that makes the change, made on the draft.
    pub(crate) fn make(&mut self, change: &UnitChange) -> Result<Edit, NotUndone>
        ensures makes { IfOk result (λ edit. (old : Register) (before : Texts) (after : Texts)
            → IsStream old before self.old.ids.items self.old.ids_given
            → Changes before change.now after
            → Leads old edit after self.new.ids.items self.new.ids_given) }
        ensures given { OnOk result (self.new.ids_given ≤ self.old.ids_given + 1) }
        ensures err { IfErr result (IsRefusedFor (self.old.ids_given + 1)) }
        ensures fit { IfErr result (λ refused. refused ≡ Unfit
            → IsWithin (length self.old.ids.items) change.now → ⊥) }
    {
        match change {
            UnitChange::Inserted(at, text) => self.insert(*at, text),
            UnitChange::Deleted(at, _) => self.delete(*at),
            UnitChange::Replaced(at, _, text) => self.replace(*at, text),
        }
    }

    /// Inserts a unit at the place, under the next id.
    fn insert(&mut self, at: usize, text: &Bytes) -> Result<Edit, NotUndone>
        ensures makes { IfOk result (λ edit. (old : Register) (before : Texts) (after : Texts)
            → IsStream old before self.old.ids.items self.old.ids_given
            → IsMore before at text.now after
            → Leads old edit after self.new.ids.items self.new.ids_given) }
        ensures given { OnOk result (self.new.ids_given ≡ self.old.ids_given + 1) }
        ensures err { IfErr result (IsRefusedFor (self.old.ids_given + 1)) }
        ensures fit { IfErr result (λ refused. refused ≡ Unfit
            → length self.old.ids.items < at) }
    {
        if at > self.ids.len() {
            return Err(NotUndone::Unfit);
        }
        let Some(number) = self.ids_given.checked_add(1) else {
            return Err(NotUndone::IdsSpent);
        };
        let edit = Edit::Insert(place_at(&self.ids, at), text.clone()?);
        self.ids.insert(at, AuId::new(number))?;
        self.ids_given = number;
        Ok(edit)
    }

    /// Deletes the unit at the place.
    fn delete(&mut self, at: usize) -> Result<Edit, NotUndone>
        ensures makes { IfOk result (λ edit. (old : Register) (before : Texts) (after : Texts)
            (text : List ℕ) → IsStream old before self.old.ids.items self.old.ids_given
            → IsMore after at text before
            → Leads old edit after self.new.ids.items self.new.ids_given) }
        ensures given { OnOk result (self.new.ids_given ≡ self.old.ids_given) }
        ensures err { IfErr result (λ refused. refused ≡ Unfit) }
        ensures fit { IfErr result (λ _. length self.old.ids.items ≤ at) }
    {
        if at >= self.ids.len() {
            return Err(NotUndone::Unfit);
        }
        Ok(Edit::Delete(self.ids.remove(at)))
    }

    /// Replaces the unit at the place.
    fn replace(&self, at: usize, text: &Bytes) -> Result<Edit, NotUndone>
        ensures makes { IfOk result (λ edit. (old : Register) (before : Texts) (after : Texts)
            (others : Texts) (former : List ℕ)
            → IsStream old before self.now.ids.items self.now.ids_given
            → IsMore others at former before → IsMore others at text.now after
            → Leads old edit after self.now.ids.items self.now.ids_given) }
        ensures err { IfErr result (IsRefusedFor 0) }
        ensures fit { IfErr result (λ refused. refused ≡ Unfit
            → length self.now.ids.items ≤ at) }
    {
        if at >= self.ids.len() {
            return Err(NotUndone::Unfit);
        }
        Ok(Edit::Replace(self.ids[at], text.clone()?))
    }
}

/// The place before which so many units of these ids stand.
fn place_at(ids: &[AuId], at: usize) -> InsertionPoint
    requires { at ≤ length ids.now }
    ensures { AreDifferent ids.now → start_among ids.now result ≡ Some at }
{
    if at == 0 {
        InsertionPoint::First
    } else {
        InsertionPoint::After(ids[at - 1])
    }
}
