//! The texts of a stream's units.

ghost use Rattle.std.specs.Prelude.{◌≡◌, ℕ, List, [], None, IfOk, IfSome, OnOk, option_copied, zip};
ghost use Rattle.picture_keys.specs.Units.{AreDifferent};
ghost use Rattle.edit_history.specs.Changes.{Changes, ChangesAll};
ghost use Rattle.edit_history.specs.Texts.{Texts};
ghost use Rattle.stream_edits.specs.declared.edits.Edit.TheVariants.{Insert, Delete, Replace};
ghost use Rattle.stream_edits.specs.Edits.{Register};
ghost use Rattle.stream_edits.specs.Groups.{MakesAll};
ghost use Rattle.stream_edits.specs.Snapshots.{IsOf};
ghost use Rattle.edit_history.specs.Following.{AreRefusedOf, Follows, HasCapacity, HasSpace, IsLed, IsRefusedOf, ids_after, texts_after};
ghost use Rattle.edit_history.specs.KeptTexts.{AreSame, IsKept};
ghost use Rattle.edit_history.specs.Snapshots.{AreOf, text_under};

use crate::undo_redo::places::{place_of, start_of};
use crate::undo_redo::prepared::PreparedEdit;
use crate::{StepGroup, UnitChange};
use bytes::Bytes;
use h264_types::base::replace_range;
use h264_types::pictures::AuId;
use std::alloc::{AllocError, Global};
use stream_edits::snapshots::Snapshot;
use stream_edits::{Edit, InsertionPoint};

/// The texts of a stream's units under their ids, in decoding order, and how many ids were given.
#[derive(Debug)]
pub struct UnitTexts {
    pub(crate) ids: Vec<AuId>,
    pub(crate) texts: Vec<Bytes>,
    pub(crate) ids_given: u32,
}

// By hand, so that whoever drops one is proved over one call.
impl Drop for UnitTexts {
    fn drop(self) {
        let UnitTexts {
            ids: _,
            texts: _,
            ids_given: _,
        } = self;
    }
}

impl UnitTexts {
    /// The texts of no unit, before an id is given.
    pub(crate) fn none(alloc: Global) -> UnitTexts
        ensures ids { result.ids.items ≡ [] }
        ensures texts { result.texts.items ≡ [] }
        ensures given { result.ids_given ≡ 0 }
    {
        UnitTexts {
            ids: Vec::new(alloc),
            texts: Vec::new(alloc),
            ids_given: 0,
        }
    }

    /// The texts and ids of a snapshot. The bytes are shared.
    pub(crate) fn of(alloc: Global, snapshot: &Snapshot) -> Result<UnitTexts, AllocError>
        ensures { IfOk result (AreOf snapshot.now) }
    {
        let units = snapshot.units();
        let mut ids = Vec::with_capacity(alloc, units.len())?;
        let mut texts = Vec::with_capacity(alloc, units.len())?;
        for (id, text) in units {
            ids.push(*id)?;
            texts.push(text.clone()?)?;
        }
        Ok(UnitTexts {
            ids,
            texts,
            ids_given: snapshot.ids_given(),
        })
    }

    /// The snapshot with these texts and ids. The bytes are shared.
    pub(crate) fn snapshot(&self, alloc: Global) -> Result<Snapshot, AllocError>
        ensures is_of { IfOk result (λ snapshot. (register : Register)
            → IsKept self.now register → IsOf snapshot register) }
        ensures units { IfOk result (λ snapshot.
            snapshot.units ≡ zip self.now.ids.items self.now.texts.items) }
        ensures given { IfOk result (λ snapshot. snapshot.ids_given ≡ self.now.ids_given) }
    {
        let mut units = Vec::with_capacity(alloc, self.ids.len())?;
        for (id, text) in self.ids.iter().zip(&self.texts) {
            units.push((*id, text.clone()?))?;
        }
        Ok(Snapshot::new(units, self.ids_given))
    }

    /// The text under the id, if there is one.
    pub(crate) fn text(&self, id: AuId) -> Option<&Bytes>
        ensures { AreDifferent self.now.ids.items
            → option_copied result ≡ text_under self.now id }
    {
        let at = place_of(&self.ids, id)?;
        self.texts.get(at)
    }

    /// The same texts and ids once more. The bytes are shared.
    pub(crate) fn copy(&self, alloc: Global) -> Result<UnitTexts, AllocError>
        ensures { IfOk result (AreSame self.now) }
    {
        Ok(UnitTexts {
            ids: self.ids.to_vec(alloc)?,
            texts: shares_of(alloc, &self.texts)?,
            ids_given: self.ids_given,
        })
    }

    /// What the edit changes of them, with room for it. Nothing where no stream of these texts and
    /// ids takes the edit.
    pub(crate) fn prepare(
        &mut self,
        alloc: Global,
        edit: &Edit,
    ) -> Result<Option<PreparedEdit>, AllocError>
        ensures same { AreSame self.old self.new }
        ensures follows { IfOk result (λ prepared. IfSome prepared (Follows self.new edit.now)) }
        ensures capacity { IfOk result (λ prepared. IfSome prepared (HasCapacity self.new)) }
        ensures none { IfOk result (λ prepared. prepared ≡ None
            → IsRefusedOf self.new edit.now) }
    {
        self.ids.reserve(1)?;
        self.texts.reserve(1)?;
        match edit {
            Edit::Insert(place, text) => self.insertion(alloc, *place, text),
            Edit::Delete(id) => self.deletion(alloc, *id),
            Edit::Replace(id, text) => self.replacement(alloc, *id, text),
        }
    }

    /// What an insertion changes.
    fn insertion(
        &self,
        alloc: Global,
        place: InsertionPoint,
        text: &Bytes,
    ) -> Result<Option<PreparedEdit>, AllocError>
        requires capacity { HasSpace self.now }
        ensures follows { IfOk result (λ prepared.
            IfSome prepared (Follows self.now (Insert place text.now))) }
        ensures capacity { IfOk result (λ prepared. IfSome prepared (HasCapacity self.now)) }
        ensures none { IfOk result (λ prepared. prepared ≡ None
            → IsRefusedOf self.now (Insert place text.now)) }
    {
        let Some(at) = start_of(&self.ids, place) else {
            return Ok(None);
        };
        let Some(number) = self.ids_given.checked_add(1) else {
            return Ok(None);
        };
        if at > self.texts.len() {
            return Ok(None);
        }
        Ok(Some(PreparedEdit {
            at,
            rest: at,
            ids: vec![in alloc; AuId::new(number)]?,
            texts: vec![in alloc; text.clone()?]?,
            ids_given: number,
            change: UnitChange::Inserted(at, text.clone()?),
        }))
    }

    /// What a deletion changes.
    fn deletion(&self, alloc: Global, id: AuId) -> Result<Option<PreparedEdit>, AllocError>
        requires capacity { HasSpace self.now }
        ensures follows { IfOk result (λ prepared.
            IfSome prepared (Follows self.now (Delete id))) }
        ensures capacity { IfOk result (λ prepared. IfSome prepared (HasCapacity self.now)) }
        ensures none { IfOk result (λ prepared. prepared ≡ None
            → IsRefusedOf self.now (Delete id)) }
    {
        let Some(at) = place_of(&self.ids, id) else {
            return Ok(None);
        };
        let Some(former) = self.texts.get(at) else {
            return Ok(None);
        };
        Ok(Some(PreparedEdit {
            at,
            rest: at + 1,
            ids: Vec::new(alloc),
            texts: Vec::new(alloc),
            ids_given: self.ids_given,
            change: UnitChange::Deleted(at, former.clone()?),
        }))
    }

    /// What a replacement changes.
    fn replacement(
        &self,
        alloc: Global,
        id: AuId,
        text: &Bytes,
    ) -> Result<Option<PreparedEdit>, AllocError>
        requires capacity { HasSpace self.now }
        ensures follows { IfOk result (λ prepared.
            IfSome prepared (Follows self.now (Replace id text.now))) }
        ensures capacity { IfOk result (λ prepared. IfSome prepared (HasCapacity self.now)) }
        ensures none { IfOk result (λ prepared. prepared ≡ None
            → IsRefusedOf self.now (Replace id text.now)) }
    {
        let Some(at) = place_of(&self.ids, id) else {
            return Ok(None);
        };
        let Some(former) = self.texts.get(at) else {
            return Ok(None);
        };
        Ok(Some(PreparedEdit {
            at,
            rest: at + 1,
            ids: vec![in alloc; id]?,
            texts: vec![in alloc; text.clone()?]?,
            ids_given: self.ids_given,
            change: UnitChange::Replaced(at, former.clone()?, text.clone()?),
        }))
    }

    /// Takes in an edit that was prepared, for which there is room, and answers what it changed. It
    /// takes no memory.
    pub(crate) fn make(&mut self, prepared: PreparedEdit) -> UnitChange
        requires { HasCapacity self.old prepared }
        ensures ids { self.new.ids.items ≡ ids_after self.old prepared }
        ensures texts { self.new.texts.items ≡ texts_after self.old prepared }
        ensures given { self.new.ids_given ≡ prepared.ids_given }
        ensures change { result ≡ prepared.change }
    {
        let PreparedEdit {
            at,
            rest,
            ids,
            texts,
            ids_given,
            change,
        } = prepared;
        replace_range(&mut self.ids, at, rest, ids);
        replace_range(&mut self.texts, at, rest, texts);
        self.ids_given = ids_given;
        change
    }

    /// Makes the edits one after the other, and answers what they change. Nothing where no stream of
    /// these texts and ids takes them.
    pub(crate) fn make_all(
        &mut self,
        alloc: Global,
        edits: &[Edit],
    ) -> Result<Option<Vec<UnitChange>>, AllocError>
        ensures led { IfOk result (λ changes. IfSome changes (λ changes.
            (old : Register) (ids : List ℕ) (new : Register) → IsKept self.old old
            → MakesAll old edits.now ids new
            → IsLed self.old.texts.items changes.items new self.new)) }
        ensures none { IfOk result (λ changes. changes ≡ None
            → AreRefusedOf self.old edits.now) }
    {
        let mut changes = Vec::with_capacity(alloc, edits.len())?;
        for edit in edits {
            let Some(prepared) = self.prepare(alloc, edit)? else {
                return Ok(None);
            };
            changes.push(self.make(prepared))?;
        }
        Ok(Some(changes))
    }

    /// The edits of a group that takes a step back, or makes it again, and the texts after it.
    pub(crate) fn after(
        &self,
        alloc: Global,
        group: StepGroup,
    ) -> Result<(Vec<Edit>, UnitTexts), AllocError>
        ensures edits { IfOk result (λ after. after.0.items ≡ group.edits.items) }
        ensures texts { IfOk result (λ after. (to : Texts)
            → ChangesAll self.now.texts.items group.changes.items to → after.1.texts.items ≡ to) }
        ensures ids { IfOk result (λ after. after.1.ids.items ≡ group.ids.items) }
        ensures given { IfOk result (λ after. after.1.ids_given ≡ group.ids_given) }
    {
        let StepGroup {
            edits,
            changes,
            ids,
            ids_given,
        } = group;
        let mut texts = shares_of(alloc, &self.texts)?;
        change_all(&mut texts, &changes)?;
        let units = UnitTexts {
            ids,
            texts,
            ids_given,
        };
        Ok((edits, units))
    }
}

/// Makes the changes of the texts, one after the other.
fn change_all(texts: &mut Vec<Bytes>, changes: &[UnitChange]) -> Result<(), AllocError>
    ensures { OnOk result ((to : Texts) → ChangesAll texts.old.items changes.now to
        → texts.new.items ≡ to) }
{
    for change in changes {
        change_one(texts, change)?;
    }
    Ok(())
}

/// Makes a change of the texts, if its place is there.
fn change_one(texts: &mut Vec<Bytes>, change: &UnitChange) -> Result<(), AllocError>
    ensures { OnOk result ((to : Texts) → Changes texts.old.items change.now to
        → texts.new.items ≡ to) }
{
    match change {
        UnitChange::Inserted(at, text) => {
            if *at <= texts.len() {
                texts.insert(*at, text.clone()?)?;
            }
        }
        UnitChange::Deleted(at, _) => {
            if *at < texts.len() {
                let _ = texts.remove(*at);
            }
        }
        UnitChange::Replaced(at, _, text) => {
            if *at < texts.len() {
                texts[*at] = text.clone()?;
            }
        }
    }
    Ok(())
}

/// The texts once more. They share the bytes.
fn shares_of(alloc: Global, texts: &[Bytes]) -> Result<Vec<Bytes>, AllocError>
    ensures { IfOk result (λ shares. shares.items ≡ texts.now) }
{
    let mut shares = Vec::with_capacity(alloc, texts.len())?;
    for text in texts {
        shares.push(text.clone()?)?;
    }
    Ok(shares)
}
