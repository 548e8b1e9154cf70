//! A stream under the edits of a group.

ghost use Rattle.std.specs.Prelude.{◌≡◌, ℕ, ◌≤◌, List, [], ◌∷◌, ◌++◌, take, drop, length, IfErr, IfOk, OnOk};
ghost use Rattle.stream_edits.specs.declared.edits.Edit.{Edit as EditValue};
ghost use Rattle.stream_edits.specs.Changes.{IsInside, units_of};
ghost use Rattle.stream_edits.specs.Common.{IsFront, IsRest};
ghost use Rattle.stream_edits.specs.Drafts.{IsDraft, IsMade, register_of};
ghost use Rattle.stream_edits.specs.Edits.{Register};
ghost use Rattle.stream_edits.specs.Groups.{IsForAll, IsSized};
ghost use Rattle.picture_keys.specs.Units.{AreDifferent};
ghost use Rattle.stream_edits.specs.Refusals.{IsRefused};
ghost use Rattle.stream_edits.specs.Streams.{ids_of};

use crate::accepting::{AcceptedEdit, AcceptedGroup, change_of};
use crate::changes::Change;
use crate::narrowing::{common_front, common_rest};
use crate::read_edit::ReadEdit;
use crate::refusals::EditRefused;
use h264_types::base::{Shared, replace_range};
use h264_types::pictures::AuId;
use picture_keys::HashedUnit;
use std::alloc::{AllocError, Global};

/// A stream beside the one that is kept, on which the edits of a group are made one after the
/// other.
#[derive(Debug)]
pub(crate) struct Draft {
    pub(crate) units: Vec<(AuId, Shared<HashedUnit>)>,
    pub(crate) ids: Vec<AuId>,
    pub(crate) ids_given: u32,
    /// The id that each edit was about.
    pub(crate) about: Vec<AuId>,
    /// In front of how many units no edit was made, and behind how many.
    pub(crate) front: usize,
    pub(crate) rest: usize,
}

// By hand, so that whoever drops one is proved over one call.
impl Drop for Draft {
    fn drop(self) {
        let Draft {
            units: _,
            ids: _,
            ids_given: _,
            about: _,
            front: _,
            rest: _,
        } = self;
    }
}

impl Draft {
    /// The stream as it is, before any edit. Its units are shared.
    pub(crate) fn new(
        alloc: Global,
        units: &[(AuId, Shared<HashedUnit>)],
        ids: &[AuId],
        ids_given: u32,
    ) -> Result<Draft, AllocError>
        requires { ids.now ≡ ids_of units.now }
        ensures { IfOk result (IsDraft (record { ids_given = ids_given; stream = units.now }) []) }
    {
        let count = units.len();
        Ok(Draft {
            units: shares_of(alloc, units)?,
            ids: ids.to_vec(alloc)?,
            ids_given,
            about: Vec::new(alloc),
            front: count,
            rest: count,
        })
    }

    /// Makes one edit more.
    pub(crate) fn make(&mut self, alloc: Global, read: &ReadEdit) -> Result<(), EditRefused>
        requires ids { self.old.ids.items ≡ ids_of self.old.units.items }
        requires different { AreDifferent self.old.ids.items }
        ensures ok { OnOk result ((old : Register) (edits : List EditValue)
            → IsDraft old edits self.old → IsDraft old (edits ++ read.now ∷ []) self.new) }
        ensures err { IfErr result (IsRefused (register_of self.old) read.now) }
    {
        let accepted = change_of(alloc, &self.units, &self.ids, self.ids_given, read)?;
        self.make_accepted(alloc, accepted)?;
        Ok(())
    }

    /// Makes the change of an edit that is accepted.
    fn make_accepted(&mut self, alloc: Global, accepted: AcceptedEdit) -> Result<(), AllocError>
        requires ids { self.old.ids.items ≡ ids_of self.old.units.items }
        requires inside { IsInside accepted.change self.old.units.items }
        requires one { length (units_of accepted.change) ≤ 1 }
        ensures { OnOk result (IsMade self.old accepted self.new) }
    {
        let AcceptedEdit {
            change,
            id,
            ids_given,
        } = accepted;
        let ids = ids_in(alloc, change.units())?;
        self.units.reserve(1)?;
        self.ids.reserve(1)?;
        self.about.push(id)?;
        self.front = self.front.min(change.at());
        self.rest = self.rest.min(self.units.len() - change.rest_from());
        replace_range(&mut self.ids, change.at(), change.rest_from(), ids);
        change.make(&mut self.units);
        self.ids_given = ids_given;
        Ok(())
    }

    /// The change from the stream as it was to this one, with how many bytes were hashed for its
    /// edits.
    pub(crate) fn into_change(
        self,
        units: &[(AuId, Shared<HashedUnit>)],
        hashed: usize,
    ) -> AcceptedGroup
        requires front { IsFront units.now self.units.items self.front }
        requires rest { IsRest units.now self.units.items self.rest }
        ensures change { (ids_given : ℕ) (edits : List EditValue)
            → IsDraft (record { ids_given = ids_given; stream = units.now }) edits self
            → IsSized edits
            → IsForAll (record { ids_given = ids_given; stream = units.now }) edits result }
        ensures hashed { result.hashed ≡ hashed }
    {
        let Draft {
            units: made,
            ids: _,
            ids_given,
            about,
            front,
            rest,
        } = self;
        let at = common_front(units, &made, front);
        let rest = common_rest(units, &made, at, rest);
        let to = made.len() - rest;
        let change = Change {
            at,
            rest: units.len() - rest,
            units: between(made, at, to),
        };
        AcceptedGroup {
            change,
            ids: about,
            ids_given,
            hashed,
        }
    }
}

/// The units from a place on and below another.
fn between(
    mut units: Vec<(AuId, Shared<HashedUnit>)>,
    from: usize,
    to: usize,
) -> Vec<(AuId, Shared<HashedUnit>)>
    requires ordered { from ≤ to }
    requires inside { to ≤ length units.items }
    ensures { result.items ≡ drop from (take to units.items) }
{
    units.truncate(to);
    drop(units.drain(..from));
    units
}

/// The units, with one owner more of each.
fn shares_of(
    alloc: Global,
    units: &[(AuId, Shared<HashedUnit>)],
) -> Result<Vec<(AuId, Shared<HashedUnit>)>, AllocError>
    ensures { IfOk result (λ shares. shares.items ≡ units.now) }
{
    let mut shares = Vec::with_capacity(alloc, units.len())?;
    for unit in units {
        shares.push((unit.0, unit.1.clone()?))?;
    }
    Ok(shares)
}

/// The ids of units.
fn ids_in(alloc: Global, units: &[(AuId, Shared<HashedUnit>)]) -> Result<Vec<AuId>, AllocError>
    ensures { IfOk result (λ ids. ids.items ≡ ids_of units.now) }
{
    let mut ids = Vec::with_capacity(alloc, units.len())?;
    for unit in units {
        ids.push(unit.0)?;
    }
    Ok(ids)
}
