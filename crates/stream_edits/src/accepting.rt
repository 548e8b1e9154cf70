//! What an edit comes to once its text is read and its places are found.

ghost use Rattle.std.specs.Prelude.{◌≡◌, ℕ, List, [], ◌∷◌, IfOk, IfErr};
ghost use Rattle.access_unit.specs.Answers.{IsAccepted};
ghost use Rattle.stream_edits.specs.declared.edits.Edit.TheVariants.{Insert, Delete, Replace};
ghost use Rattle.stream_edits.specs.Changes.{IsFor};
ghost use Rattle.picture_keys.specs.Units.{AreDifferent};
ghost use Rattle.stream_edits.specs.Refusals.{IsRefused};
ghost use Rattle.stream_edits.specs.Streams.{ids_of};

use crate::changes::Change;
use crate::edits::{Edit, InsertionPoint};
use crate::places::{place_of, start_of};
use crate::read_edit::ReadEdit;
use crate::refusals::EditRefused;
use access_unit::MOST_UNITS;
use h264_types::base::Shared;
use h264_types::pictures::AuId;
use picture_keys::HashedUnit;
use std::alloc::{AllocError, Global};

/// What an accepted edit comes to.
#[derive(Debug, Drop)]
pub struct AcceptedEdit {
    /// The change of the stream.
    pub change: Change,
    /// The id of the unit that is inserted, deleted or replaced.
    pub id: AuId,
    /// How many ids were given, with it.
    pub ids_given: u32,
}

/// What the edits of an accepted group come to.
#[derive(Debug, Drop)]
pub struct AcceptedGroup {
    /// The change of the stream.
    pub change: Change,
    /// The id of the unit that each edit inserts, deletes or replaces, in order.
    pub ids: Vec<AuId>,
    /// How many ids were given, with those of the group.
    pub ids_given: u32,
    /// How many bytes were hashed for the edits.
    pub hashed: usize,
}

/// What the edit comes to, of units with these ids and with so many ids given, or why it is
/// refused.
///
/// The refusal is the first in the order of `EditRefused`, but for Memory, which may stand in for a
/// later one: a text that isn't too long and splits into NAL units is read into memory before its
/// units and the edit's place are looked at, so where that memory is refused, nothing is said of
/// them. A text that is too long or doesn't split, and a deletion of a unit that isn't there, are
/// never answered Memory.
pub fn change_of(
    alloc: Global,
    units: &[(AuId, Shared<HashedUnit>)],
    ids: &[AuId],
    ids_given: u32,
    read: &ReadEdit,
) -> Result<AcceptedEdit, EditRefused>
    requires ids { ids.now ≡ ids_of units.now }
    requires different { AreDifferent ids.now }
    ensures ok { IfOk result
        (IsFor (record { ids_given = ids_given; stream = units.now }) read.now) }
    ensures err { IfErr result
        (IsRefused (record { ids_given = ids_given; stream = units.now }) read.now) }
{
    match (&read.edit, &read.unit) {
        (Edit::Insert(place, _), Some(unit)) => {
            insertion(alloc, units, ids, ids_given, *place, unit)
        }
        (Edit::Replace(id, _), Some(unit)) => replacement(alloc, units, ids, ids_given, *id, unit),
        (Edit::Delete(id), _) => deletion(alloc, units, ids, ids_given, *id),
        _ => unreachable!(),
    }
}

/// The insertion of the unit of a text, under the next id.
fn insertion(
    alloc: Global,
    units: &[(AuId, Shared<HashedUnit>)],
    ids: &[AuId],
    ids_given: u32,
    place: InsertionPoint,
    unit: &Shared<HashedUnit>,
) -> Result<AcceptedEdit, EditRefused>
    requires ids { ids.now ≡ ids_of units.now }
    requires different { AreDifferent ids.now }
    ensures ok { (text : List ℕ) → IsAccepted text unit.now → IfOk result
        (IsFor (record { ids_given = ids_given; stream = units.now }) (Insert place text)) }
    ensures err { (text : List ℕ) → IsAccepted text unit.now → IfErr result
        (IsRefused (record { ids_given = ids_given; stream = units.now }) (Insert place text)) }
{
    let Some(at) = start_of(ids, place) else {
        return Err(EditRefused::NoSuchUnit);
    };
    if units.len() >= MOST_UNITS {
        return Err(EditRefused::StreamFull);
    }
    let Some(number) = ids_given.checked_add(1) else {
        return Err(EditRefused::IdsSpent);
    };
    let id = AuId::new(number);
    Ok(AcceptedEdit {
        change: Change {
            at,
            rest: at,
            units: one_unit(alloc, id, unit)?,
        },
        id,
        ids_given: number,
    })
}

/// The deletion of the unit of an id.
fn deletion(
    alloc: Global,
    units: &[(AuId, Shared<HashedUnit>)],
    ids: &[AuId],
    ids_given: u32,
    id: AuId,
) -> Result<AcceptedEdit, EditRefused>
    requires ids { ids.now ≡ ids_of units.now }
    requires different { AreDifferent ids.now }
    ensures ok { IfOk result
        (IsFor (record { ids_given = ids_given; stream = units.now }) (Delete id)) }
    ensures err { IfErr result
        (IsRefused (record { ids_given = ids_given; stream = units.now }) (Delete id)) }
{
    let Some(at) = place_of(ids, id) else {
        return Err(EditRefused::NoSuchUnit);
    };
    let change = Change {
        at,
        rest: at + 1,
        units: Vec::new(alloc),
    };
    Ok(AcceptedEdit {
        change,
        id,
        ids_given,
    })
}

/// The replacement of the unit of an id by that of a text.
fn replacement(
    alloc: Global,
    units: &[(AuId, Shared<HashedUnit>)],
    ids: &[AuId],
    ids_given: u32,
    id: AuId,
    unit: &Shared<HashedUnit>,
) -> Result<AcceptedEdit, EditRefused>
    requires ids { ids.now ≡ ids_of units.now }
    requires different { AreDifferent ids.now }
    ensures ok { (text : List ℕ) → IsAccepted text unit.now → IfOk result
        (IsFor (record { ids_given = ids_given; stream = units.now }) (Replace id text)) }
    ensures err { (text : List ℕ) → IsAccepted text unit.now → IfErr result
        (IsRefused (record { ids_given = ids_given; stream = units.now }) (Replace id text)) }
{
    let Some(at) = place_of(ids, id) else {
        return Err(EditRefused::NoSuchUnit);
    };
    let change = Change {
        at,
        rest: at + 1,
        units: one_unit(alloc, id, unit)?,
    };
    Ok(AcceptedEdit {
        change,
        id,
        ids_given,
    })
}

/// The unit alone, under the id.
fn one_unit(
    alloc: Global,
    id: AuId,
    unit: &Shared<HashedUnit>,
) -> Result<Vec<(AuId, Shared<HashedUnit>)>, AllocError>
    ensures { IfOk result (λ units. units.items ≡ (id, unit.now) ∷ []) }
{
    let mut units = Vec::with_capacity(alloc, 1)?;
    units.push((id, unit.clone()?))?;
    Ok(units)
}
