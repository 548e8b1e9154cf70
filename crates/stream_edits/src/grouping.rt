//! What a group of edits comes to.

ghost use Rattle.std.specs.Prelude.{◌≡◌, ◌≤◌, length, IfErr, IfOk};
ghost use Rattle.stream_edits.specs.Drafts.{IsDraft};
ghost use Rattle.stream_edits.specs.GroupRefusals.{IsGroupRefused, IsRefusedAmong};
ghost use Rattle.access_unit.specs.StreamUnits.{most_units};
ghost use Rattle.stream_edits.specs.Groups.{IsForAll};
ghost use Rattle.stream_edits.specs.Ids.{HasIds};
ghost use Rattle.stream_edits.specs.Reading.{AreHashedFor};
ghost use Rattle.stream_edits.specs.Streams.{ids_of};

use crate::accepting::AcceptedGroup;
use crate::draft::Draft;
use crate::group_refused::GroupRefused;
use crate::read_edit::ReadEdit;
use crate::read_group::ReadGroup;
use h264_types::base::Shared;
use h264_types::pictures::AuId;
use picture_keys::HashedUnit;
use std::alloc::Global;

/// What the group comes to, of units with these ids and with so many ids given, or why it is
/// refused.
///
/// Each edit is made on the stream that those before it left, and may name an id that one of them
/// gave. Where one is refused, the whole group is, and so are no ids given.
pub fn change_of_group(
    alloc: Global,
    units: &[(AuId, Shared<HashedUnit>)],
    ids: &[AuId],
    ids_given: u32,
    group: &ReadGroup,
) -> Result<AcceptedGroup, GroupRefused>
    requires ids { ids.now ≡ ids_of units.now }
    requires different { HasIds (record { ids_given = ids_given; stream = units.now }) }
    ensures ok { IfOk result
        (IsForAll (record { ids_given = ids_given; stream = units.now }) group.now) }
    ensures hashed { IfOk result (λ accepted. AreHashedFor group.now accepted.hashed) }
    ensures err { IfErr result
        (IsGroupRefused (record { ids_given = ids_given; stream = units.now }) group.now) }
{
    let draft = draft_of(alloc, units, ids, ids_given, &group.read)?;
    if let Some(refused) = group.refused {
        return Err(GroupRefused::at(group.read.len(), refused));
    }
    let hashed = hashed_for(&group.read);
    Ok(draft.into_change(units, hashed))
}

/// How many bytes were hashed for these edits.
fn hashed_for(read: &[ReadEdit]) -> usize
    requires { length read.now ≤ most_units }
    ensures { AreHashedFor read.now result }
{
    let mut hashed = 0;
    for edit in read {
        hashed += edit.hashed();
    }
    hashed
}

/// The stream under these edits, made on it one after the other, or the refusal of the first that
/// is refused.
fn draft_of(
    alloc: Global,
    units: &[(AuId, Shared<HashedUnit>)],
    ids: &[AuId],
    ids_given: u32,
    read: &[ReadEdit],
) -> Result<Draft, GroupRefused>
    requires ids { ids.now ≡ ids_of units.now }
    requires different { HasIds (record { ids_given = ids_given; stream = units.now }) }
    ensures ok { IfOk result
        (IsDraft (record { ids_given = ids_given; stream = units.now }) read.now) }
    ensures err { IfErr result
        (IsRefusedAmong (record { ids_given = ids_given; stream = units.now }) read.now) }
{
    let mut draft = Draft::new(alloc, units, ids, ids_given)?;
    for index in 0..read.len() {
        if let Err(refused) = draft.make(alloc, &read[index]) {
            return Err(GroupRefused::at(index, refused));
        }
    }
    Ok(draft)
}
