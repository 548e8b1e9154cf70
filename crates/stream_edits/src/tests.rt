//! Insertions into streams that no test can make by edits: they would fold some 2,000,000,000
//! units. So the units and how many ids were given are given. The tests of edits of a session stand
//! in session_tests.

ghost use Rattle.std.specs.Prelude.{◌≡◌, ◌+◌, ◌<◌, ◌^◌, IfOk, OnOk};
ghost use Rattle.picture_keys.specs.Units.{AreDifferent};
ghost use Rattle.stream_edits.specs.Ids.{HasIds};
ghost use Rattle.stream_edits.specs.Streams.{ids_of};

use crate::{Edit, EditRefused, InsertionPoint, change_of};
use access_unit::read_shared;
use bytes::Bytes;
use h264_types::base::Shared;
use h264_types::pictures::AuId;
use picture_keys::HashedUnit;
use std::alloc::{AllocError, Global};
use std::process::Abort;
use std::test::Fail;

/// An IDR picture without its sets.
static I: [u8; 7] = [0, 0, 1, 0x65, 0x88, 0x84, 0x80];

/// Units, and their ids.
type Units = (Vec<(AuId, Shared<HashedUnit>)>, Vec<AuId>);

/// Adds a unit under the id after those that were given.
fn add(units: &mut Units, ids_given: u32, unit: Shared<HashedUnit>) -> Result<(), AllocError>
    requires below { ids_given + 1 < 2 ^ 32 }
    requires different { HasIds (record { ids_given = ids_given; stream = units.old.0.items }) }
    requires same { units.old.1.items ≡ ids_of units.old.0.items }
    ensures different { OnOk result
        (HasIds (record { ids_given = ids_given + 1; stream = units.new.0.items })) }
    ensures same { OnOk result (units.new.1.items ≡ ids_of units.new.0.items) }
{
    let id = AuId::new(ids_given + 1);
    units.0.push((id, unit))?;
    units.1.push(id)?;
    Ok(())
}

/// Equal units under the ids from 1 to the count.
fn equal_units(rt: &impl Abort, alloc: Global, count: u32) -> Result<Units, AllocError>
    requires { count < 2 ^ 20 }
    ensures different { IfOk result (λ units. AreDifferent units.1.items) }
    ensures same { IfOk result (λ units. units.1.items ≡ ids_of units.0.items) }
{
    let Ok(unit) = read_shared(alloc, &Bytes::from_static(&I)) else {
        panic!(rt; "the text is no unit");
    };
    let unit = Shared::new(alloc, HashedUnit::of(unit))?;
    let mut units = (Vec::new(alloc), Vec::new(alloc));
    for ids_given in 0..count {
        add(&mut units, ids_given, unit.clone()?)?;
    }
    Ok(units)
}

/// The id of the unit that an edit of these changes, or why it is refused.
fn changed(alloc: Global, units: &Units, ids_given: u32, edit: &Edit) -> Result<u32, EditRefused>
    requires different { AreDifferent units.now.1.items }
    requires same { units.now.1.items ≡ ids_of units.now.0.items }
{
    let read = edit.copy()?.read(alloc)?;
    Ok(
        change_of(alloc, &units.0, &units.1, ids_given, &read)?
            .id
            .number(),
    )
}

/// How many units a stream has, how many ids were given, and the id of a unit that is inserted or
/// why none is.
const ROOMS: [(u32, u32, Result<u32, EditRefused>); 7] = [
    (0, 0, Ok(1)),
    (0, 4_294_967_294, Ok(4_294_967_295)),
    (0, 4_294_967_295, Err(EditRefused::IdsSpent)),
    (65_535, 65_535, Ok(65_536)),
    (65_535, 4_294_967_295, Err(EditRefused::IdsSpent)),
    (65_536, 65_536, Err(EditRefused::StreamFull)),
    // A full stream comes before spent ids.
    (65_536, 4_294_967_295, Err(EditRefused::StreamFull)),
];

#[test]
fn has_room_for_65_536_units_and_4_294_967_295_ids(rt: HostRuntime) -> Result<(), Fail> {
    let insertion = Edit::Insert(InsertionPoint::First, Bytes::from_static(&I));
    for (row, (count, ids_given, wanted)) in ROOMS.iter().enumerate() {
        let units = equal_units(&rt, rt.alloc(), *count)?;
        let answer = changed(rt.alloc(), &units, *ids_given, &insertion);
        assert!(rt; answer == *wanted, "row {row}");
    }
    Ok(())
}

#[test]
fn only_an_insertion_needs_room(rt: HostRuntime) -> Result<(), Fail> {
    let full = equal_units(&rt, rt.alloc(), 65_536)?;
    let replacement = Edit::Replace(AuId::new(65_536), Bytes::from_static(&I));
    let deletion = Edit::Delete(AuId::new(1));
    assert!(rt; changed(rt.alloc(), &full, u32::MAX, &replacement) == Ok(65_536));
    assert!(rt; changed(rt.alloc(), &full, u32::MAX, &deletion) == Ok(1));
    Ok(())
}
