mod period_rows;
mod stored_states;
mod with_outcomes;

ghost use Rattle.std.specs.Prelude.{◌<◌, ◌≤◌, length};

use access_unit::{Refused, read_unit};
use h264_types::base::Shared;
use h264_types::pictures::AuId;
use output_order::Comparisons;
use picture_keys::HashedUnit;
use std::alloc::{AllocError, AllocGlobal, Global};
use std::process::Abort;
use std::test::Fail;
use stream_fold::{Change, OrderedFold};
use unit_outcomes::Outcome;
use with_outcomes::StreamWithOutcomes;

/// Sets and an IDR picture, of one macroblock, count type 2 and one reference frame; frame_num has
/// four bits.
const A: [u8; 23] = [
    0, 0, 1, 0x67, 0x42, 0x00, 0x0A, 0xDA, 0x79, 0, 0, 1, 0x68, 0xCE, 0x38, 0x80, 0, 0, 1, 0x65,
    0x88, 0x84, 0x80,
];

/// The IDR picture alone.
const IDR: [u8; 7] = [0, 0, 1, 0x65, 0x88, 0x84, 0x80];

/// The last two bytes of the P picture of each frame_num, after `00 00 01 41`.
const P: [[u8; 2]; 16] = [
    [0x9A, 0x03],
    [0x9A, 0x23],
    [0x9A, 0x43],
    [0x9A, 0x63],
    [0x9A, 0x83],
    [0x9A, 0xA3],
    [0x9A, 0xC3],
    [0x9A, 0xE3],
    [0x9B, 0x03],
    [0x9B, 0x23],
    [0x9B, 0x43],
    [0x9B, 0x63],
    [0x9B, 0x83],
    [0x9B, 0xA3],
    [0x9B, 0xC3],
    [0x9B, 0xE3],
];

/// The text of a P picture.
fn p_text(frame_num: usize) -> [u8; 6] {
    let [first, second] = P[frame_num % 16];
    [0, 0, 1, 0x41, first, second]
}

/// The text of a P picture that has the same header and other slice data.
fn other_p_text(frame_num: usize) -> [u8; 7] {
    let [first, second] = P[frame_num % 16];
    [0, 0, 1, 0x41, first, second, 0x80]
}

/// The access unit of a text that is one, unless memory runs out.
fn unit(rt: &(impl Abort + AllocGlobal), text: &[u8]) -> Result<Shared<HashedUnit>, AllocError> {
    match read_unit(rt.alloc(), text) {
        Ok(unit) => Ok(Shared::new(rt.alloc(), HashedUnit::of(unit))?),
        Err(Refused::Memory) => Err(AllocError),
        Err(_) => panic!(rt; "the text is no unit"),
    }
}

/// Puts the unit, if there is one, in place of those from `at` on and below `rest`, under the id of
/// the place, and says how many steps of the fold it took.
fn changed(
    alloc: Global,
    stream: &mut StreamWithOutcomes,
    at: usize,
    rest: usize,
    unit: Option<Shared<HashedUnit>>,
) -> Result<u64, AllocError>
    requires ordered { at ≤ rest }
    requires inside { rest ≤ length stream.old.folded.stream }
    requires short { length stream.old.folded.stream < 70000 }
{
    let mut units = Vec::new(alloc);
    if let Some(unit) = unit {
        units.push((AuId::new(at as u32 + 1), unit))?;
    }
    stream.make(alloc, Change::new(at, rest, units))
}

/// Puts the unit of a text at the end, under the next id.
fn append(
    rt: &(impl Abort + AllocGlobal),
    stream: &mut StreamWithOutcomes,
    text: &[u8],
) -> Result<u64, AllocError> {
    let at = stream.ordered().units().len();
    if at >= 69_999 {
        panic!(rt; "the stream is too long");
    }
    let unit = unit(rt, text)?;
    changed(rt.alloc(), stream, at, at, Some(unit))
}

/// Puts the unit of a text in the place of the one at the place.
fn replace(
    rt: &(impl Abort + AllocGlobal),
    stream: &mut StreamWithOutcomes,
    at: usize,
    text: &[u8],
) -> Result<u64, AllocError> {
    let count = stream.ordered().units().len();
    if at >= count || count >= 70_000 {
        panic!(rt; "there is no such unit");
    }
    let unit = unit(rt, text)?;
    changed(rt.alloc(), stream, at, at + 1, Some(unit))
}

/// Takes the unit at the place away.
fn delete(
    rt: &(impl Abort + AllocGlobal),
    stream: &mut StreamWithOutcomes,
    at: usize,
) -> Result<u64, AllocError> {
    let count = stream.ordered().units().len();
    if at >= count || count >= 70_000 {
        panic!(rt; "there is no such unit");
    }
    changed(rt.alloc(), stream, at, at + 1, None)
}

/// Whether the unit at the place is valid.
fn is_valid(stream: &StreamWithOutcomes, at: usize) -> bool {
    match stream.outcomes().get(at) {
        Some(outcome) => match &***outcome {
            Outcome::Plan(_) => true,
            Outcome::Fault(_) | Outcome::Empty => false,
        },
        None => false,
    }
}

/// A thousand units: the first has the sets, the 601st is an IDR picture, the others are P pictures
/// that follow.
fn thousand(rt: &(impl Abort + AllocGlobal)) -> Result<StreamWithOutcomes, AllocError> {
    let mut stream = StreamWithOutcomes::new(rt.alloc())?;
    append(rt, &mut stream, &A)?;
    for frame_num in 1..600 {
        append(rt, &mut stream, &p_text(frame_num))?;
    }
    append(rt, &mut stream, &IDR)?;
    for frame_num in 1..400 {
        append(rt, &mut stream, &p_text(frame_num))?;
    }
    Ok(stream)
}

#[test]
fn an_append_makes_one_step(rt: HostRuntime) -> Result<(), Fail> {
    let mut stream = StreamWithOutcomes::new(rt.alloc())?;
    for frame_num in 0..70 {
        assert!(rt; append(&rt, &mut stream, &p_text(frame_num))? == 1);
    }
    Ok(())
}

/// From the state stored at place 480 to that at 512, which stays; and from the last one, at 992,
/// to the end.
#[test]
fn a_replacement_in_a_long_stream_makes_few_steps(rt: HostRuntime) -> Result<(), Fail> {
    let mut stream = thousand(&rt)?;
    assert!(rt;
        stream.ordered().units().len() == 1000 && is_valid(&stream, 499) && is_valid(&stream, 999)
    );
    assert!(rt; replace(&rt, &mut stream, 499, &other_p_text(499))? == 32);
    assert!(rt; replace(&rt, &mut stream, 999, &other_p_text(399))? == 8);
    assert!(rt; is_valid(&stream, 499) && is_valid(&stream, 999));
    Ok(())
}

/// From place 499, where the change before it was, to the state at 512; and from the stored state
/// at 480 where the change is in front of the one before it, or where that was at the end.
#[test]
fn a_change_near_the_one_before_it_begins_there(rt: HostRuntime) -> Result<(), Fail> {
    let mut stream = thousand(&rt)?;
    assert!(rt; replace(&rt, &mut stream, 499, &other_p_text(499))? == 32);
    assert!(rt; replace(&rt, &mut stream, 499, &p_text(499))? == 13);
    assert!(rt; replace(&rt, &mut stream, 501, &other_p_text(501))? == 13);
    assert!(rt; replace(&rt, &mut stream, 490, &other_p_text(490))? == 32);
    append(&rt, &mut stream, &IDR)?;
    assert!(rt; replace(&rt, &mut stream, 491, &other_p_text(491))? == 32);
    assert!(rt; is_valid(&stream, 501) && is_valid(&stream, 999) && is_valid(&stream, 1000));
    Ok(())
}

#[test]
fn a_deletion_of_what_nobody_refers_to_makes_few_steps(rt: HostRuntime) -> Result<(), Fail> {
    let mut stream = StreamWithOutcomes::new(rt.alloc())?;
    append(&rt, &mut stream, &A)?;
    append(&rt, &mut stream, &p_text(1))?;
    append(&rt, &mut stream, &[0, 0, 1, 0x01, 0x9A, 0x47])?;
    append(&rt, &mut stream, &p_text(2))?;
    assert!(rt; is_valid(&stream, 2) && is_valid(&stream, 3));
    assert!(rt; delete(&rt, &mut stream, 2)? == 3);
    assert!(rt; stream.ordered().units().len() == 3 && is_valid(&stream, 2));
    Ok(())
}

/// Whether the unit at a place has the position, which takes so many comparisons at most.
fn stands_at(ordered: &OrderedFold, place: usize, position: usize, most: usize) -> bool {
    let count = ordered.units().len();
    if place >= count || count > 70_000 {
        return false;
    }
    let mut comparisons = Comparisons::new();
    let found = ordered.position_in(place, &mut comparisons);
    found == Some(position) && comparisons.count() <= most
}

#[test]
fn a_position_takes_few_comparisons(rt: HostRuntime) -> Result<(), Fail> {
    let stream = thousand(&rt)?;
    assert!(rt; stands_at(stream.ordered(), 699, 699, 400));
    Ok(())
}

/// Whether a deletion that is refused for lack of memory leaves the stream and the outcomes of its
/// units as they were, and one that isn't leaves the picture behind it without the one before.
fn holds_where_refused(rt: &(impl Abort + AllocGlobal)) -> Result<bool, AllocError> {
    let mut stream = StreamWithOutcomes::new(rt.alloc())?;
    append(rt, &mut stream, &A)?;
    append(rt, &mut stream, &p_text(1))?;
    append(rt, &mut stream, &p_text(2))?;
    match delete(rt, &mut stream, 1) {
        Ok(_) => Ok(stream.ordered().units().len() == 2 && !is_valid(&stream, 1)),
        Err(_) => Ok(stream.ordered().units().len() == 3 && is_valid(&stream, 2)),
    }
}

#[test]
fn refused_memory_changes_nothing(rt: HostRuntime) {
    match holds_where_refused(&rt) {
        Ok(holds) => assert!(rt; holds),
        Err(_) => {}
    }
}
