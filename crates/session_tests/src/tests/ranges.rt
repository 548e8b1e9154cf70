//! How many steps of the fold an edit makes, by a hand: states are stored at every 32nd place, and
//! an edit folds from the last one up to its place until it comes to the same state as one that is
//! stored behind it, or to the end. It begins where the edit before it was, if that is nearer.

use super::{A, I, P1, empty_session, is_answer, row_holds};
use EditRow::{After, Delete, First, Replace};
use access_unit::{Unit, read_unit};
use bytes::Bytes;
use h264_types::pictures::AuId;
use session_builders::{EditRow, edit_of, tells_each};
use stand_in_session::{Edit, InsertionPoint, Session};
use std::alloc::{AllocError, Global};
use std::process::Abort;
use std::test::Fail;

/// How many IDR pictures the stream has.
const UNITS: u32 = 2_100;

/// An IDR picture after the last one.
fn appended(last: u32) -> EditRow {
    if last == 0 { First(A) } else { After(last, A) }
}

/// Edits of that stream in turn, each with the id and the steps that it is answered.
const EDITS: [(EditRow, u32, u64); 8] = [
    // From place 96 to 128, since after the next IDR picture the states agree.
    (Replace(100, P1), 100, 32),
    // Place 101: from 99, where the edit before it was, to 128.
    (Replace(102, P1), 102, 29),
    // Place 97, in front of that: from 96 again. And place 99 once more: from 97.
    (Replace(98, P1), 98, 32),
    (Replace(100, A), 100, 31),
    // Place 2,000: from 1984 to the unit, and those behind it up to 2016, which becomes 2015.
    (Delete(2_001), 2_001, 31),
    // Place 2,018: from 2015 to the unit, and those behind it up to 2047, once 2048.
    (Delete(2_020), 2_020, 31),
    // The last unit, at place 2,097: the last state was stored at 2080, and stands at 2078 now.
    (Replace(2_100, P1), 2_100, 20),
    (After(2_100, A), 2_101, 1),
];

#[test]
fn an_edit_goes_over_its_range_alone(rt: HostRuntime) {
    let mut session = empty_session(&rt);
    for last in 0..UNITS {
        let wanted = Ok((u64::from(last) + 1, last + 1, 1));
        let answer = session.edit(edit_of(appended(last)));
        row_holds(&rt, last as usize, is_answer(answer, wanted));
    }
    let mut number = u64::from(UNITS);
    for (row, (told, id, steps)) in EDITS.iter().enumerate() {
        number = number.saturating_add(1);
        let answer = session.edit(edit_of(*told));
        row_holds(&rt, row, is_answer(answer, Ok((number, *id, *steps))));
    }
    assert!(rt; session.position(AuId::new(2_002)) == Ok(Some(2_000)));
    assert!(rt; session.position(AuId::new(2_101)) == Ok(Some(2_098)));
    assert!(rt; session.place(AuId::new(2_001)).is_none() && session.last().units == 2_099);
}

/// The last two bytes of the P picture of each frame_num, after `00 00 01 41`.
const P: [[u8; 2]; 16] = [
    [0x9A, 0x03],
    [0x9A, 0x23],
    [0x9A, 0x43],
    [0x9A, 0x63],
    [0x9A, 0x83],
    [0x9A, 0xA3],
    [0x9A, 0xC3],
    [0x9A, 0xE3],
    [0x9B, 0x03],
    [0x9B, 0x23],
    [0x9B, 0x43],
    [0x9B, 0x63],
    [0x9B, 0x83],
    [0x9B, 0xA3],
    [0x9B, 0xC3],
    [0x9B, 0xE3],
];

/// The text of the unit at a place of a thousand: the first has the sets, the 601st is an IDR
/// picture, the others are P pictures with the next frame_num; `data` follows.
fn text_at(alloc: Global, place: u32, data: &[u8]) -> Result<Vec<u8>, AllocError> {
    let mut text = match place {
        0 => Vec::from_slice(alloc, A)?,
        600 => Vec::from_slice(alloc, I)?,
        _ => {
            let [first, second] = P[place as usize % 600 % 16];
            Vec::from_slice(alloc, &[0, 0, 1, 0x41, first, second])?
        }
    };
    text.extend_from_slice(data)?;
    Ok(text)
}

/// Inserts the thousand units one after the other, each in one step.
fn are_appended(alloc: Global, session: &mut Session) -> Result<bool, AllocError> {
    for place in 0..1_000_u32 {
        let at = if place == 0 {
            InsertionPoint::First
        } else {
            InsertionPoint::After(AuId::new(place))
        };
        let text = Bytes::from_vec(text_at(alloc, place, &[])?)?;
        let answer = session.edit(Edit::Insert(at, text));
        if !is_answer(answer, Ok((u64::from(place) + 1, place + 1, 1))) {
            return Ok(false);
        }
    }
    Ok(true)
}

/// Whether other slice data in the unit of an id is answered so many steps, by an edit of this
/// number.
fn is_replaced(
    alloc: Global,
    session: &mut Session,
    number: u64,
    id: u32,
    steps: u64,
) -> Result<bool, AllocError> {
    let text = text_at(alloc, id.saturating_sub(1), &[0x80])?;
    let answer = session.edit(Edit::Replace(AuId::new(id), Bytes::from_vec(text)?));
    Ok(is_answer(answer, Ok((number, id, steps))))
}

/// The thousand units, of which two have other slice data.
fn units_of(rt: &(impl Abort + AllocGlobal)) -> Result<Vec<(AuId, Unit)>, AllocError> {
    let mut units = Vec::new(rt.alloc());
    for place in 0..1_000_u32 {
        let data: &[u8] = if place == 499 || place == 999 {
            &[0x80]
        } else {
            &[]
        };
        let text = text_at(rt.alloc(), place, data)?;
        let Ok(unit) = read_unit(rt.alloc(), &text) else {
            panic!(rt; "the text is no unit");
        };
        units.push((AuId::new(place + 1), unit))?;
    }
    Ok(units)
}

#[test]
fn a_thousand_units_are_those_of_the_plain_fold(rt: HostRuntime) -> Result<(), Fail> {
    let mut session = empty_session(&rt);
    assert!(rt; are_appended(rt.alloc(), &mut session)?);
    // From place 480 to 512, where the state is the same; and from 992 to the end.
    assert!(rt; is_replaced(rt.alloc(), &mut session, 1_001, 500, 32)?);
    assert!(rt; is_replaced(rt.alloc(), &mut session, 1_002, 1_000, 8)?);
    assert!(rt; tells_each(rt.alloc(), &session, &units_of(&rt)?)?);
    Ok(())
}
