//! One bit of three units' texts is another: each text is read or refused, and the session says of
//! each unit that is there what the plain fold says, and has the picture of each valid one once its
//! jobs are done.

use crate::tests::{empty_session, row_holds};
use access_unit::{Unit, read_unit};
use bytes::Bytes;
use h264_types::pictures::AuId;
use session_builders::tells_each;
use stand_in_device::{Device, Undone};
use stand_in_session::{Edit, EditRefused, InsertionPoint, Job, Landing, Session, Shown};
use std::alloc::{AllocError, Global};
use std::process::Abort;
use std::test::Fail;
use unit_outcomes::Outcome;

/// An IDR picture with its sets, a P picture, and a B picture that is shown between them.
static TEXTS: [&[u8]; 3] = [
    &[
        0, 0, 1, 0x67, 0x4D, 0x00, 0x0A, 0xF6, 0xF2, 0, 0, 1, 0x68, 0xCE, 0x38, 0x80, 0, 0, 1,
        0x65, 0x88, 0x84, 0x0C,
    ],
    &[0, 0, 1, 0x41, 0x9A, 0x28, 0x30],
    &[0, 0, 1, 0x01, 0x9E, 0x45, 0x18],
];

/// A byte with each of its bits alone.
const BITS: [u8; 8] = [1, 2, 4, 8, 16, 32, 64, 128];

/// Which bit is another: of which text, which byte, and which of its bits.
#[derive(Clone, Copy)]
struct Flip {
    text: usize,
    byte: usize,
    bit: u8,
}

/// The text at the place, with the bit as it is damaged.
fn damaged(alloc: Global, place: usize, text: &[u8], flip: Flip) -> Result<Vec<u8>, AllocError> {
    let mut bytes = Vec::from_slice(alloc, text)?;
    if place == flip.text {
        if let Some(byte) = bytes.get_mut(flip.byte) {
            *byte ^= flip.bit;
        }
    }
    Ok(bytes)
}

/// Inserts the text after the last unit, and among the units where it is one; says whether it was
/// answered so.
fn inserts(
    alloc: Global,
    session: &mut Session,
    units: &mut Vec<(AuId, Unit)>,
    text: Vec<u8>,
) -> Result<bool, AllocError> {
    let read = read_unit(alloc, text.as_slice());
    let place = match session.last().id {
        Some(id) => InsertionPoint::After(id),
        None => InsertionPoint::First,
    };
    let edit = Edit::Insert(place, Bytes::from_vec(text)?);
    match (read, session.edit(edit)) {
        (Ok(unit), Ok(receipt)) => {
            units.push((receipt.id, unit))?;
            Ok(true)
        }
        (Err(refused), Err(EditRefused::Unit(told))) => Ok(refused == told),
        _ => Ok(false),
    }
}

/// Decodes a job, and takes its result; a job for which there is no memory is given back.
fn lands(alloc: Global, session: &mut Session, job: Job) -> Result<bool, AllocError> {
    match Device::new(alloc).decode(alloc, job) {
        Ok(finished) => Ok(session.land(finished) == Landing::Taken),
        Err(Undone { job, cause }) => {
            session.give_back(job);
            Err(cause)
        }
    }
}

/// Takes the jobs that are due, at most one for each text; each result is taken, and then none is
/// due.
fn settles(alloc: Global, session: &mut Session) -> Result<bool, Fail> {
    for _ in 0..=TEXTS.len() {
        let Some(job) = session.take()? else {
            return Ok(true);
        };
        if !lands(alloc, session, job)? {
            return Ok(false);
        }
    }
    Ok(false)
}

/// A unit's outcome whose jobs are done is shown: its picture, its fault, or that it has none.
fn is_shown(outcome: &Outcome, shown: Shown) -> bool {
    match (outcome, shown) {
        (Outcome::Plan(_), Shown::Ready(_)) => true,
        (Outcome::Fault(fault), Shown::Fault(told)) => *fault == told,
        (Outcome::Empty, Shown::Empty) => true,
        _ => false,
    }
}

/// Each unit is shown so.
fn shows_each(session: &Session) -> bool {
    for (id, outcome) in session.ids().iter().zip(session.outcomes()) {
        if !is_shown(outcome, session.show(*id)) {
            return false;
        }
    }
    session.ids().len() == session.outcomes().len()
}

/// An empty session takes the texts, of which one is damaged, as the plain reader and the plain
/// fold say.
fn survives(alloc: Global, session: &mut Session, flip: Flip) -> Result<bool, Fail> {
    let mut units = Vec::new(alloc);
    for (place, text) in TEXTS.iter().enumerate() {
        let bytes = damaged(alloc, place, text, flip)?;
        if !inserts(alloc, session, &mut units, bytes)? {
            return Ok(false);
        }
    }
    Ok(
        session.last().units == units.len()
            && tells_each(alloc, session, &units)?
            && settles(alloc, session)?
            && shows_each(session),
    )
}

/// Empty sessions take the texts, with each bit of this byte damaged in turn.
fn survives_each_bit(
    rt: &(impl Abort + AllocGlobal),
    text: usize,
    byte: usize,
) -> Result<bool, Fail> {
    for bit in BITS {
        let mut session = empty_session(rt);
        if !survives(rt.alloc(), &mut session, Flip { text, byte, bit })? {
            return Ok(false);
        }
    }
    Ok(true)
}

#[test]
fn each_bit_of_three_units_may_be_another(rt: HostRuntime) -> Result<(), Fail> {
    for (text, bytes) in TEXTS.iter().enumerate() {
        for byte in 0..bytes.len() {
            row_holds(&rt, byte, survives_each_bit(&rt, text, byte)?);
        }
    }
    Ok(())
}
