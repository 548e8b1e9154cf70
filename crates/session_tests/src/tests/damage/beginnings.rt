//! Each beginning of a unit's text is read, and inserted into an empty stream.

use crate::tests::{empty_session, row_holds};
use access_unit::read_unit;
use bytes::Bytes;
use stand_in_session::{Edit, InsertionPoint, Session};
use std::alloc::Global;
use unit_outcomes::{Outcome, ValidityFault};

/// Sets and an IDR picture, of one macroblock, count type 2 and one reference frame.
static WHOLE: [u8; 23] = [
    0, 0, 1, 0x67, 0x42, 0x00, 0x0A, 0xDA, 0x79, 0, 0, 1, 0x68, 0xCE, 0x38, 0x80, 0, 0, 1, 0x65,
    0x88, 0x84, 0x80,
];

/// What becomes of a text: its refusal's number, or what the session says of the unit.
#[derive(Clone, Copy)]
enum Answer {
    Refused(u8),
    Fault(ValidityFault),
    Empty,
    Valid,
}

/// What becomes of the first bytes, by how many there are.
const BEGINNINGS: [Answer; 24] = [
    Answer::Refused(1),
    Answer::Refused(1),
    Answer::Refused(1),
    Answer::Refused(1),
    Answer::Refused(4),
    Answer::Refused(4),
    Answer::Refused(4),
    Answer::Refused(4),
    Answer::Refused(4),
    Answer::Empty,
    Answer::Empty,
    Answer::Empty,
    Answer::Refused(1),
    Answer::Refused(5),
    Answer::Refused(5),
    Answer::Empty,
    Answer::Empty,
    Answer::Empty,
    Answer::Empty,
    Answer::Refused(1),
    Answer::Fault(ValidityFault::HeaderCut),
    Answer::Fault(ValidityFault::HeaderCut),
    Answer::Fault(ValidityFault::HeaderCut),
    Answer::Valid,
];

/// The text is read, or refused with the number.
fn reads(alloc: Global, text: &[u8], answer: Answer) -> bool {
    match (read_unit(alloc, text), answer) {
        (Ok(_), Answer::Fault(_) | Answer::Empty | Answer::Valid) => true,
        (Err(refused), Answer::Refused(number)) => refused.number() == number,
        _ => false,
    }
}

/// The session, whose stream is empty, takes the text as its first unit and says this of it, or
/// refuses it with the number.
fn takes(session: &mut Session, text: &'static [u8], answer: Answer) -> bool {
    let edit = Edit::Insert(InsertionPoint::First, Bytes::from_static(text));
    match (session.edit(edit), answer) {
        (Ok(receipt), _) => match (session.outcome(receipt.id), answer) {
            (Ok(Outcome::Fault(fault)), Answer::Fault(wanted)) => *fault == wanted,
            (Ok(Outcome::Plan(_)), Answer::Valid) => true,
            (Ok(Outcome::Empty), Answer::Empty) => true,
            _ => false,
        },
        (Err(refused), Answer::Refused(number)) => refused.number() == number,
        _ => false,
    }
}

#[test]
fn reads_each_beginning_of_a_unit(rt: HostRuntime) {
    for (count, answer) in BEGINNINGS.iter().enumerate() {
        let text = WHOLE.get(..count).unwrap_or(&[]);
        row_holds(&rt, count, reads(rt.alloc(), text, *answer));
    }
}

#[test]
fn a_session_takes_each_beginning_of_a_unit(rt: HostRuntime) {
    for (count, answer) in BEGINNINGS.iter().enumerate() {
        let mut session = empty_session(&rt);
        let text = WHOLE.get(..count).unwrap_or(&[]);
        row_holds(&rt, count, takes(&mut session, text, *answer));
    }
}
