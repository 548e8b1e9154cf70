//! Texts of as many bytes as a unit can have, and of one more.

use super::{A, Answer, empty_session, is_answer, row_holds};
use bytes::Bytes;
use stand_in_session::{Edit, InsertionPoint, Session};
use std::alloc::{AllocError, Global};
use std::test::Fail;

/// A unit whose text has so many bytes, of which the last are zeros.
fn text_of(alloc: Global, length: usize) -> Result<Bytes, AllocError> {
    let mut text = Vec::from_slice(alloc, A)?;
    text.resize(length, 0)?;
    Ok(Bytes::from_vec(text)?)
}

/// The insertion of a text of so many bytes is answered so.
fn answers_text(
    alloc: Global,
    session: &mut Session,
    length: usize,
    wanted: Answer,
) -> Result<bool, AllocError> {
    let edit = Edit::Insert(InsertionPoint::First, text_of(alloc, length)?);
    Ok(is_answer(session.edit(edit), wanted))
}

/// How many bytes a text has, and what its insertion is answered.
const LENGTHS: [(usize, Answer); 2] = [(4_194_305, Err(14)), (4_194_304, Ok((1, 1, 1)))];

#[test]
fn a_text_has_4_194_304_bytes_at_most(rt: HostRuntime) -> Result<(), Fail> {
    let mut session = empty_session(&rt);
    for (row, (length, wanted)) in LENGTHS.iter().enumerate() {
        let is_answered = answers_text(rt.alloc(), &mut session, *length, *wanted)?;
        row_holds(&rt, row, is_answered);
    }
    Ok(())
}
