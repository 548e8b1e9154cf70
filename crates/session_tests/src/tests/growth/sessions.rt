//! Edits, jobs and results of a session. Where memory runs out nothing is changed, and the call is
//! made again.

use super::seen::seen;
use super::streams::{STREAMS, Stream};
use super::{appended, empty_session, row_holds};
use h264_types::pictures::AuId;
use session_builders::{EditRow, edit_of};
use stand_in_device::{Device, Undone};
use stand_in_session::{
    EditRefused, Finished, Job, Landing, Picture, Receipt, Returning, Session, Shown, TakeRefused,
};
use std::alloc::AllocGlobal;
use std::process::Abort;

/// Makes the edit, once more where memory runs out.
pub(super) fn edit(
    rt: &impl Abort,
    session: &mut Session,
    told: EditRow,
) -> Result<Receipt, EditRefused> {
    let before = seen(session);
    match session.edit(edit_of(told)) {
        Err(EditRefused::Memory) => {
            assert!(rt; seen(session) == before);
            session.edit(edit_of(told))
        }
        answer => answer,
    }
}

/// The edit was accepted as the one of this number, and inserted a unit with this number as its id.
pub(super) fn is_insertion(answer: &Result<Receipt, EditRefused>, number: u32) -> bool {
    match answer {
        Ok(receipt) => { (receipt.number, receipt.id.number()) == (u64::from(number), number) }
        Err(_) => false,
    }
}

/// The units are inserted one after the other, under the ids from 1 on.
fn inserts(rt: &impl Abort, session: &mut Session, stream: &Stream) -> bool {
    let mut last = 0u32;
    for text in stream.texts {
        let answer = edit(rt, session, appended(last, *text));
        last = last.saturating_add(1);
        if !is_insertion(&answer, last) {
            return false;
        }
    }
    true
}

/// Takes a job that is due, where memory ran out before.
fn take_once_more(session: &mut Session) -> Option<Job> {
    match session.take() {
        Ok(job) => job,
        Err(_) => None,
    }
}

/// Takes a job that is due, once more where memory runs out.
fn take(rt: &impl Abort, session: &mut Session) -> Option<Job> {
    let before = seen(session);
    match session.take() {
        Ok(job) => job,
        Err(refused) => {
            assert!(rt; refused == TakeRefused::Memory && seen(session) == before);
            take_once_more(session)
        }
    }
}

/// Decodes a job; where memory runs out it is handed back, and the same device decodes it again.
fn decode(rt: &(impl Abort + AllocGlobal), job: Job) -> Finished {
    let mut device = Device::new(rt.alloc());
    match device.decode(rt.alloc(), job) {
        Ok(finished) => finished,
        Err(Undone { job, cause: _ }) => match device.decode(rt.alloc(), job) {
            Ok(finished) => finished,
            Err(Undone { job, cause: _ }) => {
                let _ = job.into_parts();
                panic!(rt; "memory ran out again");
            }
        },
    }
}

/// The job of this number is taken, and given back.
fn gives_back(rt: &impl Abort, session: &mut Session, number: u64) -> bool {
    let Some(job) = take(rt, session) else {
        return false;
    };
    let is_numbered = job.number() == number;
    session.give_back(job) == Returning::Returned && is_numbered
}

/// The job of this number is taken, and its result, which is this picture, lands.
pub(super) fn lands(
    rt: &(impl Abort + AllocGlobal),
    session: &mut Session,
    number: u64,
    picture: Picture,
) -> bool {
    let Some(job) = take(rt, session) else {
        return false;
    };
    let is_numbered = job.number() == number;
    let finished = decode(rt, job);
    let is_picture = finished.picture() == picture;
    session.land(finished) == Landing::Taken && is_numbered && is_picture
}

/// No job is due.
fn takes_none(rt: &impl Abort, session: &mut Session) -> bool {
    match take(rt, session) {
        Some(job) => {
            session.give_back(job);
            false
        }
        None => true,
    }
}

/// What is shown of a unit when its job is done: its picture, or that it has none.
pub(super) fn shown_at_last(picture: Option<Picture>) -> Shown {
    match picture {
        Some(picture) => Shown::Ready(picture),
        None => Shown::Empty,
    }
}

/// The job of this number is given back, taken again under the next one and landed, with this
/// picture; nothing where the unit has none. How many numbers were given, if all is so.
fn decodes(
    rt: &(impl Abort + AllocGlobal),
    session: &mut Session,
    number: u64,
    picture: Option<Picture>,
) -> Option<u64> {
    let Some(picture) = picture else {
        return Some(0);
    };
    if gives_back(rt, session, number) && lands(rt, session, number.saturating_add(1), picture) {
        Some(2)
    } else {
        None
    }
}

/// Each unit's job is given back, taken again and landed: the unit has this picture then. One
/// without a picture has no job.
fn settles(
    rt: &(impl Abort + AllocGlobal),
    session: &mut Session,
    pictures: &[Option<Picture>],
) -> bool {
    let (mut number, mut id) = (1u64, 0u32);
    for picture in pictures {
        id = id.saturating_add(1);
        let Some(given) = decodes(rt, session, number, *picture) else {
            return false;
        };
        if session.show(AuId::new(id)) != shown_at_last(*picture) {
            return false;
        }
        number = number.saturating_add(given);
    }
    takes_none(rt, session)
}

#[test]
fn refused_growth_of_edits_and_jobs(rt: HostRuntime) {
    for (row, stream) in STREAMS.iter().enumerate() {
        let mut session = empty_session(&rt);
        row_holds(&rt, row, inserts(&rt, &mut session, stream));
        row_holds(&rt, row, settles(&rt, &mut session, stream.pictures));
    }
}
