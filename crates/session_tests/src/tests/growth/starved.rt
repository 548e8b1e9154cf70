//! Calls for which there is no memory from some growth on: an edit and a `take` change nothing
//! then, and a job that isn't decoded, and a result that lands, are answered as with memory.

use super::seen::seen;
use super::sessions::shown_at_last;
use super::streams::{A, OTHER_A, STREAMS, Stream};
use super::{appended, new_session, row_holds};
use EditRow::{Delete, First, Replace};
use h264_types::pictures::AuId;
use session_builders::{EditRow, edit_of};
use stand_in_device::{Device, Undone};
use stand_in_session::{EditRefused, Finished, Job, Landing, Returning, Session, TakeRefused};
use std::alloc::{AllocError, AllocGlobal, Global};
use std::process::Abort;

/// Makes the edit; where memory runs out nothing is changed.
fn edit(rt: &impl Abort, session: &mut Session, told: EditRow) -> Result<(), AllocError> {
    let before = seen(session);
    match session.edit(edit_of(told)) {
        Ok(_) => Ok(()),
        Err(refused) => {
            assert!(rt; refused == EditRefused::Memory && seen(session) == before);
            Err(AllocError)
        }
    }
}

/// Takes a job; where memory runs out nothing is changed.
fn take(rt: &impl Abort, session: &mut Session) -> Result<Option<Job>, AllocError> {
    let before = seen(session);
    match session.take() {
        Ok(job) => Ok(job),
        Err(refused) => {
            assert!(rt; refused == TakeRefused::Memory && seen(session) == before);
            Err(AllocError)
        }
    }
}

/// Decodes a job, or gives it back.
fn decode(rt: &impl Abort, alloc: Global, session: &mut Session, job: Job) -> Option<Finished> {
    match Device::new(alloc).decode(alloc, job) {
        Ok(finished) => Some(finished),
        Err(Undone { job, cause: _ }) => {
            assert!(rt; session.give_back(job) == Returning::Returned);
            None
        }
    }
}

/// Decodes a job and lands its result, which is taken, or gives it back.
fn finish(rt: &(impl Abort + AllocGlobal), session: &mut Session, job: Job) {
    if let Some(finished) = decode(rt, rt.alloc(), session, job) {
        assert!(rt; session.land(finished) == Landing::Taken);
    }
}

/// Inserts the units of a stream, one after the other.
fn insert(rt: &impl Abort, session: &mut Session, stream: &Stream) -> Result<(), AllocError> {
    let mut last = 0u32;
    for text in stream.texts {
        edit(rt, session, appended(last, *text))?;
        last = last.saturating_add(1);
    }
    Ok(())
}

/// Takes jobs until none is due, and decodes them.
fn settle(rt: &(impl Abort + AllocGlobal), session: &mut Session) -> Result<(), AllocError> {
    for _ in 0..10 {
        let Some(job) = take(rt, session)? else {
            return Ok(());
        };
        finish(rt, session, job);
    }
    Ok(())
}

/// Inserts the units of a stream and decodes them, so far as there is memory; whether each has its
/// picture, if it has one, or memory ran out.
fn lives(rt: &(impl Abort + AllocGlobal), session: &mut Session, stream: &Stream) -> bool {
    if insert(rt, session, stream).is_err() || settle(rt, session).is_err() {
        return true;
    }
    let mut id = 0u32;
    for picture in stream.pictures {
        id = id.saturating_add(1);
        if session.show(AuId::new(id)) != shown_at_last(*picture) {
            return false;
        }
    }
    true
}

#[test]
fn starved_sessions(rt: HostRuntime) {
    for (row, stream) in STREAMS.iter().enumerate() {
        if let Ok(mut session) = new_session(rt.alloc()) {
            row_holds(&rt, row, lives(&rt, &mut session, stream));
        }
    }
}

/// Edits that are made while the job of the stream's one unit is out, each with how its result
/// lands from then on.
const LATE: [&[(EditRow, Landing)]; 3] = [
    &[(Delete(1), Landing::Stale), (First(A), Landing::Taken)],
    &[
        (Replace(1, OTHER_A), Landing::Stale),
        (Replace(1, A), Landing::Taken),
    ],
    &[
        (First(OTHER_A), Landing::Taken),
        (Delete(1), Landing::Stale),
    ],
];

/// Makes the edits, so far as there is memory; how the result lands after the last one that was
/// made.
fn landing_after(rt: &impl Abort, session: &mut Session, edits: &[(EditRow, Landing)]) -> Landing {
    let mut landing = Landing::Taken;
    for (told, after) in edits {
        if edit(rt, session, *told).is_err() {
            return landing;
        }
        landing = *after;
    }
    landing
}

/// The job that is due first.
fn first_job(rt: &impl Abort, session: &mut Session) -> Option<Job> {
    edit(rt, session, First(A)).ok()?;
    take(rt, session).ok()?
}

/// Edits are made while a result is out, which then lands as it has to.
fn lands_late(
    rt: &(impl Abort + AllocGlobal),
    session: &mut Session,
    edits: &[(EditRow, Landing)],
) -> bool {
    let Some(job) = first_job(rt, session) else {
        return true;
    };
    let Some(finished) = decode(rt, rt.alloc(), session, job) else {
        return true;
    };
    let wanted = landing_after(rt, session, edits);
    session.land(finished) == wanted
}

#[test]
fn starved_results_land_late(rt: HostRuntime) {
    for (row, edits) in LATE.iter().enumerate() {
        if let Ok(mut session) = new_session(rt.alloc()) {
            row_holds(&rt, row, lands_late(&rt, &mut session, edits));
        }
    }
}
