//! Results and jobs that a session didn't give: they change nothing.

use super::jobs::A1;
use super::{A, empty_session, row_holds};
use Brought::{Gives, Lands};
use Whose::{Other, Own};
use h264_types::pictures::AuId;
use session_builders::{EditRow, edit_of};
use stand_in_device::{Device, Input, Undone};
use stand_in_session::{Job, Landing, Returning, Session, Shown};
use std::alloc::{AllocError, AllocGlobal, Global};
use std::process::Abort;
use std::test::Fail;

/// Whose job's input is brought: the session's own, or that of another session.
#[derive(Clone, Copy)]
enum Whose {
    Own,
    Other,
}

/// What is brought under a number, and its outcome.
#[derive(Clone, Copy)]
enum Brought {
    /// A result that lands.
    Lands(u64, Whose, Landing),
    /// A job that is given back.
    Gives(u64, Whose, Returning),
}

/// What is brought to a session whose job 1 is out, and whether its unit's picture is shown then.
const LANDED: [(Brought, bool); 10] = [
    // Of a job of another session with the same number.
    (Lands(1, Other, Landing::Foreign), false),
    // Of numbers that were never given.
    (Lands(2, Own, Landing::Foreign), false),
    (Lands(0, Own, Landing::Foreign), false),
    (Lands(u64::MAX, Own, Landing::Foreign), false),
    (Gives(1, Other, Returning::Foreign), false),
    (Gives(2, Own, Returning::Foreign), false),
    (Lands(1, Own, Landing::Taken), true),
    // It is out no more.
    (Lands(1, Own, Landing::Foreign), true),
    (Gives(1, Own, Returning::Foreign), true),
    (Lands(1, Other, Landing::Foreign), true),
];

/// The same where the job is given back.
const GIVEN_BACK: [(Brought, bool); 4] = [
    (Gives(0, Other, Returning::Foreign), false),
    (Gives(1, Other, Returning::Foreign), false),
    (Gives(u64::MAX, Own, Returning::Foreign), false),
    (Gives(1, Own, Returning::Returned), false),
];

/// What the job that is due is given to decode, and its number.
fn taken(session: &mut Session) -> Option<(u64, Input)> {
    match session.take() {
        Ok(Some(job)) => Some(job.into_parts()),
        _ => None,
    }
}

/// What the first job of a session is given to decode, of a unit with this text.
fn first_input(session: &mut Session, text: &'static [u8]) -> Option<Input> {
    if session.edit(edit_of(EditRow::First(text))).is_err() {
        return None;
    }
    match taken(session) {
        Some((1, input)) => Some(input),
        _ => None,
    }
}

/// Why a job is undone; the job is spent.
fn cause_of(undone: Undone) -> AllocError {
    let Undone { job, cause } = undone;
    let _ = job.into_parts();
    cause
}

/// What becomes of the result of this input under a number.
fn landing(
    alloc: Global,
    session: &mut Session,
    number: u64,
    input: Input,
) -> Result<Option<Landing>, AllocError> {
    if !input.is_whole() {
        return Ok(None);
    }
    let mut device = Device::new(alloc);
    match device.decode(alloc, Job::new(number, input)) {
        Ok(finished) => Ok(Some(session.land(finished))),
        Err(undone) => Err(cause_of(undone)),
    }
}

/// What becomes of the job of this input under a number.
fn returning(session: &mut Session, number: u64, input: Input) -> Option<Returning> {
    if !input.is_whole() {
        return None;
    }
    Some(session.give_back(Job::new(number, input)))
}

/// The inputs of the session's own job and of another session's.
#[derive(Drop)]
struct Inputs {
    own: Input,
    other: Input,
}

impl Inputs {
    /// The input once more.
    fn copy(&self, alloc: Global, whose: Whose) -> Result<Input, AllocError> {
        match whose {
            Own => self.own.copy(alloc),
            Other => self.other.copy(alloc),
        }
    }
}

/// The session answers so what is brought.
fn answers(
    alloc: Global,
    session: &mut Session,
    inputs: &Inputs,
    brought: Brought,
) -> Result<bool, AllocError> {
    match brought {
        Lands(number, whose, wanted) => {
            let input = inputs.copy(alloc, whose)?;
            Ok(landing(alloc, session, number, input)? == Some(wanted))
        }
        Gives(number, whose, wanted) => {
            let input = inputs.copy(alloc, whose)?;
            Ok(returning(session, number, input) == Some(wanted))
        }
    }
}

/// The picture of unit 1 is shown, or it is pending.
fn is_shown(session: &Session, is_ready: bool) -> bool {
    match session.show(AuId::new(1)) {
        Shown::Ready(_) => is_ready,
        Shown::Pending => !is_ready,
        _ => false,
    }
}

/// A session with the unit A whose job 1 is out, and what it and another session gave to decode.
fn session_with_a_job(rt: &(impl Abort + AllocGlobal)) -> (Session, Inputs) {
    let mut session = empty_session(rt);
    let mut another = empty_session(rt);
    match (first_input(&mut session, A), first_input(&mut another, A1)) {
        (Some(own), Some(other)) => (session, Inputs { own, other }),
        _ => panic!(rt; "no job is given"),
    }
}

/// The session answers so all that is brought.
fn answer_all(
    rt: &(impl Abort + AllocGlobal),
    session: &mut Session,
    inputs: &Inputs,
    rows: &[(Brought, bool)],
) -> Result<(), AllocError> {
    for (row, (brought, is_ready)) in rows.iter().enumerate() {
        let is_answered = answers(rt.alloc(), session, inputs, *brought)?;
        row_holds(rt, row, is_answered && is_shown(session, *is_ready));
    }
    Ok(())
}

#[test]
fn foreign_results_change_nothing(rt: HostRuntime) -> Result<(), Fail> {
    let (mut session, inputs) = session_with_a_job(&rt);
    answer_all(&rt, &mut session, &inputs, &LANDED)?;
    assert!(rt; taken(&mut session).is_none() && session.journal().len() == 1);
    Ok(())
}

#[test]
fn foreign_jobs_change_nothing(rt: HostRuntime) -> Result<(), Fail> {
    let (mut session, inputs) = session_with_a_job(&rt);
    assert!(rt; taken(&mut session).is_none());
    answer_all(&rt, &mut session, &inputs, &GIVEN_BACK)?;
    // The picture is due again, under the next number.
    assert!(rt; taken(&mut session).is_some_and(|job| job.0 == 2));
    Ok(())
}
