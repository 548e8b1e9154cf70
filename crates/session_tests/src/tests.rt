ghost use Rattle.std.specs.Prelude.{◌≡◌};
ghost use Rattle.stream_session.specs.Machines.{empty};

mod altered;
mod changed;
mod damage;
mod doubt;
mod edits;
mod foreign;
mod groups;
mod growth;
mod jobs;
mod limits;
mod many;
mod needed;
mod random;
mod ranges;
mod running;
mod texts;

use h264_types::pictures::AuId;
use session_builders::{EditRow, edit_of};
use stand_in_session::{Config, EditRefused, NoSuchUnit, Receipt, Runner, Session};
use std::process::Abort;
use unit_outcomes::{Outcome, ValidityFault};

/// Sets and an IDR picture, of one macroblock, count type 2 and one reference frame.
const A: &[u8] = &[
    0, 0, 1, 0x67, 0x42, 0x00, 0x0A, 0xDA, 0x79, 0, 0, 1, 0x68, 0xCE, 0x38, 0x80, 0, 0, 1, 0x65,
    0x88, 0x84, 0x80,
];

/// The IDR picture alone.
const I: &[u8] = &[0, 0, 1, 0x65, 0x88, 0x84, 0x80];

/// A P picture with frame_num 1.
const P1: &[u8] = &[0, 0, 1, 0x41, 0x9A, 0x23];

/// A P picture with frame_num 2.
const P2: &[u8] = &[0, 0, 1, 0x41, 0x9A, 0x43];

/// Asserts what a row of a table says.
fn row_holds(rt: &impl Abort, row: usize, holds: bool) {
    assert!(rt; holds, "row {row}");
}

/// A session with an empty stream.
fn empty_session(rt: &(impl Abort + AllocGlobal)) -> Session
    ensures { result ≡ empty 64 }
{
    match Session::new(rt.alloc(), Config { cache: 64 }) {
        Ok(session) => session,
        Err(_) => panic!(rt; "no session is made"),
    }
}

/// A runner with an empty stream, and with room for so many pictures in its cache.
fn runner_of(rt: &(impl Abort + AllocGlobal), cache: u16) -> Runner
    ensures { result ≡ empty cache }
{
    match Runner::new(rt.alloc(), Config { cache }) {
        Ok(runner) => runner,
        Err(_) => panic!(rt; "no runner is made"),
    }
}

/// A receipt's number, its id and its steps; or a refusal's number. States are stored every 32
/// units: in a shorter stream an edit at the end makes a step for each new unit, and any other one
/// for each unit of the new stream, but those in front of the edit before it, if that was in front
/// of some unit and isn't behind this one.
type Answer = Result<(u64, u32, u64), u8>;

/// What an edit is answered is this.
fn is_answer(answer: Result<Receipt, EditRefused>, wanted: Answer) -> bool {
    match (answer, wanted) {
        (Ok(receipt), Ok(wanted)) => {
            (receipt.number, receipt.id.number(), receipt.steps) == wanted
        }
        (Err(refused), Err(number)) => refused.number() == number,
        _ => false,
    }
}

/// A unit's outcome, as a row has it.
#[derive(Clone, Copy)]
enum Shown {
    Gone,
    Fault(ValidityFault),
    Empty,
    At(usize),
}

/// The session says this of the unit of the id.
fn shows(session: &Session, id: u32, shown: Shown) -> bool {
    let id = AuId::new(id);
    match (session.outcome(id), session.position(id), shown) {
        (Err(NoSuchUnit), Err(NoSuchUnit), Shown::Gone) => true,
        (Ok(Outcome::Fault(fault)), Ok(None), Shown::Fault(wanted)) => *fault == wanted,
        (Ok(Outcome::Empty), Ok(None), Shown::Empty) => true,
        (Ok(Outcome::Plan(_)), Ok(Some(place)), Shown::At(wanted)) => place == wanted,
        _ => false,
    }
}

/// An edit with what it is answered, or a unit with its outcome.
#[derive(Clone, Copy)]
enum Step {
    Edit(EditRow, Answer),
    Unit(u32, Shown),
}

/// The session answers the step so.
fn holds(session: &mut Session, step: &Step) -> bool {
    match step {
        Step::Edit(told, wanted) => is_answer(session.edit(edit_of(*told)), *wanted),
        Step::Unit(id, shown) => shows(session, *id, *shown),
    }
}
