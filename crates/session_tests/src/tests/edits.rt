//! Edits of a session, and the outcomes of its units.

use super::{A, I, P1, P2, Shown, Step, empty_session, holds, row_holds};
use EditRow::{After, Delete, First, Replace};
use Shown::{At, Empty, Fault, Gone};
use Step::Unit;
use h264_controls::Request;
use h264_types::pictures::AuId;
use session_builders::EditRow;
use stand_in_session::{Config, ConfigFault, Last, Session};
use unit_outcomes::{Outcome, Plan, ValidityFault};

/// A sequence parameter set alone.
const SPS: &[u8] = &[0, 0, 1, 0x67, 0x42, 0x00, 0x0A, 0xDA, 0x79];

/// Another one under its id.
const OTHER_SPS: &[u8] = &[0, 0, 1, 0x67, 0x42, 0x00, 0x0A, 0xDB, 0x79];

/// A unit of type 14.
const PREFIX: &[u8] = &[0, 0, 1, 0x6E, 0x40, 0x80];

/// For how many pictures a cache has room, and why no session is made with it.
const ROOMS: [(u16, Option<ConfigFault>); 6] = [
    (0, Some(ConfigFault::Cache)),
    (1, None),
    (64, None),
    (4096, None),
    (4097, Some(ConfigFault::Cache)),
    (u16::MAX, Some(ConfigFault::Cache)),
];

#[test]
fn a_session_is_made_with_a_cache_in_range(rt: HostRuntime) {
    for (row, (cache, fault)) in ROOMS.iter().enumerate() {
        let made = Session::new(rt.alloc(), Config { cache: *cache });
        row_holds(&rt, row, made.err() == *fault);
    }
}

/// The stream has so many units, and the last one has this id.
fn ends_at(session: &Session, units: usize, id: u32) -> bool {
    session.last()
        == Last {
            units,
            id: Some(AuId::new(id)),
        }
}

/// Refused edits, which spend no id and no number.
const REFUSED: [Step; 8] = [
    Step::Edit(First(&[0, 0, 1, 0x67]), Err(4)),
    Step::Edit(First(&[]), Err(1)),
    Step::Edit(After(1, A), Err(16)),
    Step::Edit(After(1, PREFIX), Err(2)),
    Step::Edit(Delete(9), Err(16)),
    Step::Edit(Replace(9, &[]), Err(1)),
    Step::Edit(Replace(9, A), Err(16)),
    Step::Edit(First(A), Ok((1, 1, 1))),
];

#[test]
fn refuses_by_number(rt: HostRuntime) {
    let mut session = empty_session(&rt);
    for (row, step) in REFUSED.iter().enumerate() {
        row_holds(&rt, row, holds(&mut session, step));
    }
    assert!(rt; ends_at(&session, 1, 1));
}

/// An IDR picture and two P pictures, of which the first is deleted and inserted again.
const REPAIRED: [Step; 10] = [
    Step::Edit(First(A), Ok((1, 1, 1))),
    Step::Edit(After(1, P1), Ok((2, 2, 1))),
    Step::Edit(After(2, P2), Ok((3, 3, 1))),
    Unit(3, At(2)),
    Step::Edit(Delete(2), Ok((4, 2, 2))),
    Unit(2, Gone),
    Unit(3, Fault(ValidityFault::FrameNumGap)),
    // From where the deletion was.
    Step::Edit(After(1, P1), Ok((5, 4, 2))),
    Unit(4, At(1)),
    Unit(3, At(2)),
];

/// A unit without a slice sends another set, and then the first one's once more; it has no
/// position, and spends one id.
const EMPTY: [Step; 11] = [
    Step::Edit(First(A), Ok((1, 1, 1))),
    Step::Edit(After(1, OTHER_SPS), Ok((2, 2, 1))),
    Unit(2, Empty),
    Step::Edit(After(2, P1), Ok((3, 3, 1))),
    Unit(3, Fault(ValidityFault::SpsChange)),
    Step::Edit(Replace(2, SPS), Ok((4, 2, 3))),
    Unit(2, Empty),
    Unit(3, At(1)),
    Step::Edit(First(SPS), Ok((5, 4, 4))),
    Unit(4, Empty),
    Unit(3, At(1)),
];

#[test]
fn edits_units_without_a_slice(rt: HostRuntime) {
    let mut session = empty_session(&rt);
    for (row, step) in EMPTY.iter().enumerate() {
        row_holds(&rt, row, holds(&mut session, step));
    }
    assert!(rt; ends_at(&session, 4, 3));
}

/// The request of unit 3 after unit 4.
fn is_request(request: &Request) -> bool {
    let picture = &request.controls().decode_params;
    let [entry] = picture.dpb.as_slice() else {
        return false;
    };
    (request.timestamp, picture.frame_num) == (3000, 2)
        && (request.reference_ts(0), entry.pic_num) == (Some(4000), 1)
        && !entry.flags.long_term
}

/// The plan of unit 3 after unit 4.
fn is_plan(plan: &Plan) -> bool {
    match plan.requests.as_slice() {
        [request] => (plan.counts.top, plan.counts.bottom) == (4, 4) && is_request(request),
        _ => false,
    }
}

/// Unit 3 is planned after unit 4.
fn is_repaired(session: &Session) -> bool {
    match session.outcome(AuId::new(3)) {
        Ok(Outcome::Plan(plan)) => is_plan(plan),
        _ => false,
    }
}

#[test]
fn deletes_and_repairs(rt: HostRuntime) {
    let mut session = empty_session(&rt);
    for (row, step) in REPAIRED.iter().enumerate() {
        row_holds(&rt, row, holds(&mut session, step));
    }
    assert!(rt; is_repaired(&session));
    assert!(rt; ends_at(&session, 3, 3) && session.journal().len() == 5);
}

/// A P picture is replaced by one with the frame_num after it; and a picture is inserted before its
/// sets.
const REPLACED: [Step; 9] = [
    Step::Edit(First(A), Ok((1, 1, 1))),
    Step::Edit(After(1, P1), Ok((2, 2, 1))),
    Step::Edit(After(2, P2), Ok((3, 3, 1))),
    Step::Edit(Replace(2, P2), Ok((4, 2, 3))),
    Unit(2, Fault(ValidityFault::FrameNumGap)),
    Unit(3, Fault(ValidityFault::FrameNumGap)),
    Step::Edit(First(I), Ok((5, 4, 4))),
    Unit(4, Fault(ValidityFault::MissingPps)),
    Unit(1, At(0)),
];

#[test]
fn replaces_and_inserts_first(rt: HostRuntime) {
    let mut session = empty_session(&rt);
    for (row, step) in REPLACED.iter().enumerate() {
        row_holds(&rt, row, holds(&mut session, step));
    }
}

/// A P picture that is no reference, before P2.
const NO_REFERENCE: &[u8] = &[0, 0, 1, 0x01, 0x9A, 0x47];

/// A picture that is no reference is deleted: from the first unit to it, and the one behind it, as
/// no state is stored in front of it but the first.
const WITHOUT: [Step; 8] = [
    Step::Edit(First(A), Ok((1, 1, 1))),
    Step::Edit(After(1, P1), Ok((2, 2, 1))),
    Step::Edit(After(2, NO_REFERENCE), Ok((3, 3, 1))),
    Step::Edit(After(3, P2), Ok((4, 4, 1))),
    Unit(4, At(3)),
    Step::Edit(Delete(3), Ok((5, 3, 3))),
    Unit(3, Gone),
    Unit(4, At(2)),
];

#[test]
fn deletes_a_picture_that_is_no_reference(rt: HostRuntime) {
    let mut session = empty_session(&rt);
    for (row, step) in WITHOUT.iter().enumerate() {
        row_holds(&rt, row, holds(&mut session, step));
    }
}
