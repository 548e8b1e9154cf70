//! A mark of the stream. Where memory runs out the last one is kept, and the call is made again.

use super::seen::seen;
use super::sessions::{edit, is_insertion};
use super::streams::A;
use super::{appended, empty_session};
use h264_types::pictures::AuId;
use session_builders::EditRow;
use stand_in_session::Session;
use std::process::Abort;

/// Marks the stream, once more where memory runs out.
fn mark(rt: &impl Abort, session: &mut Session) -> bool {
    let (before, altered) = (seen(session), session.is_altered(AuId::new(1)));
    match session.mark() {
        Ok(()) => true,
        Err(_) => {
            let is_same = seen(session) == before;
            assert!(rt; is_same && session.is_altered(AuId::new(1)) == altered);
            session.mark().is_ok()
        }
    }
}

/// A stream is marked while it is empty, so that its first unit is altered then, and once more.
#[test]
fn refused_growth_of_a_mark(rt: HostRuntime) {
    let mut session = empty_session(&rt);
    assert!(rt; mark(&rt, &mut session));
    let answer = edit(&rt, &mut session, appended(0, A));
    assert!(rt; is_insertion(&answer, 1));
    assert!(rt; session.is_altered(AuId::new(1)) == Some(true));
    assert!(rt; mark(&rt, &mut session));
    assert!(rt; session.is_altered(AuId::new(1)) == Some(false));
    let _ = edit(&rt, &mut session, EditRow::Delete(1));
    assert!(rt; session.is_altered(AuId::new(1)) == None);
}
