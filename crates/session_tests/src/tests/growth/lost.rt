//! A picture whose key goes out of use: it is cached, or the receipt tells that it is lost.

use super::sessions::{edit, is_insertion, lands};
use super::streams::{A, PICTURE_OF_A};
use super::{appended, empty_session};
use h264_types::pictures::AuId;
use session_builders::EditRow;
use stand_in_session::{EditRefused, Receipt, Shown};

/// How many pictures an edit lost, if it was accepted.
fn lost_by(answer: &Result<Receipt, EditRefused>) -> Option<u64> {
    match answer {
        Ok(receipt) => Some(receipt.lost_pictures),
        Err(_) => None,
    }
}

/// A unit that was decoded is deleted and inserted again: its picture is there at once, but where
/// the deletion told that one is lost.
#[test]
fn refused_growth_of_the_cache(rt: HostRuntime) {
    let mut session = empty_session(&rt);
    let answer = edit(&rt, &mut session, appended(0, A));
    assert!(rt; is_insertion(&answer, 1) && lost_by(&answer) == Some(0));
    assert!(rt; lands(&rt, &mut session, 1, PICTURE_OF_A));
    let lost = lost_by(&edit(&rt, &mut session, EditRow::Delete(1)));
    assert!(rt; lost == Some(0) || lost == Some(1));
    assert!(rt; lost_by(&edit(&rt, &mut session, appended(0, A))) == Some(0));
    let shown = match lost {
        Some(0) => Shown::Ready(PICTURE_OF_A),
        _ => Shown::Pending,
    };
    assert!(rt; session.show(AuId::new(2)) == shown);
}
