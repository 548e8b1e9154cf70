//! An edit in the middle of a stream of which states are stored.

use super::sessions::{edit, is_insertion};
use super::streams::{A, P1};
use super::{appended, empty_session, row_holds};
use h264_types::pictures::AuId;
use session_builders::EditRow;
use stand_in_session::{EditRefused, Receipt};

/// How many IDR pictures the stream has.
const UNITS: u32 = 100;

/// The edit was accepted after all insertions, and folded from the state at place 32 to that at 64,
/// which stays.
fn is_replacement(answer: &Result<Receipt, EditRefused>) -> bool {
    match answer {
        Ok(receipt) => (receipt.number, receipt.id.number()) == (101, 50) && receipt.steps == 32,
        Err(_) => false,
    }
}

/// A picture in the middle of a hundred becomes another one.
#[test]
fn refused_growth_of_an_edit_in_the_middle(rt: HostRuntime) {
    let mut session = empty_session(&rt);
    for last in 0..UNITS {
        let answer = edit(&rt, &mut session, appended(last, A));
        row_holds(
            &rt,
            last as usize,
            is_insertion(&answer, last.saturating_add(1)),
        );
    }
    let answer = edit(&rt, &mut session, EditRow::Replace(50, P1));
    assert!(rt; is_replacement(&answer));
    assert!(rt; session.position(AuId::new(50)) == Ok(Some(49)));
    assert!(rt; session.position(AuId::new(100)) == Ok(Some(99)));
}
