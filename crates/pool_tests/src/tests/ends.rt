//! Ends of desks with seats or journals that don't agree.

use super::{A, edits, first, opened, row_holds};
use Handed::{Foreign, Own};
use decode_pool::{Desk, FinishFault, Seat, Unfinished, finish};
use stand_in_session::Session;
use std::alloc::AllocGlobal;
use std::process::Abort;
use std::sync::Wait;
use std::test::Fail;

/// A seat that is handed in at the end of a desk.
#[derive(Clone, Copy)]
enum Handed {
    /// The first of the desk's own that wasn't handed in yet.
    Own,
    /// That of this number of another desk with two, which inserted a unit there or not.
    Foreign(usize, bool),
}

/// Why a desk isn't finished, and how long the journal is of which that is said.
type Told = Option<(FinishFault, Option<usize>)>;

/// How many seats a desk has, whether its first seat inserts a unit, the seats that are handed in,
/// and what is told.
type Row = (usize, bool, &'static [Handed], Told);

const ROWS: [Row; 9] = [
    (2, true, &[Own, Own], None),
    (1, true, &[Own], None),
    // A number is there twice, none is there, or one is none of theirs.
    (
        2,
        false,
        &[Own, Own, Foreign(1, false)],
        Some((FinishFault::SeatMissing, None)),
    ),
    (2, true, &[], Some((FinishFault::SeatMissing, None))),
    (
        1,
        false,
        &[Own, Foreign(2, false)],
        Some((FinishFault::SeatMissing, None)),
    ),
    // The book of another desk's seat has an edit that this journal hasn't.
    (
        2,
        false,
        &[Foreign(2, true), Own],
        Some((FinishFault::SeatDisagrees { seat: 2, number: 1 }, Some(0))),
    ),
    // An edit stands in no book, or in two; another desk's seat is known by its number and its book
    // alone.
    (
        2,
        true,
        &[Foreign(1, false), Foreign(2, false)],
        Some((FinishFault::SeatMissing, Some(1))),
    ),
    (
        2,
        true,
        &[Own, Foreign(2, true)],
        Some((FinishFault::SeatDisagrees { seat: 2, number: 1 }, Some(1))),
    ),
    (1, true, &[Foreign(1, true)], None),
];

/// The seat of this number of another desk with two, which inserted a unit there or not.
fn foreign(rt: &(impl Abort + AllocGlobal + Wait), number: usize, inserts: bool) -> Option<Seat> {
    let (desk, mut seats) = opened(rt, 1, 2);
    if number == 1 {
        seats.truncate(1);
    }
    let mut seat = seats.pop()?;
    if inserts {
        insert(rt, &desk, &mut seat);
    }
    Some(seat)
}

/// The seat inserts the first unit of the desk's stream.
fn insert(rt: &(impl Abort + Wait), desk: &Desk, seat: &mut Seat) {
    if !edits(rt, desk, seat, first(A), 1, 1) {
        panic!(rt; "a unit isn't inserted");
    }
}

/// The seats that are handed in, of which these are the desk's own.
fn handed_in(
    rt: &(impl Abort + AllocGlobal + Wait),
    seats: Vec<Seat>,
    handed: &[Handed],
) -> Vec<Seat> {
    let mut own = seats.into_iter();
    let mut all = Vec::new(rt.alloc());
    for who in handed {
        let seat = match who {
            Own => own.next(),
            Foreign(number, inserts) => foreign(rt, *number, *inserts),
        };
        push_seat(rt, &mut all, seat);
    }
    all
}

/// One seat more, which is there.
fn push_seat(rt: &impl Abort, all: &mut Vec<Seat>, seat: Option<Seat>) {
    let is_there = match seat {
        Some(seat) => all.push(seat).is_ok(),
        None => false,
    };
    assert!(rt; is_there);
}

/// Why a desk isn't finished.
fn told(finished: Result<Session, Unfinished>) -> Told {
    match finished {
        Ok(_) => None,
        Err(unfinished) => {
            let length = unfinished.journal.map(|journal| journal.len());
            Some((unfinished.cause, length))
        }
    }
}

/// What the end of a desk with so many seats tells.
fn told_of(rt: &(impl Abort + AllocGlobal + Wait), row: &Row) -> Told {
    let (desk, mut seats) = if row.0 == 1 {
        opened(rt, 1, 1)
    } else {
        opened(rt, 1, 2)
    };
    if let Some(seat) = seats.get_mut(0) {
        if row.1 {
            insert(rt, &desk, seat);
        }
    }
    let seats = handed_in(rt, seats, row.2);
    told(finish(rt.alloc(), desk, seats))
}

#[test]
fn desks_end_where_seats_and_books_are_right(rt: HostRuntime) -> Result<(), Fail> {
    for (row, end) in ROWS.iter().enumerate() {
        row_holds(&rt, row, told_of(&rt, end) == end.3);
    }
    Ok(())
}
