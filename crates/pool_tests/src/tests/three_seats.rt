//! Three seats in threads of their own.

use super::{A, first, opened};
use decode_pool::{Desk, FinishFault, Seat, Unfinished, finish};
use std::process::Abort;
use std::sync::Wait;
use std::test::Fail;
use std::thread;
use std::thread::Threads;

/// How many units each seat inserts.
const EACH: u32 = 50;

/// The seat inserts its units; it is handed on where each was accepted.
fn insert_all(rt: &impl Wait, desk: &Desk, mut seat: Seat) -> Option<Seat> {
    for _ in 0..EACH {
        if seat.edit(rt, desk, first(A)).is_err() {
            return None;
        }
    }
    Some(seat)
}

/// The three seats insert their units, each in a thread.
fn insert_in_threads<R: Threads + Wait + Sync>(
    rt: &R,
    desk: &Desk,
    seats: (Seat, Seat, Seat),
) -> Option<(Seat, Seat, Seat)> {
    let (first, second, third) = seats;
    thread::scope(thread::scope_env(), rt, move |scope| {
        let first = scope.spawn(move || insert_all(rt, desk, first));
        let second = scope.spawn(move || insert_all(rt, desk, second));
        let third = scope.spawn(move || insert_all(rt, desk, third));
        match (first, second, third) {
            (Ok(first), Ok(second), Ok(third)) => {
                match (first.join(rt), second.join(rt), third.join(rt)) {
                    (Some(first), Some(second), Some(third)) => Some((first, second, third)),
                    _ => None,
                }
            }
            _ => None,
        }
    })
}

/// The three seats, in any order.
fn three(rt: &impl Abort, mut seats: Vec<Seat>) -> (Seat, Seat, Seat) {
    match (seats.pop(), seats.pop(), seats.pop()) {
        (Some(third), Some(second), Some(first)) => (first, second, third),
        _ => panic!(rt; "there aren't three seats"),
    }
}

/// The desk isn't finished with two of its three seats; what is handed back.
fn misses_one(rt: &(impl Abort + AllocGlobal), desk: Desk, one: Seat, other: Seat) -> Unfinished {
    let mut seats = Vec::new(rt.alloc());
    if seats.push(one).is_err() || seats.push(other).is_err() {
        panic!(rt; "no memory");
    }
    match finish(rt.alloc(), desk, seats) {
        Ok(_) => panic!(rt; "a seat isn't missed"),
        Err(unfinished) => unfinished,
    }
}

/// It is with the third one too; how long the journal is, and how many units the stream has.
fn finishes(rt: &(impl Abort + AllocGlobal), unfinished: Unfinished, seat: Seat) -> (usize, usize) {
    let Unfinished {
        desk,
        mut seats,
        ..
    } = unfinished;
    if seats.push(seat).is_err() {
        panic!(rt; "no memory");
    }
    match finish(rt.alloc(), desk, seats) {
        Ok(session) => (session.journal().len(), session.last().units),
        Err(_) => panic!(rt; "the desk isn't finished"),
    }
}

#[test]
fn the_journal_has_what_three_seats_did(rt: HostRuntime) -> Result<(), Fail> {
    let (desk, seats) = opened(&rt, 1, 3);
    let seats = three(&rt, seats);
    let Some((first, second, third)) = insert_in_threads(&rt, &desk, seats) else {
        panic!(rt; "a unit isn't inserted");
    };
    let unfinished = misses_one(&rt, desk, third, first);
    assert!(rt; unfinished.cause == FinishFault::SeatMissing && unfinished.journal.is_none());
    assert!(rt; finishes(&rt, unfinished, second) == (150, 150));
    Ok(())
}
