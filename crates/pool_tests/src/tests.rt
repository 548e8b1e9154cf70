ghost use Rattle.std.specs.Prelude.{◌≡◌, ◌≤◌};
ghost use Rattle.stream_session.specs.Machines.{empty};

mod at_once;
mod books;
mod drops;
mod ends;
mod gates;
mod groups;
mod handles;
mod scripts;
mod serve;
mod three_seats;
mod two_workers;
mod wanted;

use bytes::Bytes;
use decode_pool::{Desk, Seat, finish};
use h264_types::pictures::AuId;
use stand_in_session::{Config, Edit, InsertionPoint, Session, Shown};
use std::process::Abort;
use std::sync::Wait;
use std::sync::atomic::{AtomicBool, Ordering};
use std::thread;
use std::time::{Clock, Duration};

/// Sets and an IDR picture, of one macroblock, count type 2 and one reference frame.
const A: &[u8] = &[
    0, 0, 1, 0x67, 0x42, 0x00, 0x0A, 0xDA, 0x79, 0, 0, 1, 0x68, 0xCE, 0x38, 0x80, 0, 0, 1, 0x65,
    0x88, 0x84, 0x80,
];

/// An IDR picture with other slice data.
const I1: &[u8] = &[0, 0, 1, 0x65, 0x88, 0x84, 0x81];

/// A P picture with frame_num 1, and the same with a byte more.
const P1: &[u8] = &[0, 0, 1, 0x41, 0x9A, 0x23];

const P1X: &[u8] = &[0, 0, 1, 0x41, 0x9A, 0x23, 0x80];

/// A P picture with frame_num 2.
const P2: &[u8] = &[0, 0, 1, 0x41, 0x9A, 0x43];

/// The picture of A alone: the SHA-256 of 2,055 bytes put together by hand, by Python's hashlib.
const PICTURE_OF_A: [u8; 32] = [
    0x0A, 0xC6, 0xF5, 0xC6, 0xBC, 0x06, 0x4C, 0x43, 0x63, 0x09, 0xC1, 0x8B, 0x3D, 0x1B, 0x60, 0x5A,
    0xD6, 0x0F, 0x7D, 0xE3, 0x72, 0x40, 0x81, 0xB8, 0x4F, 0xF0, 0x1A, 0xAC, 0x2C, 0x39, 0x54, 0xCF,
];

/// Asserts what a row of a table says.
fn row_holds(rt: &impl Abort, row: usize, holds: bool) {
    assert!(rt; holds, "row {row}");
}

/// The insertion of a text as the first unit.
fn first(text: &'static [u8]) -> Edit {
    Edit::Insert(InsertionPoint::First, Bytes::from_static(text))
}

/// The insertion of a text after the unit of this number.
fn after(id: u32, text: &'static [u8]) -> Edit {
    Edit::Insert(
        InsertionPoint::After(AuId::new(id)),
        Bytes::from_static(text),
    )
}

/// The replacement of the unit of this number by a text.
fn replace(id: u32, text: &'static [u8]) -> Edit {
    Edit::Replace(AuId::new(id), Bytes::from_static(text))
}

/// A desk with an empty stream, for so many workers, and its seats.
fn opened(rt: &(impl Abort + AllocGlobal), workers: usize, seats: usize) -> (Desk, Vec<Seat>)
    requires workers { (1 ≤ workers) × (workers ≤ 64) }
    requires seats { (1 ≤ seats) × (seats ≤ 64) }
{
    match Desk::open(rt.alloc(), Config { cache: 64 }, workers, seats) {
        Ok(opened) => opened,
        Err(_) => panic!(rt; "no desk is opened"),
    }
}

/// A desk with an empty stream, for so many workers, and its one seat.
fn opened_for_one(rt: &(impl Abort + AllocGlobal), workers: usize) -> (Desk, Seat)
    requires { (1 ≤ workers) × (workers ≤ 64) }
{
    let (desk, mut seats) = opened(rt, workers, 1);
    match seats.pop() {
        Some(seat) => (desk, seat),
        None => panic!(rt; "there is no seat"),
    }
}

/// The session of a desk that is finished with its one seat.
fn finished(rt: &(impl Abort + AllocGlobal), desk: Desk, seat: Seat) -> Session {
    let mut seats = Vec::new(rt.alloc());
    if seats.push(seat).is_err() {
        panic!(rt; "no memory");
    }
    match finish(rt.alloc(), desk, seats) {
        Ok(session) => session,
        Err(_) => panic!(rt; "the desk isn't finished"),
    }
}

/// A session with an empty stream.
fn empty_session(rt: &(impl Abort + AllocGlobal)) -> Session
    ensures { result ≡ empty 64 }
{
    match Session::new(rt.alloc(), Config { cache: 64 }) {
        Ok(session) => session,
        Err(_) => panic!(rt; "no session is made"),
    }
}

/// The seat's edit is accepted under this number, and of the unit of this id.
fn edits(rt: &impl Wait, desk: &Desk, seat: &mut Seat, edit: Edit, number: u64, id: u32) -> bool {
    match seat.edit(rt, desk, edit) {
        Ok(receipt) => receipt.number == number && receipt.id.number() == id,
        Err(_) => false,
    }
}

/// The seat is shown a picture of the unit of this id.
fn is_ready(rt: &impl Wait, desk: &Desk, seat: &mut Seat, id: u32) -> bool {
    matches!(seat.show(rt, desk, AuId::new(id)), Ok(Shown::Ready(_)))
}

/// The seat is shown that the unit of this id waits.
fn is_pending(rt: &impl Wait, desk: &Desk, seat: &mut Seat, id: u32) -> bool {
    matches!(seat.show(rt, desk, AuId::new(id)), Ok(Shown::Pending))
}

/// How often a sign is looked at.
const MOST_TURNS: u32 = 1_000_000;

/// A sign that one thread gives and others wait for.
#[derive(Drop)]
struct Sign {
    is_given: AtomicBool,
}

impl Sign {
    /// One that isn't given yet.
    fn new() -> Sign {
        Sign {
            is_given: AtomicBool::new(false),
        }
    }

    /// Gives it.
    fn give(&self) {
        self.is_given.store(true, Ordering::SeqCst);
    }

    /// Whether it was given.
    fn is_given(&self) -> bool {
        self.is_given.load(Ordering::SeqCst)
    }
}

/// Looks at both signs until they are given, with 100 microseconds after each look. Whether they
/// were, in a million looks.
fn are_both_given(rt: &impl Clock, one: &Sign, other: &Sign) -> bool {
    for _turn in 0..MOST_TURNS {
        if one.is_given() && other.is_given() {
            return true;
        }
        thread::sleep(rt, Duration::from_micros(100));
    }
    false
}
