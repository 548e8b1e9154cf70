//! Seats that edit and are shown units, drawn at random.

use bytes::Bytes;
use decode_pool::{Desk, Seat};
use h264_types::pictures::AuId;
use stand_in_session::{Edit, InsertionPoint};
use std::sync::Wait;
use test_builders::Draws;

/// Sets and an IDR picture of one macroblock; another IDR picture; P pictures with frame_num 1, the
/// second one with a byte more, and 2; a unit without a slice; and what is no unit.
const TEXTS: [&[u8]; 7] = [
    &[
        0, 0, 1, 0x67, 0x42, 0x00, 0x0A, 0xDA, 0x79, 0, 0, 1, 0x68, 0xCE, 0x38, 0x80, 0, 0, 1,
        0x65, 0x88, 0x84, 0x80,
    ],
    &[0, 0, 1, 0x65, 0x88, 0x84, 0x81],
    &[0, 0, 1, 0x41, 0x9A, 0x23],
    &[0, 0, 1, 0x41, 0x9A, 0x23, 0x80],
    &[0, 0, 1, 0x41, 0x9A, 0x43],
    &[0, 0, 1, 0x67, 0x42, 0x00, 0x0A, 0xDA, 0x79],
    &[0, 0, 1],
];

/// How far back the ids lie that a seat draws.
const REACH: u64 = 64;

/// A seat with the draws of its commands.
#[derive(Drop)]
pub(crate) struct Drawing {
    pub(crate) seat: Seat,
    pub(crate) draws: Draws,
    /// The last id that the seat was told.
    last: u32,
}

impl Drawing {
    /// A seat whose draws begin with this seed.
    pub(crate) fn new(seat: Seat, seed: u64) -> Drawing {
        Drawing {
            seat,
            draws: Draws::new(seed.wrapping_mul(2).wrapping_add(1)),
            last: 0,
        }
    }

    /// Does so many drawn commands at the desk; the seat then.
    pub(crate) fn run(mut self, rt: &impl Wait, desk: &Desk, commands: u64) -> Seat {
        for _ in 0..commands {
            self.act(rt, desk);
        }
        self.seat
    }

    /// Does one command: three of eight insert, one replaces, two delete, two ask.
    fn act(&mut self, rt: &impl Wait, desk: &Desk) {
        let (id, text) = (self.id(), self.text());
        match self.draws.below(8) {
            0 => self.edit(rt, desk, Edit::Insert(InsertionPoint::First, text)),
            1 | 2 => self.edit(rt, desk, Edit::Insert(InsertionPoint::After(id), text)),
            3 => self.edit(rt, desk, Edit::Replace(id, text)),
            4 | 5 => self.edit(rt, desk, Edit::Delete(id)),
            _ => {
                let _ = self.seat.show(rt, desk, id);
            }
        }
    }

    /// Makes an edit, which may be refused.
    fn edit(&mut self, rt: &impl Wait, desk: &Desk, edit: Edit) {
        if let Ok(receipt) = self.seat.edit(rt, desk, edit) {
            self.last = self.last.max(receipt.id.number());
        }
    }

    /// An id that was given not long ago, or one that wasn't given yet.
    fn id(&mut self) -> AuId {
        let back = self.draws.below(REACH) as u32;
        AuId::new(self.last.saturating_sub(back).saturating_add(2))
    }

    /// The text of a unit, or of none.
    fn text(&mut self) -> Bytes {
        let at = self.draws.below(TEXTS.len() as u64) as usize;
        Bytes::from_static(TEXTS.get(at).copied().unwrap_or(&[]))
    }
}
