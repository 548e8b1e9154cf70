//! The first bytes of a slice's payload, unescaped once for all that is read of them.

ghost use Rattle.std.specs.Prelude.{◌≡◌, ◌↔◌, ℕ, List, IsTrue, length};
ghost use Rattle.slice_header.specs.Starts.{start_of, HoldsStart};

use annexb::{Nal, payload_front};
use std::marker::Model;

// As many bytes as most slice headers take.
const START_LEN: usize = 64;

/// A slice's NAL unit with the first 64 bytes of its payload, or all of them where it has fewer.
#[derive(Drop)]
pub struct Start<'a> {
    nal: Nal<'a>,
    bytes: [u8; START_LEN],
    len: usize,
}

/// A start is its unit: the bytes are those that the unit begins with.
impl<'a> Model for Start<'a> {
    ghost Value = { List ℕ };

    ghost view = { λ start. start.nal };

    ghost invariant = { λ start. HoldsStart start.bytes start.len start.nal };
}

impl<'a> Start<'a> {
    /// The start of a unit.
    pub fn of(nal: &Nal<'a>) -> Start<'a>
        ensures { result ≡ nal.now }
    {
        let mut bytes = [0; START_LEN];
        let len = payload_front(nal, &mut bytes);
        Start {
            nal: Nal::new(nal.bytes()),
            bytes,
            len,
        }
    }

    /// The unit.
    pub fn nal(&self) -> &Nal<'a>
        ensures { result.now ≡ self.now }
    {
        &self.nal
    }

    /// The first bytes of the payload.
    pub fn bytes(&self) -> &[u8]
        ensures { result.now ≡ start_of self.now }
    {
        &self.bytes[..self.len]
    }

    /// Whether there are 64 of them, so that the payload may go on after them.
    pub fn is_full(&self) -> bool
        ensures { IsTrue result ↔ (length (start_of self.now) ≡ 64) }
    {
        self.bytes().len() == START_LEN
    }
}
