//! A stream that is mended as it comes.

ghost use Rattle.std.specs.Prelude.{◌≡◌, ◌+◌, ◌++◌, ◌∷◌, [], ℕ, List, length, IfOk, OnOk};
ghost use Rattle.stream_mending.specs.Segments.{cut_of};
ghost use Rattle.stream_mending.specs.Mended.{mended, told, told_bytes};
ghost use Rattle.stream_mending.specs.declared.why.LeftOut.{LeftOut as Told};
ghost use Rattle.stream_mending.specs.Mending.{IsMendedUpTo};

use crate::mending::{Mended, Mending, tell};
use crate::pieces::next_piece;
use crate::why::Why;
use annexb::START_CODE;
use std::alloc::{AllocError, Global};

/// The text without what no command reads. In memory are the text, what stays of it, and an access
/// unit.
pub fn mend(alloc: Global, text: &[u8]) -> Result<Mended, AllocError>
    ensures bytes { IfOk result (λ done. done.bytes.items ≡ mended text.now) }
    ensures told { IfOk result (λ done. done.left_out.items ≡ told text.now) }
{
    let mut mender = Mender::new();
    let rest = mender.take(alloc, text)?;
    mender.finish(alloc, rest)
}

/// A stream that is mended as it comes, by pieces of any lengths. In memory is the access unit that
/// isn't at its end, and what was mended and not drained.
#[derive(Drop)]
pub struct Mender {
    /// The place of the last start code before what is left.
    place: usize,
    /// What became of the stream from its first start code on; none before that.
    begun: Option<Mending>,
}

impl Mender {
    /// Before the first byte.
    pub fn new() -> Mender
        ensures { (text : List ℕ) → IsMendedUpTo text [] [] text result }
    {
        Mender {
            place: 0,
            begun: None,
        }
    }

    /// Takes bytes up to the last start code in them. The rest, in which none is, has to come again
    /// with what follows.
    pub fn take<'a>(&mut self, alloc: Global, bytes: &'a [u8]) -> Result<&'a [u8], AllocError>
        ensures taken { (text written more : List ℕ) (said : List Told)
            → IsMendedUpTo text written said (bytes.now ++ more) self.old
            → IfOk result (λ rest. IsMendedUpTo text written said (rest.now ++ more) self.new) }
        ensures rest { IfOk result (λ rest. (taken : List ℕ) × (bytes.now ≡ taken ++ rest.now)) }
        ensures none { IfOk result
            (λ rest. cut_of rest.now ≡ record { front = rest.now; rest = [] }) }
    {
        let mut rest = bytes;
        while let Some(piece) = next_piece(rest) {
            self.take_piece(alloc, piece.bytes)?;
            rest = piece.rest;
        }
        Ok(rest)
    }

    /// Takes what stands before a start code.
    fn take_piece(&mut self, alloc: Global, piece: &[u8]) -> Result<(), AllocError>
        ensures { (text written left rest : List ℕ) (said : List Told)
            → cut_of left ≡ record { front = piece.now; rest = (cut_of rest).front ∷ (cut_of rest).rest }
            → IsMendedUpTo text written said left self.old
            → OnOk result (IsMendedUpTo text written said rest self.new) }
    {
        match &mut self.begun {
            None => {
                self.begun = Some(Mending::new(alloc, piece)?);
                self.place = piece.len();
            }
            Some(mending) => {
                mending.take(alloc, self.place, piece)?;
                self.place = place_after(self.place, piece)?;
            }
        }
        Ok(())
    }

    /// What can be written of what was taken, and told; it is another's then.
    pub fn drain(&mut self, alloc: Global) -> Mended
        ensures { (text written left : List ℕ) (said : List Told)
            → IsMendedUpTo text written said left self.old → IsMendedUpTo text
            (written ++ result.bytes.items) (said ++ result.left_out.items) left self.new }
    {
        match &mut self.begun {
            None => Mended {
                bytes: Vec::new(alloc),
                left_out: Vec::new(alloc),
            },
            Some(mending) => mending.drain(alloc),
        }
    }

    /// What the stream comes to, of which these bytes are left, in which no start code is.
    pub fn finish(self, alloc: Global, rest: &[u8]) -> Result<Mended, AllocError>
        requires { cut_of rest.now ≡ record { front = rest.now; rest = [] } }
        ensures bytes { (text written : List ℕ) (said : List Told)
            → IsMendedUpTo text written said rest.now self
            → IfOk result (λ done. written ++ done.bytes.items ≡ mended text) }
        ensures told { (text written : List ℕ) (said : List Told)
            → IsMendedUpTo text written said rest.now self
            → IfOk result (λ done. said ++ done.left_out.items ≡ told text) }
    {
        let Mender { place, begun } = self;
        match begun {
            None => without_nal_units(alloc, rest),
            Some(mut mending) => {
                mending.take(alloc, place, rest)?;
                mending.finish()
            }
        }
    }
}

/// Where the next start code stands, after these bytes and the one at this place.
fn place_after(place: usize, piece: &[u8]) -> Result<usize, AllocError>
    ensures { IfOk result (λ next. next ≡ place + (length piece.now + 3)) }
{
    let next = place.checked_add(START_CODE.len());
    next.and_then(|next| next.checked_add(piece.len()))
        .ok_or(AllocError)
}

/// What a text comes to that has no start code.
fn without_nal_units(alloc: Global, text: &[u8]) -> Result<Mended, AllocError>
    requires { cut_of text.now ≡ record { front = text.now; rest = [] } }
    ensures bytes { IfOk result (λ done. done.bytes.items ≡ mended text.now) }
    ensures told { IfOk result (λ done. done.left_out.items ≡ told text.now) }
{
    let mut left_out = Vec::new(alloc);
    tell(&mut left_out, 0, text.len(), Why::NotNalUnit)?;
    Ok(Mended {
        bytes: Vec::new(alloc),
        left_out,
    })
}
