//! NAL units cut off a text that they share (B.1.1).
ghost use Rattle.std.specs.Prelude.{◌≡◌, ℕ, List, ◌∷◌, ◌++◌, replicate, IfOk, OnOk};
ghost use Rattle.annexb.specs.ByteStream.{HasUnits, start_code};
ghost use Rattle.access_unit.specs.Coded.{HasRest};

use crate::shared_nal::SharedNal;
use annexb::{Nal, START_CODE};
use bytes::Bytes;
use std::alloc::{AllocError, Global};

/// How many bytes a start code has.
pub(crate) const START_CODE_LEN: usize = START_CODE.len();

/// The NAL unit that is the next of the text, which then goes on after it. No byte is copied.
pub(crate) fn cut_next(text: &mut Bytes, nal: &Nal<'_>) -> Result<SharedNal, AllocError>
    requires { (units : List (List ℕ)) × HasRest text.old (nal.now ∷ units) }
    ensures nal { IfOk result (λ shared. shared ≡ nal.now) }
    ensures rest { (units : List (List ℕ)) → HasRest text.old (nal.now ∷ units)
        → OnOk result (HasRest text.new units) }
{
    text.advance(zeros_before_code(text.as_slice()));
    let coded = text.split_to(START_CODE_LEN + nal.bytes().len())?;
    Ok(SharedNal::new(coded))
}

/// The NAL units of the text, each with a share of it, and the places where they end. No byte is
/// copied.
pub(crate) fn cut_all(
    alloc: Global,
    mut text: Bytes,
    nals: &[Nal<'_>],
) -> Result<(Vec<SharedNal>, Vec<usize>), AllocError>
    requires { HasUnits text nals.now }
    ensures { IfOk result (λ cut. cut.0.items ≡ nals.now) }
{
    let whole = text.len();
    let mut cut = Vec::with_capacity(alloc, nals.len())?;
    let mut ends = Vec::with_capacity(alloc, nals.len())?;
    for nal in nals {
        cut.push(cut_next(&mut text, nal)?)?;
        ends.push(whole.saturating_sub(text.len()))?;
    }
    Ok((cut, ends))
}

/// How many zeros stand before the start code of the text.
fn zeros_before_code(text: &[u8]) -> usize
    ensures { (zeros : ℕ) (rest : List ℕ) → text.now ≡ replicate zeros 0 ++ (start_code ++ rest)
        → result ≡ zeros }
{
    for (at, byte) in text.iter().enumerate() {
        if *byte != 0 {
            return at.saturating_sub(2);
        }
    }
    0
}
