//! The frame cropping rectangle (7.3.2.1.1).

ghost use Rattle.std.specs.Prelude.{◌≡◌, IfOk};
ghost use Rattle.param_sets.specs.Cropping.{cropping_after, cropping_in, offsets_at, Answers};

use crate::cropping::codes::{Code, set_codes};
use crate::cropping::skipping::skip_all;
use expgolomb::{Bits, CodeFault};
use h264_types::param_sets::Sps;
use std::alloc::{AllocError, Global};

/// frame_crop_left_offset and the other three.
#[derive(Clone, Copy)]
pub(crate) struct Cropping {
    pub(crate) left: u32,
    pub(crate) right: u32,
    pub(crate) top: u32,
    pub(crate) bottom: u32,
}

/// Where nothing is cropped.
const NOTHING: Cropping = Cropping {
    left: 0,
    right: 0,
    top: 0,
    bottom: 0,
};

/// The rectangle that the payload of this set has; the whole frame where the payload ends before it.
pub(crate) fn cropping_of(alloc: Global, payload: &[u8], sps: &Sps) -> Result<Cropping, AllocError>
    ensures { IfOk result (λ cropping. cropping ≡ cropping_in payload.now sps.now) }
{
    let codes = set_codes(alloc, sps)?;
    let mut bits = Bits::new(payload);
    match read_behind(&mut bits, &codes) {
        Ok(cropping) => Ok(cropping),
        Err(_) => Ok(NOTHING),
    }
}

/// The rectangle behind these codes.
#[tactic(auto, unfolding(crate::specs::Cropping::cropping_after))]
fn read_behind(bits: &mut Bits<'_>, codes: &[Code]) -> Result<Cropping, CodeFault>
    ensures { Answers result (cropping_after codes.now bits.old) }
{
    skip_all(bits, codes)?;
    if bits.fixed(1)? == 0 {
        Ok(NOTHING)
    } else {
        read_offsets(bits)
    }
}

/// The four offsets.
#[tactic(auto, unfolding(crate::specs::Cropping::offsets_at))]
fn read_offsets(bits: &mut Bits<'_>) -> Result<Cropping, CodeFault>
    ensures { Answers result (offsets_at bits.old) }
{
    let left = bits.ue()?;
    let right = bits.ue()?;
    let top = bits.ue()?;
    let bottom = bits.ue()?;
    Ok(Cropping {
        left,
        right,
        top,
        bottom,
    })
}
