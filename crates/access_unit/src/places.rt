//! Access units of texts of which it is known where their NAL units stand (7.4.1.2.3).
ghost use Rattle.std.specs.Prelude.{◌≡◌, ℕ, ◌≤◌, List, length, All, None, IfOk, IfErr, IsErrOf, IsOkUnless, slice_range};
ghost use Rattle.annexb.specs.NalUnit.{IsUnit};
ghost use Rattle.annexb.specs.ByteStream.{HasUnits};
ghost use Rattle.access_unit.specs.Answers.{IsAccepted, IsReadAs, IsShortText};
ghost use Rattle.access_unit.specs.Places.{IsWithin, units_at};
ghost use Rattle.access_unit.specs.Refusals.{most_bytes, refusal_of};
ghost use Rattle.access_unit.specs.Stored.{IsShown};

use crate::refused::Refused;
use crate::unit::{MOST_BYTES, Unit, unit_of};
use annexb::Nal;
use bytes::Bytes;
use std::alloc::{AllocError, Global};
use std::ops::Range;

/// What `read_shared` answers for the text, whose NAL units stand at these places. No byte is
/// searched again, and none is copied.
pub fn read_split(alloc: Global, text: &Bytes, places: &[Range<usize>]) -> Result<Unit, Refused>
    requires within { All (IsWithin text.now) places.now }
    requires units { HasUnits text.now (units_at text.now places.now) }
    ensures read { IsReadAs text.now result }
    // A text of an access unit is refused only when memory runs out.
    ensures only { (units : List (List ℕ)) → IsAccepted text.now units
        → IfOk result (λ unit. unit ≡ units) × IsOkUnless result Refused.Memory }
    ensures memory { IsErrOf result Refused.Memory
        → (length text.now ≤ most_bytes) × (units : List (List ℕ)) × HasUnits text.now units }
{
    if text.len() > MOST_BYTES {
        return Err(Refused::TooLarge);
    }
    unit_at(alloc, text, places)
}

/// The access unit of the NAL units at the places, or their refusal. A lone one takes no list.
fn unit_at(alloc: Global, text: &Bytes, places: &[Range<usize>]) -> Result<Unit, Refused>
    requires within { All (IsWithin text.now) places.now }
    requires short { IsShortText text.now (units_at text.now places.now) }
    ensures ok { IfOk result (λ unit. (unit ≡ units_at text.now places.now)
        × (refusal_of (units_at text.now places.now) ≡ None)) }
    ensures err { IfErr result (IsShown (refusal_of (units_at text.now places.now))) }
{
    let bytes = text.as_slice();
    match places {
        [place] => unit_of(alloc, text.clone()?, &[nal_at(bytes, place)]),
        _ => unit_of(alloc, text.clone()?, &nals_at(alloc, bytes, places)?),
    }
}

/// The NAL units at the places.
fn nals_at<'a>(
    alloc: Global,
    text: &'a [u8],
    places: &[Range<usize>],
) -> Result<Vec<Nal<'a>>, AllocError>
    requires within { All (IsWithin text.now) places.now }
    requires units { All IsUnit (units_at text.now places.now) }
    ensures { IfOk result (λ nals. nals.items ≡ units_at text.now places.now) }
{
    let mut nals = Vec::with_capacity(alloc, places.len())?;
    for place in places {
        nals.push(nal_at(text, place))?;
    }
    Ok(nals)
}

/// The NAL unit at the place.
fn nal_at<'a>(text: &'a [u8], place: &Range<usize>) -> Nal<'a>
    requires within { IsWithin text.now place.now }
    requires unit { IsUnit (slice_range text.now place.now.start place.now.end) }
    ensures { result ≡ slice_range text.now place.now.start place.now.end }
{
    Nal::new(&text[place.start..place.end])
}
