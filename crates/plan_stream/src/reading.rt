//! The text of an access unit within a stream, read.

ghost use Rattle.std.specs.Prelude.{◌≤◌, length};
ghost use Rattle.access_unit.specs.Refusals.{most_bytes};
ghost use Rattle.plan_stream.specs.Readings.{IsFrontReadAs};
ghost use Rattle.plan_stream.specs.Walks.{AreKnown};

use access_unit::{MOST_BYTES, Refused, Unit, read_shared, read_split, read_unit};
use annexb::{SplitFault, join, split};
use bytes::Bytes;
use std::alloc::Global;
use std::ops::Range;

/// The access unit of the NAL units that the text has, or their refusal; `Split` only where it has
/// none. Zeros after NAL units don't count for its length.
pub fn read_front(alloc: Global, text: &[u8]) -> Result<Unit, Refused>
    ensures { IsFrontReadAs text.now result }
{
    if text.len() > MOST_BYTES {
        read_long(alloc, text)
    } else {
        read_unit(alloc, text)
    }
}

/// What `read_front` answers for the text, which the access unit shares; where the places of its
/// NAL units are known, none is searched again.
pub(crate) fn read_held(
    alloc: Global,
    text: &Bytes,
    places: &[Range<usize>],
) -> Result<Unit, Refused>
    requires short { length text.now ≤ most_bytes }
    requires known { AreKnown text.now places.now }
    ensures { IsFrontReadAs text.now result }
{
    if places.is_empty() {
        read_shared(alloc, text)
    } else {
        read_split(alloc, text, places)
    }
}

/// The access unit of a text that is too long as it is.
fn read_long(alloc: Global, text: &[u8]) -> Result<Unit, Refused>
    ensures { IsFrontReadAs text.now result }
{
    match split(alloc, text) {
        Ok(nals) => read_unit(alloc, &join(alloc, &nals)?),
        Err(fault) => match fault {
            SplitFault::Memory => Err(Refused::Memory),
            _ => Err(Refused::Split),
        },
    }
}
