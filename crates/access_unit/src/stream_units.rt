//! Streams of access units for which there is room.

ghost use Rattle.std.specs.Prelude.{◌≡◌, ◌≤◌, ℕ, List, length, IfOk, IsOkUnless};
ghost use Rattle.access_unit.specs.StreamUnits.{IsReadAs, IsStream, fault_of};

use crate::refused::Refused;
use crate::stream::{StreamRefused, read_shared_stream};
use crate::unit::Unit;
use bytes::Bytes;
use std::alloc::Global;
use std::thread::Threads;
use thiserror::Error;

/// The most access units of a stream.
pub const MOST_UNITS: usize = 65_536;

/// Why a stream isn't taken.
#[derive(Clone, Copy, Debug, PartialEq, Eq, Error)]
pub enum Refusal {
    /// The text is no byte stream.
    #[error("the text doesn't split into units")]
    Split,
    /// The access unit at this index, from 0, is the first that is refused.
    #[error("unit {index}: {refused}")]
    Unit { index: usize, refused: Refused },
    /// It has more access units than there is room for.
    #[error("the stream has more units than there is room for")]
    StreamFull,
}

/// Why a text isn't read as a stream for which there is room.
#[derive(Clone, Copy, Debug, PartialEq, Eq, Error)]
pub enum ReadFault {
    /// The stream is refused.
    #[error("{0}")]
    Refused(Refusal),
    /// A growth was refused.
    #[error("out of memory")]
    Memory,
}

impl From<StreamRefused> for ReadFault {
    ghost from_gives = { λ refused fault. fault ≡ fault_of refused };

    fn from(refused: StreamRefused) -> ReadFault {
        match refused {
            StreamRefused::Split => ReadFault::Refused(Refusal::Split),
            StreamRefused::Unit { index, refused } => {
                ReadFault::Refused(Refusal::Unit { index, refused })
            }
            StreamRefused::Memory => ReadFault::Memory,
        }
    }
}

/// The access units of a text, where there is room for so many. Memory is the answer only for a
/// text of NAL units. No byte is copied: the units share the text. They are read in several
/// threads, and in this one where none can be started.
pub fn read_units(
    threads: &(impl Threads + Sync),
    alloc: Global,
    text: &Bytes,
    limit: usize,
) -> Result<Vec<Unit>, ReadFault>
    ensures read { IsReadAs text.now limit result }
    // A stream for which there is room is refused only when memory runs out.
    ensures only { (parts : List (List (List ℕ))) → IsStream text.now parts
        → IfOk result (λ units. units.items ≡ parts)
        × (length parts ≤ limit → IsOkUnless result ReadFault.Memory) }
{
    match read_shared_stream(threads, alloc, text) {
        Ok(units) if units.len() <= limit => Ok(units),
        Ok(_) => Err(ReadFault::Refused(Refusal::StreamFull)),
        Err(refused) => Err(ReadFault::from(refused)),
    }
}
