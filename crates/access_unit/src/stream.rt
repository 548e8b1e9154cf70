//! Streams of access units (7.4.1.2.3).
ghost use Rattle.std.specs.Prelude.{◌≡◌, ℕ, List, All, length, nat_lt, slice_range, IfOk, IsErrOf, IsOkUnless, IsTrue};
ghost use Rattle.std.specs.List.{AllZip, list_any};
ghost use Rattle.annexb.specs.ByteStream.{HasUnits, joined};
ghost use Rattle.annexb.specs.AccessUnits.{parts_at};
ghost use Rattle.access_unit.specs.Refusals.{most_bytes};
ghost use Rattle.access_unit.specs.Answers.{IsReadAs};
ghost use Rattle.access_unit.specs.Streams.{HasAccessUnits, AreAccepted, IsStreamReadAs, number_of};
ghost use Rattle.access_unit.specs.Gathered.{HasUnitsAt, IsGathered, wants_memory};
ghost use Rattle.access_unit.specs.declared.stream.StreamRefused.TheVariants.{Memory};

use crate::cuts::{START_CODE_LEN, cut_all};
use crate::joining::joined_text;
use crate::refused::Refused;
use crate::shared_nal::SharedNal;
use crate::unit::{MOST_BYTES, Unit, split_units, unit_with};
use annexb::{Nal, cut_units};
use bytes::Bytes;
use rayon::prelude::*;
use std::alloc::{AllocError, AllocFailed, Global};
use std::ops::Range;
use std::thread::Threads;
use thiserror::Error;

/// Why a text is not read as a stream of access units.
#[derive(Clone, Copy, Debug, PartialEq, Eq, Hash, Error)]
pub enum StreamRefused {
    /// The text doesn't split into NAL units.
    #[error("the text doesn't split into units")]
    Split,
    /// The access unit at this index, from 0, is the first that is refused.
    #[error("unit {index}: {refused}")]
    Unit { index: usize, refused: Refused },
    /// A growth was refused.
    #[error("out of memory")]
    Memory,
}

impl StreamRefused {
    /// The refusal's number, from 1 in the order above.
    pub fn number(self) -> u8
        ensures { result ≡ number_of self }
    {
        match self {
            StreamRefused::Split => 1,
            StreamRefused::Unit { .. } => 2,
            StreamRefused::Memory => 3,
        }
    }
}

impl From<AllocError> for StreamRefused {
    ghost from_gives = { λ _ e. e ≡ Memory };

    fn from(_e: AllocError) -> StreamRefused {
        StreamRefused::Memory
    }
}

impl<T: Drop> From<AllocFailed<T>> for StreamRefused {
    ghost from_gives = { λ _ e. e ≡ Memory };

    fn from(_e: AllocFailed<T>) -> StreamRefused {
        StreamRefused::Memory
    }
}

/// The access units of a text, or the text's refusal. Memory is the answer only for a text of NAL
/// units. The text is copied once, and the units share the copy. They are read in several threads,
/// and in this one where none can be started.
pub fn read_stream(
    rt: &(impl Threads + Sync),
    alloc: Global,
    text: &[u8],
) -> Result<Vec<Unit>, StreamRefused>
    ensures read { IsStreamReadAs text.now result }
    // A stream of access units is refused only when memory runs out.
    ensures only { (parts : List (List (List ℕ))) → HasAccessUnits text.now parts
        → AreAccepted parts → IfOk result (λ units. units.items ≡ parts)
        × IsOkUnless result StreamRefused.Memory }
    ensures memory { IsErrOf result StreamRefused.Memory
        → (units : List (List ℕ)) × HasUnits text.now units }
{
    let Some(nals) = split_units(alloc, text)? else {
        return Err(StreamRefused::Split);
    };
    let shared = Bytes::copy_from_slice(alloc, text)?;
    read_nals(rt, alloc, shared, nals.as_slice())
}

/// What `read_stream` answers for the text. No byte is copied: the units share the text.
pub fn read_shared_stream(
    rt: &(impl Threads + Sync),
    alloc: Global,
    text: &Bytes,
) -> Result<Vec<Unit>, StreamRefused>
    ensures read { IsStreamReadAs text.now result }
    // A stream of access units is refused only when memory runs out.
    ensures only { (parts : List (List (List ℕ))) → HasAccessUnits text.now parts
        → AreAccepted parts → IfOk result (λ units. units.items ≡ parts)
        × IsOkUnless result StreamRefused.Memory }
    ensures memory { IsErrOf result StreamRefused.Memory
        → (units : List (List ℕ)) × HasUnits text.now units }
{
    let Some(nals) = split_units(alloc, text.as_slice())? else {
        return Err(StreamRefused::Split);
    };
    read_nals(rt, alloc, text.clone()?, nals.as_slice())
}

/// What a text of these NAL units is read as. The access units share it.
fn read_nals(
    rt: &(impl Threads + Sync),
    alloc: Global,
    text: Bytes,
    nals: &[Nal<'_>],
) -> Result<Vec<Unit>, StreamRefused>
    requires { HasUnits text nals.now }
    ensures { IsStreamReadAs text result }
{
    let (shared, ends) = cut_all(alloc, text.clone()?, nals)?;
    let ranges = cut_units(alloc, nals)?;
    let answers = read_parts(
        rt,
        alloc,
        &text,
        &ends,
        shared.as_slice(),
        ranges.as_slice(),
    )?;
    gather(alloc, answers)
}

/// What the access units at the ranges are read as, in several threads. The NAL units end at these
/// places of the text.
fn read_parts(
    rt: &(impl Threads + Sync),
    alloc: Global,
    text: &Bytes,
    ends: &[usize],
    nals: &[SharedNal],
    ranges: &[Range<usize>],
) -> Result<Vec<Result<Unit, Refused>>, AllocError>
    requires { All (HasUnitsAt nals.now) ranges.now }
    ensures { IfOk result (λ answers. AllZip (λ part answer. IsReadAs (joined part) answer)
        (parts_at nals.now ranges.now) answers.items) }
{
    ranges
        .par_iter()
        .with_min_len(1)
        .map(
            |range: &Range<usize>| -> Result<Unit, Refused>
                requires { HasUnitsAt nals.now range.now }
                ensures { IsReadAs
                    (joined (slice_range nals.entry.now range.now.start range.now.end)) result }
            {
                let end = ends[..range.end.min(ends.len())].last();
                read_part(alloc, text, end, &nals[range.start..range.end])
            },
        )
        .collect(rt, alloc)
}

/// What a stream is read as, by what each of its access units is read as, in order: all units; that
/// memory ran out, where it is for any of them; or else the first refusal. `read_stream` reads the
/// access units in threads and ends by this.
pub fn gather(
    alloc: Global,
    answers: Vec<Result<Unit, Refused>>,
) -> Result<Vec<Unit>, StreamRefused>
    ensures answer { IsGathered answers.items result }
    ensures memory { IsTrue (list_any wants_memory answers.items)
        → IsErrOf result StreamRefused.Memory }
{
    if wants_memory(&answers) {
        return Err(StreamRefused::Memory);
    }
    let mut units = Vec::with_capacity(alloc, answers.len())?;
    for answer in answers {
        match answer {
            Ok(unit) => units.push(unit)?,
            Err(refused) => {
                let index = units.len();
                return Err(StreamRefused::Unit { index, refused });
            }
        }
    }
    Ok(units)
}

/// Whether memory runs out for one of the access units.
fn wants_memory(answers: &[Result<Unit, Refused>]) -> bool
    ensures { result ≡ list_any wants_memory answers.now }
{
    answers
        .iter()
        .any(|answer| matches!(answer, Err(Refused::Memory)))
}

/// What the text of an access unit's NAL units is read as, whose bytes are those of the text in
/// front of this place, if they stand joined there.
fn read_part(
    alloc: Global,
    text: &Bytes,
    end: Option<&usize>,
    nals: &[SharedNal],
) -> Result<Unit, Refused>
    requires { HasUnits (joined nals.now) nals.now }
    ensures { IsReadAs (joined nals.now) result }
{
    if is_too_long(nals) {
        Err(Refused::TooLarge)
    } else {
        let text = joined_text(text, end, nals)?;
        unit_with(alloc, nals, text)
    }
}

/// Whether the NAL units, joined, are longer than the text of an access unit may be.
fn is_too_long(nals: &[SharedNal]) -> bool
    ensures { result ≡ nat_lt most_bytes (length (joined nals.now)) }
{
    let mut left = MOST_BYTES;
    for nal in nals {
        match left.checked_sub(START_CODE_LEN + nal.nal().bytes().len()) {
            Some(rest) => left = rest,
            None => return true,
        }
    }
    false
}
