//! A stream read access unit by access unit.

ghost use Rattle.std.specs.Prelude.{◌≡◌, ◌⊎◌, ℕ, List, All, IfErr, IfOk, length};
ghost use Rattle.std.specs.List.{AllZip};
ghost use Rattle.annexb.specs.ByteStream.{HasUnits, joined};
ghost use Rattle.annexb.specs.AccessUnits.{parts_at};
ghost use Rattle.access_unit.specs.Answers.{IsReadAs as IsUnitReadAs, IsAccepted, IsRefused};
ghost use Rattle.access_unit.specs.Gathered.{HasUnitsAt};
ghost use Rattle.access_unit.specs.StreamUnits.{IsReadAs};
ghost use Rattle.access_unit.specs.Streams.{IsStreamReadAs};
ghost use Rattle.access_unit.specs.declared.refused.Refused.{Refused};

use crate::{ReadFault, Refusal, Refused, StreamRefused, Unit, gather, read_shared};
use annexb::{Nal, SplitFault, cut_units, join, split};
use bytes::Bytes;
use std::alloc::{AllocError, Global};
use std::ops::Range;

/// The access units of a text, where there is room for so many, read one after the other. Memory is
/// the answer only for a text of NAL units.
pub fn read_alone(alloc: Global, text: &[u8], limit: usize) -> Result<Vec<Unit>, ReadFault>
    ensures { IsReadAs text.now limit result }
{
    let nals = nals_of(alloc, text)?;
    match read_nals(alloc, &nals) {
        Ok(units) if units.len() <= limit => Ok(units),
        Ok(_) => Err(ReadFault::Refused(Refusal::StreamFull)),
        Err(refused) => Err(ReadFault::from(refused)),
    }
}

/// The NAL units of a text, or why there are none.
fn nals_of(alloc: Global, text: &[u8]) -> Result<Vec<Nal<'_>>, ReadFault>
    ensures ok { IfOk result (λ nals. HasUnits text.now nals.items) }
    ensures err { IfErr result (λ fault. (limit : ℕ) → IsReadAs text.now limit (Err fault)) }
{
    match split(alloc, text) {
        Ok(nals) => Ok(nals),
        Err(fault) => match fault {
            SplitFault::Memory => Err(ReadFault::Memory),
            _ => Err(ReadFault::Refused(Refusal::Split)),
        },
    }
}

/// What a text of these NAL units is read as.
fn read_nals(alloc: Global, nals: &[Nal<'_>]) -> Result<Vec<Unit>, StreamRefused>
    requires { (text : List ℕ) × HasUnits text nals.now }
    ensures { (text : List ℕ) → HasUnits text nals.now → IsStreamReadAs text result }
{
    let ranges = cut_units(alloc, nals)?;
    let answers = read_parts(alloc, nals, &ranges)?;
    gather(alloc, answers)
}

/// What the access units at the ranges are read as.
fn read_parts(
    alloc: Global,
    nals: &[Nal<'_>],
    ranges: &[Range<usize>],
) -> Result<Vec<Result<Unit, Refused>>, AllocError>
    requires { All (HasUnitsAt nals.now) ranges.now }
    ensures { IfOk result (λ answers. AllZip (λ part answer. IsUnitReadAs (joined part) answer)
        (parts_at nals.now ranges.now) answers.items) }
{
    let mut answers = Vec::with_capacity(alloc, ranges.len())?;
    for range in ranges {
        answers.push(read_part(alloc, &nals[range.start..range.end])?)?;
    }
    Ok(answers)
}

/// What the text of an access unit's NAL units is read as.
fn read_part(alloc: Global, nals: &[Nal<'_>]) -> Result<Result<Unit, Refused>, AllocError>
    ensures { IfOk result (IsUnitReadAs (joined nals.now)) }
{
    let text = Bytes::from_vec(join(alloc, nals)?)?;
    Ok(read_shared(alloc, &text))
}

/// A text is one access unit, or refused in one way.
pub fn one_answer()
    ensures accepted { (text : List ℕ) (units others : List (List ℕ))
        → IsAccepted text units → IsAccepted text others → units ≡ others }
    ensures not_refused { (text : List ℕ) (units : List (List ℕ)) (refused : Refused)
        → IsAccepted text units → ¬ IsRefused text refused }
    ensures refused { (text : List ℕ) (refused other : Refused)
        → IsRefused text refused → IsRefused text other → refused ≡ other }
{}
