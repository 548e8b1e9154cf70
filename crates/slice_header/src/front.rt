//! The front of a slice header, which is read without parameter sets.

ghost use Rattle.std.specs.Prelude.{◌≡◌, ◌≤◌, ◌+◌, ◌∷◌, ℕ, List, Some, Ok, IfErr, IfOk, IfSome};
ghost use Rattle.std.specs.Result.{result_ok};
ghost use Rattle.expgolomb.specs.Ranges.{any, at_most};
ghost use Rattle.expgolomb.specs.Answer.{Reads};
ghost use Rattle.expgolomb.specs.Payloads.{after_first};
ghost use Rattle.slice_header.specs.FrontSyntax.{front_table, type_table};
ghost use Rattle.h264_types.specs.SliceTypes.{slice_type_of};
ghost use Rattle.slice_header.specs.Fronts.{FrontHasFault, IsFront, front_at, slice_type_at, read_value, type_of};
ghost use Rattle.expgolomb.specs.Structures.{table_at};

use crate::fault::HeaderFault;
use crate::fields::{after_first, ue, ue_any};
use crate::starts::Start;
use annexb::{Nal, payload_front};
use expgolomb::Bits;
use h264_types::slice_headers::SliceType;

/// The first fields of a slice header (7.3.3).
#[derive(Clone, Copy, Debug, PartialEq, Eq)]
pub struct HeaderFront {
    pub first_mb_in_slice: u32,
    pub slice_type: SliceType,
    pub pic_parameter_set_id: u8,
}

// As many bytes as the header of a unit and two codes of at most 63 bits take.
const TYPE_LEN: usize = 17;

/// Reads the first fields of a slice header, whatever follows, and without testing that
/// first_mb_in_slice lies in the picture.
pub fn peek(nal: &Nal<'_>) -> Result<HeaderFront, HeaderFault>
    ensures exact { result ≡ front_at nal.now }
    // What is read is what the unit has, and a refusal is that of the first field that shows one.
    ensures found { IfOk result (λ front. IsFront nal.now front) }
    ensures shown { IfErr result (λ fault. FrontHasFault nal.now fault) }
{
    peek_start(&Start::of(nal))
}

/// Reads them from the start of the unit, as `peek` does.
pub fn peek_start(start: &Start<'_>) -> Result<HeaderFront, HeaderFault>
    ensures { result ≡ front_at start.now }
{
    match told_front(start.nal().bytes()) {
        Some(front) => Ok(front),
        None => read_front(start),
    }
}

// The first fields, where the byte after the unit's first tells them, as it mostly does.
#[inline]
fn told_front(unit: &[u8]) -> Option<HeaderFront>
    ensures { IfSome result (λ told. front_at unit.now ≡ Ok told) }
{
    match unit {
        [_, byte, ..] => front_in(*byte),
        _ => None,
    }
}

// The fields where the byte has their codes: macroblock 0, the type, and parameter set 0.
#[inline]
fn front_in(byte: u8) -> Option<HeaderFront>
    ensures { IfSome result (λ told. (header : ℕ) (more : List ℕ)
        → front_at (header ∷ byte ∷ more) ≡ Ok told) }
{
    match type_between_zeros(byte) {
        Some(slice_type) => Some(HeaderFront {
            first_mb_in_slice: 0,
            slice_type,
            pic_parameter_set_id: 0,
        }),
        None => None,
    }
}

// The type where a 1 stands before its code and after it, each of them the code of 0.
#[inline]
fn type_between_zeros(byte: u8) -> Option<SliceType>
    ensures { IfSome result (λ told. (header : ℕ) (more : List ℕ)
        → front_at (header ∷ byte ∷ more) ≡ Ok (record {
          first_mb_in_slice = 0;
          slice_type = told;
          pic_parameter_set_id = 0;
        })) }
{
    if byte >= 0b1110_0000 {
        Some(SliceType::P)
    } else if byte / 8 == 0b10111 {
        Some(SliceType::I)
    } else if byte / 8 == 0b10101 {
        Some(SliceType::B)
    } else if byte / 2 == 0b100_1111 {
        Some(SliceType::B)
    } else if byte / 2 == 0b100_1101 {
        Some(SliceType::P)
    } else {
        None
    }
}

// The first fields as they are read.
fn read_front(start: &Start<'_>) -> Result<HeaderFront, HeaderFault>
    ensures { result ≡ front_at start.now }
{
    front_of(start.bytes())
}

/// The type of a slice whose first_mb_in_slice and slice_type can be read, whatever follows.
pub fn slice_type(nal: &Nal<'_>) -> Option<SliceType>
    ensures { result ≡ slice_type_at nal.now }
{
    match told_type(nal.bytes()) {
        Some(slice_type) => Some(slice_type),
        None => read_type(nal),
    }
}

// The type, where the byte after the unit's first tells it, as it mostly does.
#[inline]
fn told_type(unit: &[u8]) -> Option<SliceType>
    ensures { IfSome result (λ told. slice_type_at unit.now ≡ Some told) }
{
    match unit {
        [_, byte, ..] => type_in(*byte),
        _ => None,
    }
}

// The type of a slice that begins at macroblock 0, which is one bit, where the byte has its code.
#[inline]
fn type_in(byte: u8) -> Option<SliceType>
    ensures { IfSome result (λ told. (header : ℕ) (more : List ℕ)
        → slice_type_at (header ∷ byte ∷ more) ≡ Some told) }
{
    if byte >= 0b1100_0000 {
        Some(SliceType::P)
    } else if byte >= 0b1011_0000 {
        Some(SliceType::I)
    } else if byte >= 0b1001_1100 {
        Some(SliceType::B)
    } else if byte >= 0b1001_1000 {
        Some(SliceType::P)
    } else if byte == 0b1000_1000 {
        Some(SliceType::I)
    } else {
        None
    }
}

// The type as it is read.
fn read_type(nal: &Nal<'_>) -> Option<SliceType>
    ensures { result ≡ slice_type_at nal.now }
{
    let mut front = [0; TYPE_LEN];
    let len = payload_front(nal, &mut front);
    type_of(&front[..len]).ok()
}

// The first fields of a payload.
fn front_of(payload: &[u8]) -> Result<HeaderFront, HeaderFault>
    ensures { result ≡ read_value (table_at (front_table any) (after_first payload.now)) }
{
    any_front(&mut after_first(payload)?)
}

// The type that a payload begins with.
fn type_of(payload: &[u8]) -> Result<SliceType, HeaderFault>
    ensures { result_ok result ≡ type_of (table_at (type_table any) (after_first payload.now)) }
{
    any_type(&mut after_first(payload)?)
}

#[tactic(auto, unfolding(expgolomb::specs::Structures::table_at, expgolomb::specs::TableReading::rows_at))]
fn any_front(bits: &mut Bits<'_>) -> Result<HeaderFront, HeaderFault>
    ensures { Reads (λ front. front) result bits.new (table_at (front_table any) bits.old) }
{
    let first_mb_in_slice = ue_any(bits)?;
    let slice_type = slice_type_of(ue(bits, 9)?);
    let pic_parameter_set_id = ue(bits, 255)? as u8;
    Ok(HeaderFront {
        first_mb_in_slice,
        slice_type,
        pic_parameter_set_id,
    })
}

#[tactic(auto, unfolding(expgolomb::specs::Structures::table_at, expgolomb::specs::TableReading::rows_at))]
fn any_type(bits: &mut Bits<'_>) -> Result<SliceType, HeaderFault>
    ensures { result_ok result ≡ type_of (table_at (type_table any) bits.old) }
{
    let _first_mb_in_slice = ue_any(bits)?;
    let code = ue(bits, 9)?;
    Ok(slice_type_of(code))
}

/// Reads the first fields of a header, where first_mb_in_slice is at most this much.
#[tactic(auto, unfolding(expgolomb::specs::Structures::table_at, expgolomb::specs::TableReading::rows_at))]
pub fn header_front(bits: &mut Bits<'_>, most: u32) -> Result<HeaderFront, HeaderFault>
    ensures exact { Reads (λ front. front) result bits.new
        (table_at (front_table (at_most most HeaderFault.Value)) bits.old) }
    ensures near { bits.new.before ≤ bits.old.before + 189 }
{
    let first_mb_in_slice = ue(bits, most)?;
    let slice_type = slice_type_of(ue(bits, 9)?);
    let pic_parameter_set_id = ue(bits, 255)? as u8;
    Ok(HeaderFront {
        first_mb_in_slice,
        slice_type,
        pic_parameter_set_id,
    })
}

// The type of a code from 0 to 9.
fn slice_type_of(code: u32) -> SliceType
    ensures { result ≡ slice_type_of code }
{
    match code % 5 {
        0 => SliceType::P,
        1 => SliceType::B,
        2 => SliceType::I,
        3 => SliceType::Sp,
        _ => SliceType::Si,
    }
}
