//! The access unit that isn't at its end yet.

ghost use Rattle.std.specs.Prelude.{◌≡◌, ◌+◌, ◌++◌, ◌∷◌, [], ℕ, List, length, nat_lt, replicate, IfOk, OnOk, true, false};
ghost use Rattle.std.specs.List.{filter};
ghost use Rattle.annexb.specs.ByteStream.{joined};
ghost use Rattle.annexb.specs.NalUnit.{is_slice};
ghost use Rattle.access_unit.specs.Refusals.{most_bytes};
ghost use Rattle.stream_mending.specs.Segments.{Segment};
ghost use Rattle.stream_mending.specs.Faults.{is_sound};
ghost use Rattle.stream_mending.specs.Portions.{Portion, put, no_segment, with_segment, units_of, slices_of, joint_of, fits};
ghost use Rattle.stream_mending.specs.Mended.{first_place};
ghost use Rattle.stream_mending.specs.OpenPortions.{IsFirstOf, IsOpen};

use crate::joint::{FirstSlice, Joint, first_slice, joint_of};
use access_unit::MOST_BYTES;
use annexb::{START_CODE, is_slice};
use std::alloc::{AllocError, Global};

/// How many slices an access unit has at most.
const MOST_SLICES: usize = 256;

/// An access unit delimiter, for pictures of any slices (7.3.2.4), with its start code.
const DELIMITER: [u8; 5] = [0, 0, 1, 9, 0xF0];

/// An access unit as far as it was read, and the zeros around its NAL units.
#[derive(Drop)]
pub(crate) struct OpenPortion {
    /// What is written of it if it isn't too large.
    pub(crate) text: Vec<u8>,
    /// How many bytes of `text` are zeros after NAL units, which stay in any case.
    pub(crate) zeros: usize,
    /// How many are of NAL units that were given, with their start codes.
    pub(crate) bytes: usize,
    /// Where the first of these stands, or 0 before it.
    pub(crate) place: usize,
    slices: usize,
    first: Option<FirstSlice>,
    is_delimited: bool,
}

impl OpenPortion {
    /// Before the first NAL unit.
    pub(crate) fn new(alloc: Global) -> OpenPortion
        ensures { IsOpen no_segment result }
    {
        OpenPortion {
            text: Vec::new(alloc),
            zeros: 0,
            bytes: 0,
            place: 0,
            slices: 0,
            first: None,
            is_delimited: false,
        }
    }

    /// Begins anew, with a delimiter or without.
    pub(crate) fn begin(&mut self, is_delimited: bool) -> Result<(), AllocError>
        ensures { OnOk result
            (IsOpen (record { is_delimited = is_delimited; segments = [] }) self.new) }
    {
        self.text.clear();
        self.zeros = 0;
        self.bytes = 0;
        self.place = 0;
        self.slices = 0;
        self.first = None;
        self.is_delimited = is_delimited;
        if is_delimited {
            self.text.extend_from_slice(&DELIMITER)?;
        }
        Ok(())
    }

    /// How the NAL unit stands to it.
    pub(crate) fn joint(&self, unit: &[u8]) -> Joint
        ensures { (portion : Portion) → IsOpen portion self.now
            → result ≡ joint_of (slices_of portion) unit.now }
    {
        joint_of(self.first, unit)
    }

    /// Adds the zeros after a NAL unit that is left out.
    pub(crate) fn leave_out(&mut self, zeros: usize) -> Result<(), AllocError>
        ensures { (portion : Portion) (segment : Segment) → is_sound segment.unit ≡ false
            → segment.zeros ≡ zeros → IsOpen portion self.old
            → OnOk result (IsOpen (with_segment portion segment) self.new) }
    {
        self.add_zeros(zeros)?;
        Ok(())
    }

    /// Adds a NAL unit, whose start code is at this place, and the zeros after it.
    pub(crate) fn add(&mut self, place: usize, unit: &[u8], zeros: usize) -> Result<(), AllocError>
        requires { is_sound unit.now ≡ true }
        ensures { (portion : Portion) → IsOpen portion self.old
            → OnOk result (IsOpen (with_segment portion
            (record { place = place; unit = unit.now; zeros = zeros })) self.new) }
    {
        let bytes = sum(self.bytes, START_CODE.len() + unit.len())?;
        self.place = self.place_with(place);
        self.bytes = bytes;
        self.count(unit)?;
        self.text.extend_from_slice(&START_CODE)?;
        self.text.extend_from_slice(unit)?;
        self.add_zeros(zeros)?;
        Ok(())
    }

    /// Where the first NAL unit stands with one more, which stands at this place.
    fn place_with(&self, place: usize) -> usize
        ensures { (portion : Portion) (segment : Segment) → IsOpen portion self.now
            → is_sound segment.unit ≡ true → segment.place ≡ place
            → result ≡ first_place (portion.segments ++ segment ∷ []) }
    {
        if self.bytes == 0 {
            return place;
        }
        self.place
    }

    /// Counts a NAL unit as a slice, if it is one.
    fn count(&mut self, unit: &[u8]) -> Result<(), AllocError>
        ensures text { self.new.text ≡ self.old.text }
        ensures zeros { self.new.zeros ≡ self.old.zeros }
        ensures bytes { self.new.bytes ≡ self.old.bytes }
        ensures place { self.new.place ≡ self.old.place }
        ensures delimited { self.new.is_delimited ≡ self.old.is_delimited }
        ensures slices { (slices : List (List ℕ)) → self.old.slices ≡ length slices
            → OnOk result (self.new.slices ≡ length (slices ++ filter is_slice (unit.now ∷ []))) }
        ensures first { (slices : List (List ℕ)) → IsFirstOf slices self.old.first
            → OnOk result (IsFirstOf (slices ++ filter is_slice (unit.now ∷ [])) self.new.first) }
    {
        if is_slice(unit) {
            self.slices = sum(self.slices, 1)?;
            if self.first.is_none() {
                self.first = Some(first_slice(unit));
            }
        }
        Ok(())
    }

    /// Adds zeros that follow a NAL unit.
    fn add_zeros(&mut self, zeros: usize) -> Result<(), AllocError>
        ensures text { OnOk result
            (self.new.text.items ≡ self.old.text.items ++ replicate zeros 0) }
        ensures zeros { OnOk result (self.new.zeros ≡ self.old.zeros + zeros) }
        ensures rest { self.new ≡ record self.old { text = self.new.text; zeros = self.new.zeros } }
    {
        self.zeros = sum(self.zeros, zeros)?;
        push_zeros(&mut self.text, zeros)
    }

    /// How many bytes the NAL units that were given may have at most.
    fn most_bytes(&self) -> usize
        ensures { result + length (joined (put self.now.is_delimited)) ≡ most_bytes }
    {
        if self.is_delimited {
            MOST_BYTES - DELIMITER.len()
        } else {
            MOST_BYTES
        }
    }

    /// Whether it has a NAL unit, a delimiter that was put included.
    pub(crate) fn has_units(&self) -> bool
        ensures { (portion : Portion) → IsOpen portion self.now
            → result ≡ nat_lt 0 (length (units_of portion)) }
    {
        self.is_delimited || self.bytes > 0
    }

    /// Whether it isn't too large.
    pub(crate) fn fits(&self) -> bool
        ensures { (portion : Portion) → IsOpen portion self.now → result ≡ fits portion }
    {
        self.bytes <= self.most_bytes() && self.slices <= MOST_SLICES
    }
}

/// Adds so many zeros.
pub(crate) fn push_zeros(bytes: &mut Vec<u8>, zeros: usize) -> Result<(), AllocError>
    ensures { OnOk result (bytes.new.items ≡ bytes.old.items ++ replicate zeros 0) }
{
    let len = sum(bytes.len(), zeros)?;
    bytes.resize(len, 0)
}

/// The sum, which memory limits.
fn sum(first: usize, second: usize) -> Result<usize, AllocError>
    ensures { IfOk result (λ sum. sum ≡ first + second) }
{
    first.checked_add(second).ok_or(AllocError)
}
