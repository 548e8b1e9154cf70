//! One NAL unit, a view of its bytes (7.3.1, 7.4.1).
ghost use Rattle.std.specs.Prelude.{◌≡◌, ℕ, List};
ghost use Rattle.annexb.specs.NalUnit.{IsUnit, header_of, forbidden_zero_bit, nal_ref_idc, nal_unit_type, is_slice, begins_at_macroblock_zero};

use crate::headers;
use std::marker::Model;

/// The bytes of a NAL unit, header included and start code left out, where they lie in a text.
#[derive(Debug, Drop)]
pub struct Nal<'a> {
    unit: &'a [u8],
}

impl<'a> Model for Nal<'a> {
    ghost Value = { List ℕ };

    ghost view = { λ nal. nal.unit.now };

    ghost invariant = { λ nal. IsUnit nal.unit.now };
}

impl<'a> Nal<'a> {
    /// The unit of these bytes.
    pub fn new(bytes: &'a [u8]) -> Nal<'a>
        requires { IsUnit bytes.now }
        ensures { result ≡ bytes.now }
    {
        Nal { unit: bytes }
    }

    /// The bytes of the unit.
    pub fn bytes(&self) -> &'a [u8]
        ensures value { result.now ≡ self.now }
        ensures unit { IsUnit self.now }
    {
        self.unit
    }

    /// The first byte of the unit.
    fn header(&self) -> u8
        ensures { result ≡ header_of self.now }
    {
        self.bytes()[0]
    }

    /// Whether forbidden_zero_bit is 1, which marks a unit as damaged.
    pub fn forbidden_zero_bit(&self) -> bool
        ensures { result ≡ forbidden_zero_bit self.now }
    {
        self.header() >= 128
    }

    /// How the unit serves as a reference, from 0, not at all, to 3.
    pub fn nal_ref_idc(&self) -> u8
        ensures { result ≡ nal_ref_idc self.now }
    {
        self.header() / 32 % 4
    }

    /// What the unit contains, from 0 to 31 (table 7-1).
    pub fn nal_unit_type(&self) -> u8
        ensures { result ≡ nal_unit_type self.now }
    {
        headers::nal_unit_type(self.bytes())
    }

    /// Whether the unit is a coded slice without data partitioning: of type 1 or 5.
    pub fn is_slice(&self) -> bool
        ensures { result ≡ is_slice self.now }
    {
        headers::is_slice(self.bytes())
    }

    /// Whether the unit is a slice whose first_mb_in_slice is 0. A slice of one byte isn't.
    pub fn begins_at_macroblock_zero(&self) -> bool
        ensures { result ≡ begins_at_macroblock_zero self.now }
    {
        headers::begins_at_macroblock_zero(self.bytes())
    }
}
