//! What a NAL unit's first bytes say of it, read in any bytes (7.3.1, 7.4.1.2.3).
//!
//! The bytes may be a unit, or what stands after a start code, as far as it is there: where they
//! end before the byte that is asked for, it counts as 0.
ghost use Rattle.std.specs.Prelude.{◌≡◌};
ghost use Rattle.annexb.specs.NalUnit.{nal_unit_type, is_slice, begins_at_macroblock_zero};
ghost use Rattle.annexb.specs.AccessUnits.{precedes_slices, begins_access_unit};

/// The type of the NAL unit that the bytes begin with, from 0 to 31 (table 7-1).
pub fn nal_unit_type(bytes: &[u8]) -> u8
    ensures { result ≡ nal_unit_type bytes.now }
{
    match bytes {
        [header, ..] => *header % 32,
        [] => 0,
    }
}

/// Whether they begin with a coded slice without data partitioning: of type 1 or 5.
pub fn is_slice(bytes: &[u8]) -> bool
    ensures { result ≡ is_slice bytes.now }
{
    matches!(nal_unit_type(bytes), 1 | 5)
}

/// Whether they begin with a slice whose first_mb_in_slice is 0. A slice of one byte isn't.
pub fn begins_at_macroblock_zero(bytes: &[u8]) -> bool
    ensures { result ≡ begins_at_macroblock_zero bytes.now }
{
    is_slice(bytes) && bytes.len() > 1 && bytes[1] >= 128
}

/// Whether units of this type stand before the slices of their access unit.
pub fn precedes_slices(nal_unit_type: u8) -> bool
    ensures { result ≡ precedes_slices nal_unit_type }
{
    matches!(nal_unit_type, 6..=9 | 14..=18)
}

/// Whether they begin with a unit that belongs to the next access unit where a slice stands before
/// it.
pub fn begins_access_unit(bytes: &[u8]) -> bool
    ensures { result ≡ begins_access_unit bytes.now }
{
    precedes_slices(nal_unit_type(bytes)) || begins_at_macroblock_zero(bytes)
}
