//! The fields of a slice header, one at a time: those of syntax tables, with the faults of slice
//! headers.

ghost use Rattle.std.specs.Prelude.{◌≡◌, ◌<◌, ◌≤◌, ◌+◌, ◌^◌, pos, IfOk, IsTrue, int_le, ◌&&◌, MatchResult, []};
ghost use Rattle.expgolomb.specs.Grammar.{Fixed, Unsigned, Signed};
ghost use Rattle.expgolomb.specs.TableReading.{value_at};
ghost use Rattle.expgolomb.specs.Ranges.{any, at_most, between};
ghost use Rattle.expgolomb.specs.Answer.{Reads, flag_value};
ghost use Rattle.expgolomb.specs.Payloads.{after_first};

use crate::fault::HeaderFault;
use expgolomb::Bits;

/// The bits of a payload after its first byte.
pub fn after_first(payload: &[u8]) -> Result<Bits<'_>, HeaderFault>
    ensures { MatchResult result (λ bits. bits
        ≡ after_first payload.now) (λ e. (e ≡ HeaderFault.Cut) × (payload.now ≡ [])) }
{
    let mut bits = Bits::new(payload);
    let _nal_unit_header = bits.fixed(8)?;
    Ok(bits)
}

/// Reads a flag, u(1).
pub fn flag(bits: &mut Bits<'_>) -> Result<bool, HeaderFault>
    ensures exact { Reads flag_value result bits.new
        (value_at (Fixed 1) HeaderFault.Cut HeaderFault.Cut any bits.old) }
    ensures near { bits.new.before ≤ bits.old.before + 63 }
{
    expgolomb::flag(bits, HeaderFault::Cut)
}

/// Reads a number of n bits, u(n).
pub fn fixed(bits: &mut Bits<'_>, n: u8) -> Result<u32, HeaderFault>
    requires some { 1 ≤ n }
    requires few { n ≤ 32 }
    ensures exact { Reads pos result bits.new (value_at
        (Fixed n) HeaderFault.Cut HeaderFault.Cut any bits.old) }
    ensures below { IfOk result (λ v. v < 2 ^ n) }
    ensures near { bits.new.before ≤ bits.old.before + 63 }
{
    expgolomb::fixed(bits, n, HeaderFault::Cut)
}

/// Reads an unsigned number, ue(v).
pub fn ue_any(bits: &mut Bits<'_>) -> Result<u32, HeaderFault>
    ensures exact { Reads pos result bits.new
        (value_at Unsigned HeaderFault.Cut HeaderFault.Value any bits.old) }
    ensures near { bits.new.before ≤ bits.old.before + 63 }
{
    expgolomb::ue_any(bits, HeaderFault::Cut, HeaderFault::Value)
}

/// Reads an unsigned number of at most this much, ue(v).
pub fn ue(bits: &mut Bits<'_>, most: u32) -> Result<u32, HeaderFault>
    ensures exact { Reads pos result bits.new (value_at Unsigned HeaderFault.Cut HeaderFault.Value
        (at_most most HeaderFault.Value) bits.old) }
    ensures bound { IfOk result (λ v. v ≤ most) }
    ensures near { bits.new.before ≤ bits.old.before + 63 }
{
    expgolomb::ue(bits, most, HeaderFault::Cut, HeaderFault::Value)
}

/// Reads a signed number, se(v).
pub fn se_any(bits: &mut Bits<'_>) -> Result<i32, HeaderFault>
    ensures exact { Reads (λ v. v) result bits.new
        (value_at Signed HeaderFault.Cut HeaderFault.Value any bits.old) }
    ensures near { bits.new.before ≤ bits.old.before + 63 }
{
    expgolomb::se_any(bits, HeaderFault::Cut, HeaderFault::Value)
}

/// Reads a signed number from the least to the most, se(v).
pub fn se(bits: &mut Bits<'_>, least: i32, most: i32) -> Result<i32, HeaderFault>
    ensures exact { Reads (λ v. v) result bits.new
        (value_at Signed HeaderFault.Cut HeaderFault.Value (between least most HeaderFault.Value)
        bits.old) }
    ensures bounds { IfOk result (λ v. IsTrue (int_le least v && int_le v most)) }
    ensures near { bits.new.before ≤ bits.old.before + 63 }
{
    expgolomb::se(bits, least, most, HeaderFault::Cut, HeaderFault::Value)
}
