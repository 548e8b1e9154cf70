//! The fields of a syntax table, one at a time.

ghost use Rattle.std.specs.Prelude.{◌≡◌, ◌<◌, ◌≤◌, ◌^◌, pos, Err, IfOk, IsTrue, int_le, ◌&&◌, ◌+◌};
ghost use Rattle.expgolomb.specs.Grammar.{Fixed, Unsigned, Signed};
ghost use Rattle.expgolomb.specs.TableReading.{value_at, checked};
ghost use Rattle.expgolomb.specs.Ranges.{any, at_most, between};
ghost use Rattle.expgolomb.specs.Answer.{Reads, flag_value};

use crate::{Bits, CodeFault};

/// Reads a flag, u(1).
pub fn flag<E: Drop>(bits: &mut Bits<'_>, cut: E) -> Result<bool, E>
    ensures exact { Reads flag_value result bits.new (value_at (Fixed 1) cut cut any bits.old) }
    ensures near { bits.new.before ≤ bits.old.before + 63 }
{
    match bits.bit() {
        Ok(bit) => Ok(bit),
        Err(_) => Err(cut),
    }
}

/// Reads a number of n bits, u(n).
pub fn fixed<E: Drop>(bits: &mut Bits<'_>, n: u8, cut: E) -> Result<u32, E>
    requires some { 1 ≤ n }
    requires few { n ≤ 32 }
    ensures exact { Reads pos result bits.new (value_at (Fixed n) cut cut any bits.old) }
    ensures below { IfOk result (λ v. v < 2 ^ n) }
    ensures near { bits.new.before ≤ bits.old.before + 63 }
{
    match bits.fixed(n) {
        Ok(v) => Ok(v),
        Err(_) => Err(cut),
    }
}

/// Reads an unsigned number of at most this much, ue(v).
pub fn ue<E: Drop>(bits: &mut Bits<'_>, most: u32, cut: E, wrong: E) -> Result<u32, E>
    ensures exact { Reads pos result bits.new (value_at Unsigned cut wrong
        (at_most most wrong) bits.old) }
    ensures bound { IfOk result (λ v. v ≤ most) }
    ensures near { bits.new.before ≤ bits.old.before + 63 }
{
    match bits.ue() {
        Ok(v) if v <= most => Ok(v),
        Ok(_) => Err(wrong),
        Err(fault) => Err(which(fault, cut, wrong)),
    }
}

/// Reads a signed number from the least to the most, se(v).
pub fn se<E: Drop>(bits: &mut Bits<'_>, least: i32, most: i32, cut: E, wrong: E) -> Result<i32, E>
    ensures exact { Reads (λ v. v) result bits.new
        (value_at Signed cut wrong (between least most wrong) bits.old) }
    ensures bounds { IfOk result (λ v. IsTrue (int_le least v && int_le v most)) }
    ensures near { bits.new.before ≤ bits.old.before + 63 }
{
    match bits.se() {
        Ok(v) if is_within(v, least, most) => Ok(v),
        Ok(_) => Err(wrong),
        Err(fault) => Err(which(fault, cut, wrong)),
    }
}

/// Reads a signed number, se(v).
pub fn se_any<E: Drop>(bits: &mut Bits<'_>, cut: E, wrong: E) -> Result<i32, E>
    ensures exact { Reads (λ v. v) result bits.new (value_at Signed cut wrong any bits.old) }
    ensures near { bits.new.before ≤ bits.old.before + 63 }
{
    match bits.se() {
        Ok(v) => Ok(v),
        Err(fault) => Err(which(fault, cut, wrong)),
    }
}

/// Reads an unsigned number, ue(v).
pub fn ue_any<E: Drop>(bits: &mut Bits<'_>, cut: E, wrong: E) -> Result<u32, E>
    ensures exact { Reads pos result bits.new (value_at Unsigned cut wrong any bits.old) }
    ensures near { bits.new.before ≤ bits.old.before + 63 }
{
    match bits.ue() {
        Ok(v) => Ok(v),
        Err(fault) => Err(which(fault, cut, wrong)),
    }
}

/// Reads a number of n bits of at most this much, u(n).
pub fn fixed_at_most<E: Drop>(
    bits: &mut Bits<'_>,
    n: u8,
    most: u32,
    cut: E,
    wrong: E,
) -> Result<u32, E>
    requires some { 1 ≤ n }
    requires few { n ≤ 32 }
    ensures exact { Reads pos result bits.new (value_at (Fixed n) cut cut
        (at_most most wrong) bits.old) }
    ensures bound { IfOk result (λ v. v ≤ most) }
    ensures near { bits.new.before ≤ bits.old.before + 63 }
{
    match bits.fixed(n) {
        Ok(v) if v <= most => Ok(v),
        Ok(_) => Err(wrong),
        Err(_) => Err(cut),
    }
}

// The refusal of a code that isn't there: a code with too many zeros is a value out of range.
fn which<E: Drop>(fault: CodeFault, cut: E, wrong: E) -> E
    ensures { Err result ≡ checked cut wrong any (Err fault) }
{
    match fault {
        CodeFault::Cut => cut,
        CodeFault::TooLong => wrong,
    }
}

fn is_within(v: i32, least: i32, most: i32) -> bool
    ensures { result ≡ (int_le least v && int_le v most) }
{
    v >= least && v <= most
}
