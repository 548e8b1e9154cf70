//! The fields of parameter sets, whose faults are named.

ghost use Rattle.std.specs.Prelude.{◌≡◌, pos, [], Ok, IfOk, IfErr};
ghost use Rattle.expgolomb.specs.Grammar.{Unsigned, Signed, MoreData};
ghost use Rattle.expgolomb.specs.TableReading.{value_at};
ghost use Rattle.expgolomb.specs.Ranges.{any, at_most, between};
ghost use Rattle.expgolomb.specs.Payloads.{after_first};
ghost use Rattle.expgolomb.specs.Answer.{Reads, flag_value};

use crate::fault::SetFault;
use expgolomb::{Bits, se, ue};
use h264_types::base::AtMost;

/// A reader of a payload after its first byte, the unit's header.
pub fn after_header(payload: &[u8]) -> Result<Bits<'_>, SetFault>
    ensures found { IfOk result (λ bits. bits ≡ after_first payload.now) }
    ensures empty { IfErr result (λ fault. (fault ≡ SetFault.Cut)
        × ((after_first payload.now).rest ≡ [])) }
{
    let mut bits = Bits::new(payload);
    match bits.fixed(8) {
        Ok(_) => Ok(bits),
        Err(_) => Err(SetFault::Cut),
    }
}

/// Reads a signed number of at most 8 bits, se(v).
pub fn small(bits: &mut Bits<'_>, least: i8, most: i8, wrong: SetFault) -> Result<i8, SetFault>
    ensures { Reads (λ v. v) result bits.new
        (value_at Signed SetFault.Cut wrong (between least most wrong) bits.old) }
{
    let value = se(
        bits,
        i32::from(least),
        i32::from(most),
        SetFault::Cut,
        wrong,
    )?;
    Ok(value as i8)
}

/// Whether more_rbsp_data() holds.
pub fn more_data(bits: &Bits<'_>) -> bool
    ensures { value_at MoreData SetFault.Cut SetFault.Cut any bits.now
        ≡ Ok (flag_value result, bits.now) }
{
    bits.more_data()
}

/// Reads an unsigned number with a greatest value, ue(v).
pub fn bounded<const MOST: u8>(
    bits: &mut Bits<'_>,
    wrong: SetFault,
) -> Result<AtMost<MOST>, SetFault>
    ensures { Reads pos result bits.new (value_at Unsigned SetFault.Cut wrong
        (at_most MOST wrong) bits.old) }
{
    let value = ue(bits, u32::from(MOST), SetFault::Cut, wrong)?;
    Ok(AtMost::new(value as u8))
}
