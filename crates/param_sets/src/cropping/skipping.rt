//! The place behind codes (7.2, 9.1).

ghost use Rattle.std.specs.Prelude.{◌≡◌};
ghost use Rattle.param_sets.specs.Skipping.{behind, behind_all, GoesBehind};

use crate::cropping::codes::Code;
use expgolomb::{Bits, CodeFault};

/// Skips the codes, if all of them are there.
pub(crate) fn skip_all(bits: &mut Bits<'_>, codes: &[Code]) -> Result<(), CodeFault>
    ensures { GoesBehind result bits.new (behind_all codes.now bits.old) }
{
    for code in codes {
        skip(bits, *code)?;
    }
    Ok(())
}

/// Skips a code, if it is there.
#[tactic(auto, unfolding(crate::specs::Skipping::behind))]
fn skip(bits: &mut Bits<'_>, code: Code) -> Result<(), CodeFault>
    ensures { GoesBehind result bits.new (behind code bits.old) }
{
    match code {
        Code::Beginning => {
            bits.fixed(32)?;
        }
        Code::Flag => {
            bits.fixed(1)?;
        }
        Code::Unsigned => {
            bits.ue()?;
        }
        Code::Signed => {
            bits.se()?;
        }
    }
    Ok(())
}
