//! The file of the units.

ghost use Rattle.std.specs.Prelude.{◌≡◌, ◌++◌, IfOk};
ghost use Rattle.std.specs.List.{flat_map};
ghost use Rattle.timed_calls.specs.Units.{framed};

use anyhow::{Result, bail};
use std::alloc::Global;

/// The texts of which the file is made, each after its length.
pub(crate) fn units_in(alloc: Global, file: &[u8]) -> Result<Vec<&[u8]>>
    ensures { IfOk result (λ units. flat_map (λ unit. framed unit.now) units.items ≡ file.now) }
{
    let mut units = Vec::new(alloc);
    let mut rest = file;
    // For proofs.
    'units: while !rest.is_empty() {
        let (unit, after) = split_unit(rest)?;
        units.push(unit)?;
        rest = after;
    }
    Ok(units)
}

/// The text at the front, after its length, and what follows.
fn split_unit(file: &[u8]) -> Result<(&[u8], &[u8])>
    ensures { IfOk result (λ parts. file.now ≡ framed parts.0.now ++ parts.1.now) }
{
    let Some((length, rest)) = file.split_first_chunk::<4>() else {
        bail!("the length of a unit is cut off");
    };
    match rest.split_at_checked(u32::from_le_bytes(*length) as usize) {
        Some(parts) => Ok(parts),
        None => bail!("the text of a unit is cut off"),
    }
}
