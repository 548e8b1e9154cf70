//! What is told of a stream's units: which break each follows, and whether it is in doubt.

ghost use Rattle.std.specs.Prelude.{◌≡◌, ◌≤◌, length, map, IfOk};
ghost use Rattle.access_unit.specs.StreamUnits.{most_units};
ghost use Rattle.unit_outcomes.specs.InDoubt.{AreDoubts};
ghost use Rattle.unit_outcomes.specs.References.{is_of_reference};
ghost use Rattle.unit_printing.specs.Seen.{ids_from, stream_seen};

use access_unit::Unit;
use h264_types::pictures::AuId;
use std::alloc::{AllocError, Global};
use unit_outcomes::Outcome;
use unit_outcomes::doubts::{Doubt, doubts};

/// Which break each unit follows, and whether it is in doubt, of a stream with these outcomes, whose
/// ids are 1, 2, 3 and so on.
pub fn doubts_of_units(
    alloc: Global,
    units: &[Unit],
    outcomes: &[Outcome],
) -> Result<Vec<Doubt>, AllocError>
    requires few { length units.now ≤ most_units }
    requires outcomes { length outcomes.now ≡ length units.now }
    ensures { IfOk result (λ doubts.
        AreDoubts (stream_seen units.now outcomes.now) 0 (length units.now) doubts.items) }
{
    let ids = ids(alloc, units)?;
    let references = references(alloc, units)?;
    doubts(alloc, &ids, &references, outcomes, 0, units.len())
}

/// The ids of the units.
fn ids(alloc: Global, units: &[Unit]) -> Result<Vec<AuId>, AllocError>
    requires { length units.now ≤ most_units }
    ensures { IfOk result (λ ids. ids.items ≡ ids_from 1 (length units.now)) }
{
    let mut ids = Vec::with_capacity(alloc, units.len())?;
    for place in 0..units.len() {
        ids.push(AuId::new(place as u32 + 1))?;
    }
    Ok(ids)
}

/// Whether nal_ref_idc isn't 0 in the first slice of each unit.
fn references(alloc: Global, units: &[Unit]) -> Result<Vec<bool>, AllocError>
    ensures { IfOk result (λ references. references.items ≡ map is_of_reference units.now) }
{
    let mut references = Vec::with_capacity(alloc, units.len())?;
    for unit in units {
        references.push(is_of_reference(unit))?;
    }
    Ok(references)
}

/// Whether the unit has a slice, and nal_ref_idc of the first isn't 0.
fn is_of_reference(unit: &Unit) -> bool
    ensures { result ≡ is_of_reference unit.now }
{
    match unit.slices() {
        [first, ..] => first.nal().nal_ref_idc() != 0,
        [] => false,
    }
}
