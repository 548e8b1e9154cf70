//! The parameter sets of NAL units (7.3.2.1, 7.3.2.2).
ghost use Rattle.std.specs.Prelude.{◌≡◌, IfOk, IfErr, Some, None, Ok};
ghost use Rattle.access_unit.specs.Sets.{set_of, sps_of, pps_of};
ghost use Rattle.access_unit.specs.Refusals.{first_shown, read_rows, set_rows};
ghost use Rattle.access_unit.specs.Stored.{IsShown};

use crate::refused::Refused;
use annexb::{Nal, payload};
use h264_types::base::Shared;
use h264_types::param_sets::{Pps, Sps};
use param_sets::{SetFault, read_pps, read_sps};
use std::alloc::Global;

/// A parameter set of an access unit.
#[derive(Debug, Drop)]
pub enum ParameterSet {
    Sps(Shared<Sps>),
    Pps(Shared<Pps>),
}

/// The parameter set of the NAL unit, if it's one.
#[tactic(auto, unfolding(crate::specs::Refusals::set_rows))]
pub(crate) fn read_set(alloc: Global, nal: &Nal<'_>) -> Result<Option<ParameterSet>, Refused>
    ensures ok { IfOk result (λ set. (set ≡ set_of nal.now)
        × (first_shown (set_rows nal.now) ≡ None)) }
    ensures err { IfErr result (IsShown (first_shown (set_rows nal.now))) }
{
    match nal.nal_unit_type() {
        7 => Ok(Some(ParameterSet::Sps(sps_of(alloc, nal)?))),
        8 => Ok(Some(ParameterSet::Pps(pps_of(alloc, nal)?))),
        _ => Ok(None),
    }
}

/// The sequence parameter set of the NAL unit.
#[tactic(auto, unfolding(crate::specs::Sets::sps_of))]
fn sps_of(alloc: Global, nal: &Nal<'_>) -> Result<Shared<Sps>, Refused>
    ensures ok { IfOk result (λ sps. sps_of nal.now ≡ Ok sps) }
    ensures err { IfErr result (IsShown (first_shown (read_rows Refused.Sps (sps_of nal.now)))) }
{
    match read_sps(alloc, &payload(alloc, nal)?) {
        Ok(sps) => Ok(Shared::new(alloc, sps)?),
        Err(SetFault::Memory) => Err(Refused::Memory),
        Err(_) => Err(Refused::Sps),
    }
}

/// The picture parameter set of the NAL unit.
#[tactic(auto, unfolding(crate::specs::Sets::pps_of))]
fn pps_of(alloc: Global, nal: &Nal<'_>) -> Result<Shared<Pps>, Refused>
    ensures ok { IfOk result (λ pps. pps_of nal.now ≡ Ok pps) }
    ensures err { IfErr result (IsShown (first_shown (read_rows Refused.Pps (pps_of nal.now)))) }
{
    match read_pps(alloc, &payload(alloc, nal)?) {
        Ok(pps) => Ok(Shared::new(alloc, pps)?),
        Err(SetFault::Memory) => Err(Refused::Memory),
        Err(_) => Err(Refused::Pps),
    }
}
