//! The parameter sets that a slice names, with the controls that they decide, which slices and
//! pictures share.

ghost use Rattle.std.specs.Prelude.{◌≡◌, ◌↔◌, IfOk, IsTrue};
ghost use Rattle.param_set_controls.specs.SetControls.{set_controls};

use crate::entries::{PpsEntry, SpsEntry};
use h264_types::base::Shared;
use h264_types::param_sets::{Pps, Sps};
use param_set_controls::SetControls;
use std::alloc::{AllocError, Global};
use std::marker::Model;

/// The parameter sets that a slice names, with the controls that they decide.
#[derive(Debug)]
pub(crate) struct Sets {
    pub(crate) sps: Shared<Sps>,
    pps: Shared<Pps>,
    controls: Shared<SetControls>,
}

// By hand, so that whoever drops one is proved over one call.
impl Drop for Sets {
    fn drop(self) {
        let Sets {
            sps: _,
            pps: _,
            controls: _,
        } = self;
    }
}

impl Model for Sets {
    ghost use Rattle.std.specs.Prelude.{◌≡◌};
    ghost use Rattle.param_set_controls.specs.SetControls.{set_controls};
    ghost use Rattle.slice_reading.specs.Slices.{NamedSets};

    ghost Value = { NamedSets };

    ghost view = { λ sets. record { sps = sets.sps; pps = sets.pps } };

    ghost invariant = { λ sets. sets.controls ≡ set_controls sets.sps sets.pps };
}

impl Sets {
    /// The sets, with what they decide.
    pub(crate) fn new(alloc: Global, sps: &SpsEntry, pps: &Shared<Pps>) -> Result<Sets, AllocError>
        ensures { IfOk result (λ sets. sets ≡ record { sps = sps.now; pps = pps.now }) }
    {
        Ok(Sets {
            sps: sps.set().clone()?,
            pps: pps.clone()?,
            controls: Shared::new(alloc, SetControls::of(sps.control(), sps.set(), pps)?)?,
        })
    }

    /// The sets, with what they decide. It's shared with the place of the picture parameter set, or
    /// with the last sets that were used, where those are the same. The place has its own set,
    /// which isn't compared.
    pub(crate) fn of(
        alloc: Global,
        last: Option<&Sets>,
        sps: &SpsEntry,
        pps: &PpsEntry,
    ) -> Result<Sets, AllocError>
        ensures { IfOk result (λ sets. sets ≡ record { sps = sps.now; pps = pps.now }) }
    {
        match (pps.sets(), last) {
            (Some(sets), _) if sets.sps.is_same(sps.set()) => sets.copy(),
            (_, Some(last)) if last.are(sps, pps.set()) => last.copy(),
            _ => Sets::new(alloc, sps, pps.set()),
        }
    }

    /// Whether they are these two.
    pub(crate) fn are(&self, sps: &SpsEntry, pps: &Pps) -> bool
        ensures { IsTrue result ↔ (self.now ≡ record { sps = sps.now; pps = pps.now }) }
    {
        self.pps.is_same(pps) && self.sps.is_same(sps.set())
    }

    /// The same sets and controls.
    pub(crate) fn copy(&self) -> Result<Sets, AllocError>
        ensures { IfOk result (λ copy. copy ≡ self.now) }
    {
        Ok(Sets {
            sps: self.sps.clone()?,
            pps: self.pps.clone()?,
            controls: self.controls.clone()?,
        })
    }

    /// The controls that they decide.
    pub(crate) fn controls(&self) -> Result<Shared<SetControls>, AllocError>
        ensures { IfOk result (λ controls. controls ≡ set_controls self.now.sps self.now.pps) }
    {
        self.controls.clone()
    }
}
