//! The places of the tables: a parameter set, with the controls that it decides.

ghost use Rattle.std.specs.Prelude.{◌≡◌, ◌↔◌, IfOk, IfSome, IsTrue};
ghost use Rattle.param_set_controls.specs.SpsControl.{sps_control};

use crate::sets::Sets;
use h264_types::base::Shared;
use h264_types::param_sets::{Pps, Sps};
use param_set_controls::V4l2CtrlH264Sps;
use std::alloc::{AllocError, Global};
use std::marker::Model;

/// A parameter set in its place.
pub(crate) trait SetEntry {
    /// Whether both places have the same set.
    fn is_same(&self, other: &Self) -> bool
        ensures { IsTrue result ↔ (self.now ≡ other.now) };
}

/// A sequence parameter set with its control.
#[derive(Debug)]
pub(crate) struct SpsEntry {
    set: Shared<Sps>,
    control: Shared<V4l2CtrlH264Sps>,
}

// By hand, so that whoever drops one is proved over one call.
impl Drop for SpsEntry {
    fn drop(self) {
        let SpsEntry { set: _, control: _ } = self;
    }
}

impl Model for SpsEntry {
    ghost use Rattle.std.specs.Prelude.{◌≡◌};
    ghost use Rattle.h264_types.specs.declared.param_sets.sps.Sps.{Sps as SpsValue};
    ghost use Rattle.param_set_controls.specs.SpsControl.{sps_control};

    ghost Value = { SpsValue };

    ghost view = { λ entry. entry.set };

    ghost invariant = { λ entry. entry.control ≡ sps_control entry.set };
}

impl SpsEntry {
    /// The set, and its control.
    pub(crate) fn new(alloc: Global, set: &Shared<Sps>) -> Result<SpsEntry, AllocError>
        ensures { IfOk result (λ entry. entry ≡ set.now) }
    {
        Ok(SpsEntry {
            set: set.clone()?,
            control: Shared::new(alloc, V4l2CtrlH264Sps::of(set))?,
        })
    }

    /// The set.
    pub(crate) fn set(&self) -> &Shared<Sps>
        ensures { result.now ≡ self.now }
    {
        &self.set
    }

    /// Its control.
    pub(crate) fn control(&self) -> &Shared<V4l2CtrlH264Sps>
        ensures { result.now ≡ sps_control self.now }
    {
        &self.control
    }
}

impl SetEntry for SpsEntry {
    fn is_same(&self, other: &SpsEntry) -> bool {
        self.set.is_same(&other.set)
    }
}

/// A picture parameter set, with the sets and controls that it was paired to when it came. No
/// outcome depends on those.
#[derive(Debug)]
pub(crate) struct PpsEntry {
    set: Shared<Pps>,
    sets: Option<Sets>,
}

// By hand, so that whoever drops one is proved over one call.
impl Drop for PpsEntry {
    fn drop(self) {
        let PpsEntry { set: _, sets: _ } = self;
    }
}

impl Model for PpsEntry {
    ghost use Rattle.std.specs.Prelude.{◌≡◌, IfSome};
    ghost use Rattle.h264_types.specs.declared.param_sets.pps.Pps.{Pps as PpsValue};

    ghost Value = { PpsValue };

    ghost view = { λ entry. entry.set };

    ghost invariant = { λ entry. IfSome entry.sets (λ sets. sets.pps ≡ entry.set) };
}

impl PpsEntry {
    /// The set by itself.
    pub(crate) fn new(set: &Shared<Pps>) -> Result<PpsEntry, AllocError>
        ensures { IfOk result (λ entry. entry ≡ set.now) }
    {
        Ok(PpsEntry {
            set: set.clone()?,
            sets: None,
        })
    }

    /// The set, paired to that sequence parameter set.
    pub(crate) fn paired(
        alloc: Global,
        set: &Shared<Pps>,
        sps: &SpsEntry,
    ) -> Result<PpsEntry, AllocError>
        ensures { IfOk result (λ entry. entry ≡ set.now) }
    {
        Ok(PpsEntry {
            set: set.clone()?,
            sets: Some(Sets::new(alloc, sps, set)?),
        })
    }

    /// The set.
    pub(crate) fn set(&self) -> &Shared<Pps>
        ensures { result.now ≡ self.now }
    {
        &self.set
    }

    /// The sets that it was paired to, of which the picture parameter set is its own.
    pub(crate) fn sets(&self) -> &Option<Sets>
        ensures { IfSome result.now (λ sets. sets.pps ≡ self.now) }
    {
        &self.sets
    }
}

impl SetEntry for PpsEntry {
    fn is_same(&self, other: &PpsEntry) -> bool {
        self.set.is_same(&other.set)
    }
}
