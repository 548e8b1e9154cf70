//! The controls that the parameter sets alone decide.

ghost use Rattle.std.specs.Prelude.{◌≡◌, ◌↔◌, IfOk, IsTrue, ◌+◌, ◌≤◌, ◌++◌, vec_len, IsOk, OnOk, OnErr};
ghost use Rattle.param_set_controls.specs.SpsControl.{sps_control};
ghost use Rattle.param_set_controls.specs.SetControls.{set_controls};
ghost use Rattle.std.specs.Vec.{vec_capacity};
ghost use Rattle.param_set_controls.specs.SetsForm.{sets_form};

use crate::v4l2_ctrl_h264_pps::V4l2CtrlH264Pps;
use crate::v4l2_ctrl_h264_scaling_matrix::V4l2CtrlH264ScalingMatrix;
use crate::v4l2_ctrl_h264_sps::V4l2CtrlH264Sps;
use h264_types::base::Shared;
use h264_types::param_sets::{Pps, Sps};
use std::alloc::AllocError;

/// The controls of a picture parameter set, of the sequence parameter set that it stands on, and of
/// their scaling lists.
#[derive(Debug)]
pub struct SetControls {
    /// Shared by all picture parameter sets that stand on the set.
    pub sps: Shared<V4l2CtrlH264Sps>,
    pub pps: V4l2CtrlH264Pps,
    pub scaling_matrix: V4l2CtrlH264ScalingMatrix,
}

// By hand, so that whoever drops one is proved over one call.
impl Drop for SetControls {
    fn drop(self) {
        let SetControls {
            sps: _,
            pps: _,
            scaling_matrix: _,
        } = self;
    }
}

impl SetControls {
    /// The controls of these sets, of which that of the sequence parameter set is made already.
    pub fn of(
        control: &Shared<V4l2CtrlH264Sps>,
        sps: &Sps,
        pps: &Pps,
    ) -> Result<SetControls, AllocError>
        requires { control.now ≡ sps_control sps.now }
        ensures { IfOk result (λ controls. controls ≡ set_controls sps.now pps.now) }
    {
        Ok(SetControls {
            sps: control.clone()?,
            pps: V4l2CtrlH264Pps::of(sps, pps),
            scaling_matrix: V4l2CtrlH264ScalingMatrix::of(sps, pps),
        })
    }

    /// Whether all three are the same.
    pub fn is_same(&self, other: &SetControls) -> bool
        ensures { IsTrue result ↔ (self.now ≡ other.now) }
    {
        self.pps.is_same(&other.pps)
            && self.sps.is_same(&other.sps)
            && self.scaling_matrix.is_same(&other.scaling_matrix)
    }
}

/// Appends the first 1,540 bytes of the digest form: SPS, PPS and SCALING_MATRIX, which the
/// parameter sets decide.
///
/// With what h264_controls' `slice_form` appends after it, it is the digest form: slices over one
/// set have this part in common. Memory runs out only where the room isn't there.
pub fn sets_form(sets: &SetControls, form: &mut Vec<u8>) -> Result<(), AllocError>
    ensures written { OnOk result (form.new.items ≡ form.old.items ++ sets_form sets.now) }
    ensures size { OnOk result (vec_len form.new ≡ vec_len form.old + 1540) }
    ensures room { vec_len form.old + 1540 ≤ vec_capacity form.old → IsOk result }
    ensures unchanged { OnErr result (form.new.items ≡ form.old.items) }
{
    form.reserve(1540)?;
    put_sets(sets, form);
    Ok(())
}

/// Appends the same bytes to a form that has room for them, so that no memory is asked for.
#[tactic(auto, unfolding(crate::specs::SetsForm::sets_form))]
pub fn put_sets(sets: &SetControls, form: &mut Vec<u8>)
    requires { vec_len form.old + 1540 ≤ vec_capacity form.old }
    ensures items { form.new.items ≡ form.old.items ++ sets_form sets.now }
    ensures len { vec_len form.new ≡ vec_len form.old + 1540 }
    ensures capacity { vec_capacity form.old ≤ vec_capacity form.new }
{
    sets.sps.put(form);
    sets.pps.put(form);
    sets.scaling_matrix.put(form);
}
