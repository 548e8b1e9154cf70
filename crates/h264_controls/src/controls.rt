//! The controls of a request.

ghost use Rattle.std.specs.Prelude.{◌≡◌, ◌↔◌, IfOk, IsTrue};

use crate::v4l2_ctrl_h264_decode_params::V4l2CtrlH264DecodeParams;
use crate::v4l2_ctrl_h264_pred_weights::V4l2CtrlH264PredWeights;
use crate::v4l2_ctrl_h264_slice_params::V4l2CtrlH264SliceParams;
use h264_types::base::Shared;
use param_set_controls::SetControls;
use std::alloc::AllocError;

/// The six controls of a slice. All but slice_params is shared.
#[derive(Debug)]
pub struct Controls {
    /// The three that the parameter sets decide.
    pub sets: Shared<SetControls>,
    /// Only where the slice header has a weight table.
    pub pred_weights: Option<Shared<V4l2CtrlH264PredWeights>>,
    pub slice_params: V4l2CtrlH264SliceParams,
    pub decode_params: Shared<V4l2CtrlH264DecodeParams>,
}

// By hand, so that whoever drops one is proved over one call.
impl Drop for Controls {
    fn drop(self) {
        let Controls {
            sets: _,
            pred_weights: _,
            slice_params: _,
            decode_params: _,
        } = self;
    }
}

impl Controls {
    /// The same controls; they share what is large.
    pub fn copy(&self) -> Result<Controls, AllocError>
        ensures { IfOk result (λ copy. copy ≡ self.now) }
    {
        Ok(Controls {
            sets: self.sets.clone()?,
            pred_weights: copied(&self.pred_weights)?,
            slice_params: self.slice_params.copy()?,
            decode_params: self.decode_params.clone()?,
        })
    }

    /// Whether all controls are the same.
    pub fn is_same(&self, other: &Controls) -> bool
        ensures { IsTrue result ↔ (self.now ≡ other.now) }
    {
        self.slice_params.is_same(&other.slice_params)
            && self.decode_params.is_same(&other.decode_params)
            && same_weights(&self.pred_weights, &other.pred_weights)
            && self.sets.is_same(&other.sets)
    }
}

// The same weights, if any.
fn copied(
    pred_weights: &Option<Shared<V4l2CtrlH264PredWeights>>,
) -> Result<Option<Shared<V4l2CtrlH264PredWeights>>, AllocError>
    ensures { IfOk result (λ copy. copy ≡ pred_weights.now) }
{
    match pred_weights {
        Some(weights) => Ok(Some(weights.clone()?)),
        None => Ok(None),
    }
}

// Whether both have the same weights, or both none.
fn same_weights(
    a: &Option<Shared<V4l2CtrlH264PredWeights>>,
    b: &Option<Shared<V4l2CtrlH264PredWeights>>,
) -> bool
    ensures { IsTrue result ↔ (a.now ≡ b.now) }
{
    match (a, b) {
        (Some(a), Some(b)) => a.is_same(b),
        (None, None) => true,
        _ => false,
    }
}
