//! Requests as JSON objects.

ghost use Rattle.std.specs.Prelude.{◌≡◌, map, option_map, IfOk};
ghost use Rattle.frame_requests.specs.PredWeightsLayout.{pred_weights_layout};
ghost use Rattle.unit_printing.specs.RequestsJson.{request_json};

use frame_requests::layouts::{
    DecodeParamsLayout, PpsLayout, PredWeightsLayout, ScalingMatrixLayout, SliceParamsLayout,
    SpsLayout,
};
use h264_controls::{Request, V4l2CtrlH264PredWeights};
use h264_types::base::Shared;
use serde::Serialize;
use std::alloc::{AllocError, Global};
use std::marker::Model;

/// A request: what a decoder is asked to do for a slice.
#[derive(Clone, Copy, Debug, Serialize)]
pub struct RequestJson {
    /// In nanoseconds.
    pub timestamp: u64,
    /// V4L2_BUF_FLAG_M2M_HOLD_CAPTURE_BUF.
    pub hold_capture_buf: bool,
    /// How many bytes the slice has, its start code of three bytes among them.
    pub bytes: usize,
    pub v4l2_ctrl_h264_sps: SpsLayout,
    pub v4l2_ctrl_h264_pps: PpsLayout,
    pub v4l2_ctrl_h264_scaling_matrix: ScalingMatrixLayout,
    #[serde(skip_serializing_if = "Option::is_none")]
    pub v4l2_ctrl_h264_pred_weights: Option<PredWeightsLayout>,
    pub v4l2_ctrl_h264_slice_params: SliceParamsLayout,
    pub v4l2_ctrl_h264_decode_params: DecodeParamsLayout,
}

/// The requests of a unit's slices, in order.
#[derive(Debug, Drop, Serialize)]
#[serde(transparent)]
pub struct RequestsJson {
    items: Vec<RequestJson>,
}

impl Model for RequestsJson {
    ghost use Rattle.std.specs.Prelude.{List};
    ghost use Rattle.unit_printing.specs.declared.json.request_json.RequestJson.{RequestJson};

    ghost Value = { List RequestJson };

    ghost view = { λ requests. requests.items.items };
}

impl RequestJson {
    /// The object of the request.
    pub fn of(request: &Request) -> RequestJson
        ensures { result ≡ request_json request.now }
    {
        let controls = request.controls();
        RequestJson {
            timestamp: request.timestamp,
            hold_capture_buf: request.hold,
            bytes: request.bytes().len(),
            v4l2_ctrl_h264_sps: SpsLayout::of(&controls.sets.sps),
            v4l2_ctrl_h264_pps: PpsLayout::of(&controls.sets.pps),
            v4l2_ctrl_h264_scaling_matrix: ScalingMatrixLayout::of(&controls.sets.scaling_matrix),
            v4l2_ctrl_h264_pred_weights: pred_weights(&controls.pred_weights),
            v4l2_ctrl_h264_slice_params: SliceParamsLayout::of(&controls.slice_params),
            v4l2_ctrl_h264_decode_params: DecodeParamsLayout::of(
                &controls.decode_params,
                &request.references,
            ),
        }
    }
}

/// The struct of the weights, if there are any.
fn pred_weights(weights: &Option<Shared<V4l2CtrlH264PredWeights>>) -> Option<PredWeightsLayout>
    ensures { result ≡ option_map pred_weights_layout weights.now }
{
    match weights {
        Some(weights) => Some(PredWeightsLayout::of(weights)),
        None => None,
    }
}

impl RequestsJson {
    /// The objects of the requests.
    pub fn of(alloc: Global, requests: &[Request]) -> Result<RequestsJson, AllocError>
        ensures { IfOk result (λ objects. objects ≡ map request_json requests.now) }
    {
        Ok(RequestsJson {
            items: objects(alloc, requests)?,
        })
    }

    /// The objects, in order.
    pub fn as_slice(&self) -> &[RequestJson]
        ensures { result.now ≡ self.now }
    {
        self.items.as_slice()
    }
}

/// The objects of the requests.
fn objects(alloc: Global, requests: &[Request]) -> Result<Vec<RequestJson>, AllocError>
    ensures { IfOk result (λ objects. objects.items ≡ map request_json requests.now) }
{
    let mut objects = Vec::with_capacity(alloc, requests.len())?;
    for request in requests {
        objects.push(RequestJson::of(request))?;
    }
    Ok(objects)
}
