//! The requests of a picture.

ghost use Rattle.std.specs.Prelude.{◌≡◌, ◌∷◌, ◌++◌, IfOk, option_map};
ghost use Rattle.h264_controls.specs.PredWeightsControl.{pred_weights_control};
ghost use Rattle.request_core.specs.Requests.{controls_of, request_of, requests_of};

use crate::picture::Listed;
use h264_controls::{
    Controls, References, Request, RequestBody, V4l2CtrlH264DecodeParams, V4l2CtrlH264PredWeights,
    V4l2CtrlH264SliceParams,
};
use h264_types::base::Shared;
use h264_types::param_sets::Sps;
use h264_types::pictures::{AuId, Counts, Marks};
use h264_types::slice_headers::SliceHeader;
use std::alloc::{AllocError, Global};
use unit_outcomes::Requests;

/// The controls of a slice of a picture with these counts. They share what the request before them
/// has too.
fn controls_of(
    alloc: Global,
    marks: &Marks,
    counts: Counts,
    listed: &Listed<'_>,
    before: Option<&Request>,
) -> Result<Controls, AllocError>
    ensures { IfOk result (λ controls. controls ≡ controls_of marks.now.frames counts listed.now) }
{
    let slice = listed.slice;
    let header = slice.header();
    let (list_0, list_1) = (&listed.list_0, &listed.list_1);
    let picture = V4l2CtrlH264DecodeParams::of(alloc, marks, slice.sps(), header, counts)?;
    Ok(Controls {
        sets: slice.controls()?,
        pred_weights: pred_weights_of(alloc, slice.sps(), header)?,
        slice_params: V4l2CtrlH264SliceParams::of(alloc, header, list_0, list_1)?,
        decode_params: shared_picture(alloc, picture, before)?,
    })
}

/// The control of the picture, shared with the request before where that has the same.
fn shared_picture(
    alloc: Global,
    picture: V4l2CtrlH264DecodeParams,
    before: Option<&Request>,
) -> Result<Shared<V4l2CtrlH264DecodeParams>, AllocError>
    ensures { IfOk result (λ shared. shared ≡ picture) }
{
    match before {
        Some(request) if request.controls().decode_params.is_same(&picture) => request
            .controls()
            .decode_params
            .clone(),
        _ => Ok(Shared::new(alloc, picture)?),
    }
}

/// The units of the references, shared with the request before where that has the same.
fn shared_references(
    alloc: Global,
    references: References,
    before: Option<&Request>,
) -> Result<Shared<References>, AllocError>
    ensures { IfOk result (λ shared. shared ≡ references) }
{
    match before {
        Some(request) if request.references.is_same(&references) => request.references.clone(),
        _ => Ok(Shared::new(alloc, references)?),
    }
}

/// The control of the slice's weight table, if it has one.
fn pred_weights_of(
    alloc: Global,
    sps: &Sps,
    header: &SliceHeader,
) -> Result<Option<Shared<V4l2CtrlH264PredWeights>>, AllocError>
    ensures { IfOk result (λ weights. weights
        ≡ option_map (pred_weights_control sps.now) header.now.pred_weight_table) }
{
    match &header.pred_weight_table {
        Some(table) => Ok(Some(Shared::new(alloc, V4l2CtrlH264PredWeights::of(sps, table))?)),
        None => Ok(None),
    }
}

/// The request of a slice, after that of the slice before.
fn request_of(
    alloc: Global,
    marks: &Marks,
    counts: Counts,
    id: AuId,
    listed: &Listed<'_>,
    before: Option<&Request>,
    hold: bool,
) -> Result<Request, AllocError>
    ensures { IfOk result (λ request. request
        ≡ request_of marks.now.frames counts id listed.now hold) }
{
    let slice = listed.slice;
    let body = RequestBody {
        controls: controls_of(alloc, marks, counts, listed, before)?,
        bytes: slice.coded()?,
    };
    let references = References::of(alloc, marks, slice.header())?;
    Ok(Request {
        body: Shared::new(alloc, body)?,
        timestamp: id.timestamp(),
        references: shared_references(alloc, references, before)?,
        hold,
    })
}

/// The requests of the slices of a picture with these counts.
pub(crate) fn requests_of(
    alloc: Global,
    marks: &Marks,
    counts: Counts,
    id: AuId,
    slices: &[Listed<'_>],
) -> Result<Requests, AllocError>
    ensures { IfOk result (λ requests. requests
        ≡ requests_of marks.now.frames counts id slices.now) }
{
    let mut requests = Vec::with_capacity(alloc, slices.len())?;
    for listed in slices {
        let hold = requests.len() + 1 < slices.len();
        let request = request_of(alloc, marks, counts, id, listed, requests.last(), hold)?;
        requests.push(request)?;
    }
    Ok(Requests::new(requests))
}
