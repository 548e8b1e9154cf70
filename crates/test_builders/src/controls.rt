//! Controls of small pictures.

ghost use Rattle.std.specs.Prelude.{◌≡◌, IfOk};

use crate::controls_of_sets::small_set_controls;
use crate::requests::shared;
use arrayvec::ArrayVec;
use h264_controls::{
    Controls, DecodeFlags, Dpb, DpbEntryFlags, RefPicList, SetControls, SliceFlags,
    V4l2CtrlH264DecodeParams, V4l2CtrlH264PredWeights, V4l2CtrlH264SliceParams, V4l2H264DpbEntry,
    V4l2H264FieldReference,
};
use h264_types::pictures::List;
use h264_types::slice_headers::SliceType;
use std::alloc::{AllocError, Global};

/// The list of these entries, of at most 32.
pub fn list_of(entries: &[Option<u8>]) -> List {
    let mut list = ArrayVec::new();
    let _ = list.try_extend_from_slice(entries);
    List { entries: list }
}

/// A slice with this size of its header, this type and this list 0.
pub fn slice_params(
    alloc: Global,
    header_bit_size: u32,
    slice_type: SliceType,
    list_0: &List,
) -> Result<V4l2CtrlH264SliceParams, AllocError>
    ensures { IfOk result (λ params. params.slice_type ≡ slice_type) }
{
    Ok(V4l2CtrlH264SliceParams {
        header_bit_size,
        first_mb_in_slice: 0,
        slice_type,
        colour_plane_id: 0,
        redundant_pic_cnt: 0,
        cabac_init_idc: 0,
        slice_qp_delta: 0,
        slice_qs_delta: 0,
        disable_deblocking_filter_idc: 0,
        slice_alpha_c0_offset_div2: 0,
        slice_beta_offset_div2: 0,
        num_ref_idx_l0_active_minus1: 0,
        num_ref_idx_l1_active_minus1: 0,
        ref_pic_list0: RefPicList::of(alloc, list_0)?,
        ref_pic_list1: RefPicList::of(alloc, &List::new())?,
        flags: SliceFlags {
            direct_spatial_mv_pred: false,
            sp_for_switch: false,
        },
    })
}

/// The picture 65 88 84 80, but for its frames.
pub fn idr_picture(dpb: Dpb) -> V4l2CtrlH264DecodeParams
    ensures { result.dpb ≡ dpb }
{
    V4l2CtrlH264DecodeParams {
        dpb,
        nal_ref_idc: 3,
        frame_num: 0,
        top_field_order_cnt: 0,
        bottom_field_order_cnt: 0,
        idr_pic_id: 0,
        pic_order_cnt_lsb: 0,
        delta_pic_order_cnt_bottom: 0,
        delta_pic_order_cnt0: 0,
        delta_pic_order_cnt1: 0,
        dec_ref_pic_marking_bit_size: 2,
        pic_order_cnt_bit_size: 0,
        slice_group_change_cycle: 0,
        flags: DecodeFlags { idr_pic: true },
    }
}

/// The picture 41 9A 23 after that one, which is its one frame.
pub fn p_picture(alloc: Global) -> Result<V4l2CtrlH264DecodeParams, AllocError>
    ensures { IfOk result (λ picture. picture.frame_num ≡ 1) }
{
    let mut dpb = Dpb::with_capacity(alloc, 1)?;
    dpb.push(V4l2H264DpbEntry {
        pic_num: 0,
        frame_num: 0,
        fields: V4l2H264FieldReference::Frame,
        top_field_order_cnt: 0,
        bottom_field_order_cnt: 0,
        flags: DpbEntryFlags {
            valid: true,
            active: true,
            long_term: false,
        },
    })?;
    let mut picture = idr_picture(dpb);
    picture.nal_ref_idc = 2;
    picture.frame_num = 1;
    picture.top_field_order_cnt = 2;
    picture.bottom_field_order_cnt = 2;
    picture.dec_ref_pic_marking_bit_size = 1;
    picture.flags = DecodeFlags { idr_pic: false };
    Ok(picture)
}

/// The controls of a slice.
pub fn controls_of(
    alloc: Global,
    sets: SetControls,
    pred_weights: Option<V4l2CtrlH264PredWeights>,
    slice_params: V4l2CtrlH264SliceParams,
    decode_params: V4l2CtrlH264DecodeParams,
) -> Result<Controls, AllocError>
    ensures { IfOk result (λ controls. controls.slice_params ≡ slice_params) }
{
    let pred_weights = match pred_weights {
        Some(weights) => Some(shared(alloc, weights)?),
        None => None,
    };
    Ok(Controls {
        sets: shared(alloc, sets)?,
        pred_weights,
        slice_params,
        decode_params: shared(alloc, decode_params)?,
    })
}

/// The controls of the one slice of an IDR picture of one macroblock.
pub fn idr_controls(alloc: Global) -> Result<Controls, AllocError>
    ensures { IfOk result (λ controls. controls.slice_params.slice_type ≡ SliceType.I) }
{
    let sets = small_set_controls(alloc, 0)?;
    let slice_params = slice_params(alloc, 25, SliceType::I, &List::new())?;
    let picture = idr_picture(Dpb::with_capacity(alloc, 0)?);
    controls_of(alloc, sets, None, slice_params, picture)
}

/// The controls of the one slice of the P picture after it, whose list 0 has this entry.
pub fn p_controls(alloc: Global, entry: Option<u8>) -> Result<Controls, AllocError>
    ensures { IfOk result (λ controls. controls.slice_params.slice_type ≡ SliceType.P) }
{
    let sets = small_set_controls(alloc, 0)?;
    let slice_params = slice_params(alloc, 23, SliceType::P, &list_of(&[entry]))?;
    controls_of(alloc, sets, None, slice_params, p_picture(alloc)?)
}
