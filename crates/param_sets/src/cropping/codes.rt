//! The codes of a sequence parameter set (7.3.2.1.1).

ghost use Rattle.std.specs.Prelude.{◌≡◌, ◌++◌, List, length, replicate, IfOk, OnOk};
ghost use Rattle.std.specs.List.{flat_map};
ghost use Rattle.param_sets.specs.SetCodes.{count_codes, high_codes, list_codes, set_codes};
ghost use Rattle.param_sets.specs.declared.cropping.codes.Code.TheVariants.{Signed};

use h264_types::param_sets::{PicOrderCntType, ScalingList, Sps};
use std::alloc::{AllocError, Global};

/// The code of a syntax element, or of several that are read at once.
#[derive(Clone, Copy)]
pub(crate) enum Code {
    /// The NAL unit's header, profile_idc, the constraint flags with two reserved bits, and
    /// level_idc: 32 bits.
    Beginning,
    /// u(1).
    Flag,
    /// ue(v).
    Unsigned,
    /// se(v).
    Signed,
}

/// max_num_ref_frames, gaps_in_frame_num_value_allowed_flag, the size, frame_mbs_only_flag and
/// direct_8x8_inference_flag.
const FRAME_CODES: [Code; 6] = [
    Code::Unsigned,
    Code::Flag,
    Code::Unsigned,
    Code::Unsigned,
    Code::Flag,
    Code::Flag,
];

/// The codes of what stands before frame_cropping_flag in a NAL unit of the set, in order.
pub(crate) fn set_codes(alloc: Global, sps: &Sps) -> Result<Vec<Code>, AllocError>
    ensures { IfOk result (λ codes. codes.items ≡ set_codes sps.now) }
{
    let mut codes = Vec::new(alloc);
    codes.extend_from_slice(&[Code::Beginning, Code::Unsigned])?;
    add_high(&mut codes, sps)?;
    codes.extend_from_slice(&[Code::Unsigned, Code::Unsigned])?;
    add_count(&mut codes, sps)?;
    codes.extend_from_slice(&FRAME_CODES)?;
    Ok(codes)
}

/// Adds those of what the high profiles alone have.
fn add_high(codes: &mut Vec<Code>, sps: &Sps) -> Result<(), AllocError>
    ensures { OnOk result (codes.new.items ≡ codes.old.items ++ high_codes sps.now) }
{
    if !sps.is_high() {
        return Ok(());
    }
    codes.extend_from_slice(&[
        Code::Unsigned,
        Code::Unsigned,
        Code::Unsigned,
        Code::Flag,
        Code::Flag,
    ])?;
    add_lists(codes, sps.scaling_lists.as_slice())
}

/// Adds those of scaling lists.
fn add_lists(codes: &mut Vec<Code>, lists: &[Option<ScalingList>]) -> Result<(), AllocError>
    ensures { OnOk result (codes.new.items ≡ codes.old.items ++ flat_map list_codes lists.now) }
{
    for list in lists {
        add_list(codes, list)?;
    }
    Ok(())
}

/// Adds those of a scaling list: whether it is there, and its deltas.
fn add_list(codes: &mut Vec<Code>, list: &Option<ScalingList>) -> Result<(), AllocError>
    ensures { OnOk result (codes.new.items ≡ codes.old.items ++ list_codes list.now) }
{
    codes.push(Code::Flag)?;
    match list {
        Some(list) => add_signed(codes, list.deltas().len()),
        None => Ok(()),
    }
}

/// Adds those of what the type of picture order counts has.
fn add_count(codes: &mut Vec<Code>, sps: &Sps) -> Result<(), AllocError>
    ensures { OnOk result (codes.new.items ≡ codes.old.items ++ count_codes sps.now) }
{
    match sps.pic_order_cnt_type {
        PicOrderCntType::Zero => {
            codes.push(Code::Unsigned)?;
            Ok(())
        }
        PicOrderCntType::One => {
            codes.extend_from_slice(&[Code::Flag, Code::Signed, Code::Signed, Code::Unsigned])?;
            add_signed(codes, sps.offset_for_ref_frame.as_slice().len())
        }
        PicOrderCntType::Two => Ok(()),
    }
}

/// Adds so many signed codes.
fn add_signed(codes: &mut Vec<Code>, count: usize) -> Result<(), AllocError>
    ensures { OnOk result (codes.new.items ≡ codes.old.items ++ replicate count Signed) }
{
    let len = codes.len().checked_add(count).ok_or(AllocError)?;
    codes.resize(len, Code::Signed)
}
