//! The syntax of sequence parameter sets, section by section of its table (7.3.2.1.1).

ghost use Rattle.std.specs.Prelude.{◌≡◌, ◌⊎◌, IfOk, IfErr, Ok, Err, pos, [], true, false};
ghost use Rattle.expgolomb.specs.Grammar.{Fixed, Unsigned};
ghost use Rattle.expgolomb.specs.TableReading.{rows_at, value_at};
ghost use Rattle.expgolomb.specs.Answer.{Reads, flag_value};
ghost use Rattle.param_sets.specs.Answer.{Stores};
ghost use Rattle.param_sets.specs.Sets.{IsSps, SpsHasFault, sps_at, Answers, IsShown};
ghost use Rattle.param_sets.specs.declared.fault.SetFault.{SetFault};
ghost use Rattle.param_sets.specs.SpsSyntax.{take, no_sps, profile_range, chroma_range, high_fields, high_rows, scaling_rows, frames_only, beginning_rows, constraint_rows, level_rows, count_rows, type_zero_rows, type_one_rows, with_offsets, IsCycleOf, offset_rows, typed_rows, frame_rows, size_rows, sps_rows};
ghost use Rattle.h264_types.specs.Profiles.{is_high};
ghost use Rattle.h264_types.specs.declared.param_sets.sps.Sps.{Sps};

use crate::fault::{SetFault, SetField};
use crate::scaling_list::scaling_lists;
use crate::set_fields::{after_header, bounded};
use expgolomb::{Bits, fixed, flag, se_any, ue, ue_any};
use h264_types::base::AtMost;
use h264_types::param_sets::{ChromaFormat, Offsets, PicOrderCntType, ScalingLists, Sps};
use std::alloc::Global;

// profile_idc.
#[tactic(auto, using(expgolomb::proofs::FieldLaws::narrow_ok, expgolomb::proofs::FieldLaws::narrow_err))]
fn profile_idc(bits: &mut Bits<'_>) -> Result<u8, SetFault>
    ensures { Reads pos result bits.new (value_at
        (Fixed 8) SetFault.Cut SetFault.Cut profile_range bits.old) }
{
    let profile = fixed(bits, 8, SetFault::Cut)? as u8;
    match profile {
        66 | 77 | 100 | 110 | 122 => Ok(profile),
        _ => Err(SetFault::Profile),
    }
}

// constraint_set0_flag to constraint_set5_flag.
fn constraint_set_flags(bits: &mut Bits<'_>) -> Result<[bool; 6], SetFault>
    ensures { (s : Sps)
        → Reads (λ flags. record s { constraint_set_flags = flags }) result bits.new
        (rows_at take constraint_rows (record s { constraint_set_flags = [] }) bits.old) }
{
    let mut flags = [false; 6];
    for i in 0..6 {
        flags[i] = flag(bits, SetFault::Cut)?;
    }
    Ok(flags)
}

// Two bits that aren't tested, level_idc and seq_parameter_set_id.
#[tactic(auto, unfolding(expgolomb::specs::TableReading::rows_at))]
fn level_and_id(bits: &mut Bits<'_>) -> Result<(u8, AtMost<31>), SetFault>
    ensures { (s : Sps)
        → Reads (λ x. record s { level_idc = x.0; seq_parameter_set_id = x.1 }) result bits.new
        (rows_at take level_rows s bits.old) }
{
    let _reserved_zero_2bits = fixed(bits, 2, SetFault::Cut)?;
    let level_idc = fixed(bits, 8, SetFault::Cut)? as u8;
    let id = bounded(
        bits,
        SetFault::Range {
            field: SetField::SpsId,
        },
    )?;
    Ok((level_idc, id))
}

// The beginning of a set: what isn't read yet has the value that is inferred where it stays absent.
fn beginning(alloc: Global, bits: &mut Bits<'_>) -> Result<Sps, SetFault>
    ensures exact { Reads (λ s. s) result bits.new (rows_at take beginning_rows no_sps bits.old) }
    ensures none { IfOk result (λ s. (s.scaling_lists ≡ []) × (s.offset_for_ref_frame ≡ [])) }
{
    let profile_idc = profile_idc(bits)?;
    let constraint_set_flags = constraint_set_flags(bits)?;
    let (level_idc, seq_parameter_set_id) = level_and_id(bits)?;
    Ok(Sps {
        profile_idc,
        constraint_set_flags,
        level_idc,
        seq_parameter_set_id,
        chroma_format_idc: ChromaFormat::Yuv420,
        bit_depth_luma_minus8: AtMost::new(0),
        bit_depth_chroma_minus8: AtMost::new(0),
        qpprime_y_zero_transform_bypass_flag: false,
        seq_scaling_matrix_present_flag: false,
        scaling_lists: ScalingLists::new(alloc),
        log2_max_frame_num_minus4: AtMost::new(0),
        pic_order_cnt_type: PicOrderCntType::Zero,
        log2_max_pic_order_cnt_lsb_minus4: AtMost::new(0),
        delta_pic_order_always_zero_flag: false,
        offset_for_non_ref_pic: 0,
        offset_for_top_to_bottom_field: 0,
        num_ref_frames_in_pic_order_cnt_cycle: 0,
        offset_for_ref_frame: Offsets::new(alloc),
        max_num_ref_frames: AtMost::new(0),
        gaps_in_frame_num_value_allowed_flag: false,
        pic_width_in_mbs_minus1: 0,
        pic_height_in_map_units_minus1: 0,
        direct_8x8_inference_flag: false,
    })
}

// chroma_format_idc, but for 4:4:4.
fn chroma_format_idc(bits: &mut Bits<'_>) -> Result<u32, SetFault>
    ensures { Reads pos result bits.new
        (value_at Unsigned SetFault.Cut (SetFault.Range SetField.ChromaFormat) chroma_range
        bits.old) }
{
    let wrong = SetFault::Range {
        field: SetField::ChromaFormat,
    };
    match ue_any(bits, SetFault::Cut, wrong)? {
        3 => Err(SetFault::Chroma444),
        idc if idc < 3 => Ok(idc),
        _ => Err(wrong),
    }
}

// What the high profiles have before their lists.
#[tactic(auto, unfolding(expgolomb::specs::TableReading::rows_at))]
fn chroma_and_depths(bits: &mut Bits<'_>, sps: &mut Sps) -> Result<(), SetFault>
    requires { is_high sps.old ≡ true }
    ensures exact { Reads (λ _. sps.new) result bits.new
        (rows_at take high_fields sps.old bits.old) }
    ensures high { is_high sps.new ≡ true }
    ensures none { sps.new.scaling_lists ≡ sps.old.scaling_lists }
    ensures same { sps.new.offset_for_ref_frame ≡ sps.old.offset_for_ref_frame }
{
    let deep = SetFault::Range {
        field: SetField::BitDepth,
    };
    sps.chroma_format_idc = match chroma_format_idc(bits)? {
        0 => ChromaFormat::Monochrome,
        1 => ChromaFormat::Yuv420,
        _ => ChromaFormat::Yuv422,
    };
    sps.bit_depth_luma_minus8 = bounded(bits, deep)?;
    sps.bit_depth_chroma_minus8 = bounded(bits, deep)?;
    sps.qpprime_y_zero_transform_bypass_flag = flag(bits, SetFault::Cut)?;
    sps.seq_scaling_matrix_present_flag = flag(bits, SetFault::Cut)?;
    Ok(())
}

// The scaling lists of a high profile.
fn seq_scaling_lists(alloc: Global, bits: &mut Bits<'_>, sps: &mut Sps) -> Result<(), SetFault>
    requires high { is_high sps.old ≡ true }
    requires none { sps.old.scaling_lists ≡ [] }
    ensures exact { Stores (λ _. sps.new) result bits.new
        (rows_at take scaling_rows sps.old bits.old) }
    ensures same { sps.new.offset_for_ref_frame ≡ sps.old.offset_for_ref_frame }
{
    if sps.seq_scaling_matrix_present_flag {
        sps.scaling_lists = scaling_lists(alloc, bits, 8)?;
    }
    Ok(())
}

// What the high profiles have.
fn high(alloc: Global, bits: &mut Bits<'_>, sps: &mut Sps) -> Result<(), SetFault>
    requires { sps.old.scaling_lists ≡ [] }
    ensures exact { Stores (λ _. sps.new) result bits.new
        (rows_at take high_rows sps.old bits.old) }
    ensures same { sps.new.offset_for_ref_frame ≡ sps.old.offset_for_ref_frame }
{
    if sps.is_high() {
        chroma_and_depths(bits, sps)?;
        seq_scaling_lists(alloc, bits, sps)?;
    }
    Ok(())
}

#[tactic(auto, unfolding(expgolomb::specs::TableReading::rows_at))]
fn frame_num_and_count_type(bits: &mut Bits<'_>, sps: &mut Sps) -> Result<(), SetFault>
    ensures exact { Reads (λ _. sps.new) result bits.new
        (rows_at take count_rows sps.old bits.old) }
    ensures same { sps.new.offset_for_ref_frame ≡ sps.old.offset_for_ref_frame }
{
    sps.log2_max_frame_num_minus4 = bounded(
        bits,
        SetFault::Range {
            field: SetField::FrameNumBits,
        },
    )?;
    let wrong = SetFault::Range {
        field: SetField::CountType,
    };
    sps.pic_order_cnt_type = match ue(bits, 2, SetFault::Cut, wrong)? {
        0 => PicOrderCntType::Zero,
        1 => PicOrderCntType::One,
        _ => PicOrderCntType::Two,
    };
    Ok(())
}

// What count type 0 has.
#[tactic(auto, unfolding(expgolomb::specs::TableReading::rows_at))]
fn type_zero(bits: &mut Bits<'_>, sps: &mut Sps) -> Result<(), SetFault>
    requires { sps.old.pic_order_cnt_type ≡ PicOrderCntType.Zero }
    ensures exact { Reads (λ _. sps.new) result bits.new
        (rows_at take type_zero_rows sps.old bits.old) }
    ensures same { sps.new.pic_order_cnt_type ≡ PicOrderCntType.Zero }
{
    let wrong = SetFault::Range {
        field: SetField::CountBits,
    };
    sps.log2_max_pic_order_cnt_lsb_minus4 = bounded(bits, wrong)?;
    Ok(())
}

// What count type 1 has before its cycle.
#[tactic(auto, unfolding(expgolomb::specs::TableReading::rows_at))]
fn type_one(bits: &mut Bits<'_>, sps: &mut Sps) -> Result<(), SetFault>
    requires { sps.old.pic_order_cnt_type ≡ PicOrderCntType.One }
    ensures exact { Reads (λ _. sps.new) result bits.new
        (rows_at take type_one_rows sps.old bits.old) }
    ensures same { sps.new.pic_order_cnt_type ≡ PicOrderCntType.One }
    ensures none { sps.new.offset_for_ref_frame ≡ sps.old.offset_for_ref_frame }
{
    let wrong = SetFault::Range {
        field: SetField::Offset,
    };
    sps.delta_pic_order_always_zero_flag = flag(bits, SetFault::Cut)?;
    sps.offset_for_non_ref_pic = se_any(bits, SetFault::Cut, wrong)?;
    sps.offset_for_top_to_bottom_field = se_any(bits, SetFault::Cut, wrong)?;
    let wrong = SetFault::Range {
        field: SetField::CycleLength,
    };
    sps.num_ref_frames_in_pic_order_cnt_cycle = ue(bits, 255, SetFault::Cut, wrong)? as u8;
    Ok(())
}

// The offsets of a cycle of this length.
fn cycle(alloc: Global, bits: &mut Bits<'_>, length: u8) -> Result<Offsets, SetFault>
    ensures { (s : Sps) → IsCycleOf s length →
        Stores (with_offsets s) result bits.new
        (rows_at take offset_rows (with_offsets s []) bits.old) }
{
    let wrong = SetFault::Range {
        field: SetField::Offset,
    };
    let mut offsets = Offsets::new(alloc);
    for _i in 0..length {
        let offset = se_any(bits, SetFault::Cut, wrong)?;
        offsets.push(offset)?;
    }
    Ok(offsets)
}

// What the type of counts has.
fn counts(alloc: Global, bits: &mut Bits<'_>, sps: &mut Sps) -> Result<(), SetFault>
    requires { sps.old.offset_for_ref_frame ≡ [] }
    ensures { Stores (λ _. sps.new) result bits.new (rows_at take typed_rows sps.old bits.old) }
{
    match sps.pic_order_cnt_type {
        PicOrderCntType::Zero => type_zero(bits, sps),
        PicOrderCntType::One => {
            type_one(bits, sps)?;
            sps.offset_for_ref_frame = cycle(
                alloc,
                bits,
                sps.num_ref_frames_in_pic_order_cnt_cycle,
            )?;
            Ok(())
        }
        PicOrderCntType::Two => Ok(()),
    }
}

#[tactic(auto, unfolding(expgolomb::specs::TableReading::rows_at))]
fn frames(bits: &mut Bits<'_>, sps: &mut Sps) -> Result<(), SetFault>
    ensures { Reads (λ _. sps.new) result bits.new (rows_at take frame_rows sps.old bits.old) }
{
    sps.max_num_ref_frames = bounded(bits, SetFault::RefFrames)?;
    sps.gaps_in_frame_num_value_allowed_flag = flag(bits, SetFault::Cut)?;
    Ok(())
}

#[tactic(auto, unfolding(expgolomb::specs::TableReading::rows_at))]
fn size(bits: &mut Bits<'_>, sps: &mut Sps) -> Result<(), SetFault>
    ensures { Reads (λ _. sps.new) result bits.new (rows_at take size_rows sps.old bits.old) }
{
    let wide = SetFault::Range {
        field: SetField::Width,
    };
    sps.pic_width_in_mbs_minus1 = ue(bits, 65_535, SetFault::Cut, wide)? as u16;
    let high = SetFault::Range {
        field: SetField::Height,
    };
    sps.pic_height_in_map_units_minus1 = ue(bits, 65_535, SetFault::Cut, high)? as u16;
    let _frame_mbs_only_flag = frame_mbs_only_flag(bits)?;
    sps.direct_8x8_inference_flag = flag(bits, SetFault::Cut)?;
    Ok(())
}

// frame_mbs_only_flag, which is 1.
#[tactic(auto, using(expgolomb::proofs::FieldLaws::narrow_ok, expgolomb::proofs::FieldLaws::narrow_err))]
fn frame_mbs_only_flag(bits: &mut Bits<'_>) -> Result<bool, SetFault>
    ensures { Reads flag_value result bits.new
        (value_at (Fixed 1) SetFault.Cut SetFault.Cut frames_only bits.old) }
{
    if flag(bits, SetFault::Cut)? {
        Ok(true)
    } else {
        Err(SetFault::Interlaced)
    }
}

// A set after the payload's first byte.
fn seq_parameter_set_data(alloc: Global, bits: &mut Bits<'_>) -> Result<Sps, SetFault>
    ensures { Stores (λ s. s) result bits.new (rows_at take sps_rows no_sps bits.old) }
{
    let mut sps = beginning(alloc, bits)?;
    high(alloc, bits, &mut sps)?;
    frame_num_and_count_type(bits, &mut sps)?;
    counts(alloc, bits, &mut sps)?;
    frames(bits, &mut sps)?;
    size(bits, &mut sps)?;
    Ok(sps)
}

// The set of a payload.
fn sps_of(alloc: Global, payload: &[u8]) -> Result<Sps, SetFault>
    ensures { Answers result (sps_at payload.now) }
{
    let mut bits = after_header(payload)?;
    seq_parameter_set_data(alloc, &mut bits)
}

/// Reads the sequence parameter set of a payload, the unit's first byte included.
///
/// What stands after direct_8x8_inference_flag, cropping and VUI, isn't read.
pub fn read_sps(alloc: Global, payload: &[u8]) -> Result<Sps, SetFault>
    ensures exact { Answers result (sps_at payload.now) }
    ensures found { IfOk result (λ set. IsSps payload.now set) }
    ensures only { (set : Sps) → IsSps payload.now set → Answers result (Ok set) }
    ensures shown { IfErr result (λ fault. IsShown (SpsHasFault payload.now) fault) }
    ensures refused { (fault : SetFault) → SpsHasFault payload.now fault
        → Answers result (Err fault) }
{
    sps_of(alloc, payload)
}
