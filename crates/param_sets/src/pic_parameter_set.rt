//! The syntax of picture parameter sets, section by section of its table (7.3.2.2).

ghost use Rattle.std.specs.Prelude.{◌≡◌, Bool, IfOk, IfErr, Ok, Err, true, false, []};
ghost use Rattle.expgolomb.specs.TableReading.{rows_at};
ghost use Rattle.expgolomb.specs.Answer.{Reads};
ghost use Rattle.param_sets.specs.Answer.{Stores};
ghost use Rattle.param_sets.specs.Sets.{IsPps, PpsHasFault, pps_at, Answers, IsShown};
ghost use Rattle.param_sets.specs.declared.fault.SetFault.{SetFault};
ghost use Rattle.param_sets.specs.PpsSyntax.{PpsSoFar, take, no_pps, so_far, id_rows, coding_rows, prediction_rows, quantisation_rows, slice_rows, transform_rows, pic_list_rows, list_count, second_offset_rows, more_rows, pps_rows};
ghost use Rattle.h264_types.specs.declared.param_sets.pps.Pps.{Pps};

use crate::fault::{SetFault, SetField};
use crate::scaling_list::scaling_lists;
use crate::set_fields::{after_header, bounded, more_data, small};
use expgolomb::{Bits, fixed_at_most, flag, ue};
use h264_types::base::AtMost;
use h264_types::param_sets::{Pps, ScalingLists, WeightedBipred};
use std::alloc::Global;

// The beginning of a set: what isn't read yet has the value that is inferred where it stays absent.
#[tactic(auto, unfolding(expgolomb::specs::TableReading::rows_at))]
fn beginning(alloc: Global, bits: &mut Bits<'_>) -> Result<Pps, SetFault>
    ensures exact { Reads (so_far false) result bits.new (rows_at take id_rows no_pps bits.old) }
    ensures none { IfOk result (λ pps. pps.scaling_lists ≡ []) }
{
    let wrong = SetFault::Range {
        field: SetField::PpsId,
    };
    let pic_parameter_set_id = ue(bits, 255, SetFault::Cut, wrong)? as u8;
    let seq_parameter_set_id = bounded(
        bits,
        SetFault::Range {
            field: SetField::SpsId,
        },
    )?;
    Ok(Pps {
        pic_parameter_set_id,
        seq_parameter_set_id,
        entropy_coding_mode_flag: false,
        bottom_field_pic_order_in_frame_present_flag: false,
        num_ref_idx_l0_default_active_minus1: AtMost::new(0),
        num_ref_idx_l1_default_active_minus1: AtMost::new(0),
        weighted_pred_flag: false,
        weighted_bipred_idc: WeightedBipred::Default,
        pic_init_qp_minus26: 0,
        pic_init_qs_minus26: 0,
        chroma_qp_index_offset: 0,
        deblocking_filter_control_present_flag: false,
        constrained_intra_pred_flag: false,
        redundant_pic_cnt_present_flag: false,
        transform_8x8_mode_flag: false,
        pic_scaling_matrix_present_flag: false,
        scaling_lists: ScalingLists::new(alloc),
        second_chroma_qp_index_offset: 0,
    })
}

#[tactic(auto, unfolding(expgolomb::specs::TableReading::rows_at))]
fn coding(bits: &mut Bits<'_>, pps: &mut Pps) -> Result<(), SetFault>
    ensures exact { Reads (λ _. so_far false pps.new) result bits.new
        (rows_at take coding_rows (so_far false pps.old) bits.old) }
    ensures same { pps.new.scaling_lists ≡ pps.old.scaling_lists }
{
    pps.entropy_coding_mode_flag = flag(bits, SetFault::Cut)?;
    pps.bottom_field_pic_order_in_frame_present_flag = flag(bits, SetFault::Cut)?;
    let _num_slice_groups_minus1 = ue(bits, 0, SetFault::Cut, SetFault::SliceGroups)?;
    Ok(())
}

#[tactic(auto, unfolding(expgolomb::specs::TableReading::rows_at))]
fn prediction(bits: &mut Bits<'_>, pps: &mut Pps) -> Result<(), SetFault>
    ensures exact { Reads (λ _. so_far false pps.new) result bits.new
        (rows_at take prediction_rows (so_far false pps.old) bits.old) }
    ensures same { pps.new.scaling_lists ≡ pps.old.scaling_lists }
{
    let wrong = SetFault::Range {
        field: SetField::ActiveCount,
    };
    pps.num_ref_idx_l0_default_active_minus1 = bounded(bits, wrong)?;
    pps.num_ref_idx_l1_default_active_minus1 = bounded(bits, wrong)?;
    pps.weighted_pred_flag = flag(bits, SetFault::Cut)?;
    let wrong = SetFault::Range {
        field: SetField::BipredIdc,
    };
    pps.weighted_bipred_idc = match fixed_at_most(bits, 2, 2, SetFault::Cut, wrong)? {
        0 => WeightedBipred::Default,
        1 => WeightedBipred::Explicit,
        _ => WeightedBipred::Implicit,
    };
    Ok(())
}

#[tactic(auto, unfolding(expgolomb::specs::TableReading::rows_at))]
fn quantisation(bits: &mut Bits<'_>, pps: &mut Pps) -> Result<(), SetFault>
    ensures exact { Reads (λ _. so_far false pps.new) result bits.new
        (rows_at take quantisation_rows (so_far false pps.old) bits.old) }
    ensures same { pps.new.scaling_lists ≡ pps.old.scaling_lists }
{
    let wrong = SetFault::Range {
        field: SetField::InitQp,
    };
    pps.pic_init_qp_minus26 = small(bits, -62, 25, wrong)?;
    let wrong = SetFault::Range {
        field: SetField::InitQs,
    };
    pps.pic_init_qs_minus26 = small(bits, -26, 25, wrong)?;
    let wrong = SetFault::Range {
        field: SetField::ChromaOffset,
    };
    pps.chroma_qp_index_offset = small(bits, -12, 12, wrong)?;
    pps.second_chroma_qp_index_offset = pps.chroma_qp_index_offset;
    Ok(())
}

#[tactic(auto, unfolding(expgolomb::specs::TableReading::rows_at))]
fn slices(bits: &mut Bits<'_>, pps: &mut Pps) -> Result<(), SetFault>
    ensures exact { Reads (λ _. so_far false pps.new) result bits.new
        (rows_at take slice_rows (so_far false pps.old) bits.old) }
    ensures same { pps.new.scaling_lists ≡ pps.old.scaling_lists }
{
    pps.deblocking_filter_control_present_flag = flag(bits, SetFault::Cut)?;
    pps.constrained_intra_pred_flag = flag(bits, SetFault::Cut)?;
    pps.redundant_pic_cnt_present_flag = flag(bits, SetFault::Cut)?;
    Ok(())
}

// Whether there is more data, and what it has before the scaling lists.
#[tactic(auto, unfolding(expgolomb::specs::TableReading::rows_at))]
fn transform(bits: &mut Bits<'_>, pps: &mut Pps) -> Result<bool, SetFault>
    ensures exact { Reads (λ more. so_far more pps.new) result bits.new
        (rows_at take transform_rows (so_far false pps.old) bits.old) }
    ensures same { pps.new.scaling_lists ≡ pps.old.scaling_lists }
{
    if !more_data(bits) {
        return Ok(false);
    }
    pps.transform_8x8_mode_flag = flag(bits, SetFault::Cut)?;
    pps.pic_scaling_matrix_present_flag = flag(bits, SetFault::Cut)?;
    Ok(true)
}

#[tactic(auto, unfolding(expgolomb::specs::TableReading::rows_at))]
fn second_offset(bits: &mut Bits<'_>, pps: &mut Pps) -> Result<(), SetFault>
    ensures { Reads (λ _. so_far true pps.new) result bits.new
        (rows_at take second_offset_rows (so_far true pps.old) bits.old) }
{
    let wrong = SetFault::Range {
        field: SetField::ChromaOffset,
    };
    pps.second_chroma_qp_index_offset = small(bits, -12, 12, wrong)?;
    Ok(())
}

// The scaling lists, where there is more data.
fn pic_scaling_lists(alloc: Global, bits: &mut Bits<'_>, pps: &mut Pps) -> Result<(), SetFault>
    requires { pps.old.scaling_lists ≡ [] }
    ensures { Stores (λ _. so_far true pps.new) result bits.new
        (rows_at take pic_list_rows (so_far true pps.old) bits.old) }
{
    if pps.pic_scaling_matrix_present_flag {
        pps.scaling_lists = scaling_lists(alloc, bits, list_count(pps))?;
    }
    Ok(())
}

// How many scaling lists a set with lists has.
fn list_count(pps: &Pps) -> u8
    ensures { result ≡ list_count pps.now }
{
    if pps.transform_8x8_mode_flag { 8 } else { 6 }
}

// What stands after the first part.
fn more(alloc: Global, bits: &mut Bits<'_>, pps: &mut Pps) -> Result<(), SetFault>
    requires { pps.old.scaling_lists ≡ [] }
    ensures { (more : Bool)
        × Stores (λ _. so_far more pps.new) result bits.new
        (rows_at take more_rows (so_far false pps.old) bits.old) }
{
    if transform(bits, pps)? {
        pic_scaling_lists(alloc, bits, pps)?;
        second_offset(bits, pps)?;
    }
    Ok(())
}

// A set after the payload's first byte.
fn pic_parameter_set_rbsp(alloc: Global, bits: &mut Bits<'_>) -> Result<Pps, SetFault>
    ensures { (more : Bool)
        × Stores (so_far more) result bits.new (rows_at take pps_rows no_pps bits.old) }
{
    let mut pps = beginning(alloc, bits)?;
    coding(bits, &mut pps)?;
    prediction(bits, &mut pps)?;
    quantisation(bits, &mut pps)?;
    slices(bits, &mut pps)?;
    more(alloc, bits, &mut pps)?;
    Ok(pps)
}

// The set of a payload.
fn pps_of(alloc: Global, payload: &[u8]) -> Result<Pps, SetFault>
    ensures { Answers result (pps_at payload.now) }
{
    let mut bits = after_header(payload)?;
    pic_parameter_set_rbsp(alloc, &mut bits)
}

/// Reads the picture parameter set of a payload, the unit's first byte included.
pub fn read_pps(alloc: Global, payload: &[u8]) -> Result<Pps, SetFault>
    ensures exact { Answers result (pps_at payload.now) }
    ensures found { IfOk result (λ set. IsPps payload.now set) }
    ensures only { (set : Pps) → IsPps payload.now set → Answers result (Ok set) }
    ensures shown { IfErr result (λ fault. IsShown (PpsHasFault payload.now) fault) }
    ensures refused { (fault : SetFault) → PpsHasFault payload.now fault
        → Answers result (Err fault) }
{
    pps_of(alloc, payload)
}
