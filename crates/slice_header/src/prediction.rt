//! What a slice says of redundant pictures, direct prediction and the lengths of its lists.

ghost use Rattle.std.specs.Prelude.{◌≡◌, ◌≤◌, ◌+◌, true};
ghost use Rattle.expgolomb.specs.Answer.{Reads};
ghost use Rattle.slice_header.specs.SliceHeaderSyntax.{prediction_table, active_table};
ghost use Rattle.h264_types.specs.SliceTypes.{is_b};
ghost use Rattle.expgolomb.specs.Structures.{table_at};

use crate::HeaderFault;
use crate::fields::{flag, ue};
use expgolomb::Bits;
use h264_types::base::AtMost;
use h264_types::param_sets::Pps;
use h264_types::slice_headers::SliceType;

/// redundant_pic_cnt and direct_spatial_mv_pred_flag.
#[derive(Clone, Copy)]
pub struct Prediction {
    pub redundant_pic_cnt: u8,
    pub direct_spatial_mv_pred_flag: bool,
}

#[tactic(auto, unfolding(crate::specs::SliceHeaderSyntax::prediction_table, expgolomb::specs::Structures::table_at, expgolomb::specs::TableReading::rows_at))]
pub fn prediction_fields(
    bits: &mut Bits<'_>,
    slice_type: SliceType,
    pps: &Pps,
) -> Result<Prediction, HeaderFault>
    ensures exact { Reads (λ prediction. prediction) result bits.new
        (table_at (prediction_table slice_type pps.now) bits.old) }
    ensures near { bits.new.before ≤ bits.old.before + 126 }
{
    let redundant_pic_cnt = if pps.redundant_pic_cnt_present_flag {
        ue(bits, 127)? as u8
    } else {
        0
    };
    let direct_spatial_mv_pred_flag = if slice_type == SliceType::B {
        flag(bits)?
    } else {
        false
    };
    Ok(Prediction {
        redundant_pic_cnt,
        direct_spatial_mv_pred_flag,
    })
}

/// The numbers of active entries, each less 1: the slice's own or those of the picture parameter
/// set.
#[derive(Clone, Copy)]
pub struct ActiveCounts {
    pub num_ref_idx_active_override_flag: bool,
    pub num_ref_idx_l0_active_minus1: AtMost<31>,
    pub num_ref_idx_l1_active_minus1: AtMost<31>,
}

#[tactic(auto, unfolding(crate::specs::SliceHeaderSyntax::active_table, expgolomb::specs::Structures::table_at, expgolomb::specs::TableReading::rows_at))]
pub fn active_counts(
    bits: &mut Bits<'_>,
    slice_type: SliceType,
    pps: &Pps,
) -> Result<ActiveCounts, HeaderFault>
    ensures exact { Reads (λ counts. counts) result bits.new
        (table_at (active_table slice_type pps.now) bits.old) }
    ensures near { bits.new.before ≤ bits.old.before + 189 }
{
    match slice_type {
        SliceType::P => {
            let num_ref_idx_active_override_flag = flag(bits)?;
            let num_ref_idx_l0_active_minus1 = if num_ref_idx_active_override_flag {
                AtMost::new(ue(bits, 31)? as u8)
            } else {
                pps.num_ref_idx_l0_default_active_minus1
            };
            Ok(ActiveCounts {
                num_ref_idx_active_override_flag,
                num_ref_idx_l0_active_minus1,
                num_ref_idx_l1_active_minus1: AtMost::new(0),
            })
        }
        SliceType::B => {
            let num_ref_idx_active_override_flag = flag(bits)?;
            if num_ref_idx_active_override_flag {
                let num_ref_idx_l0_active_minus1 = AtMost::new(ue(bits, 31)? as u8);
                let num_ref_idx_l1_active_minus1 = AtMost::new(ue(bits, 31)? as u8);
                Ok(ActiveCounts {
                    num_ref_idx_active_override_flag,
                    num_ref_idx_l0_active_minus1,
                    num_ref_idx_l1_active_minus1,
                })
            } else {
                Ok(ActiveCounts {
                    num_ref_idx_active_override_flag,
                    num_ref_idx_l0_active_minus1: pps.num_ref_idx_l0_default_active_minus1,
                    num_ref_idx_l1_active_minus1: pps.num_ref_idx_l1_default_active_minus1,
                })
            }
        }
        _ => Ok(ActiveCounts {
            num_ref_idx_active_override_flag: false,
            num_ref_idx_l0_active_minus1: AtMost::new(0),
            num_ref_idx_l1_active_minus1: AtMost::new(0),
        }),
    }
}
