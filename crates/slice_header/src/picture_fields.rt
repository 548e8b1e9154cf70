//! The numbers of a picture and the fields of its order count.

ghost use Rattle.std.specs.Prelude.{◌≡◌, ◌≤◌, ◌+◌, false};
ghost use Rattle.expgolomb.specs.Answer.{Reads};
ghost use Rattle.slice_header.specs.SliceHeaderSyntax.{number_table, order_table};
ghost use Rattle.expgolomb.specs.Structures.{table_at};

use crate::HeaderFault;
use crate::fields::{fixed, se_any, ue};
use expgolomb::Bits;
use h264_types::param_sets::{PicOrderCntType, Pps, Sps};

/// frame_num and idr_pic_id.
#[derive(Clone, Copy)]
pub struct Numbers {
    pub frame_num: u16,
    pub idr_pic_id: u16,
}

#[tactic(auto, unfolding(crate::specs::SliceHeaderSyntax::number_table, expgolomb::specs::Structures::table_at, expgolomb::specs::TableReading::rows_at))]
pub fn picture_numbers(bits: &mut Bits<'_>, is_idr: bool, sps: &Sps) -> Result<Numbers, HeaderFault>
    ensures exact { Reads (λ numbers. numbers) result bits.new
        (table_at (number_table is_idr sps.now) bits.old) }
    ensures near { bits.new.before ≤ bits.old.before + 126 }
{
    let frame_num = fixed(bits, sps.log2_max_frame_num_minus4.get() + 4)? as u16;
    let idr_pic_id = if is_idr { ue(bits, 65_535)? as u16 } else { 0 };
    Ok(Numbers {
        frame_num,
        idr_pic_id,
    })
}

/// The fields of the picture order count: those of its type, and 0 for the others.
#[derive(Clone, Copy)]
pub struct OrderCounts {
    pub pic_order_cnt_lsb: u16,
    pub delta_pic_order_cnt_bottom: i32,
    pub delta_pic_order_cnt0: i32,
    pub delta_pic_order_cnt1: i32,
}

const NO_COUNTS: OrderCounts = OrderCounts {
    pic_order_cnt_lsb: 0,
    delta_pic_order_cnt_bottom: 0,
    delta_pic_order_cnt0: 0,
    delta_pic_order_cnt1: 0,
};

#[tactic(auto, unfolding(crate::specs::SliceHeaderSyntax::order_table, expgolomb::specs::Structures::table_at, expgolomb::specs::TableReading::rows_at))]
pub fn order_counts(bits: &mut Bits<'_>, sps: &Sps, pps: &Pps) -> Result<OrderCounts, HeaderFault>
    ensures exact { Reads (λ counts. counts) result bits.new
        (table_at (order_table sps.now pps.now) bits.old) }
    ensures near { bits.new.before ≤ bits.old.before + 126 }
{
    match sps.pic_order_cnt_type {
        PicOrderCntType::Zero => type_zero(bits, sps, pps),
        PicOrderCntType::One if !sps.delta_pic_order_always_zero_flag => deltas(bits, sps, pps),
        _ => Ok(NO_COUNTS),
    }
}

#[tactic(auto, unfolding(crate::specs::SliceHeaderSyntax::order_table, expgolomb::specs::Structures::table_at, expgolomb::specs::TableReading::rows_at))]
fn type_zero(bits: &mut Bits<'_>, sps: &Sps, pps: &Pps) -> Result<OrderCounts, HeaderFault>
    requires { sps.now.pic_order_cnt_type ≡ PicOrderCntType.Zero }
    ensures exact { Reads (λ counts. counts) result bits.new
        (table_at (order_table sps.now pps.now) bits.old) }
    ensures near { bits.new.before ≤ bits.old.before + 126 }
{
    let pic_order_cnt_lsb = fixed(bits, sps.log2_max_pic_order_cnt_lsb_minus4.get() + 4)? as u16;
    let delta_pic_order_cnt_bottom = if pps.bottom_field_pic_order_in_frame_present_flag {
        se_any(bits)?
    } else {
        0
    };
    Ok(OrderCounts {
        pic_order_cnt_lsb,
        delta_pic_order_cnt_bottom,
        ..NO_COUNTS
    })
}

#[tactic(auto, unfolding(crate::specs::SliceHeaderSyntax::order_table, expgolomb::specs::Structures::table_at, expgolomb::specs::TableReading::rows_at))]
fn deltas(bits: &mut Bits<'_>, sps: &Sps, pps: &Pps) -> Result<OrderCounts, HeaderFault>
    requires one { sps.now.pic_order_cnt_type ≡ PicOrderCntType.One }
    requires sent { sps.now.delta_pic_order_always_zero_flag ≡ false }
    ensures exact { Reads (λ counts. counts) result bits.new
        (table_at (order_table sps.now pps.now) bits.old) }
    ensures near { bits.new.before ≤ bits.old.before + 126 }
{
    let delta_pic_order_cnt0 = se_any(bits)?;
    let delta_pic_order_cnt1 = if pps.bottom_field_pic_order_in_frame_present_flag {
        se_any(bits)?
    } else {
        0
    };
    Ok(OrderCounts {
        delta_pic_order_cnt0,
        delta_pic_order_cnt1,
        ..NO_COUNTS
    })
}
