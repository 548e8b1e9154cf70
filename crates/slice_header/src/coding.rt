//! The fields after the marking: entropy coding, quantisation and deblocking.

ghost use Rattle.std.specs.Prelude.{◌≡◌, ◌≤◌, ◌+◌};
ghost use Rattle.expgolomb.specs.Answer.{Reads};
ghost use Rattle.slice_header.specs.SliceHeaderSyntax.{coding_table, deblocking_table};
ghost use Rattle.expgolomb.specs.Structures.{table_at};

use crate::HeaderFault;
use crate::fields::{se, ue};
use expgolomb::Bits;
use h264_types::param_sets::Pps;
use h264_types::slice_headers::SliceType;

/// cabac_init_idc and slice_qp_delta.
#[derive(Clone, Copy)]
pub struct Coding {
    pub cabac_init_idc: u8,
    pub slice_qp_delta: i8,
}

#[tactic(auto, unfolding(crate::specs::SliceHeaderSyntax::coding_table, expgolomb::specs::Structures::table_at, expgolomb::specs::TableReading::rows_at))]
pub fn coding_fields(
    bits: &mut Bits<'_>,
    slice_type: SliceType,
    pps: &Pps,
) -> Result<Coding, HeaderFault>
    ensures exact { Reads (λ coding. coding) result bits.new
        (table_at (coding_table slice_type pps.now) bits.old) }
    ensures near { bits.new.before ≤ bits.old.before + 126 }
{
    let cabac_init_idc = if pps.entropy_coding_mode_flag && slice_type != SliceType::I {
        ue(bits, 2)? as u8
    } else {
        0
    };
    let slice_qp_delta = se(bits, -87, 87)? as i8;
    Ok(Coding {
        cabac_init_idc,
        slice_qp_delta,
    })
}

/// The fields of the deblocking filter.
#[derive(Clone, Copy)]
pub struct Deblocking {
    pub disable_deblocking_filter_idc: u8,
    pub slice_alpha_c0_offset_div2: i8,
    pub slice_beta_offset_div2: i8,
}

#[tactic(auto, unfolding(crate::specs::SliceHeaderSyntax::deblocking_table, expgolomb::specs::Structures::table_at, expgolomb::specs::TableReading::rows_at))]
pub fn deblocking_fields(bits: &mut Bits<'_>, pps: &Pps) -> Result<Deblocking, HeaderFault>
    ensures exact { Reads (λ deblocking. deblocking) result bits.new
        (table_at (deblocking_table pps.now) bits.old) }
    ensures near { bits.new.before ≤ bits.old.before + 189 }
{
    let mut deblocking = Deblocking {
        disable_deblocking_filter_idc: 0,
        slice_alpha_c0_offset_div2: 0,
        slice_beta_offset_div2: 0,
    };
    if pps.deblocking_filter_control_present_flag {
        deblocking.disable_deblocking_filter_idc = ue(bits, 2)? as u8;
        if deblocking.disable_deblocking_filter_idc != 1 {
            deblocking.slice_alpha_c0_offset_div2 = se(bits, -6, 6)? as i8;
            deblocking.slice_beta_offset_div2 = se(bits, -6, 6)? as i8;
        }
    }
    Ok(deblocking)
}
