//! Reads a slice header in three parts, structure by structure (7.3.3).

ghost use Rattle.std.specs.Prelude.{◌≡◌, ◌+◌, ◌≤◌, not, if◌then◌else◌};
ghost use Rattle.annexb.specs.NalUnit.{nal_ref_idc, nal_unit_type};
ghost use Rattle.slice_header.specs.HeaderAnswer.{Stores};
ghost use Rattle.slice_header.specs.SliceHeaders.{syntax_of};
ghost use Rattle.slice_header.specs.SliceHeaderSyntax.{weights_of, is_weighted, is_monochrome, header_from, picture_syntax, reference_syntax, ending_syntax};
ghost use Rattle.h264_types.specs.SliceTypes.{has_list, is_b};
ghost use Rattle.expgolomb.specs.Answer.{Reads};
ghost use Rattle.expgolomb.specs.Structures.{syntax_at};

use crate::coding::{Coding, Deblocking, coding_fields, deblocking_fields};
use crate::marking_syntax::dec_ref_pic_marking;
use crate::modification_syntax::ref_pic_list_modification;
use crate::picture_fields::{Numbers, OrderCounts, order_counts, picture_numbers};
use crate::prediction::{ActiveCounts, Prediction, active_counts, prediction_fields};
use crate::weight_syntax::pred_weight_table;
use crate::{HeaderFault, HeaderFront, header_front};
use annexb::Nal;
use expgolomb::Bits;
use h264_types::param_sets::{ChromaFormat, Pps, Sps, WeightedBipred};
use h264_types::slice_headers::{
    DecRefPicMarking, PredWeightTable, RefPicListModifications, SliceHeader, SliceType,
};
use std::alloc::Global;

/// Which picture the slice is of, and the bits that its picture order count takes.
#[derive(Clone, Copy)]
pub struct PicturePart {
    pub front: HeaderFront,
    pub numbers: Numbers,
    pub orders: OrderCounts,
    pub order_bits: u32,
}

/// How the slice is predicted from other pictures.
#[derive(Drop)]
pub struct ReferencePart {
    pub prediction: Prediction,
    pub active: ActiveCounts,
    pub list0: RefPicListModifications,
    pub list1: RefPicListModifications,
    pub weights: Option<PredWeightTable>,
}

/// The marking with the bits that it takes, what stands after it, and where the header ends.
#[derive(Drop)]
pub struct EndingPart {
    pub marking: DecRefPicMarking,
    pub coding: Coding,
    pub deblocking: Deblocking,
    pub marking_bits: u32,
    pub after: u32,
}

/// The three parts of a header.
#[derive(Drop)]
pub struct HeaderFields {
    pub picture: PicturePart,
    pub references: ReferencePart,
    pub ending: EndingPart,
}

/// Reads the parts of a unit's header.
#[inline(always)]
pub fn header_fields(
    alloc: Global,
    nal: &Nal<'_>,
    bits: &mut Bits<'_>,
    sps: &Sps,
    pps: &Pps,
) -> Result<HeaderFields, HeaderFault>
    requires { bits.old.before ≤ 8 }
    ensures { Stores (λ fields. header_from (nal_ref_idc nal.now)
        (nal_unit_type nal.now) fields) result bits.new
        (syntax_at (syntax_of nal.now sps.now pps.now) bits.old) }
{
    let is_idr = nal.nal_unit_type() == 5;
    let is_reference = nal.nal_ref_idc() != 0;
    let picture = picture_part(bits, is_idr, sps, pps)?;
    let slice_type = picture.front.slice_type;
    let references = reference_part(alloc, bits, slice_type, sps, pps)?;
    let ending = ending_part(alloc, bits, is_reference, is_idr, slice_type, pps)?;
    Ok(HeaderFields {
        picture,
        references,
        ending,
    })
}

#[tactic(auto, unfolding(crate::specs::SliceHeaderSyntax::picture_syntax, expgolomb::specs::Structures::syntax_at))]
fn picture_part(
    bits: &mut Bits<'_>,
    is_idr: bool,
    sps: &Sps,
    pps: &Pps,
) -> Result<PicturePart, HeaderFault>
    requires { bits.old.before ≤ 8 }
    ensures exact { Reads (λ picture. picture) result bits.new
        (syntax_at (picture_syntax is_idr sps.now pps.now) bits.old) }
    ensures near { bits.new.before ≤ bits.old.before + 441 }
{
    let front = header_front(bits, (sps.pic_size_in_mbs() - 1) as u32)?;
    let numbers = picture_numbers(bits, is_idr, sps)?;
    let orders_from = bits.place() as u32;
    let orders = order_counts(bits, sps, pps)?;
    let orders_to = bits.place() as u32;
    Ok(PicturePart {
        front,
        numbers,
        orders,
        order_bits: orders_to.saturating_sub(orders_from),
    })
}

#[tactic(auto, unfolding(crate::specs::SliceHeaderSyntax::reference_syntax, expgolomb::specs::Structures::syntax_at))]
fn reference_part(
    alloc: Global,
    bits: &mut Bits<'_>,
    slice_type: SliceType,
    sps: &Sps,
    pps: &Pps,
) -> Result<ReferencePart, HeaderFault>
    ensures exact { Stores (λ references. references) result bits.new
        (syntax_at (reference_syntax slice_type sps.now pps.now) bits.old) }
    ensures near { bits.new.before ≤ bits.old.before + 57000 }
{
    let prediction = prediction_fields(bits, slice_type, pps)?;
    let active = active_counts(bits, slice_type, pps)?;
    let max_frame_num = sps.max_frame_num();
    let l0 = active.num_ref_idx_l0_active_minus1.get();
    let list0 = ref_pic_list_modification(alloc, bits, has_list(slice_type), l0, max_frame_num)?;
    let l1 = active.num_ref_idx_l1_active_minus1.get();
    let list1 = ref_pic_list_modification(alloc, bits, is_b(slice_type), l1, max_frame_num)?;
    let weights = weights(alloc, bits, slice_type, l0, l1, sps, pps)?;
    Ok(ReferencePart {
        prediction,
        active,
        list0,
        list1,
        weights,
    })
}

#[tactic(auto, unfolding(crate::specs::SliceHeaderSyntax::ending_syntax, expgolomb::specs::Structures::syntax_at))]
fn ending_part(
    alloc: Global,
    bits: &mut Bits<'_>,
    is_reference: bool,
    is_idr: bool,
    slice_type: SliceType,
    pps: &Pps,
) -> Result<EndingPart, HeaderFault>
    requires { bits.old.before ≤ 60000 }
    ensures { Stores (λ ending. ending) result bits.new
        (syntax_at (ending_syntax is_reference is_idr slice_type pps.now) bits.old) }
{
    let marking_from = bits.place() as u32;
    let marking = dec_ref_pic_marking(alloc, bits, is_reference, is_idr)?;
    let marking_to = bits.place() as u32;
    let coding = coding_fields(bits, slice_type, pps)?;
    let deblocking = deblocking_fields(bits, pps)?;
    Ok(EndingPart {
        marking,
        coding,
        deblocking,
        marking_bits: marking_to.saturating_sub(marking_from),
        after: bits.place() as u32,
    })
}

/// The header of these fields.
#[inline(always)]
pub fn header_from(nal: &Nal<'_>, fields: HeaderFields) -> SliceHeader
    ensures { result ≡ header_from (nal_ref_idc nal.now) (nal_unit_type nal.now) fields }
{
    let HeaderFields {
        picture,
        references,
        ending,
    } = fields;
    SliceHeader {
        nal_ref_idc: nal.nal_ref_idc(),
        nal_unit_type: nal.nal_unit_type(),
        first_mb_in_slice: picture.front.first_mb_in_slice,
        slice_type: picture.front.slice_type,
        pic_parameter_set_id: picture.front.pic_parameter_set_id,
        frame_num: picture.numbers.frame_num,
        idr_pic_id: picture.numbers.idr_pic_id,
        pic_order_cnt_lsb: picture.orders.pic_order_cnt_lsb,
        delta_pic_order_cnt_bottom: picture.orders.delta_pic_order_cnt_bottom,
        delta_pic_order_cnt0: picture.orders.delta_pic_order_cnt0,
        delta_pic_order_cnt1: picture.orders.delta_pic_order_cnt1,
        redundant_pic_cnt: references.prediction.redundant_pic_cnt,
        direct_spatial_mv_pred_flag: references.prediction.direct_spatial_mv_pred_flag,
        num_ref_idx_l0_active_minus1: references.active.num_ref_idx_l0_active_minus1,
        num_ref_idx_l1_active_minus1: references.active.num_ref_idx_l1_active_minus1,
        ref_pic_list_modification_l0: references.list0,
        ref_pic_list_modification_l1: references.list1,
        pred_weight_table: references.weights,
        dec_ref_pic_marking: ending.marking,
        cabac_init_idc: ending.coding.cabac_init_idc,
        slice_qp_delta: ending.coding.slice_qp_delta,
        disable_deblocking_filter_idc: ending.deblocking.disable_deblocking_filter_idc,
        slice_alpha_c0_offset_div2: ending.deblocking.slice_alpha_c0_offset_div2,
        slice_beta_offset_div2: ending.deblocking.slice_beta_offset_div2,
        header_bit_size: ending.after,
        dec_ref_pic_marking_bit_size: ending.marking_bits,
        pic_order_cnt_bit_size: picture.order_bits,
    }
}

// The table of weights, where the slice has one.
fn weights(
    alloc: Global,
    bits: &mut Bits<'_>,
    slice_type: SliceType,
    l0: u8,
    l1: u8,
    sps: &Sps,
    pps: &Pps,
) -> Result<Option<PredWeightTable>, HeaderFault>
    requires few_l0 { l0 ≤ 31 }
    requires few_l1 { l1 ≤ 31 }
    ensures exact { Stores (λ weights. weights) result bits.new
        (syntax_at (weights_of slice_type l0 l1 sps.now pps.now) bits.old) }
    ensures near { bits.new.before ≤ bits.old.before + 40000 }
{
    if is_weighted(slice_type, pps) {
        let list1 = active_l1(slice_type, l1);
        let table = pred_weight_table(alloc, bits, has_chroma(sps), l0 + 1, list1)?;
        Ok(Some(table))
    } else {
        Ok(None)
    }
}

// How many entries of list 1 have weights.
fn active_l1(slice_type: SliceType, l1: u8) -> u8
    requires { l1 ≤ 31 }
    ensures value { result ≡ (if is_b slice_type then l1 + 1 else 0) }
    ensures few { result ≤ 32 }
{
    if is_b(slice_type) { l1 + 1 } else { 0 }
}

fn has_chroma(sps: &Sps) -> bool
    ensures { result ≡ not (is_monochrome sps.now.chroma_format_idc) }
{
    match sps.chroma_format_idc {
        ChromaFormat::Monochrome => false,
        _ => true,
    }
}

fn has_list(slice_type: SliceType) -> bool
    ensures { result ≡ has_list slice_type }
{
    matches!(slice_type, SliceType::P | SliceType::B)
}

fn is_b(slice_type: SliceType) -> bool
    ensures { result ≡ is_b slice_type }
{
    slice_type == SliceType::B
}

fn is_weighted(slice_type: SliceType, pps: &Pps) -> bool
    ensures { result ≡ is_weighted slice_type pps.now }
{
    match slice_type {
        SliceType::P => pps.weighted_pred_flag,
        SliceType::B => pps.weighted_bipred_idc == WeightedBipred::Explicit,
        _ => false,
    }
}
