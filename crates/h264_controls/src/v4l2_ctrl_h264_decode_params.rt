//! V4L2_CID_STATELESS_H264_DECODE_PARAMS.

ghost use Rattle.std.specs.Prelude.{◌≡◌, ◌↔◌, ◌+◌, ◌*◌, ◌≤◌, ◌++◌, length, vec_len, IsTrue, map, IfOk};
ghost use Rattle.std.specs.Vec.{vec_capacity};
ghost use Rattle.std.specs.List.{flat_map};
ghost use Rattle.h264_controls.specs.DecodeParamsForm.{decode_flags, decode_params_form, dpb_entry_flags, dpb_entry_form, dpb_form, field_reference_number};
ghost use Rattle.h264_types.specs.PicNums.{frame_num_wrap};
ghost use Rattle.h264_controls.specs.DecodeParamsControl.{decode_params_control, dpb, dpb_entry, frame_num_in, number_in};

use crate::dpb::Dpb;
use h264_types::param_sets::Sps;
use h264_types::pictures::{Counts, Frame, Marks, Term, frame_num_wrap};
use h264_types::slice_headers::SliceHeader;
use param_set_controls::words::{flag, put, put_s32, put_u16, put_u32, put_zeros};
use std::alloc::{AllocError, Global};

/// struct v4l2_ctrl_h264_decode_params: what the header says of the picture, and the decoded
/// picture buffer.
#[derive(Debug)]
pub struct V4l2CtrlH264DecodeParams {
    /// The frames that were marked before the picture's own marking, in decode order; none at an
    /// IDR picture.
    pub dpb: Dpb,
    /// nal_ref_idc of the slice.
    pub nal_ref_idc: u16,
    pub frame_num: u16,
    /// TopFieldOrderCnt before memory_management_control_operation 5 resets it.
    pub top_field_order_cnt: i32,
    /// BottomFieldOrderCnt before that.
    pub bottom_field_order_cnt: i32,
    pub idr_pic_id: u16,
    pub pic_order_cnt_lsb: u16,
    pub delta_pic_order_cnt_bottom: i32,
    pub delta_pic_order_cnt0: i32,
    pub delta_pic_order_cnt1: i32,
    /// The size of dec_ref_pic_marking() in bits.
    pub dec_ref_pic_marking_bit_size: u32,
    /// The size in bits of the fields from pic_order_cnt_lsb to delta_pic_order_cnt1 together.
    pub pic_order_cnt_bit_size: u32,
    /// 0 here, and so one byte in place of Linux's four: a set with several slice groups is
    /// refused.
    pub slice_group_change_cycle: u8,
    pub flags: DecodeFlags,
}

// By hand, so that whoever drops one is proved over one call.
impl Drop for V4l2CtrlH264DecodeParams {
    fn drop(self) {
        let V4l2CtrlH264DecodeParams {
            dpb: _,
            nal_ref_idc: _,
            frame_num: _,
            top_field_order_cnt: _,
            bottom_field_order_cnt: _,
            idr_pic_id: _,
            pic_order_cnt_lsb: _,
            delta_pic_order_cnt_bottom: _,
            delta_pic_order_cnt0: _,
            delta_pic_order_cnt1: _,
            dec_ref_pic_marking_bit_size: _,
            pic_order_cnt_bit_size: _,
            slice_group_change_cycle: _,
            flags: _,
        } = self;
    }
}

/// struct v4l2_h264_dpb_entry: a frame of the decoded picture buffer, without reference_ts, which
/// depends on the stream.
#[derive(Clone, Copy, Debug, PartialEq, Eq, Default)]
pub struct V4l2H264DpbEntry {
    /// PicNum as its low 32 bits; LongTermPicNum of a long-term frame.
    pub pic_num: u32,
    /// FrameNum; LongTermFrameIdx of a long-term frame.
    pub frame_num: u16,
    pub fields: V4l2H264FieldReference,
    /// TopFieldOrderCnt after memory_management_control_operation 5 of the frame's picture.
    pub top_field_order_cnt: i32,
    /// BottomFieldOrderCnt after that.
    pub bottom_field_order_cnt: i32,
    pub flags: DpbEntryFlags,
}

/// enum v4l2_h264_field_reference: which fields are referred to. Only frames occur here.
#[derive(Clone, Copy, Debug, PartialEq, Eq, Default)]
pub enum V4l2H264FieldReference {
    TopField = 1,
    BottomField = 2,
    #[default]
    Frame = 3,
}

/// V4L2_H264_DPB_ENTRY_FLAG_*, without FIELD, which no frame has.
#[derive(Clone, Copy, Debug, PartialEq, Eq, Default)]
pub struct DpbEntryFlags {
    /// Always set here.
    pub valid: bool,
    /// Always set here.
    pub active: bool,
    pub long_term: bool,
}

/// V4L2_H264_DECODE_PARAM_FLAG_*, without those that no unit of this project sets: FIELD_PIC,
/// BOTTOM_FIELD, PFRAME and BFRAME.
#[derive(Clone, Copy, Debug, PartialEq, Eq)]
pub struct DecodeFlags {
    pub idr_pic: bool,
}

impl DpbEntryFlags {
    /// The flags as Linux numbers them.
    pub fn number(self) -> u32
        ensures { result ≡ dpb_entry_flags self }
    {
        u32::from(flag(1, self.valid) + flag(2, self.active) + flag(4, self.long_term))
    }
}

impl DecodeFlags {
    /// The flags as Linux numbers them.
    pub fn number(self) -> u32
        ensures { result ≡ decode_flags self }
    {
        u32::from(flag(1, self.idr_pic))
    }
}

impl V4l2H264DpbEntry {
    /// Its digest form goes after the form.
    #[tactic(auto, unfolding(crate::specs::DecodeParamsForm::dpb_entry_form))]
    fn put(&self, form: &mut Vec<u8>)
        requires { vec_len form.old + 19 ≤ vec_capacity form.old }
        ensures items { form.new.items ≡ form.old.items ++ dpb_entry_form self.now }
        ensures len { vec_len form.new ≡ vec_len form.old + 19 }
        ensures capacity { vec_capacity form.old ≤ vec_capacity form.new }
    {
        put_u32(form, self.pic_num);
        put_u16(form, self.frame_num);
        put(form, &[field_reference_number(self.fields)]);
        put_s32(form, self.top_field_order_cnt);
        put_s32(form, self.bottom_field_order_cnt);
        put_u32(form, self.flags.number());
    }
}

impl V4l2CtrlH264DecodeParams {
    /// Whether all members are the same.
    pub fn is_same(&self, other: &V4l2CtrlH264DecodeParams) -> bool
        ensures { IsTrue result ↔ (self.now ≡ other.now) }
    {
        same_numbers(self, other)
            && same_counts(self, other)
            && same_sizes(self, other)
            && self.dpb.is_same(&other.dpb)
    }

    /// Its digest form goes after the form.
    #[tactic(auto, unfolding(crate::specs::DecodeParamsForm::decode_params_form))]
    pub(crate) fn put(&self, form: &mut Vec<u8>)
        requires { vec_len form.old + 348 ≤ vec_capacity form.old }
        ensures items { form.new.items ≡ form.old.items ++ decode_params_form self.now }
        ensures len { vec_len form.new ≡ vec_len form.old + 348 }
        ensures capacity { vec_capacity form.old ≤ vec_capacity form.new }
    {
        put_dpb(form, &self.dpb);
        put_u16(form, self.nal_ref_idc);
        put_u16(form, self.frame_num);
        put_s32(form, self.top_field_order_cnt);
        put_s32(form, self.bottom_field_order_cnt);
        put_u16(form, self.idr_pic_id);
        put_u16(form, self.pic_order_cnt_lsb);
        put_s32(form, self.delta_pic_order_cnt_bottom);
        put_s32(form, self.delta_pic_order_cnt0);
        put_s32(form, self.delta_pic_order_cnt1);
        put_u32(form, self.dec_ref_pic_marking_bit_size);
        put_u32(form, self.pic_order_cnt_bit_size);
        put_u32(form, u32::from(self.slice_group_change_cycle));
        put_u32(form, self.flags.number());
    }
}

/// Whether the picture has the same numbers.
fn same_numbers(a: &V4l2CtrlH264DecodeParams, b: &V4l2CtrlH264DecodeParams) -> bool
    ensures { IsTrue result ↔ (
        (a.now.frame_num ≡ b.now.frame_num)
        × (a.now.pic_order_cnt_lsb ≡ b.now.pic_order_cnt_lsb)
        × (a.now.nal_ref_idc ≡ b.now.nal_ref_idc)
        × (a.now.idr_pic_id ≡ b.now.idr_pic_id)
        × (a.now.flags ≡ b.now.flags)
        ) }
{
    a.frame_num == b.frame_num
        && a.pic_order_cnt_lsb == b.pic_order_cnt_lsb
        && a.nal_ref_idc == b.nal_ref_idc
        && a.idr_pic_id == b.idr_pic_id
        && a.flags == b.flags
}

/// Whether the picture is counted alike.
fn same_counts(a: &V4l2CtrlH264DecodeParams, b: &V4l2CtrlH264DecodeParams) -> bool
    ensures { IsTrue result ↔ (
        (a.now.top_field_order_cnt ≡ b.now.top_field_order_cnt)
        × (a.now.bottom_field_order_cnt ≡ b.now.bottom_field_order_cnt)
        × (a.now.delta_pic_order_cnt_bottom ≡ b.now.delta_pic_order_cnt_bottom)
        × (a.now.delta_pic_order_cnt0 ≡ b.now.delta_pic_order_cnt0)
        × (a.now.delta_pic_order_cnt1 ≡ b.now.delta_pic_order_cnt1)
        ) }
{
    a.top_field_order_cnt == b.top_field_order_cnt
        && a.bottom_field_order_cnt == b.bottom_field_order_cnt
        && a.delta_pic_order_cnt_bottom == b.delta_pic_order_cnt_bottom
        && a.delta_pic_order_cnt0 == b.delta_pic_order_cnt0
        && a.delta_pic_order_cnt1 == b.delta_pic_order_cnt1
}

/// Whether the parts of the header have the same sizes.
fn same_sizes(a: &V4l2CtrlH264DecodeParams, b: &V4l2CtrlH264DecodeParams) -> bool
    ensures { IsTrue result ↔ (
        (a.now.dec_ref_pic_marking_bit_size ≡ b.now.dec_ref_pic_marking_bit_size)
        × (a.now.pic_order_cnt_bit_size ≡ b.now.pic_order_cnt_bit_size)
        × (a.now.slice_group_change_cycle ≡ b.now.slice_group_change_cycle)
        ) }
{
    a.dec_ref_pic_marking_bit_size == b.dec_ref_pic_marking_bit_size
        && a.pic_order_cnt_bit_size == b.pic_order_cnt_bit_size
        && a.slice_group_change_cycle == b.slice_group_change_cycle
}

fn field_reference_number(fields: V4l2H264FieldReference) -> u8
    ensures { result ≡ field_reference_number fields }
{
    fields as u8
}

// The decoded picture buffer, and zeros up to 16 frames.
fn put_dpb(form: &mut Vec<u8>, dpb: &Dpb)
    requires { vec_len form.old + 304 ≤ vec_capacity form.old }
    ensures items { form.new.items ≡ form.old.items ++ dpb_form dpb.now }
    ensures len { vec_len form.new ≡ vec_len form.old + 304 }
    ensures capacity { vec_capacity form.old ≤ vec_capacity form.new }
{
    let entries = dpb.as_slice();
    put_entries(form, entries);
    put_zeros(form, 304 - 19 * entries.len());
}

fn put_entries(form: &mut Vec<u8>, entries: &[V4l2H264DpbEntry])
    requires { vec_len form.old + 19 * length entries.now ≤ vec_capacity form.old }
    ensures items { form.new.items ≡ form.old.items ++ flat_map dpb_entry_form entries.now }
    ensures len { vec_len form.new ≡ vec_len form.old + 19 * length entries.now }
    ensures capacity { vec_capacity form.old ≤ vec_capacity form.new }
{
    for entry in entries {
        entry.put(form);
    }
}

impl V4l2CtrlH264DecodeParams {
    /// The control of a slice with this header, of a picture with these counts, before its marking.
    pub fn of(
        alloc: Global,
        marks: &Marks,
        sps: &Sps,
        header: &SliceHeader,
        counts: Counts,
    ) -> Result<V4l2CtrlH264DecodeParams, AllocError>
        ensures { IfOk result (λ control. control
            ≡ decode_params_control marks.now.frames sps.now header.now counts) }
    {
        Ok(V4l2CtrlH264DecodeParams {
            dpb: dpb(alloc, marks, sps, header)?,
            nal_ref_idc: u16::from(header.nal_ref_idc),
            frame_num: header.frame_num,
            top_field_order_cnt: counts.top,
            bottom_field_order_cnt: counts.bottom,
            idr_pic_id: header.idr_pic_id,
            pic_order_cnt_lsb: header.pic_order_cnt_lsb,
            delta_pic_order_cnt_bottom: header.delta_pic_order_cnt_bottom,
            delta_pic_order_cnt0: header.delta_pic_order_cnt0,
            delta_pic_order_cnt1: header.delta_pic_order_cnt1,
            dec_ref_pic_marking_bit_size: header.dec_ref_pic_marking_bit_size,
            pic_order_cnt_bit_size: header.pic_order_cnt_bit_size,
            slice_group_change_cycle: 0,
            flags: DecodeFlags {
                idr_pic: header.is_idr(),
            },
        })
    }
}

/// The marked frames, in decode order; none at an IDR picture.
fn dpb(alloc: Global, marks: &Marks, sps: &Sps, header: &SliceHeader) -> Result<Dpb, AllocError>
    ensures { IfOk result (λ entries. entries ≡ dpb marks.now.frames sps.now header.now) }
{
    if header.is_idr() {
        Dpb::with_capacity(alloc, 0)
    } else {
        dpb_entries(alloc, sps, header.frame_num, marks.frames())
    }
}

/// Marked frames, as a picture of this frame_num sees them.
fn dpb_entries(
    alloc: Global,
    sps: &Sps,
    frame_num: u16,
    frames: &[Frame],
) -> Result<Dpb, AllocError>
    requires { length frames.now ≤ 16 }
    ensures { IfOk result (λ entries. entries ≡ map (dpb_entry sps.now frame_num) frames.now) }
{
    let mut dpb = Dpb::with_capacity(alloc, frames.len())?;
    for frame in frames {
        dpb.push(dpb_entry(sps, frame_num, frame))?;
    }
    Ok(dpb)
}

/// A marked frame, as a picture of this frame_num sees it.
fn dpb_entry(sps: &Sps, frame_num: u16, frame: &Frame) -> V4l2H264DpbEntry
    ensures { result ≡ dpb_entry sps.now frame_num frame.now }
{
    V4l2H264DpbEntry {
        pic_num: number_of(sps, frame_num, frame).cast_unsigned(),
        frame_num: frame_num_of(frame),
        fields: V4l2H264FieldReference::Frame,
        top_field_order_cnt: frame.counts.top,
        bottom_field_order_cnt: frame.counts.bottom,
        flags: DpbEntryFlags {
            valid: true,
            active: true,
            long_term: matches!(frame.term, Term::LongTerm { .. }),
        },
    }
}

/// PicNum of a short-term frame, LongTermPicNum of a long-term one.
fn number_of(sps: &Sps, frame_num: u16, frame: &Frame) -> i32
    ensures { result
        ≡ number_in (frame_num_wrap sps.now frame_num frame.now.frame_num) frame.now.term }
{
    match frame.term {
        Term::LongTerm {
            long_term_frame_idx,
        } => i32::from(long_term_frame_idx),
        Term::ShortTerm => frame_num_wrap(sps, frame_num, frame.frame_num) as i32,
    }
}

/// FrameNum of a short-term frame, LongTermFrameIdx of a long-term one.
fn frame_num_of(frame: &Frame) -> u16
    ensures { result ≡ frame_num_in frame.now.frame_num frame.now.term }
{
    match frame.term {
        Term::LongTerm {
            long_term_frame_idx,
        } => u16::from(long_term_frame_idx),
        Term::ShortTerm => frame.frame_num,
    }
}
