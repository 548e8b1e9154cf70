//! struct v4l2_h264_dpb_entry.

ghost use Rattle.std.specs.Prelude.{◌≡◌};
ghost use Rattle.h264_controls.specs.DecodeParamsForm.{field_reference_number};
ghost use Rattle.frame_requests.specs.DpbLayout.{dpb_entry_at, dpb_entry_layout, reference_ts_at};

use crate::layouts::flag_names::FlagNames;
use h264_controls::{V4l2H264DpbEntry, V4l2H264FieldReference};
use h264_types::pictures::AuId;
use serde::{Serialize, Serializer};
use std::mem::size_of;

/// struct v4l2_h264_dpb_entry: all zeros where it holds no frame.
#[repr(C)]
#[derive(Clone, Copy, Debug, PartialEq, Eq, Serialize)]
pub struct DpbEntryLayout {
    /// The timestamp of the frame, in nanoseconds.
    pub reference_ts: u64,
    pub pic_num: u32,
    pub frame_num: u16,
    pub fields: u8,
    #[serde(skip)]
    pub reserved: [u8; 5],
    pub top_field_order_cnt: i32,
    pub bottom_field_order_cnt: i32,
    /// V4L2_H264_DPB_ENTRY_FLAG_*.
    #[serde(serialize_with = "dpb_entry_flag_names")]
    pub flags: u32,
}

const _: () = prove!(size_of::<DpbEntryLayout>() == 32);

/// V4L2_H264_DPB_ENTRY_FLAG_*.
const DPB_ENTRY_FLAGS: [&str; 4] = [
    "V4L2_H264_DPB_ENTRY_FLAG_VALID",
    "V4L2_H264_DPB_ENTRY_FLAG_ACTIVE",
    "V4L2_H264_DPB_ENTRY_FLAG_LONG_TERM",
    "V4L2_H264_DPB_ENTRY_FLAG_FIELD",
];

pub(crate) const NO_ENTRY: DpbEntryLayout = DpbEntryLayout {
    reference_ts: 0,
    pic_num: 0,
    frame_num: 0,
    fields: 0,
    reserved: [0; 5],
    top_field_order_cnt: 0,
    bottom_field_order_cnt: 0,
    flags: 0,
};

impl DpbEntryLayout {
    /// The entry at a place of the decoded picture buffer, where it holds a frame.
    pub(crate) fn at(entries: &[V4l2H264DpbEntry], units: &[AuId], place: usize) -> DpbEntryLayout
        ensures { result ≡ dpb_entry_at entries.now units.now place }
    {
        match entries.get(place) {
            Some(entry) => DpbEntryLayout::of(entry, reference_ts_at(units, place)),
            None => NO_ENTRY,
        }
    }

    fn of(entry: &V4l2H264DpbEntry, reference_ts: u64) -> DpbEntryLayout
        ensures { result ≡ dpb_entry_layout reference_ts entry.now }
    {
        DpbEntryLayout {
            reference_ts,
            pic_num: entry.pic_num,
            frame_num: entry.frame_num,
            fields: field_reference_number(entry.fields),
            reserved: [0; 5],
            top_field_order_cnt: entry.top_field_order_cnt,
            bottom_field_order_cnt: entry.bottom_field_order_cnt,
            flags: entry.flags.number(),
        }
    }
}

/// The timestamp of the unit at a place.
fn reference_ts_at(units: &[AuId], place: usize) -> u64
    ensures { result ≡ reference_ts_at units.now place }
{
    match units.get(place) {
        Some(unit) => unit.timestamp(),
        None => 0,
    }
}

fn field_reference_number(fields: V4l2H264FieldReference) -> u8
    ensures { result ≡ field_reference_number fields }
{
    fields as u8
}

fn dpb_entry_flag_names<S: Serializer>(flags: &u32, out: &mut S) -> Result<(), S::Error> {
    out.collect_str(&FlagNames {
        flags: *flags,
        names: &DPB_ENTRY_FLAGS,
    })
}
