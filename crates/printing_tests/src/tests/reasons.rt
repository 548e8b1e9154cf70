//! The sentences of refusals and faults.

use super::row_holds;
use access_unit::Refused;
use param_sets::{SetFault, SetField};
use std::alloc::{AllocError, Global};
use std::test::Fail;
use stream_reasons::Reason;
use unit_outcomes::ValidityFault;

const SENTENCES: [(Reason, &str); 58] = [
    (
        Reason::Refused(Refused::Split),
        "the file has no NAL unit, or one that is empty or has bytes that none may have (B.1, 7.4.1)",
    ),
    (
        Reason::Refused(Refused::UnitType),
        "a NAL unit is of a type that isn't read: data partitions, a subset SPS, a prefix, or slices of other views or layers (table 7-1)",
    ),
    (
        Reason::Refused(Refused::ForbiddenBit),
        "forbidden_zero_bit of a NAL unit is 1: it is damaged (7.4.1)",
    ),
    (
        Reason::Refused(Refused::Sps),
        "a sequence parameter set can't be read (7.3.2.1.1)",
    ),
    (
        Reason::Refused(Refused::Pps),
        "a picture parameter set can't be read (7.3.2.2)",
    ),
    (
        Reason::Refused(Refused::Switching),
        "a slice is of type SP or SI, which the Extended profile alone has (7.4.3)",
    ),
    (
        Reason::Refused(Refused::MixedIdr),
        "slices of an IDR picture and of another one stand in one access unit (7.4.1.2.4)",
    ),
    (
        Reason::Refused(Refused::IdrNotIntra),
        "an IDR picture has a P or B slice (7.4.3)",
    ),
    (
        Reason::Refused(Refused::IdrNotReference),
        "an IDR picture has nal_ref_idc 0 (7.4.1)",
    ),
    (
        Reason::Refused(Refused::MixedReference),
        "nal_ref_idc is 0 in a slice of an access unit and not in another (7.4.1)",
    ),
    (
        Reason::Refused(Refused::UnitOrder),
        "a NAL unit stands behind a slice that belongs before it (7.4.1.2.3)",
    ),
    (
        Reason::Refused(Refused::TwoPictures),
        "a second picture begins in one access unit (7.4.1.2.3)",
    ),
    (
        Reason::Refused(Refused::TooLarge),
        "an access unit has more than 4,194,304 bytes or 256 slices",
    ),
    (Reason::Refused(Refused::Memory), "out of memory"),
    (
        Reason::StreamFull,
        "there are more than 65,536 access units",
    ),
    (
        Reason::Set(SetFault::Cut),
        "the parameter set ends within a field (7.3.2)",
    ),
    (
        Reason::Set(SetFault::Profile),
        "profile_idc is none of 66, 77, 100, 110 and 122: the profile isn't supported (A.2)",
    ),
    (
        Reason::Set(SetFault::Chroma444),
        "chroma_format_idc is 3: 4:4:4 isn't supported (7.4.2.1.1)",
    ),
    (
        Reason::Set(SetFault::Interlaced),
        "frame_mbs_only_flag is 0: interlaced coding isn't supported (7.4.2.1.1)",
    ),
    (
        Reason::Set(SetFault::SliceGroups),
        "num_slice_groups_minus1 isn't 0: slice groups aren't supported (7.4.2.2)",
    ),
    (
        Reason::Set(SetFault::RefFrames),
        "max_num_ref_frames is above 16 (7.4.2.1.1)",
    ),
    (Reason::Set(SetFault::Memory), "out of memory"),
    (
        Reason::Field(SetField::SpsId),
        "seq_parameter_set_id is out of its range (7.4.2)",
    ),
    (
        Reason::Field(SetField::ChromaFormat),
        "chroma_format_idc is out of its range (7.4.2)",
    ),
    (
        Reason::Field(SetField::BitDepth),
        "bit_depth_luma_minus8 or bit_depth_chroma_minus8 is out of its range (7.4.2)",
    ),
    (
        Reason::Field(SetField::FrameNumBits),
        "log2_max_frame_num_minus4 is out of its range (7.4.2)",
    ),
    (
        Reason::Field(SetField::CountType),
        "pic_order_cnt_type is out of its range (7.4.2)",
    ),
    (
        Reason::Field(SetField::CountBits),
        "log2_max_pic_order_cnt_lsb_minus4 is out of its range (7.4.2)",
    ),
    (
        Reason::Field(SetField::CycleLength),
        "num_ref_frames_in_pic_order_cnt_cycle is out of its range (7.4.2)",
    ),
    (
        Reason::Field(SetField::Offset),
        "an offset of pic_order_cnt_type 1 is out of its range (7.4.2)",
    ),
    (
        Reason::Field(SetField::Width),
        "pic_width_in_mbs_minus1 is out of its range (7.4.2)",
    ),
    (
        Reason::Field(SetField::Height),
        "pic_height_in_map_units_minus1 is out of its range (7.4.2)",
    ),
    (
        Reason::Field(SetField::PpsId),
        "pic_parameter_set_id is out of its range (7.4.2)",
    ),
    (
        Reason::Field(SetField::ActiveCount),
        "num_ref_idx_l0_default_active_minus1 or num_ref_idx_l1_default_active_minus1 is out of its range (7.4.2)",
    ),
    (
        Reason::Field(SetField::BipredIdc),
        "weighted_bipred_idc is out of its range (7.4.2)",
    ),
    (
        Reason::Field(SetField::InitQp),
        "pic_init_qp_minus26 is out of its range (7.4.2)",
    ),
    (
        Reason::Field(SetField::InitQs),
        "pic_init_qs_minus26 is out of its range (7.4.2)",
    ),
    (
        Reason::Field(SetField::ChromaOffset),
        "chroma_qp_index_offset or second_chroma_qp_index_offset is out of its range (7.4.2)",
    ),
    (
        Reason::Field(SetField::Delta),
        "delta_scale is out of its range (7.4.2)",
    ),
    (
        Reason::Fault(ValidityFault::MissingPps),
        "a slice names a picture parameter set that wasn't sent (7.4.1.2.1)",
    ),
    (
        Reason::Fault(ValidityFault::MissingSps),
        "a picture parameter set names a sequence parameter set that wasn't sent (7.4.1.2.1)",
    ),
    (
        Reason::Fault(ValidityFault::HeaderCut),
        "the NAL unit ends within the slice header (7.3.3)",
    ),
    (
        Reason::Fault(ValidityFault::HeaderValue),
        "a field of the slice header is out of its range (7.4.3)",
    ),
    (
        Reason::Fault(ValidityFault::Redundant),
        "redundant_pic_cnt isn't 0: redundant slices aren't decoded (7.4.3)",
    ),
    (
        Reason::Fault(ValidityFault::SliceOrder),
        "the first slice doesn't begin at macroblock 0, or a later one not behind the one before it: slices are missing, or not in order (7.4.3)",
    ),
    (
        Reason::Fault(ValidityFault::SliceMismatch),
        "the slices differ in what those of one picture share (7.4.3)",
    ),
    (
        Reason::Fault(ValidityFault::NoIdr),
        "no IDR picture stands before it, so it can't be decoded (7.4.1.2.1)",
    ),
    (
        Reason::Fault(ValidityFault::SpsChange),
        "it refers to another sequence parameter set than the last IDR picture (7.4.1.2.1)",
    ),
    (
        Reason::Fault(ValidityFault::IdrFrameNum),
        "frame_num of an IDR picture isn't 0 (7.4.3)",
    ),
    (
        Reason::Fault(ValidityFault::FrameNumGap),
        "frame_num is neither that of the last reference picture nor the next one: pictures are missing (7.4.3)",
    ),
    (
        Reason::Fault(ValidityFault::FrameNumRepeat),
        "frame_num is that of another reference picture: pictures are missing, or one stands twice (7.4.3)",
    ),
    (
        Reason::Fault(ValidityFault::OrderRange),
        "a picture order count is out of its range (8.2.1)",
    ),
    (
        Reason::Fault(ValidityFault::OrderTie),
        "two pictures have one picture order count, so a B slice has no order of them (8.2.1)",
    ),
    (
        Reason::Fault(ValidityFault::NoReference),
        "a P or B slice has no frame to refer to (8.2.4.2)",
    ),
    (
        Reason::Fault(ValidityFault::BadModification),
        "a command of a reference list names a frame that isn't there (8.2.4.3)",
    ),
    (
        Reason::Fault(ValidityFault::BadMarking),
        "the reference marking names a frame that isn't there, or can't be carried out (8.2.5)",
    ),
    (
        Reason::Fault(ValidityFault::TooManyReferences),
        "more frames are marked than max_num_ref_frames allows (8.2.5.3)",
    ),
    (
        Reason::FrameNumGap {
            frame_num: 5,
            last: 3,
            next: 4,
        },
        "frame_num is 5 and 3 or 4 was expected: pictures are missing (7.4.3)",
    ),
];

/// Whether the row's reason is this sentence.
fn sentence_holds(alloc: Global, row: &(Reason, &str)) -> Result<bool, AllocError> {
    Ok(row.0.to_string(alloc)?.as_str() == row.1)
}

#[test]
fn reasons_are_sentences(rt: HostRuntime) -> Result<(), Fail> {
    for (row, sentence) in SENTENCES.iter().enumerate() {
        row_holds(&rt, row, sentence_holds(rt.alloc(), sentence)?);
    }
    Ok(())
}
