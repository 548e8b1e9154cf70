//! The sentences of refusals, of faults and of what is wrong with parameter sets.

ghost use Rattle.std.specs.Prelude.{◌≡◌};
ghost use Rattle.stream_reasons.specs.Sentences.{fault_sentence, field_text, refused_sentence, set_sentence};

use access_unit::Refused;
use param_sets::{SetFault, SetField};
use unit_outcomes::ValidityFault;

/// Why an access unit is refused.
pub(crate) fn refused_sentence(refused: Refused) -> &'static str
    ensures { result.now ≡ refused_sentence refused }
{
    match refused {
        Refused::Split => {
            "the file has no NAL unit, or one that is empty or has bytes that none may have \
             (B.1, 7.4.1)"
        }
        Refused::UnitType => {
            "a NAL unit is of a type that isn't read: data partitions, a subset SPS, a prefix, \
             or slices of other views or layers (table 7-1)"
        }
        Refused::ForbiddenBit => "forbidden_zero_bit of a NAL unit is 1: it is damaged (7.4.1)",
        Refused::Sps => "a sequence parameter set can't be read (7.3.2.1.1)",
        Refused::Pps => "a picture parameter set can't be read (7.3.2.2)",
        Refused::Switching =>
            "a slice is of type SP or SI, which the Extended profile alone has (7.4.3)",
        Refused::MixedIdr =>
            "slices of an IDR picture and of another one stand in one access unit (7.4.1.2.4)",
        Refused::IdrNotIntra => "an IDR picture has a P or B slice (7.4.3)",
        Refused::IdrNotReference => "an IDR picture has nal_ref_idc 0 (7.4.1)",
        Refused::MixedReference =>
            "nal_ref_idc is 0 in a slice of an access unit and not in another (7.4.1)",
        Refused::UnitOrder => "a NAL unit stands behind a slice that belongs before it (7.4.1.2.3)",
        Refused::TwoPictures => "a second picture begins in one access unit (7.4.1.2.3)",
        Refused::TooLarge => "an access unit has more than 4,194,304 bytes or 256 slices",
        Refused::Memory => "out of memory",
    }
}

/// Why a parameter set isn't read, but for the field that is out of its range.
pub(crate) fn set_sentence(fault: SetFault) -> &'static str
    ensures { result.now ≡ set_sentence fault }
{
    match fault {
        SetFault::Cut => "the parameter set ends within a field (7.3.2)",
        SetFault::Range { .. } => "a field is out of its range",
        SetFault::Profile =>
            "profile_idc is none of 66, 77, 100, 110 and 122: the profile isn't supported (A.2)",
        SetFault::Chroma444 => "chroma_format_idc is 3: 4:4:4 isn't supported (7.4.2.1.1)",
        SetFault::Interlaced =>
            "frame_mbs_only_flag is 0: interlaced coding isn't supported (7.4.2.1.1)",
        SetFault::SliceGroups =>
            "num_slice_groups_minus1 isn't 0: slice groups aren't supported (7.4.2.2)",
        SetFault::RefFrames => "max_num_ref_frames is above 16 (7.4.2.1.1)",
        SetFault::Memory => "out of memory",
    }
}

/// The standard's name of a field of a parameter set.
pub(crate) fn field_text(field: SetField) -> &'static str
    ensures { result.now ≡ field_text field }
{
    match field {
        SetField::SpsId => "seq_parameter_set_id",
        SetField::ChromaFormat => "chroma_format_idc",
        SetField::BitDepth => "bit_depth_luma_minus8 or bit_depth_chroma_minus8",
        SetField::FrameNumBits => "log2_max_frame_num_minus4",
        SetField::CountType => "pic_order_cnt_type",
        SetField::CountBits => "log2_max_pic_order_cnt_lsb_minus4",
        SetField::CycleLength => "num_ref_frames_in_pic_order_cnt_cycle",
        SetField::Offset => "an offset of pic_order_cnt_type 1",
        SetField::Width => "pic_width_in_mbs_minus1",
        SetField::Height => "pic_height_in_map_units_minus1",
        SetField::PpsId => "pic_parameter_set_id",
        SetField::ActiveCount =>
            "num_ref_idx_l0_default_active_minus1 or num_ref_idx_l1_default_active_minus1",
        SetField::BipredIdc => "weighted_bipred_idc",
        SetField::InitQp => "pic_init_qp_minus26",
        SetField::InitQs => "pic_init_qs_minus26",
        SetField::ChromaOffset => "chroma_qp_index_offset or second_chroma_qp_index_offset",
        SetField::Delta => "delta_scale",
    }
}

/// Why a unit isn't valid, and what that means.
pub(crate) fn fault_sentence(fault: ValidityFault) -> &'static str
    ensures { result.now ≡ fault_sentence fault }
{
    match fault {
        ValidityFault::MissingPps =>
            "a slice names a picture parameter set that wasn't sent (7.4.1.2.1)",
        ValidityFault::MissingSps =>
            "a picture parameter set names a sequence parameter set that wasn't sent (7.4.1.2.1)",
        ValidityFault::HeaderCut => "the NAL unit ends within the slice header (7.3.3)",
        ValidityFault::HeaderValue => "a field of the slice header is out of its range (7.4.3)",
        ValidityFault::Redundant =>
            "redundant_pic_cnt isn't 0: redundant slices aren't decoded (7.4.3)",
        ValidityFault::SliceOrder => {
            "the first slice doesn't begin at macroblock 0, or a later one not behind the one \
             before it: slices are missing, or not in order (7.4.3)"
        }
        ValidityFault::SliceMismatch =>
            "the slices differ in what those of one picture share (7.4.3)",
        ValidityFault::NoIdr =>
            "no IDR picture stands before it, so it can't be decoded (7.4.1.2.1)",
        ValidityFault::SpsChange =>
            "it refers to another sequence parameter set than the last IDR picture (7.4.1.2.1)",
        ValidityFault::IdrFrameNum => "frame_num of an IDR picture isn't 0 (7.4.3)",
        ValidityFault::FrameNumGap => {
            "frame_num is neither that of the last reference picture nor the next one: pictures \
             are missing (7.4.3)"
        }
        ValidityFault::FrameNumRepeat => {
            "frame_num is that of another reference picture: pictures are missing, or one stands \
             twice (7.4.3)"
        }
        ValidityFault::OrderRange => "a picture order count is out of its range (8.2.1)",
        ValidityFault::OrderTie =>
            "two pictures have one picture order count, so a B slice has no order of them (8.2.1)",
        ValidityFault::NoReference => "a P or B slice has no frame to refer to (8.2.4.2)",
        ValidityFault::BadModification =>
            "a command of a reference list names a frame that isn't there (8.2.4.3)",
        ValidityFault::BadMarking =>
            "the reference marking names a frame that isn't there, or can't be carried out (8.2.5)",
        ValidityFault::TooManyReferences =>
            "more frames are marked than max_num_ref_frames allows (8.2.5.3)",
    }
}
