//! Why a parameter set was not read.

ghost use Rattle.std.specs.Prelude.{◌≡◌};
ghost use Rattle.param_sets.specs.declared.fault.SetFault.TheVariants.{Memory};
ghost use Rattle.param_sets.specs.FaultNumbers.{number_of};

use std::alloc::{AllocError, AllocFailed};
use thiserror::Error;

/// The fields that have a range, or several of one range.
#[derive(Clone, Copy, Debug, PartialEq, Eq, Hash)]
pub enum SetField {
    /// seq_parameter_set_id, 0 to 31.
    SpsId,
    /// chroma_format_idc, 0 to 3.
    ChromaFormat,
    /// bit_depth_luma_minus8 and bit_depth_chroma_minus8, 0 to 6.
    BitDepth,
    /// log2_max_frame_num_minus4, 0 to 12.
    FrameNumBits,
    /// pic_order_cnt_type, 0 to 2.
    CountType,
    /// log2_max_pic_order_cnt_lsb_minus4, 0 to 12.
    CountBits,
    /// num_ref_frames_in_pic_order_cnt_cycle, 0 to 255.
    CycleLength,
    /// offset_for_non_ref_pic, offset_for_top_to_bottom_field and offset_for_ref_frame: a code too
    /// long.
    Offset,
    /// pic_width_in_mbs_minus1, 0 to 65,535.
    Width,
    /// pic_height_in_map_units_minus1, 0 to 65,535.
    Height,
    /// pic_parameter_set_id, 0 to 255.
    PpsId,
    /// num_ref_idx_l0_default_active_minus1 and num_ref_idx_l1_default_active_minus1, 0 to 31.
    ActiveCount,
    /// weighted_bipred_idc, 0 to 2.
    BipredIdc,
    /// pic_init_qp_minus26, -62 to 25.
    InitQp,
    /// pic_init_qs_minus26, -26 to 25.
    InitQs,
    /// chroma_qp_index_offset and second_chroma_qp_index_offset, -12 to 12.
    ChromaOffset,
    /// delta_scale, -128 to 127.
    Delta,
}

/// Why a parameter set was not read: what the first field shows that can't be read.
#[derive(Clone, Copy, Debug, PartialEq, Eq, Hash, Error)]
pub enum SetFault {
    /// The payload ends within a field.
    #[error("the payload ends within a field")]
    Cut,
    /// A field is out of its range, or its code has more than 31 zeros.
    #[error("{field:?} is out of its range")]
    Range { field: SetField },
    /// profile_idc is none of 66, 77, 100, 110 and 122.
    #[error("a profile that isn't known")]
    Profile,
    /// chroma_format_idc is 3.
    #[error("chroma format 4:4:4")]
    Chroma444,
    /// frame_mbs_only_flag is 0.
    #[error("interlaced coding")]
    Interlaced,
    /// num_slice_groups_minus1 isn't 0.
    #[error("several slice groups")]
    SliceGroups,
    /// max_num_ref_frames is above 16.
    #[error("more than 16 reference frames")]
    RefFrames,
    /// A growth was refused.
    #[error("out of memory")]
    Memory,
}

impl SetFault {
    /// The fault's number, from 1 in the order above.
    pub fn number(self) -> u8
        ensures { result ≡ number_of self }
    {
        match self {
            SetFault::Cut => 1,
            SetFault::Range { .. } => 2,
            SetFault::Profile => 3,
            SetFault::Chroma444 => 4,
            SetFault::Interlaced => 5,
            SetFault::SliceGroups => 6,
            SetFault::RefFrames => 7,
            SetFault::Memory => 8,
        }
    }
}

impl From<AllocError> for SetFault {
    ghost from_gives = { λ _ e. e ≡ Memory };

    fn from(_e: AllocError) -> SetFault {
        SetFault::Memory
    }
}

impl<T: Drop> From<AllocFailed<T>> for SetFault {
    ghost from_gives = { λ _ e. e ≡ Memory };

    fn from(_e: AllocFailed<T>) -> SetFault {
        SetFault::Memory
    }
}
