//! What becomes of the reference frames once the picture is decoded (7.3.3.3, 7.4.3.3).

ghost use Rattle.std.specs.Prelude.{◌≡◌, ◌↔◌, ◌<◌, ◌≤◌, List, [], ◌∷◌, ◌++◌, IsTrue, length, OnOk, OnErr};
ghost use Rattle.h264_types.specs.Operations.{most_operations};
ghost use Rattle.h264_types.specs.declared.slice_headers.dec_ref_pic_marking.MemoryManagementControlOperation.{MemoryManagementControlOperation};

use smallvec::SmallVec;
use std::alloc::{AllocError, Global};
use std::marker::Model;

/// One memory_management_control_operation, with its operands.
#[derive(Clone, Copy, Debug, PartialEq, Eq, Hash, Drop)]
pub enum MemoryManagementControlOperation {
    /// 1: a short-term frame is no longer a reference.
    FreeShortTerm {
        difference_of_pic_nums_minus1: u32,
    },
    /// 2: a long-term frame is no longer a reference.
    FreeLongTerm {
        long_term_pic_num: u32,
    },
    /// 3: a short-term frame becomes long-term.
    AssignLongTerm {
        difference_of_pic_nums_minus1: u32,
        long_term_frame_idx: u32,
    },
    /// 4: long-term frames have indices below this number, the rest are freed.
    LimitLongTerm {
        max_long_term_frame_idx_plus1: u32,
    },
    /// 5: no frame is a reference any more, and counting begins anew.
    FreeAll,
    /// 6: the current picture becomes long-term.
    CurrentLongTerm {
        long_term_frame_idx: u32,
    },
}

impl Default for MemoryManagementControlOperation {
    ghost use Rattle.h264_types.specs.declared.slice_headers.dec_ref_pic_marking.MemoryManagementControlOperation.TheVariants.{FreeAll};

    ghost is_default = { λ operation. operation ≡ FreeAll };

    fn default() -> MemoryManagementControlOperation {
        MemoryManagementControlOperation::FreeAll
    }
}

/// How many operations a picture has at most (this program's own limit).
pub const MOST_OPERATIONS: u8 = 64;

/// The operations of a picture, in their order: at most `MOST_OPERATIONS`.
#[derive(Debug, Drop)]
pub struct MemoryManagementControlOperations {
    operations: SmallVec<MemoryManagementControlOperation, 4>,
}

impl Model for MemoryManagementControlOperations {
    ghost Value = { List MemoryManagementControlOperation };

    ghost view = { λ list. list.operations.items };

    ghost invariant = { λ list. length list.operations.items ≤ most_operations };
}

impl MemoryManagementControlOperations {
    /// No operations.
    pub fn new(alloc: Global) -> MemoryManagementControlOperations
        ensures { result ≡ [] }
    {
        MemoryManagementControlOperations {
            operations: SmallVec::new(alloc),
        }
    }

    /// Whether there is no room for one more.
    pub fn is_full(&self) -> bool
        ensures { IsTrue result ↔ (length self.now ≡ most_operations) }
    {
        self.operations.len() == usize::from(MOST_OPERATIONS)
    }

    /// One operation more, after the others; there is room for it.
    pub fn push(&mut self, operation: MemoryManagementControlOperation) -> Result<(), AllocError>
        requires { length self.old < most_operations }
        ensures ok { OnOk result (self.new ≡ self.old ++ operation ∷ []) }
        ensures err { OnErr result (self.new ≡ self.old) }
    {
        self.operations.push(operation)?;
        Ok(())
    }

    /// The operations, in their order.
    pub fn as_slice(&self) -> &[MemoryManagementControlOperation]
        ensures items { result.now ≡ self.now }
        ensures bound { length result.now ≤ most_operations }
    {
        self.operations.as_slice()
    }
}

/// dec_ref_pic_marking of a picture.
#[derive(Debug, Drop)]
pub enum DecRefPicMarking {
    /// An IDR picture: all frames are freed.
    Idr {
        no_output_of_prior_pics_flag: bool,
        long_term_reference_flag: bool,
    },
    /// adaptive_ref_pic_marking_mode_flag is 0, or the picture is no reference.
    SlidingWindow,
    /// adaptive_ref_pic_marking_mode_flag is 1.
    Adaptive {
        operations: MemoryManagementControlOperations,
    },
}
