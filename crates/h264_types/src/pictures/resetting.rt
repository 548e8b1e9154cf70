//! Memory management control operation 5, after which counting begins anew (8.2.1, 7.4.3.3).
ghost use Rattle.std.specs.Prelude.{◌≡◌, IsTrue};
ghost use Rattle.h264_types.specs.PicOrderCnt.{are_in_range};
ghost use Rattle.h264_types.specs.Resetting.{has_operation_five, counts_after_reset};

use crate::pictures::counts::Counts;
use crate::slice_headers::{DecRefPicMarking, MemoryManagementControlOperation, SliceHeader};

/// Whether the picture has memory_management_control_operation 5.
#[tactic(auto, unfolding(crate::specs::Resetting::has_operation_five))]
pub fn resets(header: &SliceHeader) -> bool
    ensures { result ≡ has_operation_five header.now }
{
    match &header.dec_ref_pic_marking {
        DecRefPicMarking::Adaptive { operations } => operations
            .as_slice()
            .contains(&MemoryManagementControlOperation::FreeAll),
        _ => false,
    }
}

/// The counts that are kept of a picture once it is decoded: where operation 5 stands, both less
/// the smaller.
///
/// For the counts that `count` answers for the header, the result always fits.
#[tactic(auto, unfolding(crate::specs::Resetting::counts_after_reset))]
pub fn after_reset(header: &SliceHeader, counts: Counts) -> Counts
    requires { IsTrue (are_in_range (counts_after_reset header.now counts)) }
    ensures { result ≡ counts_after_reset header.now counts }
{
    if resets(header) {
        let least = counts.pic_order_cnt();
        Counts {
            top: counts.top - least,
            bottom: counts.bottom - least,
        }
    } else {
        counts
    }
}
