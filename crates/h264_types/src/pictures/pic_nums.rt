//! FrameNumWrap, by which short-term frames are numbered (8.2.4.1).

ghost use Rattle.std.specs.Prelude.{◌≡◌, ◌≤ℤ◌, pos, negsuc};
ghost use Rattle.h264_types.specs.PicNums.{frame_num_wrap};

use crate::param_sets::Sps;

/// FrameNumWrap of a FrameNum, for a picture with this frame_num (8-27): PicNum of the short-term
/// frame that has it.
pub fn frame_num_wrap(sps: &Sps, frame_num: u16, number: u16) -> i64
    ensures value { result ≡ frame_num_wrap sps.now frame_num number }
    ensures low { negsuc 65535 ≤ℤ result }
    ensures high { result ≤ℤ pos 65535 }
{
    if number > frame_num {
        i64::from(number) - i64::from(sps.max_frame_num())
    } else {
        i64::from(number)
    }
}
