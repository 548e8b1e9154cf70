//! Picture order counts of a frame (8.2.1).

ghost use Rattle.std.specs.Prelude.{◌≡◌};
ghost use Rattle.h264_types.specs.PicOrderCnt.{pic_order_cnt};

/// TopFieldOrderCnt and BottomFieldOrderCnt of a frame.
#[derive(Clone, Copy, Debug, PartialEq, Eq, Hash)]
pub struct Counts {
    pub top: i32,
    pub bottom: i32,
}

impl Counts {
    /// PicOrderCnt of the frame, by which it is shown and found (8-1).
    pub fn pic_order_cnt(self) -> i32
        ensures { result ≡ pic_order_cnt self }
    {
        self.top.min(self.bottom)
    }
}
