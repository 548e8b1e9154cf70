//! The set of the frames that are marked as references (8.2.5.1).

ghost use Rattle.std.specs.Prelude.{◌≡◌, ◌≤◌, ◌↔◌, IsTrue, [], length, None};

use crate::pictures::frames::Frame;
use arrayvec::ArrayVec;
use std::marker::Model;

/// The frames that are marked as references, in decode order, and the greatest long-term index that
/// they may have.
#[derive(Debug)]
pub struct Marks {
    /// In decode order.
    pub frames: ArrayVec<Frame, 16>,
    /// MaxLongTermFrameIdx, or none for "no long-term frame indices".
    pub max_long_term_frame_idx: Option<u8>,
}

// By hand, so that whoever drops one is proved over one call.
impl Drop for Marks {
    fn drop(self) {
        let Marks {
            frames: _,
            max_long_term_frame_idx: _,
        } = self;
    }
}

impl Model for Marks {
    ghost use Rattle.h264_types.specs.MarkedFrames.{Marked};

    ghost Value = { Marked };

    ghost view = { λ marks. record {
      frames = marks.frames.items;
      max_long_term_frame_idx = marks.max_long_term_frame_idx;
    } };

    ghost inverse = { λ marked. record {
      frames = record { items = marked.frames };
      max_long_term_frame_idx = marked.max_long_term_frame_idx;
    } };
}

impl Marks {
    ghost use Rattle.h264_types.specs.MarkedFrames.{no_frames};

    /// No frames, and no long-term indices.
    pub fn new() -> Marks
        ensures { result ≡ no_frames }
    {
        Marks {
            frames: ArrayVec::new(),
            max_long_term_frame_idx: None,
        }
    }

    /// The frames, in decode order.
    pub fn frames(&self) -> &[Frame]
        ensures value { result.now ≡ self.now.frames }
        ensures fits { length result.now ≤ 16 }
    {
        self.frames.as_slice()
    }

    /// The same frames and greatest index.
    pub fn copy(&self) -> Marks
        ensures { result ≡ self.now }
    {
        let mut frames = ArrayVec::new();
        let _ = frames.try_extend_from_slice(self.frames.as_slice());
        Marks {
            frames,
            max_long_term_frame_idx: self.max_long_term_frame_idx,
        }
    }

    /// Whether both have the same frames in the same order, and the same greatest index.
    pub fn is_same(&self, other: &Marks) -> bool
        ensures { IsTrue result ↔ (self.now ≡ other.now) }
    {
        self.max_long_term_frame_idx == other.max_long_term_frame_idx && self.frames == other.frames
    }
}
