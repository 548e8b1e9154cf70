//! A frame that is marked as a reference (8.2.5.1), and its numbers (8.2.4.1).

ghost use Rattle.std.specs.Prelude.{◌≡◌};

use crate::param_sets::Sps;
use crate::pictures::au_id::AuId;
use crate::pictures::counts::Counts;
use crate::pictures::pic_nums::frame_num_wrap;

/// Whether a frame is used for short-term or for long-term reference.
#[derive(Clone, Copy, Debug, PartialEq, Eq, Drop)]
pub enum Term {
    ShortTerm,
    LongTerm {
        /// LongTermFrameIdx.
        long_term_frame_idx: u8,
    },
}

impl Term {
    ghost use Rattle.h264_types.specs.MarkedFrames.{holds};

    /// Whether it is a long-term frame of this LongTermFrameIdx.
    pub fn holds(self, idx: u8) -> bool
        ensures { result ≡ holds idx self }
    {
        match self {
            Term::ShortTerm => false,
            Term::LongTerm {
                long_term_frame_idx,
            } => long_term_frame_idx == idx,
        }
    }
}

/// A frame that is marked as a reference.
#[derive(Clone, Copy, Debug, PartialEq, Eq, Drop)]
pub struct Frame {
    /// The access unit that it was decoded from.
    pub id: AuId,
    /// FrameNum: its frame_num, but 0 after memory_management_control_operation 5.
    pub frame_num: u16,
    pub term: Term,
    /// Its picture order counts, after resetting.
    pub counts: Counts,
}

impl Default for Frame {
    ghost use Rattle.h264_types.specs.MarkedFrames.{default_frame};

    ghost is_default = { λ frame. frame ≡ default_frame };

    fn default() -> Frame {
        Frame {
            id: AuId::new(0),
            frame_num: 0,
            term: Term::ShortTerm,
            counts: Counts { top: 0, bottom: 0 },
        }
    }
}

impl Frame {
    ghost use Rattle.h264_types.specs.MarkedFrames.{with_term};
    ghost use Rattle.h264_types.specs.PicNums.{pic_num, long_term_pic_num};

    /// PicNum of a short-term frame, for a picture with this frame_num; none of a long-term frame.
    pub fn pic_num(&self, sps: &Sps, frame_num: u16) -> Option<i64>
        ensures { result ≡ pic_num sps.now frame_num self.now }
    {
        match self.term {
            Term::ShortTerm => Some(frame_num_wrap(sps, frame_num, self.frame_num)),
            Term::LongTerm { .. } => None,
        }
    }

    /// LongTermPicNum of a long-term frame; none of a short-term frame.
    pub fn long_term_pic_num(&self) -> Option<u8>
        ensures { result ≡ long_term_pic_num self.now }
    {
        match self.term {
            Term::ShortTerm => None,
            Term::LongTerm {
                long_term_frame_idx,
            } => Some(long_term_frame_idx),
        }
    }

    /// The frame with this term.
    pub fn with_term(self, term: Term) -> Frame
        ensures { result ≡ with_term self term }
    {
        Frame { term, ..self }
    }
}
