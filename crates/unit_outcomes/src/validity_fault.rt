//! Why a unit has no plan.

ghost use Rattle.std.specs.Prelude.{◌≡◌};
ghost use Rattle.unit_outcomes.specs.Names.{name_of};
ghost use Rattle.unit_outcomes.specs.Numbers.{number_of};

use thiserror::Error;

/// What keeps a unit from being decoded, in the order in which it is looked for: the first that any
/// slice or the picture shows is given.
#[derive(Clone, Copy, Debug, PartialEq, Eq, Hash, Error)]
pub enum ValidityFault {
    /// A slice names a picture parameter set that wasn't sent.
    #[error("a slice names a picture parameter set that wasn't sent")]
    MissingPps = 1,
    /// That set names a sequence parameter set that wasn't sent.
    #[error("a sequence parameter set that is named wasn't sent")]
    MissingSps = 2,
    /// A slice header runs past its payload.
    #[error("a slice header runs past its payload")]
    HeaderCut = 3,
    /// A field of a slice header is out of its range, or its code has more than 31 zeros.
    #[error("a field of a slice header is out of its range")]
    HeaderValue = 4,
    /// redundant_pic_cnt isn't 0.
    #[error("a slice is redundant")]
    Redundant = 5,
    /// The first slice doesn't begin at macroblock 0, or first_mb_in_slice doesn't rise.
    #[error("first_mb_in_slice isn't 0 at first, or doesn't rise")]
    SliceOrder = 6,
    /// The slices differ in what they have to share.
    #[error("slices differ in what they have to share")]
    SliceMismatch = 7,
    /// No IDR picture came before.
    #[error("no IDR picture came before")]
    NoIdr = 8,
    /// The sequence parameter set isn't that of the last IDR picture.
    #[error("the sequence parameter set isn't that of the last IDR picture")]
    SpsChange = 9,
    /// The frame_num of an IDR picture isn't 0.
    #[error("the frame_num of an IDR picture isn't 0")]
    IdrFrameNum = 10,
    /// frame_num is neither that of the last reference picture nor the next one.
    #[error("frame_num is neither the last one nor the next")]
    FrameNumGap = 11,
    /// A reference picture has the frame_num of the last one, or of a short-term frame.
    #[error("frame_num is that of another reference picture")]
    FrameNumRepeat = 12,
    /// A picture order count is out of its range.
    #[error("a picture order count is out of its range")]
    OrderRange = 13,
    /// A B slice, and two pictures with one picture order count.
    #[error("two pictures have one picture order count")]
    OrderTie = 14,
    /// A P or B slice, and no frame to refer to.
    #[error("there is no frame to refer to")]
    NoReference = 15,
    /// A command of a reference list names no frame.
    #[error("a command of a reference list names no frame")]
    BadModification = 16,
    /// The reference marking can't be carried out.
    #[error("the reference marking can't be carried out")]
    BadMarking = 17,
    /// More frames are marked than the sequence parameter set allows.
    #[error("more frames are marked than the sequence parameter set allows")]
    TooManyReferences = 18,
}

impl ValidityFault {
    /// The fault's number.
    pub fn number(self) -> u8
        ensures { result ≡ number_of self }
    {
        self as u8
    }

    /// The fault's name, as it is printed.
    pub fn name(self) -> &'static str
        ensures { result.now ≡ name_of self }
    {
        match self {
            ValidityFault::MissingPps => "MissingPps",
            ValidityFault::MissingSps => "MissingSps",
            ValidityFault::HeaderCut => "HeaderCut",
            ValidityFault::HeaderValue => "HeaderValue",
            ValidityFault::Redundant => "Redundant",
            ValidityFault::SliceOrder => "SliceOrder",
            ValidityFault::SliceMismatch => "SliceMismatch",
            ValidityFault::NoIdr => "NoIdr",
            ValidityFault::SpsChange => "SpsChange",
            ValidityFault::IdrFrameNum => "IdrFrameNum",
            ValidityFault::FrameNumGap => "FrameNumGap",
            ValidityFault::FrameNumRepeat => "FrameNumRepeat",
            ValidityFault::OrderRange => "OrderRange",
            ValidityFault::OrderTie => "OrderTie",
            ValidityFault::NoReference => "NoReference",
            ValidityFault::BadModification => "BadModification",
            ValidityFault::BadMarking => "BadMarking",
            ValidityFault::TooManyReferences => "TooManyReferences",
        }
    }
}
