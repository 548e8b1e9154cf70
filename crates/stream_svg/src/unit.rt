//! Units as a drawing shows them.

use h264_types::pictures::AuId;
use unit_outcomes::ValidityFault;

/// A unit of a stream as it is drawn.
#[derive(Debug, Drop)]
pub struct DrawnUnit {
    pub id: AuId,
    pub kind: UnitKind,
    /// The frames that its lists name, each once for each list.
    pub references: Vec<DrawnReference>,
    /// Whether its picture may be made of other frames than were meant.
    pub in_doubt: bool,
    /// What edits did to it, where some were made.
    pub mark: Option<EditMark>,
}

/// What edits did to a unit.
#[derive(Clone, Copy, Debug, PartialEq, Eq)]
pub struct EditMark {
    /// Whether it is altered: it is valid, and made of something of which no unit was when the stream
    /// was marked. It is hatched then.
    pub altered: bool,
    /// What became of its picture, if it has one.
    pub picture: Option<PictureState>,
}

/// What became of the picture of a unit.
#[derive(Clone, Copy, Debug, PartialEq, Eq)]
pub enum PictureState {
    /// It is held.
    Stayed,
    /// It has to be decoded.
    Pending,
}

/// What a unit is drawn as.
#[derive(Clone, Copy, Debug, PartialEq, Eq)]
pub enum UnitKind {
    Picture(DrawnPicture),
    Fault(ValidityFault),
    /// The unit has no slice.
    Empty,
}

/// What is drawn of a valid unit.
#[derive(Clone, Copy, Debug, PartialEq, Eq)]
pub struct DrawnPicture {
    pub types: SliceTypes,
    /// How many pictures of the stream are output before it.
    pub position: usize,
    /// Whether output order begins anew with it.
    pub begins_period: bool,
}

/// Which slice types the slices of a picture have.
#[derive(Clone, Copy, Debug, PartialEq, Eq)]
pub struct SliceTypes {
    pub intra: bool,
    pub predicted: bool,
    pub bipredicted: bool,
}

/// A frame that a list of a unit names.
#[derive(Clone, Copy, Debug, PartialEq, Eq)]
pub struct DrawnReference {
    pub list: RefList,
    /// The unit of the frame.
    pub frame: AuId,
    pub long_term: bool,
}

/// A reference picture list.
#[derive(Clone, Copy, Debug, PartialEq, Eq)]
pub enum RefList {
    /// RefPicList0, whose arcs lie below the row of the stream.
    Zero,
    /// RefPicList1, whose arcs lie above it.
    One,
}
