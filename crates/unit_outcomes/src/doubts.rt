//! Pictures that follow a damage: which break a unit follows, and whether its picture is in doubt,
//! from the outcomes of a stream's units.
//!
//! A fault is local: a picture behind it may be valid by its numbers and yet be made of other
//! frames than its encoder meant, as frame_num wraps (ITU-T H.264, 7.4.3). `DoubtWalk` goes over units
//! one by one, and tells of each what the definitions in specs/InDoubt.antt say. It may begin at the
//! first unit or at a valid IDR picture; `doubts` begins at the last one before a range.

mod breaks;
mod entries;
mod id_set;
mod range;
mod walk;

pub use breaks::{is_break, is_idr_picture};
pub use range::{doubts, walk_start};
pub use walk::{Doubt, DoubtWalk, doubt_follows, intra_is_sound};
