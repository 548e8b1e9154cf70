//! Jobs over the pictures of the stand-in.

use crate::picture::Picture;

/// A finished picture by its frame's timestamp in nanoseconds.
pub type Reference = decode_jobs::Reference<Picture>;

/// The requests of a picture, and the pictures of the frames that their lists name.
pub type Input = decode_jobs::Input<Picture>;

/// A picture to decode.
pub type Job = decode_jobs::Job<Picture>;

/// A job with the picture of its input.
pub type Finished = decode_jobs::Finished<Picture>;

/// A job that wasn't decoded, for lack of memory.
pub type Undone = decode_jobs::Undone<Picture>;
