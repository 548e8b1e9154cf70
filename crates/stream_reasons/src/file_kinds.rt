//! The kind of a file, by its first bytes.
//!
//! `kind_of` answers the first row of the tables in `rows` that fits, and a `FileKind` has a
//! sentence and the command of ffmpeg that makes an H.264 byte stream of it, if there is one. It
//! reads no parameter set and no slice: whether a stream is one that can be planned, access_unit
//! says.

mod detection;
mod headers;
mod kind;
mod lengths;
mod rows;
mod signatures;

pub use detection::{FIRST_BYTES, kind_of};
pub use kind::FileKind;
