//! What is given to a decoder and what it brings, over the pictures of any decoder.
//!
//! A `Job` is the requests of a picture with the pictures of its references; a `Finished` is a job
//! with a picture that the decoder made of it. `Decoded` is what a decoder's pictures are: a ghost
//! member says which it makes of what; `surfaces` are the pictures of a host's own decoder.
//! `dep_keys` keeps the keys of pictures under numbers. Below is h264_controls; above are picture_keys
//! and stand_in_device.
#![tactic(auto)]

mod decoded;
pub mod dep_keys;
mod input;
mod job;
mod same;
pub mod surfaces;

pub use decoded::Decoded;
pub use input::{Input, Reference, picture_of_frame};
pub use job::{Finished, Job, Undone};
