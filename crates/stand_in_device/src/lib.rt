//! The stand-in for a decoder: its picture is a digest of what a decoder would be asked and of the
//! pictures referred to.
//!
//! A `Job` is the requests of a picture with the pictures of its references; `Device::decode` runs
//! them through the queues of a stateless decoder, a slice at a time, and gives the picture, a
//! SHA-256. So a request that differs in one bit, or a wrong reference, shows as another picture.
//! `m2m_queues` has the queues. Below is decode_jobs; above is stand_in_session.
#![tactic(auto)]

mod decoding;
mod device;
mod job;
pub mod m2m_queues;
mod picture;
mod records;
mod sets_digest;
mod slice_digest;

pub use device::{Device, picture_of_a_key_is_its_digest};
pub use job::{Finished, Input, Job, Reference, Undone};
pub use picture::Picture;
