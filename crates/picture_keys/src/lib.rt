//! Keys of the pictures of a stream: what each is made of, down to the pictures that refer to none.
//!
//! The key of a valid unit is the tree of its slices' bodies with, at each entry of their reference
//! lists, the key of the picture that the entry names; timestamps are no part of it. dep_keys keeps
//! such trees under numbers: here are the bodies that stand in its nodes, the node of a unit, and
//! the law that what a decoder makes for a unit is a picture of its key.
//!
//! A unit's bytes are hashed once, when the unit is read: `HashedUnit` keeps the digest and how
//! many bytes were hashed beside the unit, and `HashedOutcome` the digest beside its outcome, so
//! that keys are looked for without the bytes. Clauses see the unit and the outcome. `changed_units`
//! finds what a change of a stream changed. Below are decode_jobs and unit_outcomes; above are
//! held_pictures and stream_edits.
#![tactic(auto)]

pub mod changed_units;
mod digest;
mod hashed_bytes;
mod hashed_outcome;
mod hashed_unit;
mod laws;
mod named;
mod nodes;
mod numbers;
mod request_bodies;
mod unit_keys;
mod units;

pub use digest::SlicesDigest;
pub use hashed_bytes::HashedBytes;
pub use hashed_outcome::HashedOutcome;
pub use hashed_unit::HashedUnit;
pub use laws::{node_is_that_of_its_key, picture_is_of_its_key};
pub use named::units_named;
pub use nodes::node_of;
pub use numbers::KeyNumbers;
pub use request_bodies::RequestBodies;
pub use unit_keys::UnitKeys;
pub use units::hash_units;
