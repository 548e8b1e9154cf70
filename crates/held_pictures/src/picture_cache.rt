//! The bounded list of pictures that a preview session keeps of keys that went out of use.
//!
//! `PictureCache` keeps pairs of a key and a picture, the pair put last first. Where it is full, a
//! new pair pushes out the last one. What a key and a picture are is left to the crates above.

mod cache;

pub use cache::{
    MOST_CAPACITY, PictureCache, put_is_found, put_keeps_the_others, take_keeps_the_others,
};
