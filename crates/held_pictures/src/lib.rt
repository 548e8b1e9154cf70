//! Which pictures are held: a cache of those that were brought, the least recently used first to
//! go, and the slots of keys that say which of them stand, are on their way or are wanted.
//!
//! Below it stands picture_keys, above it picture_store.
#![tactic(auto)]

pub mod key_slots;
pub mod picture_cache;
