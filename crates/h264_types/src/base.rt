//! Values that every layer uses: numbers with a greatest value, values with several owners, and
//! ranges of a list's items that are replaced in place.
//!
//! Contracts see an `AtMost` as its number and a `Shared` as the value. `replace_range` takes no
//! memory: who calls has made the room. It stands on the standard library alone.

mod at_most;
mod replacing;
mod shared;

pub use at_most::AtMost;
pub use replacing::replace_range;
pub use shared::Shared;

#[cfg(test)]
mod tests;
