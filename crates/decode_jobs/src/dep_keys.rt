//! Keys of pictures under numbers.
//!
//! A picture's key is a tree: its own work, and at each of its list entries the key of the picture
//! named. `Keys` keeps each tree once, as a node that names the keys of its entries by their
//! numbers: `intern` answers equal numbers exactly for equal trees, `node` the node of a number,
//! and `sweep` keeps the roots and all below them. What the work is is left to the crates above, as
//! `Work`; a `Fingerprint` finds the nodes that may be equal, and equality of the node decides.

mod fingerprint;
mod index;
mod key_id;
mod keys;
mod marks;
mod node;
mod numbers;
mod slots;

pub use fingerprint::{Fingerprint, Sha256Fingerprint};
pub use key_id::KeyId;
pub use keys::Keys;
pub use node::{Content, Node};
