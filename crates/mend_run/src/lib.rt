//! `preview mend`: a stream read, mended and written (docs/OUTPUT.md).
//!
//! `mend_on` writes what stays of what a reader gives, by stream_mending, and tells what it left out, a
//! line each, as they come: it reads by chunks, and holds what stands between two start codes and an
//! access unit. Above is cli.
#![tactic(auto)]

mod input;
mod running;
#[cfg(test)]
mod tests;

pub use running::{MendFault, mend_on};
