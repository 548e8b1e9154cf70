//! Mending: a byte stream without what keeps it from being read (ITU-T H.264, 7.4.1.2.3).
//!
//! `mend` leaves out of a text what no command reads, puts an access unit delimiter where two
//! pictures would be taken for one, and tells each place and why. A `Mender` does so with a stream as
//! it comes. What a NAL unit is and where access
//! units end stands in annexb, what is refused in access_unit. Above are mend_run, stream_check and
//! c_calls.
#![tactic(auto)]

mod faults;
mod joint;
mod laws;
mod mender;
mod mending;
mod open_portion;
mod pieces;
mod why;

pub use laws::{a_stream_stays, kept_in_order, mended_is_a_stream, mended_is_short, mended_stays};
pub use mender::{Mender, mend};
pub use mending::Mended;
pub use why::{LeftOut, Why};
