//! Access units of H.264 (ITU-T H.264, 7.4.1.2.3).
//!
//! A text is read as one access unit, or as a stream of them, or refused by number. A unit owns its
//! bytes once and shares them, and its parameter sets are read once. `read_units` reads a stream in
//! threads; `read_alone` answers the same, gives each access unit a copy of its own text, and
//! starts no thread: for a library whose calls may start none. What the slices' headers say is left
//! to the crates above.
#![tactic(auto)]

mod checks;
mod content;
mod cuts;
mod joining;
mod parameter_sets;
mod parts;
mod placed;
mod places;
mod reading;
mod refused;
mod shared_nal;
mod stream;
mod stream_units;
mod unit;

pub use parameter_sets::ParameterSet;
pub use places::read_split;
pub use reading::{one_answer, read_alone};
pub use refused::Refused;
pub use shared_nal::SharedNal;
pub use stream::{StreamRefused, gather, read_shared_stream, read_stream};
pub use stream_units::{MOST_UNITS, ReadFault, Refusal, read_units};
pub use unit::{MOST_BYTES, Unit, read_shared, read_unit};
