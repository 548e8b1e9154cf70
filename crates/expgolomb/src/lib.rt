//! Bits of a payload, the codes of its syntax elements (ITU-T H.264, 7.2 and 9.1), and syntax
//! tables (7.3).
//!
//! Each call of `Bits` answers the value of the code at the place and moves past it, or says why
//! there is no code and stays. A table has rows of a field, its code, its condition and its range,
//! with one law of reading for every table; `ue` and its kin read one field. Parameter sets and
//! slice headers are read by such tables.
#![tactic(auto)]

mod bits;
mod fault;
mod fields;
mod word;

pub use bits::Bits;
pub use fault::CodeFault;
pub use fields::{fixed, fixed_at_most, flag, se, se_any, ue, ue_any};
