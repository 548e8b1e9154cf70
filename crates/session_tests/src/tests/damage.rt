//! Damaged units: each beginning of a unit's text, and texts of which one bit is another.

mod beginnings;
mod flips;
