//! What is drawn of a unit, by its outcome.
//!
//! `drawn_unit` makes a `DrawnUnit` of stream_svg: the types of its slices, its place in output order
//! and the frames that its lists name, or its fault, or that it has no picture. Its contract says
//! each of these. draw_run draws a stream's units by it.

mod lists;
mod types;
mod unit;

pub use unit::drawn_unit;
