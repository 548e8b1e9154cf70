//! A drawing of a stream: its layout, and the layout as an SVG document.
//!
//! `lay_out` says where the boxes of the units lie, in stream order and in output order, and where
//! the arcs to the frames that their lists name end, in whole numbers of pixels. No two boxes share
//! a point, each arc ends at the edges of its boxes, and the second row is in output order:
//! contracts and laws say so. `document` writes it, with letters, ids, positions, names of faults,
//! a legend and each unit's lines as its title: its contract is the whole text. The document needs
//! no script, no font and no other file, and has a light and a dark form. Texts go into it through
//! `push_escaped` alone. unit_drawing makes a unit as it is drawn, and draw_run draws streams.
#![tactic(auto)]

mod arc;
mod beginning;
mod boxes;
mod edit_marks;
mod end;
mod escape;
mod geometry;
mod grid;
mod laws;
mod layout;
mod letters;
mod lines;
mod output_row;
mod page;
mod stream_row;
mod style;
mod unit;
mod writing;

pub use arc::{Arc, arc_of};
pub use escape::{escapes_are_read_back, push_escaped};
pub use geometry::{Point, Rect};
pub use grid::{Grid, MOST_UNITS};
pub use laws::boxes_are_apart;
pub use layout::{Layout, lay_out};
pub use output_row::OutputUnit;
pub use unit::{
    DrawnPicture, DrawnReference, DrawnUnit, EditMark, PictureState, RefList, SliceTypes, UnitKind,
};
pub use writing::{Caption, document};
