//! The measures of a drawing.

ghost use Rattle.std.specs.Prelude.{◌≤◌};

use crate::geometry::Rect;

/// The most units that one drawing shows.
pub const MOST_UNITS: usize = 1000;
/// What lies left of the first box.
pub const LEFT: usize = 60;
/// What lies right of the last box.
pub const RIGHT: usize = 20;
/// The height of the legend, above the arcs of list 1.
pub const HEAD: usize = 56;
/// What lies below the boxes of the second row.
pub const FOOT: usize = 24;
/// From the right edge of a box to the left edge of the next one.
pub const GAP: usize = 4;
/// The height of a box of the stream.
pub const STREAM_HEIGHT: usize = 44;
/// The height of a box of the second row.
pub const OUTPUT_HEIGHT: usize = 34;
/// The height of the lines between the rows, below the arcs of list 0.
pub const CROSSING: usize = 56;
/// The greatest height of the arcs of a list.
pub const MOST_BAND: usize = 128;
/// The least width of a drawing, which is that of the legend.
pub const LEAST_WIDTH: usize = 1100;

/// The measures of a drawing.
#[derive(Clone, Copy, Debug)]
pub struct Grid {
    /// How many units are drawn.
    pub units: usize,
    /// From the left edge of a box to that of the next one.
    pub pitch: usize,
    /// The height of the arcs of list 1, above the row of the stream.
    pub above: usize,
    /// The height of the arcs of list 0, below it.
    pub below: usize,
    pub ghost few: { units ≤ 1000 },
    pub ghost pitched: { (20 ≤ pitch) × (pitch ≤ 56) },
    pub ghost banded: { (above ≤ 128) × (below ≤ 128) },
}

impl Grid {
    ghost use Rattle.std.specs.Prelude.{◌≡◌, ◌+◌, ◌*◌, ◌<◌, max};
    ghost use Rattle.stream_svg.specs.Boxes.{IsSmall, output_box, output_top, stream_box, stream_top};

    /// The box of the unit at a place of the stream's row.
    pub fn stream_box(self, place: usize) -> Rect
        requires { place < self.units }
        ensures value { result ≡ stream_box self place }
        ensures small { IsSmall result }
    {
        Rect {
            x: self.left_of(place),
            y: self.stream_top(),
            width: self.pitch - GAP,
            height: STREAM_HEIGHT,
        }
    }

    /// The box at a place of the second row.
    pub fn output_box(self, place: usize) -> Rect
        requires { place < self.units }
        ensures value { result ≡ output_box self place }
        ensures small { IsSmall result }
    {
        Rect {
            x: self.left_of(place),
            y: self.output_top(),
            width: self.pitch - GAP,
            height: OUTPUT_HEIGHT,
        }
    }

    /// The upper edge of the stream's row.
    pub fn stream_top(self) -> usize
        ensures value { result ≡ stream_top self }
        ensures bound { result ≤ HEAD + 128 }
    {
        HEAD + self.above
    }

    /// The upper edge of the second row.
    pub fn output_top(self) -> usize
        ensures value { result ≡ output_top self }
        ensures bound { result ≤ HEAD + STREAM_HEIGHT + CROSSING + 256 }
    {
        self.stream_top() + STREAM_HEIGHT + self.below + CROSSING
    }

    /// The width of the whole drawing.
    pub fn width(self) -> usize
        ensures { result ≡ max LEAST_WIDTH (LEFT + self.units * self.pitch + RIGHT) }
    {
        let row = self.left_of(self.units) + RIGHT;
        row.max(LEAST_WIDTH)
    }

    /// Its height.
    pub fn height(self) -> usize
        ensures { result ≡ output_top self + OUTPUT_HEIGHT + FOOT }
    {
        self.output_top() + OUTPUT_HEIGHT + FOOT
    }

    /// The left edge of the box at a place of a row.
    #[tactic(auto, using(crate::proofs::Products::row_bound))]
    fn left_of(self, place: usize) -> usize
        requires { place ≤ self.units }
        ensures value { result ≡ LEFT + place * self.pitch }
        ensures bound { result ≤ LEFT + 56000 }
    {
        LEFT + place * self.pitch
    }
}
