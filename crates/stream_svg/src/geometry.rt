//! Points and boxes, in pixels from the upper left corner.

/// A point.
#[derive(Clone, Copy, Debug, PartialEq, Eq)]
pub struct Point {
    pub x: usize,
    pub y: usize,
}

/// A box, by its upper left corner.
#[derive(Clone, Copy, Debug, PartialEq, Eq)]
pub struct Rect {
    pub x: usize,
    pub y: usize,
    pub width: usize,
    pub height: usize,
}

impl Rect {
    ghost use Rattle.std.specs.Prelude.{◌≡◌};
    ghost use Rattle.stream_svg.specs.Boxes.{IsSmall};
    ghost use Rattle.stream_svg.specs.Shapes.{middle_of};

    /// Its middle, from left to right.
    pub(crate) fn middle(self) -> usize
        requires { IsSmall self }
        ensures { result ≡ middle_of self }
    {
        self.x + self.width / 2
    }
}
