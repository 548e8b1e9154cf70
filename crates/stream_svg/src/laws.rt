//! Laws of every drawing.

ghost use Rattle.std.specs.Prelude.{ℕ, ◌<◌};
ghost use Rattle.stream_svg.specs.Boxes.{AreApart, output_box, stream_box};
ghost use Rattle.stream_svg.specs.declared.grid.Grid.{Grid};

/// No two boxes of a drawing share a point.
pub fn boxes_are_apart()
    ensures stream { (grid : Grid) (one other : ℕ) → one < other
        → AreApart (stream_box grid one) (stream_box grid other) }
    ensures output { (grid : Grid) (one other : ℕ) → one < other
        → AreApart (output_box grid one) (output_box grid other) }
    ensures rows { (grid : Grid) (one other : ℕ)
        → AreApart (stream_box grid one) (output_box grid other) }
{}
