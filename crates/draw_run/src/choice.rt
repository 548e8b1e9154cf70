//! Which units are drawn, of a stream and after edits.

ghost use Rattle.std.specs.Prelude.{◌≤◌};

/// Which units are drawn: so many from an id on.
#[derive(Clone, Copy, Debug)]
pub struct Choice {
    /// The id of the first one; none is drawn where no unit has it.
    pub from: u32,
    /// How many at most.
    pub units: usize,
    pub ghost few: { units ≤ 1000 },
}

/// Which units are drawn after edits: so many from an id on, or from the first unit on.
#[derive(Clone, Copy, Debug)]
pub struct EditedChoice {
    /// The id of the first one, if one is named; none is drawn where no unit has it.
    pub from: Option<u32>,
    /// How many at most.
    pub units: usize,
    pub ghost few: { units ≤ 1000 },
}
