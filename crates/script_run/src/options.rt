//! With what a script is run.

ghost use Rattle.std.specs.Prelude.{◌≤◌};
ghost use Rattle.held_pictures.specs.Bounded.{most_capacity};

/// What a run of a script reads: the script's text, and the files that it names.
#[derive(Drop)]
pub struct Script<R, S> {
    pub text: R,
    pub files: S,
}

/// With what a script is run.
#[derive(Clone, Copy, Debug)]
pub struct Options<'a> {
    /// The name of the script, which is told where it can't be read.
    pub name: &'a str,
    /// For how many pictures that no unit has the session has room, 1 to `MOST_ROOM`.
    pub cache: u16,
    /// Whether pictures are shown with the digits of their hash.
    pub hex: bool,
    ghost in_range: { (1 ≤ cache) × (cache ≤ most_capacity) },
}
