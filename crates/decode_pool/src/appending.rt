//! Units that a seat inserts one after the other while it has the lock.

ghost use Rattle.decode_pool.specs.Appends.{AppendsSome};

use crate::seat::Seat;
use crate::stand_in::Desk;
use picture_keys::HashedUnit;
use stand_in_session::EditRefused;
use std::sync::Wait;

/// How far units were inserted.
#[derive(Clone, Copy, Debug, PartialEq, Eq)]
pub struct Appended {
    /// How many were.
    pub inserted: usize,
    /// Why the one behind those is refused, if one is: those behind it aren't asked for.
    pub refused: Option<EditRefused>,
}

impl Seat {
    /// Inserts the units after the last one of the desk's stream, in their order, each by an edit
    /// of its own that is noted as `edit_read` does. It ends at the first one that is refused.
    /// Nobody else edits the session or asks meanwhile, so they should be a handful. Whom an edit
    /// wakes is woken once for all of them.
    pub fn append_read<R: Wait>(&mut self, rt: &R, desk: &Desk, units: Vec<HashedUnit>) -> Appended
        ensures { AppendsSome self.old units.items result self.new }
    {
        let mut state = desk.state.lock(rt);
        let appended = state.append_read(self, units);
        desk.wake(state);
        appended
    }
}
