//! Pictures that go back to the host. None of these calls takes memory.

ghost use Rattle.std.specs.Prelude.{◌≡◌, []};
ghost use Rattle.stream_session.specs.Machines.{uncached};
ghost use Rattle.stream_session.specs.Needing.{AnswersDrop, AnswersReleased, AnswersUncache};

use super::Session;
use crate::showing::Dropped;
use decode_jobs::Decoded;
use h264_types::pictures::AuId;

impl<P: Decoded> Session<P> {
    /// Gives back the picture of the unit that has the id: it is held no more, also for each unit
    /// that has the same key. It isn't cached by that: a job has to make it again. A job that is out
    /// may still refer to it.
    pub fn drop_picture(&mut self, id: AuId) -> Dropped<P>
        ensures { AnswersDrop P.IsOf self.old id result self.new }
    {
        let Some(place) = self.find(id) else {
            return Dropped::NoSuchUnit;
        };
        match self.store.drop_picture(place) {
            Some(picture) => Dropped::Picture(picture),
            None => Dropped::NotHeld,
        }
    }

    /// Gives back the picture that was cached first, if one is cached. A job that is out may still
    /// refer to it.
    pub fn uncache(&mut self) -> Option<P>
        ensures { AnswersUncache P.IsOf self.old result self.new }
    {
        self.store.uncache()
    }

    /// Gives back one of the pictures that edits let go and to which no job that is out refers, if
    /// there is one.
    pub fn take_released(&mut self) -> Option<P>
        ensures { AnswersReleased self.old result self.new }
    {
        self.store.take_released()
    }

    /// Forgets the pictures that are cached, for a host that doesn't want them back.
    pub fn clear_cache(&mut self)
        ensures { self.new ≡ uncached self.old }
    {
        self.store.clear_cache();
    }
}
