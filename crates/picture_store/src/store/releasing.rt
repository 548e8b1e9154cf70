//! Pictures that go back to the host. None of these calls takes memory.

ghost use Rattle.std.specs.Prelude.{◌≡◌, ◌<◌, [], length};
ghost use Rattle.picture_store.specs.Released.{AnswersDrop, AnswersReleased, AnswersUncache};

use super::PictureStore;
use crate::unreferred::first_free;
use decode_jobs::Decoded;
use held_pictures::key_slots::is_held;

impl<P: Decoded> PictureStore<P> {
    /// Gives back the picture of the unit at a place, where it is held. It isn't cached. A job that
    /// is out may still refer to it.
    pub fn drop_picture(&mut self, at: usize) -> Option<P>
        requires { at < length self.old.ids }
        ensures { AnswersDrop P.IsOf self.old at result self.new }
    {
        let Some(key) = self.numbers[at] else {
            return None;
        };
        if !is_held(&self.key_slots, key) {
            return None;
        }
        let picture = self.key_slots.empty(key);
        self.units_settled = 0;
        self.units_not_due = 0;
        self.schedule = None;
        picture
    }

    /// Gives back the picture that was cached first. A job that is out may still refer to it.
    pub fn uncache(&mut self) -> Option<P>
        ensures { AnswersUncache P.IsOf self.old result self.new }
    {
        self.cache.take_oldest()
    }

    /// Gives back one of the released pictures to which no job that is out refers. Each call looks
    /// once at those to which one does.
    pub fn take_released(&mut self) -> Option<P>
        ensures { AnswersReleased self.old result self.new }
    {
        let at = first_free(&self.released, &self.jobs_out)?;
        Some(self.released.swap_remove(at))
    }

    /// Forgets the pictures that are cached, for a host that doesn't want them back.
    pub fn clear_cache(&mut self)
        ensures { self.new ≡ record self.old {
          cached = [];
          pictures = record self.old.pictures { cached = [] };
        } }
    {
        self.cache.clear();
    }

    /// Forgets the pictures that are released, for a host that doesn't want them back.
    pub fn clear_released(&mut self)
        ensures { self.new ≡ record self.old {
          pictures = record self.old.pictures { released = [] };
        } }
    {
        self.released.clear();
    }
}
