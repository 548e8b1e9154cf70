//! How much a store has.

ghost use Rattle.std.specs.Prelude.{◌≡◌, ◌≢◌, AllPairs, length};

use super::PictureStore;
use decode_jobs::Decoded;
use h264_types::base::Shared;
use h264_types::pictures::AuId;
use picture_keys::HashedOutcome;

impl<P: Decoded> PictureStore<P> {
    /// How many jobs are out.
    pub fn jobs_out(&self) -> usize
        ensures { result ≡ length self.now.jobs_out }
    {
        self.jobs_out.len()
    }

    /// How many keys there are whose pictures are held. The slot of each key is looked at.
    pub fn held_keys(&self) -> usize
        ensures count { result ≡ length self.now.held }
        ensures once { AllPairs ◌≢◌ self.now.held }
    {
        self.key_slots.held()
    }

    /// How many keys there are whose pictures are cached.
    pub fn cached_keys(&self) -> usize
        ensures { result ≡ length self.now.cached }
    {
        self.cache.len()
    }
}

impl<P: Decoded> PictureStore<P> {
    /// The ids of the units, in the order of the stream.
    pub fn ids(&self) -> &[AuId]
        ensures { result.now ≡ self.now.ids }
    {
        self.ids.as_slice()
    }

    /// Each unit's outcome, in the order of the stream.
    pub fn outcomes(&self) -> &[Shared<HashedOutcome>]
        ensures { result.now ≡ self.now.outcomes }
    {
        self.outcomes.as_slice()
    }
}
