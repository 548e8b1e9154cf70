//! Results that land.

ghost use Rattle.std.specs.Prelude.{◌≡◌, ◌<◌, Some, length, IfSome, slice_get};
ghost use Rattle.picture_store.specs.Stores.{OutValue};
ghost use Rattle.picture_store.specs.Jobs.{AnswersLandOf, AnswersResult, LandsThere, input_of};

use super::PictureStore;
use crate::answers::Landing;
use crate::filling::{fill, searched_after};
use crate::job_out::{first_numbered, place_of};
use crate::rescheduling::{after_landing, if_ready};
use decode_jobs::{Decoded, Finished};

impl<P: Decoded> PictureStore<P> {
    /// Takes the result of a job. A picture that isn't taken is still the host's. It takes no
    /// memory.
    pub fn land(&mut self, finished: Finished<P>) -> Landing
        ensures { AnswersResult P.IsDecoded self.old finished result self.new }
    {
        let (number, input, picture) = finished.into_parts();
        match place_of(&self.jobs_out, number, &input) {
            Some(at) => self.land_at(at, picture),
            None => Landing::Foreign,
        }
    }

    /// Takes a picture of the job of this number as `land` takes a result, from whoever knows the
    /// job by its number alone: that the decoder made it of what the job was given is what whoever
    /// calls this owes. It takes no memory.
    pub fn land_number(&mut self, number: u64, picture: P) -> Landing
        requires { IfSome (input_of self.old.jobs_out number) (λ input. P.IsDecoded input picture) }
        ensures { AnswersLandOf self.old number picture result self.new }
    {
        match first_numbered(&self.jobs_out, number) {
            Some(at) => self.land_at(at, picture),
            None => Landing::Foreign,
        }
    }

    /// Takes a picture of the job at a place among those that are out.
    fn land_at(&mut self, at: usize, picture: P) -> Landing
        requires within { at < length self.old.jobs_out }
        requires decoded { (job : OutValue P) → slice_get self.old.jobs_out at ≡ Some job
            → P.IsDecoded job.input picture }
        ensures { LandsThere self.old at picture result self.new }
    {
        let job = self.jobs_out.remove(at);
        let schedule = if_ready(&self.keys, &self.key_slots, job.key, self.schedule.take());
        let landing = fill(&mut self.key_slots, job.key, picture);
        self.units_not_due = searched_after(self.units_not_due, landing, job.first_place);
        self.schedule = after_landing(
            &self.keys,
            &self.key_slots,
            &self.jobs_out,
            &self.numbers,
            schedule,
            job.key,
            landing,
        );
        landing
    }
}
