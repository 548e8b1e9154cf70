//! Jobs by their numbers, and jobs that are given back.

ghost use Rattle.std.specs.Prelude.{◌≡◌, ◌<◌, None, Some, length, IfSome, IsTrue, MatchOption};
ghost use Rattle.decode_jobs.specs.Inputs.{is_whole};
ghost use Rattle.picture_store.specs.Jobs.{AnswersGiveBack, AnswersGiveBackOf, input_of, without};

use super::PictureStore;
use crate::answers::Returning;
use crate::job_out::{first_numbered, place_of};
use decode_jobs::{Decoded, Input, Job};

impl<P: Decoded> PictureStore<P> {
    /// What the job of this number was given to decode, if it is out. It takes no memory.
    pub fn job_input(&self, number: u64) -> Option<&Input<P>>
        ensures value { MatchOption result
            (input_of self.now.jobs_out number ≡ None)
            (λ input. input_of self.now.jobs_out number ≡ Some input.now) }
        ensures whole { IfSome result (λ input. IsTrue (is_whole input.now)) }
    {
        match first_numbered(&self.jobs_out, number) {
            Some(at) => Some(&self.jobs_out[at].input),
            None => None,
        }
    }

    /// Takes a job back that wasn't decoded. It takes no memory.
    pub fn give_back(&mut self, job: Job<P>) -> Returning
        ensures { AnswersGiveBack self.old job result self.new }
    {
        let (number, input) = job.into_parts();
        match place_of(&self.jobs_out, number, &input) {
            Some(at) => {
                self.take_back(at);
                Returning::Returned
            }
            None => Returning::Foreign,
        }
    }

    /// Takes the job of this number back as `give_back` does, from whoever knows it by its number
    /// alone. It takes no memory.
    pub fn give_back_number(&mut self, number: u64) -> Returning
        ensures { AnswersGiveBackOf self.old number result self.new }
    {
        match first_numbered(&self.jobs_out, number) {
            Some(at) => {
                self.take_back(at);
                Returning::Returned
            }
            None => Returning::Foreign,
        }
    }

    /// Takes the job at a place among those that are out back.
    fn take_back(&mut self, at: usize)
        requires { at < length self.old.jobs_out }
        ensures { self.new ≡ without self.old at }
    {
        drop(self.jobs_out.remove(at));
        self.units_settled = 0;
        self.units_not_due = 0;
        self.schedule = None;
    }
}
