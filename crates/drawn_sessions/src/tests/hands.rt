//! A session that follows commands. What a job was given to decode may be brought again at any
//! time.

use super::jobs::Given;
use super::told::{Answer, MOST_TOGETHER, Told};
use h264_types::pictures::AuId;
use stand_in_device::{Device, Input, Undone};
use stand_in_session::{
    EditRefused, Finished, GroupReceipt, GroupRefused, Job, Landing, Receipt, Returning, Session,
    TakeRefused, drop_picture,
};
use std::alloc::{AllocError, Global};

/// A session, and the inputs of all jobs that it gave.
#[derive(Drop)]
pub(super) struct Hands {
    pub(super) session: Session,
    pub(super) device: Device,
    pub(super) inputs: Vec<Input>,
}

impl Hands {
    /// Follows a command.
    pub(super) fn follow(&mut self, alloc: Global, told: Told) -> Result<Answer, AllocError> {
        match told {
            Told::Edit(change) => {
                let edited = self.session.edit(change.edit(alloc)?);
                Ok(answer_of(edited, self.session.last().units))
            }
            Told::Group(group) => {
                let edited = self.session.edit_group(group.edits(alloc)?);
                Ok(answer_of_group(edited, self.session.last().units))
            }
            Told::Take => {
                let taken = self.session.take();
                self.keep(taken)
            }
            Told::TakeFor(id) => {
                let taken = self.session.take_for(AuId::new(id));
                self.keep(taken)
            }
            Told::Land(number, of) => match self.job(alloc, number, of)? {
                Some(job) => {
                    let finished = decoded(alloc, &mut self.device, job)?;
                    Ok(Answer::Landed(self.session.land(finished)))
                }
                None => Ok(Answer::Landed(Landing::Foreign)),
            },
            Told::Give(number, of) => match self.job(alloc, number, of)? {
                Some(job) => Ok(Answer::GivenBack(self.session.give_back(job))),
                None => Ok(Answer::GivenBack(Returning::Foreign)),
            },
            Told::Drop(id) => {
                let dropped = drop_picture(&mut self.session, AuId::new(id));
                Ok(Answer::Dropped(dropped))
            }
            Told::ClearCache => {
                self.session.clear_cache();
                Ok(Answer::Cleared)
            }
        }
    }

    /// Keeps the input of a job that was taken.
    fn keep(&mut self, taken: Result<Option<Job>, TakeRefused>) -> Result<Answer, AllocError> {
        match taken {
            Ok(Some(job)) => {
                let (number, input) = job.into_parts();
                let timestamp = timestamp_of(&input);
                self.inputs.push(input)?;
                Ok(Answer::Taken(number, timestamp))
            }
            Ok(None) => Ok(Answer::NotTaken),
            Err(_) => Ok(Answer::Wrong),
        }
    }

    /// The job of a number with the input of that number, if that was given.
    fn job(&self, alloc: Global, number: u64, of: u64) -> Result<Option<Job>, AllocError> {
        let Some(input) = self.input(of) else {
            return Ok(None);
        };
        let input = input.copy(alloc)?;
        if !input.is_whole() {
            return Ok(None);
        }
        Ok(Some(Job::new(number, input)))
    }

    /// The input of a number.
    fn input(&self, of: u64) -> Option<&Input> {
        self.inputs.get(of.checked_sub(1)? as usize)
    }

    /// Whether the last job was given this.
    pub(super) fn was_given(&self, given: Option<&Given>) -> bool {
        match (self.inputs.last(), given) {
            (Some(input), Some(given)) => input.is_same(&given.input),
            _ => false,
        }
    }
}

/// What an edit was answered, after which the stream has so many units.
fn answer_of(edited: Result<Receipt, EditRefused>, units: usize) -> Answer {
    match edited {
        Ok(receipt) if receipt.steps <= units as u64 => {
            Answer::Accepted(receipt.number, receipt.id, receipt.changed)
        }
        Ok(_) => Answer::Wrong,
        Err(refused) => Answer::Refused(refused.number()),
    }
}

/// What a group was answered, after which the stream has so many units.
fn answer_of_group(edited: Result<GroupReceipt, GroupRefused>, units: usize) -> Answer {
    match edited {
        Ok(receipt) if receipt.steps <= units as u64 => {
            Answer::Grouped(receipt.number, numbers_of(&receipt.ids), receipt.changed)
        }
        Err(GroupRefused::Edit { index, refused }) => Answer::GroupRefused(index, refused.number()),
        _ => Answer::Wrong,
    }
}

/// The numbers of ids, with zeros after them.
fn numbers_of(ids: &[AuId]) -> [u32; MOST_TOGETHER] {
    let mut numbers = [0; MOST_TOGETHER];
    for (index, id) in ids.iter().enumerate() {
        if let Some(number) = numbers.get_mut(index) {
            *number = id.number();
        }
    }
    numbers
}

/// The timestamp of the first request.
fn timestamp_of(input: &Input) -> u64 {
    match input.requests() {
        [request, ..] => request.timestamp,
        [] => 0,
    }
}

/// The result of a job.
fn decoded(alloc: Global, device: &mut Device, job: Job) -> Result<Finished, AllocError> {
    match device.decode(alloc, job) {
        Ok(finished) => Ok(finished),
        Err(undone) => Err(cause_of(undone)),
    }
}

/// Why a job is undone; the job is spent.
fn cause_of(undone: Undone) -> AllocError {
    let Undone { job, cause } = undone;
    let _ = job.into_parts();
    cause
}
