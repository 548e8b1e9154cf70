//! A session alone, whose jobs are taken and landed by calls.

ghost use Rattle.std.specs.Prelude.{◌≡◌, ◌≤◌, ◌↔◌, Err, IfOk, IfSome, IsErrOf, MatchOption, MatchResult, None, Some, false, true};
ghost use Rattle.held_pictures.specs.Bounded.{most_capacity};
ghost use Rattle.stand_in_device.specs.Inputs.{InputValue};
ghost use Rattle.stream_session.specs.Machines.{IsEmpty, empty};
ghost use Rattle.stream_session.specs.Taken.{input_of};
ghost use Rattle.serve_answers.specs.JobAnswers.{job_answer};
ghost use Rattle.serve_calls.specs.Failing.{out_of_memory};
ghost use Rattle.serve_calls.specs.Jobs.{TellsJob};
ghost use Rattle.serve_calls.specs.Offering.{offering};
ghost use Rattle.serve_calls.specs.Taking.{TakesReply, taken_in, taken_of};

use crate::backend::{Backend, LendsSession};
use crate::unmade::{EditFault, GroupFault, OUT_OF_MEMORY};
use h264_types::pictures::AuId;
use picture_keys::HashedUnit;
use serve_answers::{Answer, JobAnswer, of_give_back, of_land};
use serve_requests::{CallRefusal, Failure};
use session_journal::Unkept;
use stand_in_session::{
    Command, Config, ConfigFault, Dropping, GroupReceipt, ReadEdit, ReadGroup, Receipt, Reply,
    Runner, Session, TakeRefused, TakenJob,
};
use std::alloc::{AllocError, Global};
use stream_edits::snapshots::{ReadSnapshot, Snapshot};

/// A session alone.
#[derive(Drop)]
pub struct Alone {
    pub runner: Runner,
    /// How many pictures of keys that no unit has it has room for.
    pub cache: u16,
}

impl Alone {
    /// An empty stream, and room for so many pictures that no unit has.
    pub fn open(alloc: Global, cache: u16) -> Result<Alone, ConfigFault>
        ensures ok { IfOk result (λ alone. alone.runner ≡ empty cache) }
        ensures kept { IfOk result (λ alone. alone.cache ≡ cache) }
        ensures cache { IsErrOf result ConfigFault.Cache
            ↔ ((1 ≤ cache) × (cache ≤ most_capacity) → ⊥) }
    {
        let runner = Runner::new(alloc, Config { cache })?;
        Ok(Alone { runner, cache })
    }

    /// Takes a job, or with an id one that the unit needs.
    fn taken(&mut self, id: Option<AuId>) -> Result<Option<TakenJob>, Failure>
        ensures { TakesReply id self.old.runner result self.new.runner }
    {
        match id {
            Some(id) => replied(self.runner.step(Command::TakeFor(id))),
            None => replied(self.runner.step(Command::Take)),
        }
    }

    /// The result of a job that was taken. Where there is no memory for it, the job is given back.
    fn job_answer(&mut self, alloc: Global, taken: TakenJob) -> Result<Answer, Failure>
        ensures { TellsJob taken self.old.runner result self.new.runner }
    {
        let number = taken.number;
        match self.answer_of(alloc, taken) {
            Some(job) => Ok(Answer::Job(Some(job))),
            None => {
                let _ = self.runner.give_back(number);
                Err(OUT_OF_MEMORY)
            }
        }
    }

    /// A job that is out with what it is made of, unless memory runs out.
    fn answer_of(&self, alloc: Global, taken: TakenJob) -> Option<JobAnswer>
        ensures { IfSome result (λ answer. (input : InputValue)
            × (input_of self.now.runner taken.number ≡ Some input)
            × (answer ≡ job_answer taken.number taken.unit input)) }
    {
        let input = self.runner.input(taken.number)?;
        JobAnswer::of(alloc, taken.number, taken.unit, input).ok()
    }
}

/// The job of a reply to one who asks for a job, if memory sufficed for one.
fn replied(reply: Result<Reply, AllocError>) -> Result<Option<TakenJob>, Failure>
    ensures { MatchResult reply
        (λ reply. result ≡ taken_in reply) (λ _. result ≡ Err out_of_memory) }
{
    match reply {
        Ok(reply) => taken_in(&reply),
        Err(_) => Err(OUT_OF_MEMORY),
    }
}

/// The job of a reply to one who asks for a job.
fn taken_in(reply: &Reply) -> Result<Option<TakenJob>, Failure>
    ensures { result ≡ taken_in reply.now }
{
    match reply {
        Reply::Take(answer) | Reply::TakeFor(answer) => taken_of(answer),
        _ => Ok(None),
    }
}

/// The job that was taken, if a picture was due.
fn taken_of(answer: &Result<Option<TakenJob>, TakeRefused>) -> Result<Option<TakenJob>, Failure>
    ensures { result ≡ taken_of answer.now }
{
    match answer {
        Ok(taken) => Ok(*taken),
        Err(TakeRefused::JobsSpent) => Err(Failure::Refused(CallRefusal::JobsSpent)),
        Err(TakeRefused::Memory) => Err(OUT_OF_MEMORY),
    }
}

impl LendsSession for Alone {
    ghost is_session = { λ alone machine. machine ≡ alone.runner };

    fn look<T, F: FnOnce(&Session) -> T>(&self, ask: F) -> T {
        let session = self.runner.session();
        session.reached();
        ask(session)
    }
}

impl Backend for Alone {
    ghost offers = { λ _. offering true false };

    fn edit(&mut self, read: ReadEdit) -> Result<Receipt, EditFault> {
        self.runner.session().reached();
        match self.runner.edit_read(read) {
            Ok(receipt) => Ok(receipt),
            Err(refused) => Err(EditFault::Refused(refused)),
        }
    }

    fn edit_group(&mut self, group: ReadGroup) -> Result<GroupReceipt, GroupFault> {
        self.runner.session().reached();
        match self.runner.edit_group_read(group) {
            Ok(receipt) => Ok(receipt),
            Err(refused) => Err(GroupFault::Refused(refused)),
        }
    }

    // Nothing is recorded.
    fn begin_load(&mut self, _alloc: Global, _units: &[HashedUnit]) -> Result<(), Unkept> {
        Ok(())
    }

    fn end_load(&mut self) {}

    fn drop_picture(&mut self, id: AuId) -> Dropping {
        self.runner.session().reached();
        self.runner.drop_picture(id)
    }

    fn clear_cache(&mut self) {
        self.runner.clear_cache();
    }

    fn mark(&mut self) -> Result<(), AllocError> {
        self.runner.mark()
    }

    fn fresh(&self, alloc: Global) -> Result<Session, AllocError>
        ensures capacity { IfOk result (λ session. session ≡ empty self.now.cache) }
        ensures empty { IfOk result IsEmpty }
    {
        match Session::new(alloc, Config { cache: self.cache }) {
            Ok(session) => Ok(session),
            Err(_) => Err(AllocError),
        }
    }

    fn clear_records(&mut self) -> Result<(), Unkept> {
        Ok(())
    }

    fn begun(&self, alloc: Global, snapshot: ReadSnapshot) -> Result<Session, AllocError> {
        match Session::begun(alloc, Config { cache: self.cache }, snapshot) {
            Ok(session) => Ok(session),
            Err(_) => Err(AllocError),
        }
    }

    fn compact(&mut self, _snapshot: &Snapshot) -> Result<(), Unkept> {
        Ok(())
    }

    fn begin_anew(&mut self, session: Session) {
        self.runner.begin_anew(session);
    }

    // Nobody decodes but by a call.
    fn want(&mut self, _ids: &[AuId], _rest: bool) {}

    fn has_jobs(&self) -> bool {
        true
    }

    fn has_journal(&self) -> bool {
        false
    }

    fn take(&mut self, alloc: Global, id: Option<AuId>) -> Result<Answer, Failure> {
        self.runner.session().reached();
        match self.taken(id) {
            Ok(Some(taken)) => self.job_answer(alloc, taken),
            Ok(None) => Ok(Answer::Job(None)),
            Err(failure) => Err(failure),
        }
    }

    fn land(&mut self, number: u64) -> Result<Answer, Failure> {
        self.runner.session().reached();
        match self.runner.step(Command::Land(number)) {
            Ok(Reply::Land(answer)) => Ok(of_land(answer)),
            Ok(_) => unreachable!(),
            Err(_) => Err(OUT_OF_MEMORY),
        }
    }

    fn give_back(&mut self, number: u64) -> Result<Answer, Failure> {
        self.runner.session().reached();
        Ok(of_give_back(self.runner.give_back(number)))
    }
}
