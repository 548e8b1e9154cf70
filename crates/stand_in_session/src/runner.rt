//! Commands followed on a session.

ghost use Rattle.std.specs.Prelude.{◌≡◌, [], ◌==◌, ◌≤◌, ◌↔◌, None, Some, IfOk, IfSome, IsErrOf, IsTrue, MatchOption, OnErr, OnOk};
ghost use Rattle.held_pictures.specs.Bounded.{most_capacity};
ghost use Rattle.stream_session.specs.Altered.{NoneAltered, with_mark};
ghost use Rattle.stream_session.specs.Grouping.{AnswersGroup};
ghost use Rattle.stream_session.specs.Machines.{AnswersEdit, empty, uncached};
ghost use Rattle.stand_in_session.specs.Needing.{AnswersDrop};
ghost use Rattle.stand_in_session.specs.Runs.{Answers, GivesJobBack, IsRun, Reports};
ghost use Rattle.stream_session.specs.Taken.{input_of};
ghost use Rattle.decode_jobs.specs.Inputs.{is_whole};

use crate::commands::Command;
use crate::jobs::{Dropping, drop_picture, give_back, land, take, take_for};
use crate::replies::{NotOut, Reply, UnitReport};
use crate::session::Session;
use h264_types::pictures::AuId;
use picture_store::Returning;
use stand_in_device::{Device, Input};
use std::alloc::{AllocError, Global};
use std::marker::Model;
use stream_edits::{EditRefused, GroupReceipt, GroupRefused, ReadEdit, ReadGroup, Receipt};
use stream_session::{Config, ConfigFault, NoSuchUnit};

/// A session that follows commands, one at a time, with a device that decodes its jobs. Clauses see
/// it as the session, which knows the jobs that are out.
pub struct Runner {
    alloc: Global,
    session: Session,
    device: Device,
}

// By hand, as a session's.
impl Drop for Runner {
    fn drop(self) {
        let Runner {
            alloc: _,
            session: _,
            device: _,
        } = self;
    }
}

impl Model for Runner {
    ghost use Rattle.std.specs.Coded.{codes};
    ghost use Rattle.decode_jobs.specs.Trees.{tree_code};
    ghost use Rattle.picture_keys.specs.contracts.request_bodies.RequestBodies as bodies;
    ghost use Rattle.stand_in_session.specs.Machines.{Machine};

    ghost Value = { Machine };

    ghost coded = { Prim.hlevel (codes, tree_code bodies.the_row.coded) };

    ghost view = { λ runner. runner.session };
}

impl Runner {
    /// A runner with a session of its own, of an empty stream.
    pub fn new(alloc: Global, config: Config) -> Result<Runner, ConfigFault>
        ensures ok { IfOk result (λ runner. runner ≡ empty config.cache) }
        ensures cache { IsErrOf result ConfigFault.Cache
            ↔ ((1 ≤ config.cache) × (config.cache ≤ most_capacity) → ⊥) }
    {
        Ok(Runner {
            alloc,
            session: Session::new(alloc, config)?,
            device: Device::new(alloc),
        })
    }

    /// Begins anew with this session.
    pub fn begin_anew(&mut self, session: Session)
        ensures { self.new ≡ session }
    {
        self.session = session;
        self.device = Device::new(self.alloc);
    }

    /// Follows a command and answers it. An edit that runs out of memory is answered so; where
    /// anything else runs out of memory, there is no answer.
    pub fn step(&mut self, command: Command) -> Result<Reply, AllocError>
        ensures ok { IfOk result (λ reply. Answers self.old command reply self.new) }
        ensures err { OnErr result (self.new ≡ self.old) }
    {
        match command {
            Command::Edit(edit) => Ok(Reply::Edit(self.session.edit(edit))),
            Command::Group(edits) => Ok(Reply::Group(self.session.edit_group(edits))),
            Command::Unit(id) => Ok(Reply::Unit(report(self.alloc, &self.session, id)?)),
            Command::Take => Ok(Reply::Take(take(&mut self.session)?)),
            Command::TakeFor(id) => Ok(Reply::TakeFor(take_for(&mut self.session, id)?)),
            Command::Land(number) => {
                let landed = land(self.alloc, &mut self.session, &mut self.device, number)?;
                Ok(Reply::Land(landed))
            }
            Command::GiveBack(number) => {
                Ok(Reply::GiveBack(give_back(&mut self.session, number)))
            }
            Command::Show(id) => Ok(Reply::Show(self.session.show(id))),
            Command::Drop(id) => Ok(Reply::Dropped(drop_picture(&mut self.session, id))),
            Command::ClearCache => {
                self.session.clear_cache();
                Ok(Reply::Cleared)
            }
        }
    }

    /// Edits the stream by an edit whose text is read, as `step` does at `Command::Edit`.
    pub fn edit_read(&mut self, read: ReadEdit) -> Result<Receipt, EditRefused>
        ensures { AnswersEdit self.old read result self.new }
    {
        self.session.edit_read(read)
    }

    /// Makes the edits of a group whose texts are read, as `step` does at `Command::Group`.
    pub fn edit_group_read(&mut self, group: ReadGroup) -> Result<GroupReceipt, GroupRefused>
        ensures { AnswersGroup self.old group result self.new }
    {
        self.session.edit_group_read(group)
    }

    /// Drops the picture of the unit that has the id, as `step` does at `Command::Drop`. It takes
    /// no memory.
    pub fn drop_picture(&mut self, id: AuId) -> Dropping
        ensures { AnswersDrop self.old id result self.new }
    {
        drop_picture(&mut self.session, id)
    }

    /// Drops the pictures that are cached, as `step` does at `Command::ClearCache`. It takes no
    /// memory.
    pub fn clear_cache(&mut self)
        ensures { self.new ≡ uncached self.old }
    {
        self.session.clear_cache();
    }

    /// Gives the job of this number back, as `step` does at `Command::GiveBack`. It takes no memory.
    pub fn give_back(&mut self, number: u64) -> Result<Returning, NotOut>
        ensures { GivesJobBack self.old number result self.new }
    {
        give_back(&mut self.session, number)
    }

    /// Marks the stream as it is, as `Session::mark` does. No command asks for it.
    pub fn mark(&mut self) -> Result<(), AllocError>
        ensures ok { OnOk result (self.new ≡ with_mark self.old) }
        ensures unaltered { OnOk result (NoneAltered self.new) }
        ensures err { OnErr result (self.new ≡ self.old) }
    {
        self.session.mark()
    }

    /// What the job of this number is made of, as it was when the job was taken, if it is out. It
    /// takes no memory.
    pub fn input(&self, number: u64) -> Option<&Input>
        ensures value { MatchOption result
            (input_of self.now number ≡ None)
            (λ input. input_of self.now number ≡ Some input.now) }
        ensures whole { IfSome result (λ input. IsTrue (is_whole input.now)) }
    {
        self.session.job_input(number)
    }

    /// The session as it is, to be looked at without a copy.
    pub fn session(&self) -> &Session
        ensures { result.now ≡ self.now }
    {
        &self.session
    }
}

/// What is reported of the unit that has the id.
fn report(
    alloc: Global,
    session: &Session,
    id: AuId,
) -> Result<Result<UnitReport, NoSuchUnit>, AllocError>
    ensures { IfOk result (λ answer. Reports session.now.register.stream id answer) }
{
    match (session.outcome(id), session.position(id)) {
        (Ok(outcome), Ok(position)) => Ok(Ok(UnitReport {
            outcome: outcome.copy(alloc)?,
            position,
        })),
        _ => Ok(Err(NoSuchUnit)),
    }
}

/// Follows the commands in turn, from an empty stream, and answers each. An edit that runs out of
/// memory is answered so; any other lack of memory ends the run.
pub fn run(alloc: Global, config: Config, commands: &[Command]) -> Result<Vec<Reply>, AllocError>
    requires { (1 ≤ config.cache) × (config.cache ≤ most_capacity) }
    ensures { IfOk result (λ replies. IsRun config.cache commands.now replies.items) }
{
    let Ok(mut runner) = Runner::new(alloc, config) else {
        return Err(AllocError);
    };
    let mut replies = Vec::with_capacity(alloc, commands.len())?;
    for command in commands {
        replies.push(runner.step(command.copy(alloc)?)?)?;
    }
    Ok(replies)
}
