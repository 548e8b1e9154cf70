//! What calls are answered.

ghost use Rattle.std.specs.Prelude.{◌≡◌, option_map};
ghost use Rattle.edit_script.specs.Words.{id_of};
ghost use Rattle.serve_calls.specs.Calls.{AnswersCall, IsOfJobs};
ghost use Rattle.serve_calls.specs.Jobs.{GivesBackAs, LandsAs, TakesAs};
ghost use Rattle.serve_calls.specs.Recording.{KeepsRecords};
ghost use Rattle.serve_calls.specs.RecordingCalls.{RecordsCall};

use crate::backend::Backend;
use crate::server::Server;
use crate::wanted_units::WantedUnit;
use console_io::file_saving::Saver;
use edit_script::id_of_number;
use h264_types::pictures::AuId;
use serve_answers::Answer;
use serve_requests::{Call, Failure};
use std::thread::Threads;

impl<B: Backend, S: Saver> Server<B, S> {
    /// Does what a call asks for. The units that are wanted then are told of by notifications.
    pub fn call<R: Threads + Sync>(
        &mut self,
        rt: &R,
        wanted: &mut Vec<WantedUnit>,
        call: Call,
        is_answered: bool,
    ) -> Result<Answer, Failure>
        ensures answers { AnswersCall B.is_session B.offers S.file self.old wanted.old.items call
            is_answered result self.new wanted.new.items }
        ensures recorded { RecordsCall B.is_session B.records S.file self.old call result
            self.new }
    {
        match call {
            Call::Initialize => self.introduce(),
            Call::Load { loaded, mend } => self.load(rt, loaded, mend),
            Call::Save(name) => self.save(name),
            Call::Edit(edit) => self.edit(edit),
            Call::Group(edits) => self.group(edits),
            Call::Undo => self.undo(),
            Call::Redo => self.redo(),
            Call::Mark => self.mark(),
            Call::Units {
                from,
                count,
                controls,
            } => self.units(from, count, controls),
            Call::Text(number) => self.text(number),
            Call::Find(position) => self.find(position),
            Call::Show(number) => self.show(number),
            Call::Want { ids, rest } => self.want(wanted, ids, rest, is_answered),
            Call::Drop(number) => self.drop_picture(number),
            Call::Take(number) => self.take(number),
            Call::Land(number) => self.land(number),
            Call::GiveBack(number) => self.give_back(number),
            Call::Journal { from, count } => self.journal(from, count),
            Call::Stats => self.stats(),
            Call::Reset => self.reset(wanted),
            Call::Compact => self.compact(),
            Call::Shutdown => Ok(Answer::Nothing),
        }
    }
}

impl<B: Backend, S> Server<B, S> {
    /// Takes a job, or with a number one that its unit needs.
    fn take(&mut self, number: Option<u64>) -> Result<Answer, Failure>
        ensures answers { IsOfJobs B.is_session B.offers self.old
            (TakesAs (option_map id_of number)) result self.new }
        ensures recorded { KeepsRecords (B.records self.old.backend) (B.records self.new.backend) }
    {
        self.backend.take(self.alloc, id_if_any(number))
    }

    /// Lands the result of the job of this number.
    fn land(&mut self, number: u64) -> Result<Answer, Failure>
        ensures answers { IsOfJobs B.is_session B.offers self.old (LandsAs number) result self.new }
        ensures recorded { KeepsRecords (B.records self.old.backend) (B.records self.new.backend) }
    {
        self.backend.land(number)
    }

    /// Gives the job of this number back.
    fn give_back(&mut self, number: u64) -> Result<Answer, Failure>
        ensures answers { IsOfJobs B.is_session B.offers self.old (GivesBackAs number) result
            self.new }
        ensures recorded { KeepsRecords (B.records self.old.backend) (B.records self.new.backend) }
    {
        self.backend.give_back(number)
    }
}

/// The id of a number, if there is one.
fn id_if_any(number: Option<u64>) -> Option<AuId>
    ensures { result ≡ option_map id_of number }
{
    match number {
        Some(number) => Some(id_of_number(number)),
        None => None,
    }
}
