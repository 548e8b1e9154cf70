//! What messages are answered.

ghost use Rattle.std.specs.Prelude.{◌≡◌, false, Err};
ghost use Rattle.serve_requests.specs.Messages.{lent, parts_of};
ghost use Rattle.serve_calls.specs.RecordingCalls.{RecordsServed, RecordsServedBy, RecordsServedIf};
ghost use Rattle.serve_calls.specs.Requests.{IsServed, IsServedBy, IsServedIf, is_answered, is_last, parts_if};

use crate::backend::Backend;
use crate::server::Server;
use crate::wanted_units::WantedUnit;
use console_io::file_saving::Saver;
use serde_json::Value;
use serve_answers::Answer;
use serve_requests::{Call, Failure, Message, RpcRequest};
use std::thread::Threads;

/// What became of a message.
#[derive(Debug, Drop)]
pub struct Served {
    /// What it is answered, if it is answered.
    pub answer: Result<Answer, Failure>,
    /// Whether it asked for the end.
    pub is_last: bool,
}

impl<B: Backend, S: Saver> Server<B, S> {
    /// Does what a message asks for. One that is refused, since it is no request, for its method or
    /// for a parameter, changes nothing.
    pub fn serve<R: Threads + Sync>(
        &mut self,
        rt: &R,
        wanted: &mut Vec<WantedUnit>,
        message: &Message<'_>,
    ) -> Served
        ensures serves { IsServedIf B.is_session B.offers S.file self.old wanted.old.items
            (parts_if message.now) result self.new wanted.new.items }
        ensures recorded { RecordsServedIf B.is_session B.offers B.records S.file self.old
            (parts_if message.now) result.answer self.new }
    {
        match message {
            Message::RpcRequest(request) => self.serve_request(rt, wanted, request),
            Message::Other { .. } => refused(Failure::NotRequest),
        }
    }

    /// Does what a request asks for.
    fn serve_request<R: Threads + Sync>(
        &mut self,
        rt: &R,
        wanted: &mut Vec<WantedUnit>,
        request: &RpcRequest<'_>,
    ) -> Served
        ensures serves { IsServed B.is_session B.offers S.file self.old wanted.old.items
            (parts_of request.now) result self.new wanted.new.items }
        ensures recorded { RecordsServed B.is_session B.offers B.records S.file self.old
            (parts_of request.now) result.answer self.new }
    {
        let (has_jobs, has_journal) = (self.backend.has_jobs(), self.backend.has_journal());
        let call = request.call(self.alloc, has_jobs, has_journal);
        self.serve_call(rt, wanted, call, is_answered(request.id))
    }

    /// Does what a call asks for, or answers why there is none.
    fn serve_call<R: Threads + Sync>(
        &mut self,
        rt: &R,
        wanted: &mut Vec<WantedUnit>,
        call: Result<Call, Failure>,
        is_answered: bool,
    ) -> Served
        ensures serves { IsServedBy B.is_session B.offers S.file self.old wanted.old.items
            is_answered call result self.new wanted.new.items }
        ensures recorded { RecordsServedBy B.is_session B.records S.file self.old call
            result.answer self.new }
    {
        match call {
            Ok(call) => {
                let is_last = is_last(&call);
                let answer = self.call(rt, wanted, call, is_answered);
                Served { answer, is_last }
            }
            Err(failure) => refused(failure),
        }
    }
}

/// Whether a request with this id is answered.
fn is_answered(id: Option<&Value>) -> bool
    ensures { result ≡ is_answered (lent id.entry) }
{
    match id {
        Some(_) => true,
        None => false,
    }
}

/// A message that is refused.
fn refused(failure: Failure) -> Served
    ensures { result ≡ record { answer = Err failure; is_last = false } }
{
    Served {
        answer: Err(failure),
        is_last: false,
    }
}

/// Whether a call is the last.
fn is_last(call: &Call) -> bool
    ensures { result ≡ is_last call.now }
{
    match call {
        Call::Shutdown => true,
        _ => false,
    }
}
