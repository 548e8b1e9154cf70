//! Why a request is refused.

ghost use Rattle.std.specs.Prelude.{◌≡◌};
ghost use Rattle.serve_requests.specs.Reasons.{reason_of};
ghost use Rattle.serve_requests.specs.Failures.{code_of, detail_of, message_of, name_of, number_of, stream_name, stream_number, why};

use crate::parameter::Parameter;
use crate::reasons::reason_of;
use access_unit::Refusal as StreamRefusal;
use serde::{Serialize, Serializer};
use stream_edits::{EditRefused, GroupRefused};

/// Why a message isn't answered by a result.
#[derive(Clone, Copy, Debug, PartialEq, Eq)]
pub enum Failure {
    /// It is no JSON.
    NotJson,
    /// It is no request.
    NotRequest,
    /// No method has the name, or the method isn't there.
    NoMethod,
    /// The first of the method's parameters that is missing, of the wrong type or out of range;
    /// none where they are an array and the method has no parameter.
    Parameters(Option<Parameter>),
    /// What was asked for is refused.
    Refused(CallRefusal),
}

/// Why what was asked for is refused.
#[derive(Clone, Copy, Debug, PartialEq, Eq)]
pub enum CallRefusal {
    /// An edit.
    Edit(EditRefused),
    /// A group of edits.
    Group(GroupRefused),
    /// A stream that is loaded.
    Stream(StreamRefusal),
    /// The insertion of a unit of a stream that is loaded, when so many were inserted.
    Loading { refused: EditRefused, units: usize },
    /// No unit has the id.
    NoSuchUnit,
    /// More ids are wanted than may be.
    TooManyWanted,
    /// The file can't be read.
    CannotRead,
    /// All numbers of jobs were given.
    JobsSpent,
    /// The file can't be written.
    CannotWrite,
    /// No edit, group or load is there that isn't undone.
    NothingToUndo,
    /// None is there that was undone, and no other edit since.
    NothingToRedo,
    /// A growth was refused.
    Memory,
}

/// What is told beside a failure's code and message.
#[derive(Clone, Copy, Debug, PartialEq, Eq, Serialize)]
#[serde(untagged)]
pub enum Detail {
    /// The parameter that is wrong.
    Parameter(Parameter),
    /// Why what was asked for is refused.
    Refused(Why),
}

/// Why what was asked for is refused.
#[derive(Clone, Copy, Debug, PartialEq, Eq, Serialize)]
pub struct Why {
    /// The index of the edit or unit that is refused.
    #[serde(skip_serializing_if = "Option::is_none")]
    pub index: Option<usize>,
    /// How many units were inserted.
    #[serde(skip_serializing_if = "Option::is_none")]
    pub units: Option<usize>,
    /// The refusal, written as its sentence.
    #[serde(serialize_with = "write_reason")]
    pub reason: CallRefusal,
}

impl Failure {
    /// Its code: one of JSON-RPC's, or the refusal's number.
    pub fn code(self) -> i32
        ensures { result ≡ code_of self }
    {
        match self {
            Failure::NotJson => -32_700,
            Failure::NotRequest => -32_600,
            Failure::NoMethod => -32_601,
            Failure::Parameters(_) => -32_602,
            Failure::Refused(refusal) => i32::from(refusal.number()),
        }
    }

    /// Its message: JSON-RPC's, or the refusal's name.
    pub fn message(self) -> &'static str
        ensures { result.now ≡ message_of self }
    {
        match self {
            Failure::NotJson => "Parse error",
            Failure::NotRequest => "Invalid Request",
            Failure::NoMethod => "Method not found",
            Failure::Parameters(_) => "Invalid params",
            Failure::Refused(refusal) => refusal.name(),
        }
    }

    /// What is told beside them.
    pub fn detail(self) -> Option<Detail>
        ensures { result ≡ detail_of self }
    {
        match self {
            Failure::Parameters(Some(parameter)) => Some(Detail::Parameter(parameter)),
            Failure::Refused(refusal) => Some(Detail::Refused(refusal.why())),
            _ => None,
        }
    }
}

impl CallRefusal {
    /// Its number.
    pub fn number(self) -> u8
        ensures { result ≡ number_of self }
    {
        match self {
            CallRefusal::Edit(refused) => refused.number(),
            CallRefusal::Group(refused) => refused.number(),
            CallRefusal::Stream(refusal) => stream_number(refusal),
            CallRefusal::Loading { refused, .. } => refused.number(),
            CallRefusal::NoSuchUnit => 16,
            CallRefusal::TooManyWanted => 22,
            CallRefusal::CannotRead => 23,
            CallRefusal::JobsSpent => 24,
            CallRefusal::CannotWrite => 25,
            CallRefusal::NothingToUndo => 26,
            CallRefusal::NothingToRedo => 27,
            CallRefusal::Memory => 15,
        }
    }

    /// Its name.
    pub fn name(self) -> &'static str
        ensures { result.now ≡ name_of self }
    {
        match self {
            CallRefusal::Edit(refused) => refused.name(),
            CallRefusal::Group(refused) => refused.name(),
            CallRefusal::Stream(refusal) => stream_name(refusal),
            CallRefusal::Loading { refused, .. } => refused.name(),
            CallRefusal::NoSuchUnit => "NoSuchUnit",
            CallRefusal::TooManyWanted => "TooManyWanted",
            CallRefusal::CannotRead => "CannotRead",
            CallRefusal::JobsSpent => "JobsSpent",
            CallRefusal::CannotWrite => "CannotWrite",
            CallRefusal::NothingToUndo => "NothingToUndo",
            CallRefusal::NothingToRedo => "NothingToRedo",
            CallRefusal::Memory => "Memory",
        }
    }

    /// Why, as a sentence without its full stop.
    pub fn reason(self) -> &'static str
        ensures { result.now ≡ reason_of self }
    {
        reason_of(self)
    }

    /// Why, with the index of the edit or unit that is refused, or how many units were inserted.
    fn why(self) -> Why
        ensures { result ≡ why self }
    {
        let (index, units) = match self {
            CallRefusal::Group(GroupRefused::Edit { index, .. }) => (Some(index), None),
            CallRefusal::Stream(StreamRefusal::Unit { index, .. }) => (Some(index), None),
            CallRefusal::Loading { units, .. } => (None, Some(units)),
            _ => (None, None),
        };
        Why {
            index,
            units,
            reason: self,
        }
    }
}

/// The number of the refusal of a stream: of a unit's, that one's.
fn stream_number(refusal: StreamRefusal) -> u8
    ensures { result ≡ stream_number refusal }
{
    match refusal {
        StreamRefusal::Split => 1,
        StreamRefusal::Unit { refused, .. } => refused.number(),
        StreamRefusal::StreamFull => 17,
    }
}

/// The name of the refusal of a stream.
fn stream_name(refusal: StreamRefusal) -> &'static str
    ensures { result.now ≡ stream_name refusal }
{
    match refusal {
        StreamRefusal::Split => "Split",
        StreamRefusal::Unit { refused, .. } => refused.name(),
        StreamRefusal::StreamFull => "StreamFull",
    }
}

fn write_reason<S: Serializer>(refusal: &CallRefusal, out: &mut S) -> Result<(), S::Error> {
    refusal.reason().serialize(out)
}
