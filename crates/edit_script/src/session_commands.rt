//! Scripts that run on a session alone (docs/OUTPUT.md).

ghost use Rattle.edit_script.specs.Kinds.{IsReadAs};
ghost use Rattle.edit_script.specs.SessionScripts.{of_session};

use crate::commands::Command;
use crate::reading::{FromCommand, read_kind};
use crate::script::ScriptFault;
use std::alloc::Global;
use stream_edits::Edit;

/// What a script asks of a session alone. No worker is there, whom one could tell what is wanted.
#[derive(Debug, Drop)]
pub enum SessionCommand<'a> {
    /// An edit of the stream.
    Edit(Edit),
    /// These edits, all of them or none.
    Group(Vec<Edit>),
    /// The insertion of the units in the file of this name, each after the last one.
    Load { path: &'a str },
    /// The lines of the unit of this number.
    Unit { number: u64 },
    /// The line of JSON of the unit of this number.
    Json { number: u64 },
    /// A picture to decode, as a job.
    Take,
    /// A picture to decode that the unit of this number needs.
    TakeFor { number: u64 },
    /// The result of the job of this number.
    Land { number: u64 },
    /// The job of this number, given back undone.
    GiveBack { number: u64 },
    /// All pictures that are due, decoded one after the other.
    Settle,
    /// The picture of the unit of this number, and those that it needs before it.
    SettleFor { number: u64 },
    /// What is shown of the unit of this number.
    Show { number: u64 },
    /// The picture of the unit of this number, which is to be there no more.
    Drop { number: u64 },
    /// The cached pictures, which are to be there no more.
    Clear,
    /// A mark of the stream as it is.
    Mark,
    /// Whether the unit of this number is altered since the mark.
    Altered { number: u64 },
}

impl<'a> FromCommand<'a> for SessionCommand<'a> {
    ghost as_command = { of_session };

    fn of_command(command: Command<'a>) -> Option<SessionCommand<'a>> {
        match command {
            Command::Edit(edit) => Some(SessionCommand::Edit(edit)),
            Command::Group(edits) => Some(SessionCommand::Group(edits)),
            Command::Load { path } => Some(SessionCommand::Load { path }),
            Command::Unit { number } => Some(SessionCommand::Unit { number }),
            Command::Json { number } => Some(SessionCommand::Json { number }),
            Command::Take => Some(SessionCommand::Take),
            Command::TakeFor { number } => Some(SessionCommand::TakeFor { number }),
            Command::Land { number } => Some(SessionCommand::Land { number }),
            Command::GiveBack { number } => Some(SessionCommand::GiveBack { number }),
            Command::Settle => Some(SessionCommand::Settle),
            Command::SettleFor { number } => Some(SessionCommand::SettleFor { number }),
            Command::Show { number } => Some(SessionCommand::Show { number }),
            Command::Drop { number } => Some(SessionCommand::Drop { number }),
            Command::Clear => Some(SessionCommand::Clear),
            Command::Mark => Some(SessionCommand::Mark),
            Command::Altered { number } => Some(SessionCommand::Altered { number }),
            Command::Want(_) | Command::Rest(_) => None,
        }
    }
}

/// The commands of a script that runs on a session alone, or its first line that is wrong, or is a
/// command that is none of a session's.
pub fn read_session_script<'a>(
    alloc: Global,
    text: &'a [u8],
) -> Result<Vec<SessionCommand<'a>>, ScriptFault>
    ensures { IsReadAs of_session text.now result }
{
    read_kind(alloc, text)
}
