//! Scripts that a seat runs while workers decode (docs/OUTPUT.md).

ghost use Rattle.edit_script.specs.Kinds.{IsReadAs};
ghost use Rattle.edit_script.specs.SeatScripts.{of_seat};

use crate::commands::Command;
use crate::reading::{FromCommand, read_kind};
use crate::script::ScriptFault;
use h264_types::pictures::AuId;
use std::alloc::Global;
use stream_edits::Edit;

/// What a script asks of a seat. Jobs are the workers' then, and of a unit a seat is shown the
/// picture alone.
#[derive(Debug, Drop)]
pub enum SeatCommand<'a> {
    /// An edit of the stream.
    Edit(Edit),
    /// These edits, all of them or none.
    Group(Vec<Edit>),
    /// The insertion of the units in the file of this name, each after the last one.
    Load { path: &'a str },
    /// All pictures that are due.
    Settle,
    /// The picture of the unit of this number.
    SettleFor { number: u64 },
    /// What is shown of the unit of this number.
    Show { number: u64 },
    /// The picture of the unit of this number, which is to be there no more.
    Drop { number: u64 },
    /// The cached pictures, which are to be there no more.
    Clear,
    /// The pictures of the units of these ids before all others.
    Want(Vec<AuId>),
    /// Whether workers do the rest of the stream too.
    Rest(bool),
}

impl<'a> FromCommand<'a> for SeatCommand<'a> {
    ghost as_command = { of_seat };

    fn of_command(command: Command<'a>) -> Option<SeatCommand<'a>> {
        match command {
            Command::Edit(edit) => Some(SeatCommand::Edit(edit)),
            Command::Group(edits) => Some(SeatCommand::Group(edits)),
            Command::Load { path } => Some(SeatCommand::Load { path }),
            Command::Settle => Some(SeatCommand::Settle),
            Command::SettleFor { number } => Some(SeatCommand::SettleFor { number }),
            Command::Show { number } => Some(SeatCommand::Show { number }),
            Command::Drop { number } => Some(SeatCommand::Drop { number }),
            Command::Clear => Some(SeatCommand::Clear),
            Command::Want(ids) => Some(SeatCommand::Want(ids)),
            Command::Rest(rest) => Some(SeatCommand::Rest(rest)),
            Command::Unit { .. }
            | Command::Json { .. }
            | Command::Take
            | Command::TakeFor { .. }
            | Command::Land { .. }
            | Command::GiveBack { .. }
            | Command::Mark
            | Command::Altered { .. } => None,
        }
    }
}

/// The commands of a script that a seat runs, or its first line that is wrong, or is a command that
/// is none of a seat's.
pub fn read_seat_script<'a>(
    alloc: Global,
    text: &'a [u8],
) -> Result<Vec<SeatCommand<'a>>, ScriptFault>
    ensures { IsReadAs of_seat text.now result }
{
    read_kind(alloc, text)
}
