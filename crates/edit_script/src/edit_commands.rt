//! The commands of a script that edits a stream and does nothing else (docs/OUTPUT.md).

ghost use Rattle.std.specs.Prelude.{◌≡◌, MatchOption};
ghost use Rattle.edit_script.specs.EditScripts.{command_of, IsReadForEdits};
ghost use Rattle.edit_script.specs.declared.edit_commands.EditCommand.{EditCommand as Edits};

use crate::commands::Command;
use crate::reading::{Reading, read_commands};
use crate::script::ScriptFault;
use std::alloc::Global;
use stream_edits::Edit;

/// What a line of a script of edits asks for, or the lines of a group.
#[derive(Debug, Drop)]
pub enum EditCommand {
    /// An edit of the stream.
    Edit(Edit),
    /// These edits, all of them or none.
    Group(Vec<Edit>),
}

/// The command as one of edits, if it is.
pub(crate) fn for_edits(command: Command<'_>) -> Option<EditCommand>
    ensures { MatchOption result ((it : Edits) → ¬ (command_of it ≡ command.entry))
        (λ it. command_of it ≡ command.entry) }
{
    match command {
        Command::Edit(edit) => Some(EditCommand::Edit(edit)),
        Command::Group(edits) => Some(EditCommand::Group(edits)),
        _ => None,
    }
}

/// The edits and groups of a script, each with the number of its first line, or its first line that
/// is wrong, or is a command of another kind.
pub fn read_edit_script(
    alloc: Global,
    text: &[u8],
) -> Result<Vec<(usize, EditCommand)>, ScriptFault>
    ensures { IsReadForEdits text.now result }
{
    let Reading {
        commands: numbered,
        wrong,
    } = read_commands(alloc, text)?;
    let mut commands = Vec::new(alloc);
    for (number, command) in numbered {
        match for_edits(command) {
            Some(command) => commands.push((number, command))?,
            None => return Err(ScriptFault::Line(number)),
        }
    }
    match wrong {
        Some(number) => Err(ScriptFault::Line(number)),
        None => Ok(commands),
    }
}
