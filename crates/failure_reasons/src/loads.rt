//! The files that a script loads.

ghost use Rattle.std.specs.Prelude.{◌≡◌, IfOk};
ghost use Rattle.std.specs.List.{filter_map};
ghost use Rattle.edit_script.specs.Words.{texts_of};
ghost use Rattle.failure_reasons.specs.Loads.{seat_load, session_load, LoadsFiles};

use crate::script_reasons::ScriptKind;
use edit_script::{
    ScriptFault, SeatCommand, SessionCommand, read_seat_script, read_session_script,
};
use std::alloc::{AllocError, Global};

/// The names of the files that the script of this text loads.
pub(crate) fn loads<'a>(
    alloc: Global,
    kind: ScriptKind,
    text: &'a [u8],
) -> Result<Vec<&'a str>, ScriptFault>
    ensures { IfOk result (λ names. LoadsFiles kind text.now (texts_of names.items)) }
{
    match kind {
        ScriptKind::Session => {
            let commands = read_session_script(alloc, text)?;
            Ok(session_loads(alloc, commands)?)
        }
        ScriptKind::Seat => {
            let commands = read_seat_script(alloc, text)?;
            Ok(seat_loads(alloc, commands)?)
        }
        ScriptKind::Edits => Ok(Vec::new(alloc)),
    }
}

/// The names that a session's commands load.
fn session_loads<'a>(
    alloc: Global,
    commands: Vec<SessionCommand<'a>>,
) -> Result<Vec<&'a str>, AllocError>
    ensures { IfOk result (λ names.
        texts_of names.items ≡ filter_map session_load commands.entry.items) }
{
    let mut names = Vec::new(alloc);
    for command in commands {
        if let SessionCommand::Load { path } = command {
            names.push(path)?;
        }
    }
    Ok(names)
}

/// The names that a seat's commands load.
fn seat_loads<'a>(alloc: Global, commands: Vec<SeatCommand<'a>>) -> Result<Vec<&'a str>, AllocError>
    ensures { IfOk result (λ names.
        texts_of names.items ≡ filter_map seat_load commands.entry.items) }
{
    let mut names = Vec::new(alloc);
    for command in commands {
        if let SeatCommand::Load { path } = command {
            names.push(path)?;
        }
    }
    Ok(names)
}
