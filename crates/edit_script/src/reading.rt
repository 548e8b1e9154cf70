//! The commands of a script up to its first wrong line (docs/OUTPUT.md).

ghost use Rattle.std.specs.Prelude.{IfOk, ◌≡◌, ℕ, List, Option, map};
ghost use Rattle.edit_script.specs.Scripts.{read_lines, AreRead};
ghost use Rattle.edit_script.specs.Kinds.{IsReadAs};
ghost use Rattle.edit_script.specs.declared.commands.Command.{Command as CommandValue};

use crate::commands::Command;
use crate::groups::{Front, read_front};
use crate::lines::numbered_lines;
use crate::script::ScriptFault;
use std::alloc::{AllocError, Global};

/// A kind of commands: those of a script that is run in one way.
pub(crate) trait FromCommand<'a>: Drop {
    ghost use Rattle.std.specs.Prelude.{◌≡◌, MatchOption};
    ghost use Rattle.edit_script.specs.declared.commands.Command.{Command as AnyCommand};

    // The command that one of the kind is among all.
    ghost as_command: { Self → AnyCommand };

    /// The command as one of the kind, if it is.
    fn of_command(command: Command<'a>) -> Option<Self>
        ensures { MatchOption result ((it : Self) → ¬ (as_command it ≡ command.entry))
            (λ it. as_command it ≡ command.entry) };
}

/// What is read of a script.
#[derive(Drop)]
pub(crate) struct Reading<'a> {
    /// The commands before the first wrong line, each with the number of its first line.
    pub(crate) commands: Vec<(usize, Command<'a>)>,
    /// The number of the first wrong line, if there is one.
    pub(crate) wrong: Option<usize>,
}

/// Reads the commands of a text, up to the first wrong line.
pub(crate) fn read_commands<'a>(alloc: Global, text: &'a [u8]) -> Result<Reading<'a>, AllocError>
    ensures { IfOk result (λ reading.
        AreRead (read_lines text.now) reading.commands.items reading.wrong) }
{
    let lines = numbered_lines(alloc, text)?;
    let lines = lines.as_slice();
    let mut commands = Vec::new(alloc);
    let mut at = 0;
    while at < lines.len() {
        match read_front(alloc, &lines[at..])? {
            Front::Command {
                number,
                command,
                count,
            } => {
                commands.push((number, command))?;
                at += count;
            }
            Front::Wrong { number } => {
                let wrong = Some(number);
                return Ok(Reading { commands, wrong });
            }
        }
    }
    let wrong = None;
    Ok(Reading { commands, wrong })
}

/// The commands of a script, or its first line that is wrong, or is a command of another kind.
pub(crate) fn read_kind<'a, K: FromCommand<'a>>(
    alloc: Global,
    text: &'a [u8],
) -> Result<Vec<K>, ScriptFault>
    ensures { IsReadAs K.as_command text.now result }
{
    let Reading {
        commands: numbered,
        wrong,
    } = read_commands(alloc, text)?;
    let mut commands = Vec::new(alloc);
    for (number, command) in numbered {
        match K::of_command(command) {
            Some(command) => commands.push(command)?,
            None => return Err(ScriptFault::Line(number)),
        }
    }
    match wrong {
        Some(number) => Err(ScriptFault::Line(number)),
        None => Ok(commands),
    }
}

/// Lines are read in one way: the commands of two readings begin at the same lines, and the same
/// line is wrong, if one is.
pub fn one_reading()
    ensures { (lines : List (ℕ × List ℕ)) (first second : List (ℕ × CommandValue))
        (wrong other : Option ℕ) → AreRead lines first wrong → AreRead lines second other
        → (map (λ it. it.0) first ≡ map (λ it. it.0) second) × (wrong ≡ other) }
{}
