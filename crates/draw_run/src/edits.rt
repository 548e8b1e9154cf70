//! The edits of a script, made on a session.

ghost use Rattle.std.specs.Prelude.{◌≡◌, ◌++◌, ℕ, List, IfOk, OnOk, Some, string_bytes};
ghost use Rattle.draw_run.specs.Making.{AreMade, Makes, line_words};
ghost use Rattle.script_run.specs.Answers.{refused_line};
ghost use Rattle.script_run.specs.GroupLines.{group_refused_line};

use edit_script::EditCommand;
use script_run::{GroupRefusedLine, RefusedLine};
use stand_in_session::{Edit, EditRefused, GroupRefused, Session};
use std::alloc::{AllocError, Global};
use std::fmt;
use std::fmt::{Display, Formatter, Write};

/// Makes the edits and groups one after the other, each the command of the line of its number, and
/// gives what is told of those that are refused.
pub(crate) fn make_edits(
    alloc: Global,
    session: &mut Session,
    commands: Vec<(usize, EditCommand)>,
) -> Result<String, AllocError>
    ensures { IfOk result (λ told.
        AreMade session.old commands.items (string_bytes told) session.new) }
{
    let mut told = String::new(alloc);
    for (number, command) in commands {
        make(session, number, command, &mut told)?;
    }
    Ok(told)
}

/// Makes an edit or a group, and adds what is told of it.
fn make(
    session: &mut Session,
    number: usize,
    command: EditCommand,
    told: &mut String,
) -> Result<(), AllocError>
    ensures { OnOk result ((more : List ℕ) × Makes session.old (number, command) more session.new
        × (string_bytes told.new ≡ string_bytes told.old ++ more)) }
{
    match command {
        EditCommand::Edit(edit) => match session.edit(edit) {
            Ok(_) => Ok(()),
            Err(EditRefused::Memory) => Err(AllocError),
            Err(refused) => tell_edit(told, number, refused),
        },
        EditCommand::Group(edits) => match session.edit_group(edits) {
            Ok(_) => Ok(()),
            Err(GroupRefused::Memory) => Err(AllocError),
            Err(refused) => tell_group(told, number, refused),
        },
    }
}

/// Tells why the edit of this line is refused.
fn tell_edit(told: &mut String, number: usize, refused: EditRefused) -> Result<(), AllocError>
    ensures { OnOk result (string_bytes told.new
        ≡ string_bytes told.old ++ (line_words number ++ refused_line refused)) }
{
    told.write(LineWords(number))?;
    told.write(RefusedLine(refused))
}

/// Tells why the group of this line is refused.
fn tell_group(told: &mut String, number: usize, refused: GroupRefused) -> Result<(), AllocError>
    ensures { OnOk result (string_bytes told.new
        ≡ string_bytes told.old ++ (line_words number ++ group_refused_line refused)) }
{
    told.write(LineWords(number))?;
    told.write(GroupRefusedLine(refused))
}

/// The words for the line of a script that has this number.
#[derive(Drop)]
struct LineWords(usize);

impl Display for LineWords {
    ghost output = { λ words. Some (line_words words.0) };

    fn fmt<W: Write>(&self, f: &mut Formatter<W>) -> fmt::Result {
        let number = self.0;
        write!(f, "line {number}: ")
    }
}
