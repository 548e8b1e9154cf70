//! The command at the start of a script's lines: a line alone, or a group (docs/OUTPUT.md).

ghost use Rattle.std.specs.Prelude.{◌<◌, ◌∷◌, ℕ, List, length, IfOk};
ghost use Rattle.edit_script.specs.Lines.{numbered_of, IsFront};
ghost use Rattle.edit_script.specs.Scripts.{IsGroupLine};

use crate::commands::Command;
use crate::lines::{Inside, Outside, read_inside, read_outside};
use std::alloc::{AllocError, Global};

/// What stands at the start of the lines that are left.
#[derive(Drop)]
pub(crate) enum Front<'a> {
    /// This command. The first of its lines has this number, and there are so many.
    Command {
        number: usize,
        command: Command<'a>,
        count: usize,
    },
    /// No command. The line of this number is to blame.
    Wrong {
        number: usize,
    },
}

/// What stands at the start of lines.
pub(crate) fn read_front<'a>(
    alloc: Global,
    lines: &[(usize, &'a [u8])],
) -> Result<Front<'a>, AllocError>
    requires { 0 < length lines.now }
    ensures { IfOk result (IsFront (numbered_of lines.now)) }
{
    let (number, line) = lines[0];
    match read_outside(alloc, line)? {
        Outside::Command(command) => Ok(Front::Command {
            number,
            command,
            count: 1,
        }),
        Outside::Group => read_group(alloc, number, &lines[1..]),
        Outside::Wrong => Ok(Front::Wrong { number }),
    }
}

/// The group whose first line has the number `first`, and has these lines behind it.
#[tactic(auto, using(crate::proofs::GroupLines::unclosed))]
fn read_group<'a>(
    alloc: Global,
    first: usize,
    lines: &[(usize, &[u8])],
) -> Result<Front<'a>, AllocError>
    ensures { IfOk result (λ front. (line : List ℕ) → IsGroupLine line
        → IsFront ((first, line) ∷ numbered_of lines.now) front) }
{
    let mut edits = Vec::new(alloc);
    for (index, (number, line)) in lines.iter().enumerate() {
        match read_inside(alloc, line)? {
            Inside::Edit(edit) => edits.push(edit)?,
            Inside::End => {
                return Ok(Front::Command {
                    number: first,
                    command: Command::Group(edits),
                    count: index + 2,
                });
            }
            Inside::Wrong => return Ok(Front::Wrong { number: *number }),
        }
    }
    Ok(Front::Wrong { number: first })
}
