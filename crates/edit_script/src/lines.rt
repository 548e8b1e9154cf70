//! The lines of a script, one by one (docs/OUTPUT.md).

ghost use Rattle.std.specs.Prelude.{◌≡◌, IfOk};
ghost use Rattle.edit_script.specs.Commands.{are_alone};
ghost use Rattle.edit_script.specs.Lines.{numbered_of, AreInside, AreOutside, IsInside, IsOutside};
ghost use Rattle.edit_script.specs.Scripts.{is_skipped, lines_of, read_lines};
ghost use Rattle.edit_script.specs.Words.{texts_of, words_of};

use crate::commands::{Command, LineFault, read_command, read_edit};
use std::alloc::{AllocError, Global};
use stream_edits::Edit;

/// What a line is that stands outside groups.
#[derive(Drop)]
pub(crate) enum Outside<'a> {
    /// A command.
    Command(Command<'a>),
    /// A group's first line.
    Group,
    /// None of these.
    Wrong,
}

/// What a line is that stands in a group, behind its first.
#[derive(Drop)]
pub(crate) enum Inside {
    /// An edit.
    Edit(Edit),
    /// The group's last line.
    End,
    /// None of these.
    Wrong,
}

/// The lines of a text that aren't skipped, each with its number, from 1.
pub(crate) fn numbered_lines<'a>(
    alloc: Global,
    text: &'a [u8],
) -> Result<Vec<(usize, &'a [u8])>, AllocError>
    ensures { IfOk result (λ lines. numbered_of lines.items ≡ read_lines text.now) }
{
    let lines = split_lines(alloc, text)?;
    let mut numbered = Vec::new(alloc);
    for (index, line) in lines.iter().enumerate() {
        if !is_comment(line) {
            numbered.push((index + 1, *line))?;
        }
    }
    Ok(numbered)
}

/// The lines of a text.
fn split_lines<'a>(alloc: Global, text: &'a [u8]) -> Result<Vec<&'a [u8]>, AllocError>
    ensures { IfOk result (λ lines. texts_of lines.items ≡ lines_of text.now) }
{
    text.split(|byte| *byte == b'\n').collect(alloc)
}

/// Whether a line is skipped: it is empty, or a comment, which may have any bytes.
fn is_comment(line: &[u8]) -> bool
    ensures { result ≡ is_skipped line.now }
{
    line.is_empty() || line[0] == b'#'
}

/// What a line is, outside groups.
pub(crate) fn read_outside<'a>(alloc: Global, line: &'a [u8]) -> Result<Outside<'a>, AllocError>
    ensures { IfOk result (IsOutside line.now) }
{
    match std::str::from_utf8(line) {
        Ok(line) => words_outside(alloc, split_words(alloc, line)?.as_slice()),
        Err(_) => Ok(Outside::Wrong),
    }
}

/// What words are, outside groups.
fn words_outside<'a>(alloc: Global, words: &[&'a str]) -> Result<Outside<'a>, AllocError>
    ensures { IfOk result (AreOutside (texts_of words.now)) }
{
    if is_alone("group", words) {
        return Ok(Outside::Group);
    }
    match read_command(alloc, words) {
        Ok(command) => Ok(Outside::Command(command)),
        Err(LineFault::Wrong) => Ok(Outside::Wrong),
        Err(LineFault::Memory) => Err(AllocError),
    }
}

/// What a line is, in a group.
pub(crate) fn read_inside(alloc: Global, line: &[u8]) -> Result<Inside, AllocError>
    ensures { IfOk result (IsInside line.now) }
{
    match std::str::from_utf8(line) {
        Ok(line) => words_inside(alloc, split_words(alloc, line)?.as_slice()),
        Err(_) => Ok(Inside::Wrong),
    }
}

/// What words are, in a group.
fn words_inside(alloc: Global, words: &[&str]) -> Result<Inside, AllocError>
    ensures { IfOk result (AreInside (texts_of words.now)) }
{
    if is_alone("end", words) {
        return Ok(Inside::End);
    }
    match read_edit(alloc, words) {
        Ok(edit) => Ok(Inside::Edit(edit)),
        Err(LineFault::Wrong) => Ok(Inside::Wrong),
        Err(LineFault::Memory) => Err(AllocError),
    }
}

/// Whether words are this one alone.
fn is_alone(name: &str, words: &[&str]) -> bool
    ensures { result ≡ are_alone name.now (texts_of words.now) }
{
    match words {
        [word] => *word == name,
        _ => false,
    }
}

/// The words of a line, which spaces part.
fn split_words<'a>(alloc: Global, line: &'a str) -> Result<Vec<&'a str>, AllocError>
    ensures { IfOk result (λ words. texts_of words.items ≡ words_of line.now) }
{
    line.split(' ')
        .filter(|word| !word.is_empty())
        .collect(alloc)
}
