//! Why scripts aren't taken, and files that they load, in lines.

ghost use Rattle.std.specs.Prelude.{◌≡◌, ◌≤◌, ◌⊎◌, [], ℕ, codes, length, take, true, IfOk};
ghost use Rattle.std.specs.Str.{bytes_eq};
ghost use Rattle.edit_script.specs.Words.{texts_of};
ghost use Rattle.failure_reasons.specs.FailureReasonsLines.{AreFileLines, MayHaveFile, MayHaveLoad, MayHaveWrong};
ghost use Rattle.failure_reasons.specs.Loads.{AreLoadLines, AreScriptLines, AreTextLines};
ghost use Rattle.failure_reasons.specs.declared.script_reasons.explaining.ScriptKind.TheVariants.{Edits};

use crate::explain::Again;
use crate::loads::loads;
use crate::noted::Noted;
use crate::script_reasons::{ScriptKind, explain_script};
use crate::streams::{FileLine, file_line, stream_lines};
use crate::unread::{unread_load_line, unread_script_line};
use console_io::{InputFault, whole_input};
use edit_script::ScriptFault;
use std::alloc::{AllocError, Global};

/// Why the script of this name isn't taken, in a line; or, where it is, lines for the files that it
/// loads and that aren't, up to the first that can't be read. For `-` there is none.
pub fn script_lines<D: Again>(
    alloc: Global,
    kind: ScriptKind,
    directory: &D,
    name: &str,
) -> Result<Vec<u8>, AllocError>
    ensures lines { IfOk result (λ lines.
        AreScriptLines kind (D.bytes directory.now) name.now lines.items) }
    ensures standard { bytes_eq name.now (codes "-") ≡ true
        → IfOk result (λ lines. lines.items ≡ []) }
{
    if name == "-" {
        return Ok(Vec::new(alloc));
    }
    match directory.open_again(name) {
        Ok(Some(script)) => opened_lines(alloc, kind, directory, name, script),
        Ok(None) => Ok(Vec::new(alloc)),
        Err(error) => unread_script_line(alloc, name, &error),
    }
}

/// The same of a script that was opened.
fn opened_lines<D: Again>(
    alloc: Global,
    kind: ScriptKind,
    directory: &D,
    name: &str,
    reader: D::File,
) -> Result<Vec<u8>, AllocError>
    requires { D.File.Read.remaining reader ≡ D.bytes directory.now name.now }
    ensures { IfOk result (λ lines.
        AreScriptLines kind (D.bytes directory.now) name.now lines.items) }
{
    let error = None;
    let mut script = Noted { reader, error };
    match whole_input(alloc, &mut script) {
        Ok(text) => text_lines(alloc, kind, directory, text.as_slice()),
        Err(InputFault::Memory) => Err(AllocError),
        Err(InputFault::Unread) => match script.error {
            Some(error) => unread_script_line(alloc, name, &error),
            None => Ok(Vec::new(alloc)),
        },
    }
}

/// The same of a script of this text.
fn text_lines<D: Again>(
    alloc: Global,
    kind: ScriptKind,
    directory: &D,
    text: &[u8],
) -> Result<Vec<u8>, AllocError>
    ensures { IfOk result (λ lines.
        AreTextLines kind (D.bytes directory.now) text.now lines.items) }
{
    let line = wrong_line(alloc, kind, text)?;
    if !line.is_empty() {
        return Ok(line);
    }
    load_lines(alloc, kind, directory, text)
}

/// Why the first wrong line of a script is no command, in a line, if there is one.
fn wrong_line(alloc: Global, kind: ScriptKind, text: &[u8]) -> Result<Vec<u8>, AllocError>
    ensures { IfOk result (λ line. MayHaveWrong kind text.now line.items) }
{
    let mut line = Vec::new(alloc);
    match explain_script(alloc, kind, text, &mut line) {
        Ok(()) => Ok(line),
        Err(_) => Err(AllocError),
    }
}

/// Lines for the files that a script loads and that aren't taken, up to the first that can't be read.
fn load_lines<D: Again>(
    alloc: Global,
    kind: ScriptKind,
    directory: &D,
    text: &[u8],
) -> Result<Vec<u8>, AllocError>
    ensures { IfOk result (λ lines.
        AreTextLines kind (D.bytes directory.now) text.now lines.items) }
{
    match loads(alloc, kind, text) {
        Ok(names) => name_lines(alloc, directory, names.as_slice()),
        Err(ScriptFault::Line(_)) => Ok(Vec::new(alloc)),
        Err(ScriptFault::Memory) => Err(AllocError),
    }
}

/// Lines for the files of these names that aren't taken, up to the first that can't be read.
fn name_lines<D: Again>(alloc: Global, directory: &D, names: &[&str]) -> Result<Vec<u8>, AllocError>
    ensures { IfOk result (λ lines. (count : ℕ) × (count ≤ length names.now)
        × AreFileLines (D.bytes directory.now) (take count (texts_of names.now)) lines.items) }
{
    let mut lines = Vec::new(alloc);
    for name in names {
        let said = name_line(alloc, directory, *name)?;
        lines.extend_from_slice(said.line.as_slice())?;
        if !said.is_read {
            return Ok(lines);
        }
    }
    Ok(lines)
}

/// What is said of a file that a script loads.
#[derive(Drop)]
struct NameLine {
    /// A line, or nothing.
    line: Vec<u8>,
    /// Whether the file can be read.
    is_read: bool,
}

/// Why the file of this name isn't taken, in a line, if it isn't and can be read twice.
fn name_line<D: Again>(alloc: Global, directory: &D, name: &str) -> Result<NameLine, AllocError>
    ensures { IfOk result (λ said.
        MayHaveLoad (D.bytes directory.now name.now) name.now said.line.items) }
{
    match file_line(alloc, directory, name)? {
        FileLine::Read(line) => Ok(NameLine {
            line,
            is_read: true,
        }),
        FileLine::Unread(error) => Ok(NameLine {
            line: unread_load_line(alloc, name, &error)?,
            is_read: false,
        }),
    }
}

/// Why the file of this name isn't taken as a stream, in a line, or why the script of this name isn't
/// as one of edits.
pub fn edited_lines<D: Again>(
    alloc: Global,
    directory: &D,
    name: &str,
    script: &str,
) -> Result<Vec<u8>, AllocError>
    ensures { IfOk result (λ lines. MayHaveFile (D.bytes directory.now name.now) name.now lines.items
        ⊎ AreScriptLines Edits (D.bytes directory.now) script.now lines.items) }
{
    let line = stream_lines(alloc, directory, name)?;
    if !line.is_empty() {
        return Ok(line);
    }
    script_lines(alloc, ScriptKind::Edits, directory, script)
}
