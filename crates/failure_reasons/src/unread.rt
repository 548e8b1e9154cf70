//! The lines that say why a file or a script can't be read, in the system's words.

ghost use Rattle.std.specs.Prelude.{◌≡◌, ℕ, List, Some, IfOk};
ghost use Rattle.failure_reasons.specs.FailureReasonsLines.{unread_file, unread_load, unread_script};

use std::alloc::{AllocError, Global};
use std::fmt;
use std::fmt::{Display, Formatter, Write};
use std::io::Error;

/// Why the file of this name can't be read, in these words.
#[derive(Clone, Copy)]
struct UnreadFile<'a> {
    name: &'a str,
    words: &'a str,
}

impl<'a> Display for UnreadFile<'a> {
    ghost output = { λ file. Some (unread_file file.name.now file.words.now) };

    fn fmt<W: Write>(&self, f: &mut Formatter<W>) -> fmt::Result {
        let (name, words) = (self.name, self.words);
        writeln!(f, "{name}: {words}; see: preview check {name}")
    }
}

/// Why the file of this name, which a script loads, can't be read, in these words.
#[derive(Clone, Copy)]
struct UnreadLoad<'a> {
    name: &'a str,
    words: &'a str,
}

impl<'a> Display for UnreadLoad<'a> {
    ghost output = { λ file. Some (unread_load file.name.now file.words.now) };

    fn fmt<W: Write>(&self, f: &mut Formatter<W>) -> fmt::Result {
        let (name, words) = (self.name, self.words);
        let start = "relative paths in a script start at the working directory";
        writeln!(f, "{name}: {words}; {start}; see: preview check {name}")
    }
}

/// Why the script of this name can't be read, in these words.
#[derive(Clone, Copy)]
struct UnreadScript<'a> {
    name: &'a str,
    words: &'a str,
}

impl<'a> Display for UnreadScript<'a> {
    ghost output = { λ script. Some (unread_script script.name.now script.words.now) };

    fn fmt<W: Write>(&self, f: &mut Formatter<W>) -> fmt::Result {
        let (name, words) = (self.name, self.words);
        writeln!(f, "{name}: {words}")
    }
}

/// The line that says why the file of this name can't be read.
pub(crate) fn unread_file_line(
    alloc: Global,
    name: &str,
    error: &Error,
) -> Result<Vec<u8>, AllocError>
    ensures { IfOk result (λ line. (words : List ℕ) × (line.items ≡ unread_file name.now words)) }
{
    let words = error.to_string(alloc)?;
    let words = words.as_str();
    let line = (UnreadFile { name, words }).to_string(alloc)?;
    Ok(line.into_bytes())
}

/// The line that says why the file of this name, which a script loads, can't be read.
pub(crate) fn unread_load_line(
    alloc: Global,
    name: &str,
    error: &Error,
) -> Result<Vec<u8>, AllocError>
    ensures { IfOk result (λ line. (words : List ℕ) × (line.items ≡ unread_load name.now words)) }
{
    let words = error.to_string(alloc)?;
    let words = words.as_str();
    let line = (UnreadLoad { name, words }).to_string(alloc)?;
    Ok(line.into_bytes())
}

/// The line that says why the script of this name can't be read.
pub(crate) fn unread_script_line(
    alloc: Global,
    name: &str,
    error: &Error,
) -> Result<Vec<u8>, AllocError>
    ensures { IfOk result (λ line. (words : List ℕ) × (line.items ≡ unread_script name.now words)) }
{
    let words = error.to_string(alloc)?;
    let words = words.as_str();
    let line = (UnreadScript { name, words }).to_string(alloc)?;
    Ok(line.into_bytes())
}
