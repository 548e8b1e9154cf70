//! Why a line of a script is no command, as far as its words tell.

ghost use Rattle.std.specs.Prelude.{◌≡◌, ◌∷◌, [], Some, option_map, slice_get};
ghost use Rattle.edit_script.specs.Words.{words_of};
ghost use Rattle.failure_reasons.specs.Lines.{has_blank, line_reason, reason_text, words_reason};

use crate::script_reasons::forms::form_of;
use std::fmt;
use std::fmt::{Display, Formatter, Write};

/// Why a line of a script is no command. Printed, it is a sentence without its full stop.
#[derive(Clone, Copy, Debug, PartialEq, Eq)]
pub enum LineReason<'a> {
    /// It isn't UTF-8.
    NotText,
    /// It has a tab or a carriage return.
    Blank,
    /// It has spaces alone.
    NoWord,
    /// No command has the name that is its first word.
    NoCommand(&'a str),
    /// The command of its first word is written so, and stands there.
    Form(&'static str),
}

impl<'a> Display for LineReason<'a> {
    ghost output = { λ reason. Some (reason_text reason) };

    fn fmt<W: Write>(&self, f: &mut Formatter<W>) -> fmt::Result {
        match *self {
            LineReason::NotText => f.write_str("the line isn't UTF-8"),
            LineReason::Blank => f.write_str("a tab or a carriage return is no space"),
            LineReason::NoWord => f.write_str("spaces alone are no command"),
            LineReason::NoCommand(name) => write!(f, "no command \"{name}\""),
            LineReason::Form(sentence) => f.write_str(sentence),
        }
    }
}

/// Why a line is no command, of which that is known.
pub fn line_reason<'a>(line: &'a [u8]) -> LineReason<'a>
    ensures { reason_text result ≡ line_reason line.now }
{
    match std::str::from_utf8(line) {
        Ok(_) if has_blank(line) => LineReason::Blank,
        Ok(line) => words_reason(line),
        Err(_) => LineReason::NotText,
    }
}

/// Whether there is a tab or a carriage return.
fn has_blank(line: &[u8]) -> bool
    ensures { result ≡ has_blank line.now }
{
    line.contains(&b'\t') || line.contains(&b'\r')
}

/// Why the words of a line are no command.
fn words_reason<'a>(line: &'a str) -> LineReason<'a>
    ensures { reason_text result ≡ words_reason (words_of line.now) }
{
    match first_word(line) {
        None => LineReason::NoWord,
        Some(name) => match form_of(name) {
            Some(form) => LineReason::Form(form),
            None => LineReason::NoCommand(name),
        },
    }
}

/// The first of a line's words.
fn first_word<'a>(line: &'a str) -> Option<&'a str>
    ensures { option_map (λ word. word.now) result ≡ slice_get (words_of line.now) 0 }
{
    line.split(' ').filter(|word| !word.is_empty()).nth(0)
}
