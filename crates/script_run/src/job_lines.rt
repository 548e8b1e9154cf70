//! The lines that answer commands about jobs (docs/OUTPUT.md).

ghost use Rattle.std.specs.Prelude.{◌≡◌, Some};
ghost use Rattle.script_run.specs.JobLines.{dropped_line, dropping_words, given_line, landed_line, landing_word, returning_word, taken_line};

use stand_in_session::{Dropping, Landing, NotOut, Returning, TakenJob};
use std::fmt;
use std::fmt::{Display, Formatter, Write};

/// The line of a job that was taken, or that no picture is due.
#[derive(Drop)]
pub struct TakenLine(pub Option<TakenJob>);

impl Display for TakenLine {
    ghost output = { λ line. Some (taken_line line.0) };

    fn fmt<W: Write>(&self, f: &mut Formatter<W>) -> fmt::Result {
        match &self.0 {
            Some(job) => {
                let (number, unit) = (job.number, job.unit.number());
                writeln!(f, "job {number} unit {unit}")
            }
            None => writeln!(f, "job none"),
        }
    }
}

/// The line of what became of the result of a job of a number.
#[derive(Drop)]
pub struct LandedLine(pub u64, pub Result<Landing, NotOut>);

impl Display for LandedLine {
    ghost output = { λ line. Some (landed_line line.0 line.1) };

    fn fmt<W: Write>(&self, f: &mut Formatter<W>) -> fmt::Result {
        let (number, word) = (self.0, landing_word(self.1));
        writeln!(f, "land {number} {word}")
    }
}

/// What became of a job's result, in a word.
fn landing_word(answer: Result<Landing, NotOut>) -> &'static str
    ensures { result.now ≡ landing_word answer }
{
    match answer {
        Ok(Landing::Taken) => "taken",
        Ok(Landing::Stale) => "stale",
        Ok(Landing::Foreign) | Err(NotOut) => "none",
    }
}

/// The line of what became of a job of a number that was given back.
#[derive(Drop)]
pub struct GivenLine(pub u64, pub Result<Returning, NotOut>);

impl Display for GivenLine {
    ghost output = { λ line. Some (given_line line.0 line.1) };

    fn fmt<W: Write>(&self, f: &mut Formatter<W>) -> fmt::Result {
        let (number, word) = (self.0, returning_word(self.1));
        writeln!(f, "give {number} {word}")
    }
}

/// What became of a job that was given back, in a word.
fn returning_word(answer: Result<Returning, NotOut>) -> &'static str
    ensures { result.now ≡ returning_word answer }
{
    match answer {
        Ok(Returning::Returned) => "back",
        Ok(Returning::Foreign) | Err(NotOut) => "none",
    }
}

/// The line of what came of dropping the picture of the unit of a number.
#[derive(Drop)]
pub struct DroppedLine(pub u64, pub Dropping);

impl Display for DroppedLine {
    ghost output = { λ line. Some (dropped_line line.0 line.1) };

    fn fmt<W: Write>(&self, f: &mut Formatter<W>) -> fmt::Result {
        let (number, words) = (self.0, dropping_words(self.1));
        writeln!(f, "drop {number} {words}")
    }
}

/// What came of dropping a unit's picture, in words.
fn dropping_words(answer: Dropping) -> &'static str
    ensures { result.now ≡ dropping_words answer }
{
    match answer {
        Dropping::Dropped => "dropped",
        Dropping::NotHeld => "not held",
        Dropping::NoSuchUnit => "none",
    }
}
