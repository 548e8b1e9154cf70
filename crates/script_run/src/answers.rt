//! The lines that answer the commands of a script (docs/OUTPUT.md).

ghost use Rattle.std.specs.Prelude.{Some};
ghost use Rattle.script_run.specs.Answers.{accepted_line, loaded_line, no_unit_line, refused_line};

use stand_in_session::{EditRefused, Receipt};
use std::fmt;
use std::fmt::{Display, Formatter, Write};

/// The line of an accepted edit.
#[derive(Drop)]
pub struct AcceptedLine(pub Receipt);

impl Display for AcceptedLine {
    ghost output = { λ line. Some (accepted_line line.0) };

    fn fmt<W: Write>(&self, f: &mut Formatter<W>) -> fmt::Result {
        let (number, id) = (self.0.number, self.0.id.number());
        writeln!(f, "edit {number} id {id}")
    }
}

/// The line of a refused edit.
#[derive(Drop)]
pub struct RefusedLine(pub EditRefused);

impl Display for RefusedLine {
    ghost output = { λ line. Some (refused_line line.0) };

    fn fmt<W: Write>(&self, f: &mut Formatter<W>) -> fmt::Result {
        let (number, name) = (self.0.number(), self.0.name());
        writeln!(f, "refused {number} {name}")
    }
}

/// The line of a file whose units were all inserted: how many.
#[derive(Drop)]
pub struct LoadedLine(pub usize);

impl Display for LoadedLine {
    ghost output = { λ line. Some (loaded_line line.0) };

    fn fmt<W: Write>(&self, f: &mut Formatter<W>) -> fmt::Result {
        let count = self.0;
        writeln!(f, "loaded {count}")
    }
}

/// The line of a unit that isn't there.
#[derive(Drop)]
pub struct NoUnitLine(pub u64);

impl Display for NoUnitLine {
    ghost output = { λ line. Some (no_unit_line line.0) };

    fn fmt<W: Write>(&self, f: &mut Formatter<W>) -> fmt::Result {
        let number = self.0;
        writeln!(f, "unit {number} none")
    }
}
