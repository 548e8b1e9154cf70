//! The lines that answer groups of edits (docs/OUTPUT.md).

ghost use Rattle.std.specs.Prelude.{Some};
ghost use Rattle.script_run.specs.GroupLines.{group_line, group_refused_line, ids_text};

use h264_types::pictures::AuId;
use stand_in_session::{GroupReceipt, GroupRefused};
use std::fmt;
use std::fmt::{Display, Formatter, Write};

/// The line of an accepted group.
#[derive(Drop)]
pub struct GroupLine<'a>(pub &'a GroupReceipt);

impl<'a> Display for GroupLine<'a> {
    ghost output = { λ line. Some (group_line line.0.now.number line.0.now.ids.items) };

    fn fmt<W: Write>(&self, f: &mut Formatter<W>) -> fmt::Result {
        let (number, ids) = (self.0.number, Ids(self.0.ids.as_slice()));
        writeln!(f, "group {number} ids{ids}")
    }
}

/// The ids that a group's edits were answered, each after a space.
#[derive(Drop)]
struct Ids<'a>(&'a [AuId]);

impl<'a> Display for Ids<'a> {
    ghost output = { λ ids. Some (ids_text ids.0.now) };

    fn fmt<W: Write>(&self, f: &mut Formatter<W>) -> fmt::Result {
        for id in self.0 {
            let number = id.number();
            write!(f, " {number}")?;
        }
        Ok(())
    }
}

/// The line of a refused group: with the place of the edit that is refused, counted from 0, where
/// it is one edit's refusal.
#[derive(Drop)]
pub struct GroupRefusedLine(pub GroupRefused);

impl Display for GroupRefusedLine {
    ghost output = { λ line. Some (group_refused_line line.0) };

    fn fmt<W: Write>(&self, f: &mut Formatter<W>) -> fmt::Result {
        let (number, name) = (self.0.number(), self.0.name());
        match self.0 {
            GroupRefused::Edit { index, .. } => {
                writeln!(f, "group refused at {index} {number} {name}")
            }
            _ => writeln!(f, "group refused {number} {name}"),
        }
    }
}
