//! Flags as text: the kernel's names of those that are set.

use std::fmt;
use std::fmt::{Display, Formatter, Write};

/// The names of the flags that are set, by rising bit, joined by `|`; nothing where none is.
#[derive(Drop)]
pub(crate) struct FlagNames<'a> {
    pub(crate) flags: u32,
    /// The name of each bit, from the lowest on.
    pub(crate) names: &'a [&'a str],
}

impl<'a> Display for FlagNames<'a> {
    fn fmt<W: Write>(&self, f: &mut Formatter<W>) -> fmt::Result {
        let mut rest = self.flags;
        let mut bar = "";
        for name in self.names {
            if rest % 2 == 1 {
                write!(f, "{bar}{name}")?;
                bar = "|";
            }
            rest /= 2;
        }
        Ok(())
    }
}
