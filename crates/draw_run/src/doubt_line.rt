//! What is said of a unit in doubt.

ghost use Rattle.std.specs.Prelude.{◌≡◌, ◌++◌, OnOk, Some, string_bytes};
ghost use Rattle.draw_run.specs.Doubts.{doubt_in, doubt_line, follows_line, follows_words};

use h264_types::pictures::AuId;
use std::alloc::AllocError;
use std::fmt;
use std::fmt::{Display, Formatter, Write};
use unit_outcomes::doubts::Doubt;

/// What is told of the unit with an id, in a stream whose ids are 1, 2, 3 and so on, of all that is
/// told of it.
pub(crate) fn doubt_in(doubts: &[Doubt], id: AuId) -> Doubt
    ensures { result ≡ doubt_in doubts.now id }
{
    let none = Doubt {
        follows: None,
        in_doubt: false,
    };
    let Some(place) = id.number().checked_sub(1) else {
        return none;
    };
    match doubts.get(place as usize) {
        Some(doubt) => *doubt,
        None => none,
    }
}

/// Adds the line of a unit in doubt to what is said of it.
pub(crate) fn add_doubt(lines: &mut String, doubt: &Doubt) -> Result<(), AllocError>
    ensures { OnOk result (string_bytes lines.new
        ≡ string_bytes lines.old ++ doubt_line doubt.now) }
{
    if !doubt.in_doubt {
        return Ok(());
    }
    add_follows(lines, doubt.follows)
}

/// Adds the line that says which break a unit in doubt follows.
fn add_follows(lines: &mut String, follows: Option<AuId>) -> Result<(), AllocError>
    ensures { OnOk result (string_bytes lines.new
        ≡ string_bytes lines.old ++ follows_line follows) }
{
    match follows {
        Some(id) => add_line(lines, id.number()),
        None => Ok(()),
    }
}

/// Adds the line of a unit that follows the one of this number.
fn add_line(lines: &mut String, number: u32) -> Result<(), AllocError>
    ensures { OnOk result (string_bytes lines.new
        ≡ string_bytes lines.old ++ follows_words number) }
{
    lines.write(FollowsLine(number))
}

/// The line of a unit that follows the one of this number.
#[derive(Drop)]
struct FollowsLine(u32);

impl Display for FollowsLine {
    ghost output = { λ line. Some (follows_words line.0) };

    fn fmt<W: Write>(&self, f: &mut Formatter<W>) -> fmt::Result {
        let number = self.0;
        write!(f, "in doubt: follows the fault of unit {number}\n")
    }
}
