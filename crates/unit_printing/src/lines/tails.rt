//! The lines of a unit after its place in output order, written without requests.

ghost use Rattle.std.specs.Prelude.{◌≡◌, ◌++◌, string_bytes, OnOk, Some};
ghost use Rattle.request_core.specs.StepResults.{outcome_in};
ghost use Rattle.request_core.specs.Pictures.{plan_in};
ghost use Rattle.request_core.specs.Requests.{request_of};
ghost use Rattle.unit_printing.specs.Lines.{plan_tail, request_text};
ghost use Rattle.unit_printing.specs.UnitLines.{outcome_tail};
ghost use Rattle.unit_printing.specs.Growing.{Grows};
ghost use Rattle.unit_printing.specs.Refusals.{refusal_text};

use crate::lines::frames::put_frames;
use crate::lines::lines::{put_counts, put_empty, put_fault};
use crate::lines::numbers::{put_field, put_text};
use crate::lines::requests::{put_hold, put_lists, put_slice};
use access_unit::Refusal;
use h264_types::pictures::AuId;
use request_core::{Listed, PlannedPicture, StepResult};
use std::alloc::AllocError;
use std::fmt;
use std::fmt::{Display, Formatter, Write};

/// Writes the lines of a unit after its place in output order over the text, which is of no use
/// where memory runs out. They don't depend on the place, and are all of them where the unit has
/// none.
pub fn write_tail(text: &mut String, id: AuId, finding: &StepResult<'_>) -> Result<(), AllocError>
    ensures { OnOk result (string_bytes text.new ≡ outcome_tail id (outcome_in finding.now)) }
{
    text.clear();
    put_step_result(text, id, finding)
}

/// Adds the lines of a unit after its place in output order.
fn put_step_result(text: &mut String, id: AuId, finding: &StepResult<'_>) -> Result<(), AllocError>
    ensures { OnOk result (Grows (string_bytes text.old) (string_bytes text.new)
        (outcome_tail id (outcome_in finding.now))) }
{
    match finding {
        StepResult::Picture(picture) => put_picture(text, id, picture),
        StepResult::Fault(fault) => put_fault(text, id, *fault),
        StepResult::Empty => put_empty(text, id),
    }
}

/// Adds the lines of a picture after its place in output order.
fn put_picture(text: &mut String, id: AuId, picture: &PlannedPicture<'_>) -> Result<(), AllocError>
    ensures { OnOk result (Grows (string_bytes text.old) (string_bytes text.new)
        (plan_tail id (plan_in picture.now))) }
{
    let slices = picture.slices();
    put_counts(text, picture.counts(), slices.len())?;
    for (place, listed) in slices.iter().enumerate() {
        let hold = place + 1 < slices.len();
        put_listed(text, id, picture, place, listed, hold)?;
    }
    Ok(())
}

/// Adds the line of the request of the slice at a place of its picture, from 0.
fn put_listed(
    text: &mut String,
    id: AuId,
    picture: &PlannedPicture<'_>,
    place: usize,
    listed: &Listed<'_>,
    hold: bool,
) -> Result<(), AllocError>
    ensures { OnOk result (Grows (string_bytes text.old) (string_bytes text.new)
        (request_text id place
        (request_of picture.now.frames picture.now.counts picture.now.id listed.now hold))) }
{
    let slice = listed.slice();
    let header = slice.header();
    put_field(text, "request ", u64::from(id.number()))?;
    put_slice(
        text,
        place,
        picture.id().timestamp(),
        header.header_bit_size,
        header.slice_type,
        header.frame_num,
    )?;
    put_text(text, " dpb ")?;
    put_frames(text, picture.frames(), slice.sps(), header)?;
    put_lists(text, listed.list_0().entries(), listed.list_1().entries())?;
    put_hold(text, hold)?;
    Ok(())
}

/// The line of a stream that is refused.
#[derive(Drop)]
pub struct RefusalLine(pub Refusal);

impl Display for RefusalLine {
    ghost output = { λ line. Some (refusal_text line.0) };

    fn fmt<W: Write>(&self, f: &mut Formatter<W>) -> fmt::Result {
        match self.0 {
            Refusal::Split => writeln!(f, "refused 1 Split"),
            Refusal::Unit { index, refused } => {
                let (number, name) = (refused.number(), refused.name());
                writeln!(f, "unit {index} refused {number} {name}")
            }
            Refusal::StreamFull => writeln!(f, "refused 17 StreamFull"),
        }
    }
}
