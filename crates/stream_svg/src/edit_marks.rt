//! The marks of edits and of doubt on units.

ghost use Rattle.std.specs.Prelude.{◌≡◌, OnOk};
ghost use Rattle.stream_svg.specs.Boxes.{IsSmall};
ghost use Rattle.stream_svg.specs.Documents.{classes_of};
ghost use Rattle.stream_svg.specs.Shapes.{ask_text, disc_text, doubt_text, hatch_text, outline_text, picture_text};
ghost use Rattle.stream_svg.specs.Texts.{Grows};

use crate::boxes::write_rect;
use crate::page::Page;
use crate::{EditMark, PictureState, Rect};
use std::alloc::AllocError;

/// The classes of a unit's shapes, by which the style sheet shows what edits did to it.
pub(crate) fn classes_of(mark: Option<EditMark>) -> &'static str
    ensures { result.now ≡ classes_of mark }
{
    let Some(mark) = mark else {
        return "u";
    };
    match (mark.altered, mark.picture) {
        (false, None) => "u",
        (false, Some(PictureState::Stayed)) => "u stayed",
        (false, Some(PictureState::Pending)) => "u pending",
        (true, None) => "u altered",
        (true, Some(PictureState::Stayed)) => "u altered stayed",
        (true, Some(PictureState::Pending)) => "u altered pending",
    }
}

/// Writes the hatching of a unit's box, which the style sheet shows where the unit is altered.
pub(crate) fn write_hatch(
    page: &mut Page,
    area: Rect,
    mark: Option<EditMark>,
) -> Result<(), AllocError>
    ensures { OnOk result (Grows page.old.bytes.items page.new.bytes.items
        (hatch_text area mark)) }
{
    match mark {
        Some(_) => write_rect(page, "hatch", area),
        None => Ok(()),
    }
}

/// Writes what became of a unit's picture at the lower end of its box, of which the style sheet
/// shows the disc where it is held and the diamond where it is pending.
pub(crate) fn write_picture(
    page: &mut Page,
    area: Rect,
    mark: Option<EditMark>,
) -> Result<(), AllocError>
    requires { IsSmall area }
    ensures { OnOk result (Grows page.old.bytes.items page.new.bytes.items
        (picture_text area mark)) }
{
    match mark {
        Some(_) => write_disc(page, area),
        None => Ok(()),
    }
}

/// Writes the disc and the diamond of a box.
fn write_disc(page: &mut Page, area: Rect) -> Result<(), AllocError>
    requires { IsSmall area }
    ensures { OnOk result (Grows page.old.bytes.items page.new.bytes.items (disc_text area)) }
{
    let (x, y) = (area.middle(), (area.y + area.height).saturating_sub(7));
    let top = y.saturating_sub(4);
    page.print(format_args!(
        "<circle class=\"disc\" cx=\"{x}\" cy=\"{y}\" r=\"3\"/><path class=\"diamond\" d=\"M{x} {top}l4 4l-4 4l-4 -4z\"/>"
    ))
}

/// Writes the dashed outline of a unit's box and a `?` above it, where the unit is in doubt.
pub(crate) fn write_doubt(page: &mut Page, area: Rect, in_doubt: bool) -> Result<(), AllocError>
    requires { IsSmall area }
    ensures { OnOk result (Grows page.old.bytes.items page.new.bytes.items
        (doubt_text area in_doubt)) }
{
    if in_doubt {
        return write_outline(page, area);
    }
    Ok(())
}

/// Writes the outline and the `?`.
fn write_outline(page: &mut Page, area: Rect) -> Result<(), AllocError>
    requires { IsSmall area }
    ensures { OnOk result (Grows page.old.bytes.items page.new.bytes.items (outline_text area)) }
{
    write_rect(page, "doubt", area)?;
    write_ask(page, area)
}

/// Writes the `?` above a box.
fn write_ask(page: &mut Page, area: Rect) -> Result<(), AllocError>
    requires { IsSmall area }
    ensures { OnOk result (Grows page.old.bytes.items page.new.bytes.items (ask_text area)) }
{
    let (x, y) = (area.x + 4, area.y.saturating_sub(3));
    page.print(format_args!("<text class=\"m t ask\" x=\"{x}\" y=\"{y}\">?</text>"))
}
