//! The lines of a drawing: arcs, ways between the rows, and where periods begin.

ghost use Rattle.std.specs.Prelude.{◌≡◌, ◌<◌, ◌≤◌, OnOk};
ghost use Rattle.stream_svg.specs.Arcs.{arc_text, bend_text, curve_text, dot_text, far_word, list_digit, path_text, stub_text, turn_of, whole_text};
ghost use Rattle.stream_svg.specs.Boxes.{IsSmall};
ghost use Rattle.stream_svg.specs.Lines.{begin_text, way_text};
ghost use Rattle.stream_svg.specs.Texts.{Grows};

use crate::page::Page;
use crate::{Arc, Rect, RefList};
use std::alloc::AllocError;

/// Writes an arc.
pub(crate) fn write_arc(page: &mut Page, arc: &Arc) -> Result<(), AllocError>
    requires small { arc.now.from.y < 100000 }
    requires depth { arc.now.depth ≤ 150 }
    ensures { OnOk result (Grows page.old.bytes.items page.new.bytes.items (arc_text arc.now)) }
{
    if arc.is_whole {
        write_whole(page, arc, turn_of(arc))
    } else {
        write_stub(page, arc)
    }
}

/// The height of the control points of an arc.
fn turn_of(arc: &Arc) -> usize
    requires small { arc.now.from.y < 100000 }
    requires depth { arc.now.depth ≤ 150 }
    ensures { result ≡ turn_of arc.now.reference.list arc.now.from.y arc.now.depth }
{
    match arc.reference.list {
        RefList::Zero => arc.from.y + arc.depth,
        RefList::One => arc.from.y.saturating_sub(arc.depth),
    }
}

/// Writes an arc of which the frame's unit is drawn, with a dot at its end; its control points lie
/// at this height.
fn write_whole(page: &mut Page, arc: &Arc, turn: usize) -> Result<(), AllocError>
    ensures { OnOk result (Grows page.old.bytes.items page.new.bytes.items
        (whole_text arc.now turn)) }
{
    write_path(page, arc)?;
    write_curve(page, arc, turn)?;
    write_dot(page, arc)
}

/// Writes the curve of an arc, whose control points lie at this height.
fn write_curve(page: &mut Page, arc: &Arc, turn: usize) -> Result<(), AllocError>
    ensures { OnOk result (Grows page.old.bytes.items page.new.bytes.items
        (curve_text arc.now turn)) }
{
    let (x, end, stop) = (arc.from.x, arc.to.x, arc.to.y);
    page.print(format_args!("C{x} {turn} {end} {turn} {end} {stop}\"/>"))
}

/// Writes the dot at the end of an arc.
fn write_dot(page: &mut Page, arc: &Arc) -> Result<(), AllocError>
    ensures { OnOk result (Grows page.old.bytes.items page.new.bytes.items (dot_text arc.now)) }
{
    let list = digit_of(arc.reference.list);
    let (end, stop) = (arc.to.x, arc.to.y);
    page.print(format_args!("<circle class=\"d{list}\" cx=\"{end}\" cy=\"{stop}\" r=\"2\"/>"))
}

/// Writes an arc of which it isn't.
fn write_stub(page: &mut Page, arc: &Arc) -> Result<(), AllocError>
    ensures { OnOk result (Grows page.old.bytes.items page.new.bytes.items (stub_text arc.now)) }
{
    write_path(page, arc)?;
    write_bend(page, arc)
}

/// Writes the curve of a stub.
fn write_bend(page: &mut Page, arc: &Arc) -> Result<(), AllocError>
    ensures { OnOk result (Grows page.old.bytes.items page.new.bytes.items (bend_text arc.now)) }
{
    let (x, end, stop) = (arc.from.x, arc.to.x, arc.to.y);
    page.print(format_args!("Q{x} {stop} {end} {stop}\"/>"))
}

/// Opens the path of an arc, up to where it begins.
fn write_path(page: &mut Page, arc: &Arc) -> Result<(), AllocError>
    ensures { OnOk result (Grows page.old.bytes.items page.new.bytes.items (path_text arc.now)) }
{
    let list = digit_of(arc.reference.list);
    let far = far_word(arc.reference.long_term);
    let (x, y) = (arc.from.x, arc.from.y);
    page.print(format_args!("<path class=\"l{list}{far}\" d=\"M{x} {y}"))
}

/// The number of a list.
fn digit_of(list: RefList) -> &'static str
    ensures { result.now ≡ list_digit list }
{
    match list {
        RefList::Zero => "0",
        RefList::One => "1",
    }
}

/// The class of an arc to a long-term frame, after that of its list.
fn far_word(long_term: bool) -> &'static str
    ensures { result.now ≡ far_word long_term }
{
    if long_term { " far" } else { "" }
}

/// Writes the way from a box of the stream's row to one of the second row, which turns at this
/// height.
pub(crate) fn write_way(
    page: &mut Page,
    from: Rect,
    to: Rect,
    turn: usize,
) -> Result<(), AllocError>
    requires from { IsSmall from }
    requires to { IsSmall to }
    ensures { OnOk result (Grows page.old.bytes.items page.new.bytes.items
        (way_text from to turn)) }
{
    let (x, y) = (from.middle(), from.y + from.height);
    let (end, stop) = (to.middle(), to.y);
    page.print(format_args!("<path class=\"way\" d=\"M{x} {y}V{turn}L{end} {stop}\"/>"))
}

/// Writes that a period begins with a box, from one height to another.
pub(crate) fn write_begin(
    page: &mut Page,
    area: Rect,
    top: usize,
    end: usize,
) -> Result<(), AllocError>
    ensures { OnOk result (Grows page.old.bytes.items page.new.bytes.items
        (begin_text area top end)) }
{
    let x = area.x.saturating_sub(2);
    page.print(format_args!("<path class=\"begin\" d=\"M{x} {top}V{end}\"/>"))
}
