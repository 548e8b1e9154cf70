//! What stands after the last unit of the stream's row.

ghost use Rattle.std.specs.Prelude.{◌≡◌, length, slice_get, OnOk};
ghost use Rattle.stream_svg.specs.Boxes.{IsSmall, stream_box};
ghost use Rattle.stream_svg.specs.Pages.{end_text};
ghost use Rattle.stream_svg.specs.Rows.{output_text, reason_of, reason_text, reasons_text, shown_text, shown_unit, slot_text, title_text};
ghost use Rattle.stream_svg.specs.Texts.{Grows};

use crate::boxes::{write_fills, write_number};
use crate::edit_marks::{classes_of, write_doubt, write_hatch};
use crate::page::Page;
use crate::{DrawnUnit, Grid, Layout, OutputUnit, Rect, UnitKind};
use std::alloc::AllocError;

/// Writes what stands after the last unit of the stream's row: the names of faults, and the second
/// row.
pub(crate) fn write_end(
    page: &mut Page,
    layout: &Layout,
    units: &[DrawnUnit],
) -> Result<(), AllocError>
    requires { layout.now.grid.units ≡ length units.now }
    ensures { OnOk result (Grows page.old.bytes.items page.new.bytes.items
        (end_text layout.now units.now)) }
{
    write_reasons(page, layout.grid, units)?;
    page.put("\n")?;
    write_output(page, layout.grid, units, layout.output.as_slice())?;
    page.put("</svg>\n")
}

/// Writes the names of faults, and which units have no picture, below their boxes.
fn write_reasons(page: &mut Page, grid: Grid, units: &[DrawnUnit]) -> Result<(), AllocError>
    requires { grid.units ≡ length units.now }
    ensures { OnOk result (Grows page.old.bytes.items page.new.bytes.items
        (reasons_text grid units.now)) }
{
    for (place, unit) in units.iter().enumerate() {
        write_reason(page, grid.stream_box(place), unit.kind)?;
    }
    Ok(())
}

/// Writes the name of a unit's fault, or that it has no picture, below its box.
fn write_reason(page: &mut Page, area: Rect, kind: UnitKind) -> Result<(), AllocError>
    requires { IsSmall area }
    ensures { OnOk result (Grows page.old.bytes.items page.new.bytes.items (reason_of area kind)) }
{
    match kind {
        UnitKind::Picture(_) => Ok(()),
        UnitKind::Fault(fault) => write_words(page, area, "why", fault.name()),
        UnitKind::Empty => write_words(page, area, "why none", "no picture"),
    }
}

/// Writes words of a class below a box.
fn write_words(page: &mut Page, area: Rect, class: &str, reason: &str) -> Result<(), AllocError>
    requires { IsSmall area }
    ensures { OnOk result (Grows page.old.bytes.items page.new.bytes.items
        (reason_text area class.now reason.now)) }
{
    let (x, y) = (area.middle().saturating_sub(4), area.y + area.height + 8);
    page.print(format_args!(
        "<text class=\"{class}\" transform=\"translate({x} {y}) rotate(90)\">{reason}</text>"
    ))
}

/// Writes the second row.
fn write_output(
    page: &mut Page,
    grid: Grid,
    units: &[DrawnUnit],
    row: &[OutputUnit],
) -> Result<(), AllocError>
    ensures { OnOk result (Grows page.old.bytes.items page.new.bytes.items
        (output_text grid units.now row.now)) }
{
    let mut slot = 0;
    for shown in row {
        write_slot(page, grid, units, slot, *shown)?;
        slot += 1;
    }
    Ok(())
}

/// Writes what a slot of the second row shows.
fn write_slot(
    page: &mut Page,
    grid: Grid,
    units: &[DrawnUnit],
    slot: usize,
    shown: OutputUnit,
) -> Result<(), AllocError>
    ensures { OnOk result (Grows page.old.bytes.items page.new.bytes.items
        (shown_unit grid slot shown (slice_get units.now shown.place))) }
{
    match units.get(shown.place) {
        Some(unit) => write_in_slot(page, grid, slot, unit, shown.position),
        None => Ok(()),
    }
}

/// Writes a unit into a slot.
fn write_in_slot(
    page: &mut Page,
    grid: Grid,
    slot: usize,
    unit: &DrawnUnit,
    position: usize,
) -> Result<(), AllocError>
    ensures { OnOk result (Grows page.old.bytes.items page.new.bytes.items
        (slot_text grid slot unit.now position)) }
{
    if slot < grid.units {
        return write_shown(page, grid.output_box(slot), unit, position);
    }
    Ok(())
}

/// Writes a picture of the second row.
fn write_shown(
    page: &mut Page,
    area: Rect,
    unit: &DrawnUnit,
    position: usize,
) -> Result<(), AllocError>
    requires { IsSmall area }
    ensures { OnOk result (Grows page.old.bytes.items page.new.bytes.items
        (shown_text area unit.now position)) }
{
    write_title(page, unit, position)?;
    write_fills(page, area, unit.kind)?;
    write_hatch(page, area, unit.mark)?;
    write_doubt(page, area, unit.in_doubt)?;
    write_number(page, area, unit.kind, position, 21)?;
    page.put("</g>\n")
}

/// Opens a picture of the second row.
fn write_title(page: &mut Page, unit: &DrawnUnit, position: usize) -> Result<(), AllocError>
    ensures { OnOk result (Grows page.old.bytes.items page.new.bytes.items
        (title_text unit.now position)) }
{
    let (id, classes) = (unit.id.number(), classes_of(unit.mark));
    page.print(format_args!("<g class=\"{classes}\"><title>unit {id} position {position}</title>"))
}
