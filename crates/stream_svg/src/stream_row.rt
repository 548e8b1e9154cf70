//! The stream's row of a document.

ghost use Rattle.std.specs.Prelude.{◌≡◌, ◌<◌, ◌^◌, length, OnOk};
ghost use Rattle.stream_svg.specs.Arcs.{arc_of, arc_text, arcs_text};
ghost use Rattle.stream_svg.specs.Boxes.{IsSmall};
ghost use Rattle.stream_svg.specs.Rows.{box_text, id_height, shapes_text, unit_text, units_text};
ghost use Rattle.stream_svg.specs.Texts.{Grows};

use crate::boxes::{write_fills, write_letters, write_number};
use crate::edit_marks::{write_doubt, write_hatch, write_picture};
use crate::lines::write_arc;
use crate::page::Page;
use crate::writing::Caption;
use crate::{DrawnReference, DrawnUnit, Grid, Rect, arc_of};
use std::alloc::AllocError;

/// Writes the stream's row.
pub(crate) fn write_units(
    page: &mut Page,
    grid: Grid,
    units: &[DrawnUnit],
    captions: &[Caption],
) -> Result<(), AllocError>
    requires units { grid.units ≡ length units.now }
    requires captions { length captions.now ≡ length units.now }
    ensures { OnOk result (Grows page.old.bytes.items page.new.bytes.items
        (units_text grid units.now captions.now)) }
{
    for (place, caption) in captions.iter().enumerate() {
        write_unit(page, grid, units, place, &units[place], caption)?;
    }
    Ok(())
}

/// Writes the unit at a place, with what is said of it.
fn write_unit(
    page: &mut Page,
    grid: Grid,
    units: &[DrawnUnit],
    place: usize,
    unit: &DrawnUnit,
    caption: &Caption,
) -> Result<(), AllocError>
    requires units { grid.units ≡ length units.now }
    requires within { place < length units.now }
    ensures { OnOk result (Grows page.old.bytes.items page.new.bytes.items
        (unit_text grid units.now place (unit.now, caption.now))) }
{
    page.open(unit.mark, caption.lines.as_str())?;
    write_shapes(page, grid, units, place, unit)
}

/// Writes the shapes of a unit, with its arcs, after its title.
fn write_shapes(
    page: &mut Page,
    grid: Grid,
    units: &[DrawnUnit],
    place: usize,
    unit: &DrawnUnit,
) -> Result<(), AllocError>
    requires units { grid.units ≡ length units.now }
    requires within { place < length units.now }
    ensures { OnOk result (Grows page.old.bytes.items page.new.bytes.items
        (shapes_text grid units.now place unit.now)) }
{
    write_arcs(page, grid, units, place, unit.references.as_slice())?;
    write_box(page, grid.stream_box(place), unit)
}

/// Writes the box of a unit of the stream's row, with its id.
fn write_box(page: &mut Page, area: Rect, unit: &DrawnUnit) -> Result<(), AllocError>
    requires { IsSmall area }
    ensures { OnOk result (Grows page.old.bytes.items page.new.bytes.items
        (box_text area unit.now)) }
{
    write_fills(page, area, unit.kind)?;
    write_hatch(page, area, unit.mark)?;
    write_letters(page, area, unit.kind)?;
    write_doubt(page, area, unit.in_doubt)?;
    write_number(
        page,
        area,
        unit.kind,
        unit.id.number() as usize,
        id_height(unit),
    )?;
    write_picture(page, area, unit.mark)?;
    page.put("</g>\n")
}

/// How far below the upper edge of its box the id of a unit stands: what became of its picture
/// stands below it.
fn id_height(unit: &DrawnUnit) -> usize
    ensures value { result ≡ id_height unit.now }
    ensures bound { result < 2 ^ 10 }
{
    if unit.mark.is_some() { 28 } else { 33 }
}

/// Writes the arcs from a unit to the frames that its lists name.
fn write_arcs(
    page: &mut Page,
    grid: Grid,
    units: &[DrawnUnit],
    place: usize,
    references: &[DrawnReference],
) -> Result<(), AllocError>
    requires units { grid.units ≡ length units.now }
    requires within { place < length units.now }
    ensures { OnOk result (Grows page.old.bytes.items page.new.bytes.items
        (arcs_text grid units.now place references.now)) }
{
    for reference in references {
        write_reference(page, grid, units, place, *reference)?;
    }
    Ok(())
}

/// Writes the arc to a frame.
fn write_reference(
    page: &mut Page,
    grid: Grid,
    units: &[DrawnUnit],
    place: usize,
    reference: DrawnReference,
) -> Result<(), AllocError>
    requires units { grid.units ≡ length units.now }
    requires within { place < length units.now }
    ensures { OnOk result (Grows page.old.bytes.items page.new.bytes.items
        (arc_text (arc_of grid units.now place reference))) }
{
    let arc = arc_of(grid, units, place, reference);
    write_arc(page, &arc)
}
