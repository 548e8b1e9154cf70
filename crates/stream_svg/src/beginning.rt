//! What stands before the first unit of a document.

ghost use Rattle.std.specs.Prelude.{◌≡◌, ◌<◌, length, OnOk};
ghost use Rattle.stream_svg.specs.Lines.{begin_at, begins_text, output_begin_at, output_begins_text, period_before, way_at, ways_text};
ghost use Rattle.stream_svg.specs.OutputRow.{begins_period};
ghost use Rattle.stream_svg.specs.Pages.{beginning_text, head_text, is_any_in_doubt, name_text, rows_text, svg_text, where_wanted};
ghost use Rattle.stream_svg.specs.Texts.{Grows};

use crate::grid::HEAD;
use crate::lines::{write_begin, write_way};
use crate::page::Page;
use crate::style::{DOUBT_LEGEND, EDITS_LEGEND, LEGEND, LEGEND_END, STYLE};
use crate::{DrawnUnit, Grid, Layout, OutputUnit, UnitKind};
use std::alloc::AllocError;

/// Writes what stands before the first unit: the head, where periods begin, and the ways between
/// the rows.
pub(crate) fn write_beginning(
    page: &mut Page,
    layout: &Layout,
    units: &[DrawnUnit],
    total: usize,
    edited: bool,
) -> Result<(), AllocError>
    requires { layout.now.grid.units ≡ length units.now }
    ensures { OnOk result (Grows page.old.bytes.items page.new.bytes.items
        (beginning_text layout.now units.now total edited)) }
{
    let grid = layout.grid;
    let row = layout.output.as_slice();
    write_head(page, grid, units, total, edited)?;
    write_begins(page, grid, units)?;
    write_output_begins(page, grid, row)?;
    write_ways(page, grid, row)?;
    page.put("\n")
}

/// Writes the name of a document, its style sheet and its legend.
fn write_head(
    page: &mut Page,
    grid: Grid,
    units: &[DrawnUnit],
    total: usize,
    edited: bool,
) -> Result<(), AllocError>
    ensures { OnOk result (Grows page.old.bytes.items page.new.bytes.items
        (head_text grid units.now total edited)) }
{
    write_svg(page, grid)?;
    write_name(page, units, total)?;
    page.put("\">\n<title>")?;
    write_name(page, units, total)?;
    page.put("</title>\n")?;
    page.put(STYLE)?;
    page.put(LEGEND)?;
    write_wanted(page, edited, EDITS_LEGEND)?;
    write_wanted(page, is_any_in_doubt(units), DOUBT_LEGEND)?;
    page.put(LEGEND_END)?;
    write_rows(page, grid)
}

/// Opens a document.
fn write_svg(page: &mut Page, grid: Grid) -> Result<(), AllocError>
    ensures { OnOk result (Grows page.old.bytes.items page.new.bytes.items (svg_text grid)) }
{
    let (width, height) = (grid.width(), grid.height());
    page.print(format_args!(
        "<svg xmlns=\"http://www.w3.org/2000/svg\" width=\"{width}\" height=\"{height}\" viewBox=\"0 0 {width} {height}\" role=\"img\" aria-label=\""
    ))
}

/// Writes the name of the drawing: which units it shows.
fn write_name(page: &mut Page, units: &[DrawnUnit], total: usize) -> Result<(), AllocError>
    ensures { OnOk result (Grows page.old.bytes.items page.new.bytes.items
        (name_text units.now total)) }
{
    let count = units.len();
    match units {
        [first, ..] => {
            let first = first.id.number();
            page.print(format_args!("H.264 stream of {total} units: {count} from unit {first} on"))
        }
        [] => page.print(format_args!("H.264 stream of {total} units: none is shown")),
    }
}

/// Writes a text where it is wanted.
fn write_wanted(page: &mut Page, is_wanted: bool, text: &str) -> Result<(), AllocError>
    ensures { OnOk result (Grows page.old.bytes.items page.new.bytes.items
        (where_wanted is_wanted text.now)) }
{
    if is_wanted {
        return page.put(text);
    }
    Ok(())
}

/// Whether a unit is in doubt.
fn is_any_in_doubt(units: &[DrawnUnit]) -> bool
    ensures { result ≡ is_any_in_doubt units.now }
{
    units.iter().any(|unit| unit.in_doubt)
}

/// Writes the names of the rows.
fn write_rows(page: &mut Page, grid: Grid) -> Result<(), AllocError>
    ensures { OnOk result (Grows page.old.bytes.items page.new.bytes.items (rows_text grid)) }
{
    let (stream, output) = (grid.stream_top() + 26, grid.output_top() + 21);
    page.print(format_args!(
        "<text class=\"note\" x=\"8\" y=\"{stream}\">stream</text><text class=\"note\" x=\"8\" y=\"{output}\">output</text>\n"
    ))
}

/// Writes where periods begin in the stream's row.
fn write_begins(page: &mut Page, grid: Grid, units: &[DrawnUnit]) -> Result<(), AllocError>
    requires { grid.units ≡ length units.now }
    ensures { OnOk result (Grows page.old.bytes.items page.new.bytes.items
        (begins_text grid units.now)) }
{
    for (place, unit) in units.iter().enumerate() {
        write_begin_at(page, grid, place, unit)?;
    }
    Ok(())
}

/// Writes that one begins with the unit at a place, if it does.
fn write_begin_at(
    page: &mut Page,
    grid: Grid,
    place: usize,
    unit: &DrawnUnit,
) -> Result<(), AllocError>
    requires { place < grid.units }
    ensures { OnOk result (Grows page.old.bytes.items page.new.bytes.items
        (begin_at grid place unit.now)) }
{
    if !begins_period(unit.kind) {
        return Ok(());
    }
    let area = grid.stream_box(place);
    write_begin(page, area, HEAD, area.y + area.height + grid.below)
}

/// Whether a period begins with a unit.
fn begins_period(kind: UnitKind) -> bool
    ensures { result ≡ begins_period kind }
{
    match kind {
        UnitKind::Picture(picture) => picture.begins_period,
        UnitKind::Fault(_) | UnitKind::Empty => false,
    }
}

/// Writes where periods begin in the second row.
fn write_output_begins(page: &mut Page, grid: Grid, row: &[OutputUnit]) -> Result<(), AllocError>
    ensures { OnOk result (Grows page.old.bytes.items page.new.bytes.items
        (output_begins_text grid row.now)) }
{
    let mut slot = 0;
    for shown in row {
        write_output_begin_at(page, grid, row, slot, *shown)?;
        slot += 1;
    }
    Ok(())
}

/// Writes that one begins with the picture at a slot, if it does.
fn write_output_begin_at(
    page: &mut Page,
    grid: Grid,
    row: &[OutputUnit],
    slot: usize,
    shown: OutputUnit,
) -> Result<(), AllocError>
    ensures { OnOk result (Grows page.old.bytes.items page.new.bytes.items
        (output_begin_at grid row.now slot shown)) }
{
    if shown.period == period_before(row, slot) || slot >= grid.units {
        return Ok(());
    }
    let area = grid.output_box(slot);
    write_begin(
        page,
        area,
        area.y.saturating_sub(8),
        area.y + area.height + 8,
    )
}

/// The period of the picture before a slot; 0 before the first.
fn period_before(row: &[OutputUnit], slot: usize) -> usize
    ensures { result ≡ period_before row.now slot }
{
    if slot == 0 {
        return 0;
    }
    match row.get(slot - 1) {
        Some(shown) => shown.period,
        None => 0,
    }
}

/// Writes the ways between the rows.
fn write_ways(page: &mut Page, grid: Grid, row: &[OutputUnit]) -> Result<(), AllocError>
    ensures { OnOk result (Grows page.old.bytes.items page.new.bytes.items
        (ways_text grid row.now)) }
{
    let mut slot = 0;
    for shown in row {
        write_way_at(page, grid, slot, *shown)?;
        slot += 1;
    }
    Ok(())
}

/// Writes the way to the picture at a slot.
fn write_way_at(
    page: &mut Page,
    grid: Grid,
    slot: usize,
    shown: OutputUnit,
) -> Result<(), AllocError>
    ensures { OnOk result (Grows page.old.bytes.items page.new.bytes.items
        (way_at grid slot shown)) }
{
    if slot >= grid.units || shown.place >= grid.units {
        return Ok(());
    }
    let from = grid.stream_box(shown.place);
    let turn = from.y + from.height + grid.below;
    write_way(page, from, grid.output_box(slot), turn)
}
