//! The boxes of units, with their letters and numbers.

ghost use Rattle.std.specs.Prelude.{◌≡◌, ◌≤◌, ◌<◌, ◌^◌, OnOk};
ghost use Rattle.stream_svg.specs.Boxes.{IsSmall};
ghost use Rattle.stream_svg.specs.Letters.{letters_of};
ghost use Rattle.stream_svg.specs.Shapes.{fill_text, fills_text, letter_text, letters_text, middle_of, number_text, part_left, part_width, rect_text, turned_text, upright_text, width_of};
ghost use Rattle.stream_svg.specs.Texts.{Grows};

use crate::letters::{Letter, class_over, letters_of};
use crate::page::Page;
use crate::{Rect, UnitKind};
use std::alloc::AllocError;

/// Writes the box of a unit: its slice types side by side.
pub(crate) fn write_fills(page: &mut Page, area: Rect, kind: UnitKind) -> Result<(), AllocError>
    requires { IsSmall area }
    ensures { OnOk result (Grows page.old.bytes.items page.new.bytes.items (fills_text area kind)) }
{
    let letters = letters_of(kind);
    let mut place = 0;
    for letter in letters {
        write_fill(page, area, letters.len(), place, *letter)?;
        place += 1;
    }
    Ok(())
}

/// Writes the fill of a slice type at a place of so many.
fn write_fill(
    page: &mut Page,
    area: Rect,
    parts: usize,
    place: usize,
    letter: Letter,
) -> Result<(), AllocError>
    requires small { IsSmall area }
    requires within { place < parts }
    ensures { OnOk result (Grows page.old.bytes.items page.new.bytes.items
        (fill_text area parts place letter)) }
{
    let (x, width) = part_of(area, place, parts);
    let Rect { y, height, .. } = area;
    let class = letter.class();
    page.print(format_args!(
        "<rect class=\"box {class}\" x=\"{x}\" y=\"{y}\" width=\"{width}\" height=\"{height}\" rx=\"3\"/>"
    ))
}

/// Writes the letters of a unit's slice types into its box.
pub(crate) fn write_letters(page: &mut Page, area: Rect, kind: UnitKind) -> Result<(), AllocError>
    requires { IsSmall area }
    ensures { OnOk result (Grows page.old.bytes.items page.new.bytes.items
        (letters_text area kind)) }
{
    let letters = letters_of(kind);
    let mut place = 0;
    for letter in letters {
        write_letter(page, area, letters.len(), place, *letter)?;
        place += 1;
    }
    Ok(())
}

/// Writes the letter of a slice type at a place of so many.
fn write_letter(
    page: &mut Page,
    area: Rect,
    parts: usize,
    place: usize,
    letter: Letter,
) -> Result<(), AllocError>
    requires small { IsSmall area }
    requires within { place < parts }
    ensures { OnOk result (Grows page.old.bytes.items page.new.bytes.items
        (letter_text area parts place letter)) }
{
    let (left, width) = part_of(area, place, parts);
    let (x, y) = (left + width / 2, area.y + 14);
    let (class, sign) = (letter.class(), letter.sign());
    page.print(format_args!("<text class=\"m t on-{class}\" x=\"{x}\" y=\"{y}\">{sign}</text>"))
}

/// Where the part of a box lies that a slice type takes: its left edge, and its width.
#[tactic(auto, using(crate::proofs::Products::part_within))]
fn part_of(area: Rect, place: usize, parts: usize) -> (usize, usize)
    requires small { IsSmall area }
    requires within { place < parts }
    ensures left { result.0 ≡ part_left area parts place }
    ensures width { result.1 ≡ part_width area parts }
    ensures left_bound { result.0 < 2 ^ 21 }
    ensures width_bound { result.1 < 2 ^ 10 }
{
    let width = area.width / parts;
    (area.x + width * place, width)
}

/// Writes a rectangle of a class over a box.
pub(crate) fn write_rect(page: &mut Page, class: &str, area: Rect) -> Result<(), AllocError>
    ensures { OnOk result (Grows page.old.bytes.items page.new.bytes.items
        (rect_text class.now area.x area.width area)) }
{
    let Rect {
        x,
        y,
        width,
        height,
    } = area;
    page.print(format_args!(
        "<rect class=\"{class}\" x=\"{x}\" y=\"{y}\" width=\"{width}\" height=\"{height}\" rx=\"3\"/>"
    ))
}

/// Writes a number into a box, at this height below its upper edge; upright where it isn't too
/// wide, else from below.
pub(crate) fn write_number(
    page: &mut Page,
    area: Rect,
    kind: UnitKind,
    number: usize,
    down: usize,
) -> Result<(), AllocError>
    requires small { IsSmall area }
    requires down { down < 2 ^ 10 }
    ensures { OnOk result (Grows page.old.bytes.items page.new.bytes.items
        (number_text area kind number down)) }
{
    if width_of(number) <= area.width {
        write_upright(page, area, class_over(kind), number, down)
    } else {
        write_turned(page, area, class_over(kind), number, down)
    }
}

/// Writes a number upright.
fn write_upright(
    page: &mut Page,
    area: Rect,
    class: &str,
    number: usize,
    down: usize,
) -> Result<(), AllocError>
    requires small { IsSmall area }
    requires down { down < 2 ^ 10 }
    ensures { OnOk result (Grows page.old.bytes.items page.new.bytes.items
        (upright_text area class.now number down)) }
{
    let (x, y) = (area.middle(), area.y + down);
    page.print(format_args!("<text class=\"m s on-{class}\" x=\"{x}\" y=\"{y}\">{number}</text>"))
}

/// Writes a number from below.
fn write_turned(
    page: &mut Page,
    area: Rect,
    class: &str,
    number: usize,
    down: usize,
) -> Result<(), AllocError>
    requires small { IsSmall area }
    requires down { down < 2 ^ 10 }
    ensures { OnOk result (Grows page.old.bytes.items page.new.bytes.items
        (turned_text area class.now number down)) }
{
    let (x, y) = (area.middle() + 4, (area.y + down).saturating_sub(3));
    page.print(format_args!(
        "<text class=\"m s on-{class}\" transform=\"translate({x} {y}) rotate(-90)\">{number}</text>"
    ))
}

/// How wide a number is, in pixels.
fn width_of(number: usize) -> usize
    ensures { result ≡ width_of number }
{
    if number < 10 {
        8
    } else if number < 100 {
        14
    } else if number < 1000 {
        20
    } else if number < 10000 {
        26
    } else {
        32
    }
}
