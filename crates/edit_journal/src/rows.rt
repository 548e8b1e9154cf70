//! Rows of the table, written and read.

ghost use Rattle.std.specs.Prelude.{◌≡◌, pos, IfOk, IfSome, OnOk};
ghost use Rattle.sqlite_value.specs.declared.value.Value.TheVariants.{Int};
ghost use Rattle.sqlite_value.specs.Order.{column};
ghost use Rattle.sqlite_value.specs.Value.{owned};
ghost use Rattle.edit_journal.specs.Lines.{row_of};

use crate::line::{Kind, Line, RowStep};
use bytes::Bytes;
use sqlite_value::row::Row;
use sqlite_value::value::ValueRef;
use std::alloc::{AllocError, Global};

/// How many columns a row has, with its number.
const COLUMNS: usize = 7;

/// Writes a step's row, under this number, over `row`.
pub(crate) fn write_row(
    row: &mut Row,
    number: u32,
    entry: u32,
    place: u32,
    step: &RowStep,
) -> Result<(), AllocError>
    ensures { OnOk result (row.new ≡ row_of number (record { entry = entry; place = place; step = step.now })) }
{
    row.clear();
    row.push(ValueRef::Int(i64::from(number)))?;
    row.push(ValueRef::Int(i64::from(entry)))?;
    row.push(ValueRef::Int(i64::from(place)))?;
    row.push(ValueRef::Text(step.kind.name().as_bytes()))?;
    row.push(ValueRef::Int(i64::from(step.id)))?;
    row.push(ValueRef::Int(i64::from(step.named)))?;
    row.push(ValueRef::Blob(step.text.as_slice()))
}

/// The number that the value is.
fn number_of(value: ValueRef<'_>) -> Option<u32>
    ensures known { IfSome result (λ number. owned value.entry ≡ Int (pos number)) }
{
    match value {
        ValueRef::Int(number) => u32::try_from(number).ok(),
        _ => None,
    }
}

/// The numbers of a row but for its own.
#[derive(Clone, Copy)]
struct Numbers {
    entry: u32,
    place: u32,
    id: u32,
    named: u32,
}

/// The numbers of the row, if its own is this one.
fn numbers_of(row: &Row, number: u32) -> Option<Numbers>
    ensures own { IfSome result (λ _. column row.now 0 ≡ Int (pos number)) }
    ensures entry { IfSome result (λ numbers. (column row.now 1 ≡ Int (pos numbers.entry)) × (column row.now 2 ≡ Int (pos numbers.place))) }
    ensures ids { IfSome result (λ numbers. (column row.now 4 ≡ Int (pos numbers.id)) × (column row.now 5 ≡ Int (pos numbers.named))) }
{
    if number_of(row.get(0))? != number {
        return None;
    }
    Some(Numbers {
        entry: number_of(row.get(1))?,
        place: number_of(row.get(2))?,
        id: number_of(row.get(4))?,
        named: number_of(row.get(5))?,
    })
}

/// The line whose row it is, under this number.
pub(crate) fn line_of(alloc: Global, row: &Row, number: u32) -> Result<Option<Line>, AllocError>
    ensures known { IfOk result (λ line. IfSome line (λ line. row.now ≡ row_of number line)) }
{
    let Some(numbers) = numbers_of(row, number) else {
        return Ok(None);
    };
    let (ValueRef::Text(name), ValueRef::Blob(text)) = (row.get(3), row.get(6)) else {
        return Ok(None);
    };
    let Some(kind) = Kind::of_name(name) else {
        return Ok(None);
    };
    if row.len() != COLUMNS {
        return Ok(None);
    }
    let step = RowStep {
        kind,
        id: numbers.id,
        named: numbers.named,
        text: Bytes::copy_from_slice(alloc, text)?,
    };
    Ok(Some(Line {
        entry: numbers.entry,
        place: numbers.place,
        step,
    }))
}
