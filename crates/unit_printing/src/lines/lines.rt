//! The lines of a unit (docs/OUTPUT.md).

ghost use Rattle.std.specs.Prelude.{◌≡◌, ◌++◌, string_bytes, IfOk, OnOk};
ghost use Rattle.unit_printing.specs.Lines.{counts_text, plan_head, plan_tail};
ghost use Rattle.unit_printing.specs.UnitLines.{empty_text, fault_text, outcome_head, outcome_tail, unit_head, unit_lines};
ghost use Rattle.unit_printing.specs.Growing.{Grows};

use crate::lines::numbers::{put_field, put_signed, put_text};
use crate::lines::requests::put_request;
use h264_types::pictures::{AuId, Counts};
use std::alloc::{AllocError, Global};
use unit_outcomes::{Outcome, Plan, ValidityFault};

/// The lines of a unit: its outcome.
#[derive(Drop)]
pub struct UnitLines<'a> {
    pub id: AuId,
    pub outcome: &'a Outcome,
    /// The place in output order; each plan has one.
    pub position: Option<usize>,
}

impl<'a> UnitLines<'a> {
    /// The text of the lines.
    pub fn to_string(&self, alloc: Global) -> Result<String, AllocError>
        ensures { IfOk result (λ text. string_bytes text ≡ unit_lines self.now) }
    {
        let mut text = String::new(alloc);
        put_head(&mut text, self.id, self.outcome, self.position)?;
        put_tail(&mut text, self.id, self.outcome)?;
        Ok(text)
    }
}

/// The lines of a unit up to its place in output order; nothing where it has none.
#[derive(Drop)]
pub struct UnitHead<'a> {
    pub id: AuId,
    pub outcome: &'a Outcome,
    pub position: Option<usize>,
}

impl<'a> UnitHead<'a> {
    /// Writes these lines over the text, which is of no use where memory runs out.
    pub fn write_to(&self, text: &mut String) -> Result<(), AllocError>
        ensures { OnOk result (string_bytes text.new ≡ unit_head self.now) }
    {
        text.clear();
        put_head(text, self.id, self.outcome, self.position)
    }
}

/// Adds the lines of a unit up to its place in output order.
fn put_head(
    text: &mut String,
    id: AuId,
    outcome: &Outcome,
    position: Option<usize>,
) -> Result<(), AllocError>
    ensures { OnOk result (Grows (string_bytes text.old) (string_bytes text.new)
        (outcome_head id position outcome.now)) }
{
    match outcome {
        Outcome::Plan(_) => put_position(text, id, position.unwrap_or_default()),
        Outcome::Fault(_) | Outcome::Empty => Ok(()),
    }
}

/// Adds the lines of a unit after its place in output order.
fn put_tail(text: &mut String, id: AuId, outcome: &Outcome) -> Result<(), AllocError>
    ensures { OnOk result (Grows (string_bytes text.old) (string_bytes text.new)
        (outcome_tail id outcome.now)) }
{
    match outcome {
        Outcome::Plan(plan) => put_plan(text, id, plan),
        Outcome::Fault(fault) => put_fault(text, id, *fault),
        Outcome::Empty => put_empty(text, id),
    }
}

/// Adds the line of a valid unit itself, up to its position.
fn put_position(text: &mut String, id: AuId, position: usize) -> Result<(), AllocError>
    ensures { OnOk result (Grows (string_bytes text.old) (string_bytes text.new)
        (plan_head id position)) }
{
    put_field(text, "unit ", u64::from(id.number()))?;
    put_field(text, " position ", position as u64)
}

/// Adds the lines of a valid unit after its position.
fn put_plan(text: &mut String, id: AuId, plan: &Plan) -> Result<(), AllocError>
    ensures { OnOk result (Grows (string_bytes text.old) (string_bytes text.new)
        (plan_tail id plan.now)) }
{
    let requests = plan.requests.as_slice();
    put_counts(text, plan.counts, requests.len())?;
    for (slice, request) in requests.iter().enumerate() {
        put_request(text, id, slice, request)?;
    }
    Ok(())
}

/// Adds the line of a valid unit itself, after its position.
pub(crate) fn put_counts(
    text: &mut String,
    counts: Counts,
    requests: usize,
) -> Result<(), AllocError>
    ensures { OnOk result (Grows (string_bytes text.old) (string_bytes text.new)
        (counts_text counts requests)) }
{
    put_text(text, " counts ")?;
    put_signed(text, counts.top)?;
    put_text(text, " ")?;
    put_signed(text, counts.bottom)?;
    put_field(text, " requests ", requests as u64)?;
    put_text(text, "\n")?;
    Ok(())
}

/// Adds the line of a unit with a fault.
pub(crate) fn put_fault(text: &mut String, id: AuId, fault: ValidityFault) -> Result<(), AllocError>
    ensures { OnOk result (Grows (string_bytes text.old) (string_bytes text.new)
        (fault_text id fault)) }
{
    put_field(text, "unit ", u64::from(id.number()))?;
    put_field(text, " fault ", u64::from(fault.number()))?;
    put_text(text, " ")?;
    put_text(text, fault.name())?;
    put_text(text, "\n")?;
    Ok(())
}

/// Adds the line of a unit without a picture.
pub(crate) fn put_empty(text: &mut String, id: AuId) -> Result<(), AllocError>
    ensures { OnOk result (Grows (string_bytes text.old) (string_bytes text.new)
        (empty_text id)) }
{
    put_field(text, "unit ", u64::from(id.number()))?;
    put_text(text, " no picture\n")?;
    Ok(())
}
