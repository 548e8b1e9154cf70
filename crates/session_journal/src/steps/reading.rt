//! Steps are read from the lines of a journal.

ghost use Rattle.std.specs.Prelude.{◌≡◌, ◌<◌, ◌≤◌, ◌↔◌, ℕ, List, [], ◌∷◌, Some, length, take, drop, true, IfOk, IfSome, IsSome, ◌++◌};
ghost use Rattle.std.specs.List.{AllByRecursion};
ghost use Rattle.stream_edits.specs.declared.edits.Edit.{Edit as EditValue};
ghost use Rattle.session_journal.specs.declared.steps.step.RecordedStep.{RecordedStep as StepValue};
ghost use Rattle.session_journal.specs.declared.steps.step.RecordedStep.TheVariants.{Edits, Load, Snapshot};
ghost use Rattle.session_journal.specs.RecordRows.{IsReadFrom, IsStep, given_by_step, rows_of_step};
ghost use Rattle.session_journal.specs.Records.{given_by_steps, rows_in, lines_of_steps, AreOf, BeginOther};
ghost use Rattle.stream_edits.specs.Snapshots.{SnapshotValue};
ghost use Rattle.edit_journal.specs.declared.line.Line.{Line as LineValue};
ghost use Rattle.edit_journal.specs.declared.line.RowStep.{RowStep};
ghost use Rattle.edit_journal.specs.Lines.{lines_of};

use crate::steps::reading_edits::read_edits;
use crate::steps::reading_units::read_snapshot;
use crate::steps::step::RecordedStep;
use edit_journal::{Kind, Line, RowStep};
use std::alloc::{AllocError, Global};

/// Whether nothing is kept but a kind and an id.
fn is_mark(kept: &RowStep) -> bool
    ensures { (result ≡ true)
        ↔ (kept.now ≡ record { kind = kept.now.kind; id = kept.now.id; named = 0; text = [] }) }
{
    kept.named == 0 && kept.text.is_empty()
}

/// The edit or the group that lines keep, where so many ids were given before it.
fn read_group(
    alloc: Global,
    given: u32,
    lines: &[Line],
) -> Result<Option<(RecordedStep, u32)>, AllocError>
    requires { 0 < length lines.now }
    ensures read { IfOk result (λ read. IfSome read (λ read.
        IsReadFrom given (rows_in lines.now) read.0 read.1)) }
    ensures only { (edits : List EditValue)
        → rows_in lines.now ≡ rows_of_step given (Edits edits)
        → IfOk result (λ read. read ≡ Some (Edits edits, given_by_step given (Edits edits))) }
{
    match read_edits(alloc, given, lines)? {
        Some((edits, after)) => Ok(Some((RecordedStep::Edits(edits), after))),
        None => Ok(None),
    }
}

/// The load that lines keep behind the first one, where so many ids were given before it.
fn read_load(
    alloc: Global,
    given: u32,
    first: &RowStep,
    lines: &[Line],
) -> Result<Option<(RecordedStep, u32)>, AllocError>
    requires { first.now.kind ≡ Kind.Load }
    ensures read { IfOk result (λ read. IfSome read (λ read.
        IsReadFrom given (first.now ∷ rows_in lines.now) read.0 read.1)) }
    ensures only { (edits : List EditValue)
        → first.now ∷ rows_in lines.now ≡ rows_of_step given (Load edits)
        → IfOk result (λ read. read ≡ Some (Load edits, given_by_step given (Load edits))) }
{
    if !is_mark(first) || first.id != 0 {
        return Ok(None);
    }
    match read_edits(alloc, given, lines)? {
        Some((edits, after)) => Ok(Some((RecordedStep::Load(edits), after))),
        None => Ok(None),
    }
}

/// The snapshot that lines keep, and how many ids were given then, however many were given before it.
fn read_stream(alloc: Global, lines: &[Line]) -> Result<Option<(RecordedStep, u32)>, AllocError>
    ensures read { (given : ℕ) → IfOk result (λ read. IfSome read (λ read.
        IsReadFrom given (rows_in lines.now) read.0 read.1)) }
    ensures only { (given : ℕ) (snapshot : SnapshotValue)
        → rows_in lines.now ≡ rows_of_step given (Snapshot snapshot)
        → IfOk result (λ read. read ≡ Some (Snapshot snapshot, snapshot.ids_given)) }
{
    match read_snapshot(alloc, lines)? {
        Some(snapshot) => {
            let ids_given = snapshot.ids_given();
            Ok(Some((RecordedStep::Snapshot(snapshot), ids_given)))
        }
        None => Ok(None),
    }
}

/// The step that lines keep, where so many ids were given before it, and how many were given then.
fn read_step(
    alloc: Global,
    given: u32,
    lines: &[Line],
) -> Result<Option<(RecordedStep, u32)>, AllocError>
    ensures read { IfOk result (λ read. IfSome read (λ read.
        IsReadFrom given (rows_in lines.now) read.0 read.1)) }
    ensures only { (step : StepValue) → IsStep step
        → rows_in lines.now ≡ rows_of_step given step
        → IfOk result (λ read. read ≡ Some (step, given_by_step given step)) }
{
    let Some((first, more)) = lines.split_first() else {
        return Ok(None);
    };
    match first.step.kind {
        Kind::Load => read_load(alloc, given, &first.step, more),
        Kind::InsertFirst | Kind::Insert | Kind::Delete | Kind::Replace => {
            read_group(alloc, given, lines)
        }
        Kind::Unit | Kind::Given => read_stream(alloc, lines),
    }
}

/// The lines from this place on.
fn lines_from(lines: &[Line], from: usize) -> &[Line]
    requires { from ≤ length lines.now }
    ensures { result.now ≡ drop from lines.now }
{
    &lines[from..]
}

/// So many of the first lines.
fn first_lines(lines: &[Line], count: usize) -> &[Line]
    requires { count ≤ length lines.now }
    ensures { result.now ≡ take count lines.now }
{
    &lines[..count]
}

/// The steps whose lines these are, from the first record on, where no id was given before it, and
/// how many ids were given after them. Nothing where they aren't those of steps.
pub fn read(alloc: Global, lines: &[Line]) -> Result<Option<(Vec<RecordedStep>, u32)>, AllocError>
    ensures lines { IfOk result (λ read. IfSome read (λ read.
        lines.now ≡ lines_of_steps 0 1 read.0.items)) }
    ensures are { IfOk result (λ read. IfSome read (λ read.
        AllByRecursion IsStep read.0.items)) }
    ensures given { IfOk result (λ read. IfSome read (λ read.
        read.1 ≡ given_by_steps 0 read.0.items)) }
    ensures only { (steps : List StepValue) → AllByRecursion IsStep steps
        → lines.now ≡ lines_of_steps 0 1 steps
        → IfOk result (λ read. IsSome read × IfSome read (λ read. read.0.items ≡ steps)) }
{
    let mut steps = Vec::new(alloc);
    let mut given = 0;
    let mut from = 0;
    while from < lines.len() {
        let left = lines_from(lines, from);
        let count = lines_in(left, steps.len() + 1);
        let record = first_lines(left, count);
        let Some((step, after)) = read_step(alloc, given, record)? else {
            return Ok(None);
        };
        steps.push(step)?;
        given = after;
        from += count;
    }
    Ok(Some((steps, given)))
}

/// How many of the first lines are those of the record of this number.
pub(crate) fn lines_in(lines: &[Line], entry: usize) -> usize
    ensures fits { result ≤ length lines.now }
    ensures are { AreOf entry (take result lines.now) }
    ensures all { (kept : List RowStep) (more : List LineValue)
        → lines.now ≡ lines_of entry kept ++ more → BeginOther entry more → result ≡ length kept }
{
    let mut count = 0;
    for line in lines {
        if line.entry as usize != entry || line.place as usize != count {
            return count;
        }
        count += 1;
    }
    count
}
