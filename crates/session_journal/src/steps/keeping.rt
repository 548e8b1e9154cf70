//! What a record keeps of a step.

ghost use Rattle.std.specs.Prelude.{◌≡◌, ◌+◌, ◌≤◌, ◌^◌, ℕ, List, [], ◌∷◌, ◌++◌, None, length, map, IfOk, IfSome, OnOk};
ghost use Rattle.edit_journal.specs.Lines.{lines_of};
ghost use Rattle.session_journal.specs.declared.steps.step.RecordedStep.{RecordedStep as StepValue};
ghost use Rattle.session_journal.specs.declared.steps.step.RecordedStep.TheVariants.{Edits, Load, Snapshot as SnapshotStep};
ghost use Rattle.session_journal.specs.RecordRows.{given_after, given_after_edits, given_by_step, row_of, rows_of_edits, row_of_given, row_of_load, rows_of_step, row_of_unit};
ghost use Rattle.session_journal.specs.Records.{given_by_steps, lines_of_steps};

use bytes::Bytes;
use edit_journal::{Kind, RowStep};
use h264_types::pictures::AuId;
use std::alloc::{AllocError, Global};
use stream_edits::snapshots::Snapshot;
use stream_edits::{Edit, InsertionPoint};

/// How many ids were given, with that of the edit. Nothing where no id is left.
fn given_after(given: u32, edit: &Edit) -> Option<u32>
    ensures some { IfSome result (λ after. after ≡ given_after given edit.now) }
    ensures none { result ≡ None → 2 ^ 32 ≤ given_after given edit.now }
{
    match edit {
        Edit::Insert(_, _) => given.checked_add(1),
        Edit::Delete(_) | Edit::Replace(_, _) => Some(given),
    }
}

/// What is kept of an edit after which so many ids were given.
fn row_of(after: u32, edit: &Edit) -> Result<RowStep, AllocError>
    ensures { IfOk result (λ kept. (given : ℕ) → after ≡ given_after given edit.now
        → kept ≡ row_of given edit.now) }
{
    match edit {
        Edit::Insert(InsertionPoint::First, text) => Ok(RowStep {
            kind: Kind::InsertFirst,
            id: after,
            named: 0,
            text: text.clone()?,
        }),
        Edit::Insert(InsertionPoint::After(id), text) => Ok(RowStep {
            kind: Kind::Insert,
            id: after,
            named: id.number(),
            text: text.clone()?,
        }),
        Edit::Delete(id) => Ok(RowStep {
            kind: Kind::Delete,
            id: id.number(),
            named: 0,
            text: Bytes::new(),
        }),
        Edit::Replace(id, text) => Ok(RowStep {
            kind: Kind::Replace,
            id: id.number(),
            named: 0,
            text: text.clone()?,
        }),
    }
}

/// Adds what is kept of edits, and answers how many ids were given then. Nothing where ids run out.
fn keep_edits(
    given: u32,
    edits: &[Edit],
    kept: &mut Vec<RowStep>,
) -> Result<Option<u32>, AllocError>
    ensures kept { IfOk result (λ after. IfSome after (λ _.
        kept.new.items ≡ kept.old.items ++ rows_of_edits given edits.now)) }
    ensures after { IfOk result (λ after. IfSome after (λ after.
        after ≡ given_after_edits given edits.now)) }
    ensures none { IfOk result (λ after. after ≡ None
        → 2 ^ 32 ≤ given_after_edits given edits.now) }
{
    let mut after = given;
    for edit in edits {
        let Some(more) = given_after(after, edit) else {
            return Ok(None);
        };
        kept.push(row_of(more, edit)?)?;
        after = more;
    }
    Ok(Some(after))
}

/// What is kept in front of a load's edits.
fn load_mark() -> RowStep
    ensures { result ≡ row_of_load }
{
    RowStep {
        kind: Kind::Load,
        id: 0,
        named: 0,
        text: Bytes::new(),
    }
}

/// What a record keeps of an edit or of the edits of a group, where so many ids were given before
/// them, and how many were given then. Nothing where they give more ids than there are. A journal of
/// steps that is appended it has the lines of those steps and this one.
pub fn keep_group(
    alloc: Global,
    given: u32,
    edits: &[Edit],
) -> Result<Option<(Vec<RowStep>, u32)>, AllocError>
    ensures kept { IfOk result (λ kept. IfSome kept (λ kept.
        kept.0.items ≡ rows_of_step given (Edits edits.now))) }
    ensures after { IfOk result (λ kept. IfSome kept (λ kept.
        kept.1 ≡ given_by_step given (Edits edits.now))) }
    ensures none { IfOk result (λ kept. kept ≡ None
        → 2 ^ 32 ≤ given_by_step given (Edits edits.now)) }
    ensures added { IfOk result (λ kept. IfSome kept (λ kept. (steps : List StepValue)
        → given ≡ given_by_steps 0 steps → lines_of_steps 0 1 (steps ++ Edits edits.now ∷ [])
        ≡ lines_of_steps 0 1 steps ++ lines_of (length steps + 1) kept.0.items)) }
{
    let mut kept = Vec::new(alloc);
    match keep_edits(given, edits, &mut kept)? {
        Some(after) => Ok(Some((kept, after))),
        None => Ok(None),
    }
}

/// What a record keeps of the edits of a load, as `keep_group` does of those of a group.
pub fn keep_load(
    alloc: Global,
    given: u32,
    edits: &[Edit],
) -> Result<Option<(Vec<RowStep>, u32)>, AllocError>
    ensures kept { IfOk result (λ kept. IfSome kept (λ kept.
        kept.0.items ≡ rows_of_step given (Load edits.now))) }
    ensures after { IfOk result (λ kept. IfSome kept (λ kept.
        kept.1 ≡ given_by_step given (Load edits.now))) }
    ensures none { IfOk result (λ kept. kept ≡ None
        → 2 ^ 32 ≤ given_by_step given (Load edits.now)) }
    ensures added { IfOk result (λ kept. IfSome kept (λ kept. (steps : List StepValue)
        → given ≡ given_by_steps 0 steps → lines_of_steps 0 1 (steps ++ Load edits.now ∷ [])
        ≡ lines_of_steps 0 1 steps ++ lines_of (length steps + 1) kept.0.items)) }
{
    let mut kept = Vec::new(alloc);
    kept.push(load_mark())?;
    match keep_edits(given, edits, &mut kept)? {
        Some(after) => Ok(Some((kept, after))),
        None => Ok(None),
    }
}

/// What is kept of a unit of a snapshot.
fn row_of_unit(unit: &(AuId, Bytes)) -> Result<RowStep, AllocError>
    ensures { IfOk result (λ kept. kept ≡ row_of_unit unit.now) }
{
    Ok(RowStep {
        kind: Kind::Unit,
        id: unit.0.number(),
        named: 0,
        text: unit.1.clone()?,
    })
}

/// What is kept behind the units of a snapshot where so many ids were given.
fn given_mark(ids_given: u32) -> RowStep
    ensures { result ≡ row_of_given ids_given }
{
    RowStep {
        kind: Kind::Given,
        id: ids_given,
        named: 0,
        text: Bytes::new(),
    }
}

/// Adds what is kept of the units of a snapshot.
fn keep_units(units: &[(AuId, Bytes)], kept: &mut Vec<RowStep>) -> Result<(), AllocError>
    ensures { OnOk result (kept.new.items ≡ kept.old.items ++ map row_of_unit units.now) }
{
    for unit in units {
        kept.push(row_of_unit(unit)?)?;
    }
    Ok(())
}

/// What a record keeps of a snapshot, however many ids were given before it. A journal of steps that
/// is appended it has the lines of those steps and this one; one that is written anew with it alone has
/// its lines.
pub fn keep_snapshot(alloc: Global, snapshot: &Snapshot) -> Result<Vec<RowStep>, AllocError>
    ensures kept { (given : ℕ) → IfOk result (λ kept.
        kept.items ≡ rows_of_step given (SnapshotStep snapshot.now)) }
    ensures added { (steps : List StepValue) → IfOk result (λ kept.
        lines_of_steps 0 1 (steps ++ SnapshotStep snapshot.now ∷ [])
        ≡ lines_of_steps 0 1 steps ++ lines_of (length steps + 1) kept.items) }
{
    let mut kept = Vec::new(alloc);
    keep_units(snapshot.units(), &mut kept)?;
    kept.push(given_mark(snapshot.ids_given()))?;
    Ok(kept)
}
