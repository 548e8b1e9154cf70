//! Edits are read from the lines of a record.

ghost use Rattle.std.specs.Prelude.{◌≡◌, ◌↔◌, ◌+◌, List, Some, true, IfOk, IfSome};
ghost use Rattle.stream_edits.specs.declared.edits.Edit.{Edit as EditValue};
ghost use Rattle.session_journal.specs.RecordRows.{given_after, given_after_edits, row_of, rows_of_edits};
ghost use Rattle.session_journal.specs.Records.{rows_in};

use crate::steps::step::EditList;
use edit_journal::{Kind, Line, RowStep};
use h264_types::pictures::AuId;
use std::alloc::{AllocError, Global};
use stream_edits::{Edit, InsertionPoint};

/// Whether this is the id that is given after so many others.
fn is_next(given: u32, id: u32) -> bool
    ensures { (result ≡ true) ↔ (id ≡ given + 1) }
{
    given < id && id - given == 1
}

/// The edit of which this is kept, where so many ids were given before it.
fn edit_of(given: u32, kept: &RowStep) -> Result<Option<Edit>, AllocError>
    ensures kept { IfOk result (λ edit. IfSome edit (λ edit. kept.now ≡ row_of given edit)) }
    ensures only { (edit : EditValue) → kept.now ≡ row_of given edit
        → IfOk result (λ read. read ≡ Some edit) }
{
    match kept.kind {
        Kind::InsertFirst if is_next(given, kept.id) && kept.named == 0 => {
            Ok(Some(Edit::Insert(InsertionPoint::First, kept.text.clone()?)))
        }
        Kind::Insert if is_next(given, kept.id) => Ok(Some(Edit::Insert(
            InsertionPoint::After(AuId::new(kept.named)),
            kept.text.clone()?,
        ))),
        Kind::Delete if kept.named == 0 && kept.text.is_empty() => {
            Ok(Some(Edit::Delete(AuId::new(kept.id))))
        }
        Kind::Replace if kept.named == 0 => Ok(Some(Edit::Replace(
            AuId::new(kept.id),
            kept.text.clone()?,
        ))),
        _ => Ok(None),
    }
}

/// How many ids were given, with that of the edit of which this is kept.
fn given_after(given: u32, kept: &RowStep) -> u32
    ensures { (edit : EditValue) → kept.now ≡ row_of given edit
        → result ≡ given_after given edit }
{
    match kept.kind {
        Kind::InsertFirst | Kind::Insert => kept.id,
        _ => given,
    }
}

/// The edits that lines keep, where so many ids were given before them, and how many were given
/// then.
pub(crate) fn read_edits(
    alloc: Global,
    given: u32,
    lines: &[Line],
) -> Result<Option<(EditList, u32)>, AllocError>
    ensures kept { IfOk result (λ read. IfSome read (λ read.
        rows_in lines.now ≡ rows_of_edits given read.0)) }
    ensures after { IfOk result (λ read. IfSome read (λ read.
        read.1 ≡ given_after_edits given read.0)) }
    ensures only { (edits : List EditValue) → rows_in lines.now ≡ rows_of_edits given edits
        → IfOk result (λ read. read ≡ Some (edits, given_after_edits given edits)) }
{
    let mut after = given;
    let mut edits = Vec::new(alloc);
    for line in lines {
        let Some(edit) = edit_of(after, &line.step)? else {
            return Ok(None);
        };
        after = given_after(after, &line.step);
        edits.push(edit)?;
    }
    Ok(Some((EditList::new(edits), after)))
}
