//! The making of a journal's entries.

ghost use Rattle.std.specs.Prelude.{◌∷◌, [], IfOk, OnOk};
ghost use Rattle.stream_session.specs.Machines.{RefitsTo, store_of};
ghost use Rattle.seat_books.specs.Following.{MakesEntry};

use crate::copying::copy_of_edits;
use h264_types::pictures::AuId;
use stand_in_session::{Edit, GroupReceipt, Session};
use std::alloc::{AllocError, Global};

/// Makes the edits of an entry, and answers the ids that they are given. A journal's are refused
/// only when memory runs out.
pub(crate) fn make_entry(
    alloc: Global,
    session: &mut Session,
    edits: &[Edit],
) -> Result<Vec<AuId>, AllocError>
    ensures makes { IfOk result (λ ids. MakesEntry session.old edits.now ids.items session.new) }
    ensures refits { OnOk result
        (RefitsTo (store_of session.old) session.new.register.stream (store_of session.new)) }
{
    if edits.len() == 1 {
        return make_one(alloc, session, &edits[0]);
    }
    make_several(alloc, session, edits)
}

/// Makes an edit by itself, which no copy of the stream is made for.
fn make_one(alloc: Global, session: &mut Session, edit: &Edit) -> Result<Vec<AuId>, AllocError>
    ensures makes { IfOk result
        (λ ids. MakesEntry session.old (edit.now ∷ []) ids.items session.new) }
    ensures refits { OnOk result
        (RefitsTo (store_of session.old) session.new.register.stream (store_of session.new)) }
{
    let Ok(receipt) = session.edit(edit.copy()?) else {
        return Err(AllocError);
    };
    let mut ids = Vec::new(alloc);
    ids.push(receipt.id)?;
    Ok(ids)
}

/// Makes edits together.
fn make_several(
    alloc: Global,
    session: &mut Session,
    edits: &[Edit],
) -> Result<Vec<AuId>, AllocError>
    ensures makes { IfOk result (λ ids. MakesEntry session.old edits.now ids.items session.new) }
    ensures refits { OnOk result
        (RefitsTo (store_of session.old) session.new.register.stream (store_of session.new)) }
{
    let copy = copy_of_edits(alloc, edits)?;
    let Ok(receipt) = session.edit_group(copy) else {
        return Err(AllocError);
    };
    let GroupReceipt {
        number: _,
        ids,
        steps: _,
        hashed: _,
        lost_pictures: _,
        changed: _,
    } = receipt;
    Ok(ids)
}
