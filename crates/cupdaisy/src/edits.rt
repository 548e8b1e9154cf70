//! Edits.

ghost use Rattle.stream_edits.specs.Streams.{end_of};
ghost use Rattle.stream_edits.specs.declared.edits.Edit.TheVariants.{Delete, Insert, Replace};
ghost use Rattle.stream_edits.specs.declared.edits.InsertionPoint.TheVariants.{After, First};
ghost use Rattle.c_calls.specs.Editing.{EditsBy, EditsByCopy};
ghost use Rattle.c_calls.specs.Grouping.{GroupsTo};
ghost use Rattle.c_calls.specs.Loading.{LoadsTo};
ghost use Rattle.cupdaisy.specs.Calls.{Does, DoesTwo};

use crate::Handle;
use c_calls::{
    EditReceipt, EditsReceipt, GivenEdit, LoadReceipt, NO_SESSION, delete, insert, insert_last,
    replace,
};
use h264_types::pictures::AuId;
use std::alloc::Global;
use stream_edits::InsertionPoint;

/// Inserts a unit before all others.
#[unsafe(no_mangle)]
pub extern "C" fn cupdaisy_insert_first(
    alloc: Global,
    session: &mut Handle,
    text: &[u8],
    receipt: &mut EditReceipt,
) -> u32
    ensures { Does session.old.held.state result receipt.old receipt.new session.new.held.state
        (λ old new. EditsByCopy old (Insert First text.now) result receipt.old receipt.new new) }
{
    let Some(mut inner) = session.take(alloc) else {
        return NO_SESSION;
    };
    let status = insert(alloc, &mut inner, InsertionPoint::First, text, receipt);
    session.put(inner);
    status
}

/// Inserts a unit directly after that of the id.
#[unsafe(no_mangle)]
pub extern "C" fn cupdaisy_insert_after(
    alloc: Global,
    session: &mut Handle,
    id: u32,
    text: &[u8],
    receipt: &mut EditReceipt,
) -> u32
    ensures { Does session.old.held.state result receipt.old receipt.new session.new.held.state
        (λ old new. EditsByCopy old (Insert (After id) text.now) result receipt.old
        receipt.new new) }
{
    let Some(mut inner) = session.take(alloc) else {
        return NO_SESSION;
    };
    let status = insert(
        alloc,
        &mut inner,
        InsertionPoint::After(AuId::new(id)),
        text,
        receipt,
    );
    session.put(inner);
    status
}

/// Inserts a unit after all others.
#[unsafe(no_mangle)]
pub extern "C" fn cupdaisy_insert_last(
    alloc: Global,
    session: &mut Handle,
    text: &[u8],
    receipt: &mut EditReceipt,
) -> u32
    ensures { Does session.old.held.state result receipt.old receipt.new session.new.held.state
        (λ old new. EditsByCopy old (Insert (end_of old.register.stream) text.now) result
        receipt.old receipt.new new) }
{
    let Some(mut inner) = session.take(alloc) else {
        return NO_SESSION;
    };
    let status = insert_last(alloc, &mut inner, text, receipt);
    session.put(inner);
    status
}

/// Takes the unit of the id out.
#[unsafe(no_mangle)]
pub extern "C" fn cupdaisy_delete(
    alloc: Global,
    session: &mut Handle,
    id: u32,
    receipt: &mut EditReceipt,
) -> u32
    ensures { Does session.old.held.state result receipt.old receipt.new session.new.held.state
        (λ old new. EditsBy old (Delete id) result receipt.old receipt.new new) }
{
    let Some(mut inner) = session.take(alloc) else {
        return NO_SESSION;
    };
    let status = delete(alloc, &mut inner, id, receipt);
    session.put(inner);
    status
}

/// Puts another unit in the place of that of the id, under the same id.
#[unsafe(no_mangle)]
pub extern "C" fn cupdaisy_replace(
    alloc: Global,
    session: &mut Handle,
    id: u32,
    text: &[u8],
    receipt: &mut EditReceipt,
) -> u32
    ensures { Does session.old.held.state result receipt.old receipt.new session.new.held.state
        (λ old new. EditsByCopy old (Replace id text.now) result receipt.old receipt.new new) }
{
    let Some(mut inner) = session.take(alloc) else {
        return NO_SESSION;
    };
    let status = replace(alloc, &mut inner, id, text, receipt);
    session.put(inner);
    status
}

/// Makes edits together, as one step.
#[unsafe(no_mangle)]
pub extern "C" fn cupdaisy_group(
    alloc: Global,
    session: &mut Handle,
    edits: &[GivenEdit],
    texts: &[u8],
    ids: &mut [u32],
    receipt: &mut EditsReceipt,
) -> u32
    ensures { DoesTwo session.old.held.state result ids.old ids.new receipt.old receipt.new
        session.new.held.state
        (λ old new. GroupsTo old texts.now edits.now result (ids.old, receipt.old)
        (ids.new, receipt.new) new) }
{
    let Some(mut inner) = session.take(alloc) else {
        return NO_SESSION;
    };
    let status = c_calls::group(alloc, &mut inner, edits, texts, ids, receipt);
    session.put(inner);
    status
}

/// Inserts the access units of a stream after the last one.
#[unsafe(no_mangle)]
pub extern "C" fn cupdaisy_load(
    alloc: Global,
    session: &mut Handle,
    text: &[u8],
    receipt: &mut LoadReceipt,
) -> u32
    ensures { Does session.old.held.state result receipt.old receipt.new session.new.held.state
        (λ old new. LoadsTo old text.now result receipt.new new) }
{
    let Some(mut inner) = session.take(alloc) else {
        return NO_SESSION;
    };
    let status = c_calls::load(alloc, &mut inner, text, receipt);
    session.put(inner);
    status
}
