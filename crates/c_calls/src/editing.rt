//! Edits of a session.

ghost use Rattle.std.specs.Prelude.{◌≡◌};
ghost use Rattle.stream_edits.specs.declared.edits.Edit.TheVariants.{Insert, Replace, Delete};
ghost use Rattle.stream_edits.specs.Streams.{end_of};
ghost use Rattle.c_calls.specs.Editing.{EditsBy, EditsByCopy, MakesEdit, as_edit_receipt};

use crate::statuses::MEMORY;
use crate::surface_session::SurfaceSession;
use crate::telling::tell;
use bytes::Bytes;
use h264_types::pictures::AuId;
use std::alloc::Global;
use stream_edits::{Edit, EditRefused, InsertionPoint, Receipt};

/// What an accepted edit is told: how many edits and groups were accepted, with this one; how many
/// steps of the fold it made; how many bytes were hashed for it; the first place of the units that it
/// changed, and how many they are; and the id of the unit that was inserted, deleted or replaced.
#[repr(C)]
#[derive(Clone, Copy, Debug, PartialEq, Eq)]
pub struct EditReceipt {
    pub number: u64,
    pub steps: u64,
    pub hashed: u64,
    pub changed_from: u64,
    pub changed_count: u64,
    pub id: u32,
}

/// Edits the stream.
pub fn edit(
    alloc: Global,
    session: &mut SurfaceSession,
    edit: Edit,
    receipt: &mut EditReceipt,
) -> u32
    ensures { EditsBy session.old edit result receipt.old receipt.new session.new }
{
    let answer = answer_to(alloc, session, edit);
    tell(as_edit_receipt(answer), receipt)
}

/// What an edit is answered.
fn answer_to(
    alloc: Global,
    session: &mut SurfaceSession,
    edit: Edit,
) -> Result<Receipt, EditRefused>
    ensures { MakesEdit session.old edit result session.new }
{
    let read = edit.read(alloc)?;
    session.inner.edit_read(read)
}

/// An answer to an edit, as it is told.
fn as_edit_receipt(answer: Result<Receipt, EditRefused>) -> Result<EditReceipt, u32>
    ensures { result ≡ as_edit_receipt answer }
{
    match answer {
        Ok(receipt) => Ok(EditReceipt {
            number: receipt.number,
            steps: receipt.steps,
            hashed: receipt.hashed,
            changed_from: receipt.changed.from,
            changed_count: receipt.changed.count,
            id: receipt.id.number(),
        }),
        Err(refused) => Err(u32::from(refused.number())),
    }
}

/// Inserts a unit, given as the bytes of its text, which are copied.
pub fn insert(
    alloc: Global,
    session: &mut SurfaceSession,
    place: InsertionPoint,
    text: &[u8],
    receipt: &mut EditReceipt,
) -> u32
    ensures { EditsByCopy session.old (Insert place text.now) result receipt.old receipt.new
        session.new }
{
    match Bytes::copy_from_slice(alloc, text) {
        Ok(text) => edit(alloc, session, Edit::Insert(place, text), receipt),
        Err(_) => MEMORY,
    }
}

/// Inserts a unit after the last one.
pub fn insert_last(
    alloc: Global,
    session: &mut SurfaceSession,
    text: &[u8],
    receipt: &mut EditReceipt,
) -> u32
    ensures { EditsByCopy session.old (Insert (end_of session.old.register.stream) text.now)
        result receipt.old receipt.new session.new }
{
    let place = session.inner.end();
    insert(alloc, session, place, text, receipt)
}

/// Takes the unit of the id out.
pub fn delete(
    alloc: Global,
    session: &mut SurfaceSession,
    id: u32,
    receipt: &mut EditReceipt,
) -> u32
    ensures { EditsBy session.old (Delete id) result receipt.old receipt.new session.new }
{
    edit(alloc, session, Edit::Delete(AuId::new(id)), receipt)
}

/// Puts another unit in the place of that of the id, given as the bytes of its text, which are
/// copied.
pub fn replace(
    alloc: Global,
    session: &mut SurfaceSession,
    id: u32,
    text: &[u8],
    receipt: &mut EditReceipt,
) -> u32
    ensures { EditsByCopy session.old (Replace id text.now) result receipt.old receipt.new
        session.new }
{
    match Bytes::copy_from_slice(alloc, text) {
        Ok(text) => edit(alloc, session, Edit::Replace(AuId::new(id), text), receipt),
        Err(_) => MEMORY,
    }
}
