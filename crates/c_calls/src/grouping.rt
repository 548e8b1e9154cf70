//! Groups of edits.

ghost use Rattle.std.specs.Prelude.{◌≡◌, ◌≤◌, None, Some, length, IfErr, IfOk, MatchOption};
ghost use Rattle.c_calls.specs.Grouping.{AreGiven, GroupsBy, GroupsTo, MakesGroup, TellsGroup, given_edit, filled, text_in, refused_at};
ghost use Rattle.c_calls.specs.GivenFaults.{IsGivenFault};
ghost use Rattle.c_calls.specs.declared.grouping.GivenFault.TheVariants.{Memory};

use crate::journaling::{KIND_DELETE, KIND_INSERT_AFTER, KIND_INSERT_FIRST, KIND_REPLACE};
use crate::statuses::{DONE, MEMORY, NOT_AN_EDIT, TOO_SMALL};
use crate::surface_session::SurfaceSession;
use bytes::Bytes;
use h264_types::pictures::AuId;
use std::alloc::{AllocError, AllocFailed, Global};
use stream_edits::{Edit, GroupReceipt, GroupRefused, InsertionPoint, ReadGroup};

/// An edit as a caller asks for it: its kind, the id that it names, and where its text lies among
/// the bytes of all texts.
#[repr(C)]
#[derive(Clone, Copy, Debug, PartialEq, Eq)]
pub struct GivenEdit {
    pub kind: u32,
    pub id: u32,
    pub from: usize,
    pub count: usize,
}

/// What is told of a group beside its ids.
#[repr(C)]
#[derive(Clone, Copy, Debug, PartialEq, Eq)]
pub struct EditsReceipt {
    /// How many edits and groups were accepted, with this one.
    pub number: u64,
    /// How many steps of the fold it made.
    pub steps: u64,
    /// How many bytes were hashed for its edits.
    pub hashed: u64,
    /// The first place of the units that it changed, and how many they are.
    pub changed_from: u64,
    pub changed_count: u64,
    /// Which edit is why the group isn't made, from 0 on.
    pub index: u64,
}

/// Why the edits of a group aren't made from what a caller asks for.
enum GivenFault {
    /// What is asked for at this index is no edit.
    NotAnEdit { index: usize },
    /// A growth was refused.
    Memory,
}

impl From<AllocError> for GivenFault {
    ghost from_gives = { λ _ e. e ≡ Memory };

    fn from(_e: AllocError) -> GivenFault {
        GivenFault::Memory
    }
}

impl<T: Drop> From<AllocFailed<T>> for GivenFault {
    ghost from_gives = { λ _ e. e ≡ Memory };

    fn from(_e: AllocFailed<T>) -> GivenFault {
        GivenFault::Memory
    }
}

/// Makes edits together, as one step, and tells the unit's id of each.
pub fn group(
    alloc: Global,
    session: &mut SurfaceSession,
    given: &[GivenEdit],
    texts: &[u8],
    ids: &mut [u32],
    answered: &mut EditsReceipt,
) -> u32
    ensures { GroupsTo session.old texts.now given.now result (ids.old, answered.old) (ids.new, answered.new)
        session.new }
{
    if ids.len() < given.len() {
        return TOO_SMALL;
    }
    match given_edits(alloc, texts, given) {
        Ok(edits) => make_group(alloc, session, edits, ids, answered),
        Err(GivenFault::NotAnEdit { index }) => {
            *answered = refused_at(index);
            NOT_AN_EDIT
        }
        Err(GivenFault::Memory) => MEMORY,
    }
}

/// The edits that are asked for, with their texts copied.
fn given_edits(alloc: Global, texts: &[u8], given: &[GivenEdit]) -> Result<Vec<Edit>, GivenFault>
    ensures ok { IfOk result (λ edits. AreGiven texts.now given.now edits.items) }
    ensures err { IfErr result (IsGivenFault texts.now given.now) }
{
    let mut edits = Vec::with_capacity(alloc, given.len())?;
    for index in 0..given.len() {
        match given_edit(alloc, texts, given[index])? {
            Some(edit) => edits.push(edit)?,
            None => return Err(GivenFault::NotAnEdit { index }),
        }
    }
    Ok(edits)
}

/// The edit that is asked for, if it is one.
fn given_edit(alloc: Global, texts: &[u8], given: GivenEdit) -> Result<Option<Edit>, AllocError>
    ensures { IfOk result (λ edit. edit ≡ given_edit texts.now given) }
{
    let id = AuId::new(given.id);
    if given.kind == KIND_DELETE {
        return Ok(Some(Edit::Delete(id)));
    }
    let Some(text) = text_in(texts, given) else {
        return Ok(None);
    };
    let text = Bytes::copy_from_slice(alloc, text)?;
    Ok(match given.kind {
        KIND_INSERT_FIRST => Some(Edit::Insert(InsertionPoint::First, text)),
        KIND_INSERT_AFTER => Some(Edit::Insert(InsertionPoint::After(id), text)),
        KIND_REPLACE => Some(Edit::Replace(id, text)),
        _ => None,
    })
}

/// The text of an edit that is asked for, where it lies within the bytes.
fn text_in(texts: &[u8], given: GivenEdit) -> Option<&[u8]>
    ensures { MatchOption result
        (text_in texts.now given ≡ None)
        (λ text. text_in texts.now given ≡ Some text.now) }
{
    if given.from > texts.len() || given.count > texts.len() - given.from {
        return None;
    }
    Some(&texts[given.from..given.from + given.count])
}

/// Makes these edits together, and tells the unit's id of each.
fn make_group(
    alloc: Global,
    session: &mut SurfaceSession,
    edits: Vec<Edit>,
    ids: &mut [u32],
    answered: &mut EditsReceipt,
) -> u32
    requires { length edits.items ≤ length ids.old }
    ensures { GroupsBy session.old edits.items result (ids.old, answered.old) (ids.new, answered.new)
        session.new }
{
    let answer = answer_to_group(alloc, session, edits);
    tell_group(answer, ids, answered)
}

/// What a group is answered.
fn answer_to_group(
    alloc: Global,
    session: &mut SurfaceSession,
    edits: Vec<Edit>,
) -> Result<GroupReceipt, GroupRefused>
    ensures answer { MakesGroup session.old edits.items result session.new }
    ensures ids { IfOk result (λ receipt. length receipt.ids.items ≡ length edits.items) }
{
    let group = ReadGroup::read(alloc, edits)?;
    session.inner.edit_group_read(group)
}

/// Tells an answer to a group.
fn tell_group(
    answer: Result<GroupReceipt, GroupRefused>,
    ids: &mut [u32],
    answered: &mut EditsReceipt,
) -> u32
    requires { IfOk answer (λ receipt. length receipt.ids.items ≤ length ids.old) }
    ensures { TellsGroup answer result (ids.old, answered.old) (ids.new, answered.new) }
{
    match answer {
        Ok(receipt) => {
            fill_ids(&receipt.ids, ids);
            *answered = EditsReceipt {
                number: receipt.number,
                steps: receipt.steps,
                hashed: receipt.hashed,
                changed_from: receipt.changed.from,
                changed_count: receipt.changed.count,
                index: 0,
            };
            DONE
        }
        Err(GroupRefused::Edit { index, refused }) => {
            *answered = refused_at(index);
            u32::from(refused.number())
        }
        Err(refused) => u32::from(refused.number()),
    }
}

/// What is told of a group whose edit at the index is why it isn't made.
fn refused_at(index: usize) -> EditsReceipt
    ensures { result ≡ refused_at index }
{
    EditsReceipt {
        number: 0,
        steps: 0,
        hashed: 0,
        changed_from: 0,
        changed_count: 0,
        index: index as u64,
    }
}

/// Writes the ids at the start of those that are there.
fn fill_ids(from: &[AuId], ids: &mut [u32])
    requires { length from.now ≤ length ids.old }
    ensures { ids.new ≡ filled from.now ids.old }
{
    for index in 0..from.len() {
        ids[index] = from[index].number();
    }
}
