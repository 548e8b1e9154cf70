//! The journal: the accepted edits, those of a group as one entry.

ghost use Rattle.std.specs.Prelude.{◌≡◌, Ok, Err, length, MatchResult};
ghost use Rattle.c_calls.specs.Journals.{FillsText, edit_in, edits_at, as_journal_edit};
ghost use Rattle.c_calls.specs.Requests.{laid_out};
ghost use Rattle.c_calls.specs.Statuses.{done};
ghost use Rattle.c_calls.specs.Telling.{Tells};

use crate::statuses::{DONE, NO_SUCH_PLACE};
use crate::surface_session::SurfaceSession;
use crate::telling::fill;
use stream_edits::{Edit, InsertionPoint};

/// The kind of an edit that inserts a unit before all others.
pub const KIND_INSERT_FIRST: u32 = 0;
/// The kind of an edit that inserts a unit directly after that of the id.
pub const KIND_INSERT_AFTER: u32 = 1;
/// The kind of an edit that takes the unit of the id out.
pub const KIND_DELETE: u32 = 2;
/// The kind of an edit that puts another unit in the place of that of the id.
pub const KIND_REPLACE: u32 = 3;

/// An edit of the journal: its kind, the id that it names, 0 where it names none, and how many
/// bytes its text has.
#[repr(C)]
#[derive(Clone, Copy, Debug, PartialEq, Eq)]
pub struct JournalEdit {
    pub kind: u32,
    pub id: u32,
    pub bytes: u64,
}

/// How many entries the journal has.
pub fn journal(session: &SurfaceSession, entries: &mut usize) -> u32
    ensures { (result ≡ done) × (entries.new ≡ length session.now.journal) }
{
    *entries = session.inner.journal().len();
    DONE
}

/// How many edits an entry of the journal has: one, or those of a group.
pub fn journal_entry(session: &SurfaceSession, entry: usize, edits: &mut usize) -> u32
    ensures { Tells (edits_at session.now entry) result edits.old edits.new }
{
    match session.inner.journal().get(entry) {
        Some(found) => {
            *edits = found.edits().len();
            DONE
        }
        None => NO_SUCH_PLACE,
    }
}

/// An edit of an entry of the journal.
pub fn journal_edit(
    session: &SurfaceSession,
    entry: usize,
    index: usize,
    edit: &mut JournalEdit,
) -> u32
    ensures { Tells (laid_out as_journal_edit (edit_in session.now entry index))
        result edit.old edit.new }
{
    match edit_in(session, entry, index) {
        Ok(found) => {
            *edit = as_journal_edit(found);
            DONE
        }
        Err(why) => why,
    }
}

/// An edit, as it is told.
fn as_journal_edit(edit: &Edit) -> JournalEdit
    ensures { result ≡ as_journal_edit edit.now }
{
    match edit {
        Edit::Insert(InsertionPoint::First, text) => JournalEdit {
            kind: KIND_INSERT_FIRST,
            id: 0,
            bytes: text.len() as u64,
        },
        Edit::Insert(InsertionPoint::After(id), text) => JournalEdit {
            kind: KIND_INSERT_AFTER,
            id: id.number(),
            bytes: text.len() as u64,
        },
        Edit::Delete(id) => JournalEdit {
            kind: KIND_DELETE,
            id: id.number(),
            bytes: 0,
        },
        Edit::Replace(id, text) => JournalEdit {
            kind: KIND_REPLACE,
            id: id.number(),
            bytes: text.len() as u64,
        },
    }
}

/// The text of an edit of an entry of the journal; that of a deletion is empty.
pub fn journal_text(
    session: &SurfaceSession,
    entry: usize,
    index: usize,
    text: &mut [u8],
    needed: &mut usize,
) -> u32
    ensures { FillsText (edit_in session.now entry index)
        result text.old text.new needed.old needed.new }
{
    match edit_in(session, entry, index) {
        Ok(Edit::Insert(_, bytes)) | Ok(Edit::Replace(_, bytes)) => {
            fill(bytes.as_slice(), text, needed)
        }
        Ok(Edit::Delete(_)) => fill(&[], text, needed),
        Err(why) => why,
    }
}

/// The edit at an index of an entry of the journal.
fn edit_in(session: &SurfaceSession, entry: usize, index: usize) -> Result<&Edit, u32>
    ensures { MatchResult result
        (λ edit. edit_in session.now entry index ≡ Ok edit.now)
        (λ why. edit_in session.now entry index ≡ Err why) }
{
    match session.inner.journal().get(entry) {
        Some(found) => match found.edits().get(index) {
            Some(edit) => Ok(edit),
            None => Err(NO_SUCH_PLACE),
        },
        None => Err(NO_SUCH_PLACE),
    }
}
