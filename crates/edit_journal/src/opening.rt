//! A journal in a file.

ghost use Rattle.std.specs.Prelude.{◌≡◌, List, IfOk};
ghost use Rattle.sqlite_wal.specs.Files.{image_at};
ghost use Rattle.sqlite_store.specs.FileStore.{view};
ghost use Rattle.sqlite_trees.specs.Tree.{Trees};
ghost use Rattle.sqlite_trees.specs.View.{IsClean};
ghost use Rattle.sqlite.specs.Files.{HoldsDatabase};
ghost use Rattle.edit_journal.specs.declared.line.Line.{Line as LineValue};
ghost use Rattle.edit_journal.specs.Journals.{Stands};
ghost use Rattle.edit_journal.specs.Tables.{IsJournal};

use crate::fault::JournalFault;
use crate::first_page::prepare;
use crate::journal::Journal;
use crate::line::Line;
use sqlite::{Connection, Error, ErrorCode};
use sqlite_disk::Start;
use sqlite_std_file::FileFrom;
use sqlite_store::FileStore;

/// A journal in a file, which held what `S` says.
pub type FileJournal<S> = Journal<FileStore<FileFrom<S>>>;

/// Opens the journal in the file, or makes one where there is no file, or one that ends within its first page. Its lines
/// are in order. The program passes `Wary`: a write that was torn may leave any bytes.
pub fn open<S: Start>(
    rt: &HostRuntime,
    path: &str,
    start: S,
) -> Result<(FileJournal<S>, Vec<Line>), JournalFault>
    ensures stands { IfOk result (λ made. IsClean (view made.0.store) → Stands (view made.0.store) made.0.rows made.1.items) }
    ensures found { IfOk result (λ made. IsClean (view made.0.store) → (db : Trees) (lines : List LineValue)
        → HoldsDatabase (image_at S.Start) db → IsJournal db lines → made.1.items ≡ lines) }
{
    prepare(rt, path)?;
    match Connection::open_from(rt, path, true, start) {
        Ok(conn) => Journal::over(rt.alloc(), conn.into_store()),
        Err((error, _)) => Err(opening_fault(error)),
    }
}

/// Why the file can't be opened.
fn opening_fault(error: Error) -> JournalFault {
    match error {
        Error::SqliteFailure(ErrorCode::OutOfMemory) => JournalFault::Memory,
        Error::SqliteFailure(ErrorCode::DatabaseBusy) => JournalFault::Locked,
        Error::SqliteFailure(ErrorCode::DiskFull) => JournalFault::Full,
        Error::SqliteFailure(ErrorCode::NotADatabase | ErrorCode::DatabaseCorrupt) => {
            JournalFault::Damaged
        }
        _ => JournalFault::Failed,
    }
}
