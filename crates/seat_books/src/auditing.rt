//! The audit of books.

ghost use Rattle.std.specs.Prelude.{◌≡◌, List, take, IfErr, IfOk, MatchOption, OnOk};
ghost use Rattle.stream_edits.specs.Edits.{Register, no_units, Replays};
ghost use Rattle.stream_edits.specs.Journals.{edits_of};
ghost use Rattle.seat_books.specs.Books.{BookAgrees, BooksAgree};
ghost use Rattle.seat_books.specs.Drops.{AreDrops};
ghost use Rattle.seat_books.specs.Faults.{IsFaultOf, IsFirstFault};
ghost use Rattle.seat_books.specs.Noting.{AreNoted};
ghost use Rattle.seat_books.specs.declared.book.SeatBook.{SeatBook as Book};

use crate::book::{SeatBook, note};
use crate::drop_table::DropTable;
use crate::faults::AuditFault;
use crate::number_set::NumberSet;
use crate::replay::Replay;
use stand_in_session::JournalEntry;
use std::alloc::{AllocError, Global};

/// Whether the books of seats, in the seats' order, agree with a journal of which each edit is
/// accepted after those before it; or else the first receipt that doesn't, in the first book that
/// has one. Each book is followed over the journal once, up to the length that its last receipt
/// notes. So this takes as long as to make the journal's edits once for each book that isn't empty,
/// to decode a picture when a receipt shows that it is ready, and some steps for each receipt, of a
/// picture that was dropped for each book that comes to its length.
///
/// An entry that no session's journal has, of no edit or of more than 1,024, is answered as lack of
/// memory where a book comes to it.
pub fn audit(alloc: Global, journal: &[JournalEntry], books: &[SeatBook]) -> Result<(), AuditFault>
    requires { (register : Register) × Replays no_units (edits_of journal.now) register }
    ensures ok { OnOk result (BooksAgree journal.now books.now) }
    ensures err { IfErr result (IsFaultOf journal.now books.now) }
{
    let drops = DropTable::of(alloc, books, journal.len())?;
    let mut noted = NumberSet::new(alloc);
    for (at, book) in books.iter().enumerate() {
        if let Some(number) = first_fault(alloc, journal, &noted, &drops, at, book)? {
            return Err(AuditFault::SeatDisagrees {
                seat: at + 1,
                number,
            });
        }
        note(&mut noted, book)?;
    }
    Ok(())
}

/// The number of the first receipt of a seat's book that doesn't agree. The books of lower seats
/// have noted edits at these lengths, and those of all seats these drops.
fn first_fault(
    alloc: Global,
    journal: &[JournalEntry],
    noted: &NumberSet,
    drops: &DropTable,
    seat: usize,
    book: &SeatBook,
) -> Result<Option<usize>, AllocError>
    ensures { IfOk result (λ fault. (books : List Book) → AreNoted (take seat books) noted.now
        → AreDrops journal.now books drops.now → MatchOption fault
        (BookAgrees journal.now books seat book.now)
        (λ number. IsFirstFault journal.now books seat book.now.receipts.items number)) }
{
    let mut replay = Replay::new(alloc, seat)?;
    for (at, receipt) in book.receipts.iter().enumerate() {
        if !replay.agrees(journal, noted, drops, receipt)? {
            return Ok(Some(at + 1));
        }
    }
    Ok(None)
}
