//! The seats' books by their numbers, and whether a journal's entries stand in them.

ghost use Rattle.std.specs.Prelude.{◌≡◌, ◌+◌, ◌<◌, ℕ, length, IfOk, MatchBool, false, true};
ghost use Rattle.std.specs.Bool.{Decides};
ghost use Rattle.seat_books.specs.Books.{is_noted};
ghost use Rattle.decode_pool.specs.Finishing.{AreBooksOf, AreEachOnce, AreNumbered, AreWithin, IsBookOf, seats_of};

use crate::seat::Seat;
use seat_books::{SeatBook, noted_lengths};
use stand_in_session::JournalEntry;
use std::alloc::{AllocError, Global};

/// Whether the seats have the numbers from 1 to how many were opened, each once.
pub(crate) fn are_numbered(seats: &[Seat], opened: usize) -> bool
    ensures { Decides result (AreNumbered opened seats.now) }
{
    are_within(seats, opened) && are_each_once(seats, opened)
}

/// Whether no seat has another number than those that were opened.
fn are_within(seats: &[Seat], opened: usize) -> bool
    ensures { Decides result (AreWithin opened seats.now) }
{
    for seat in seats {
        if seat.number == 0 || seat.number > opened {
            return false;
        }
    }
    true
}

/// Whether each number that was opened is that of one seat.
fn are_each_once(seats: &[Seat], opened: usize) -> bool
    ensures { Decides result (AreEachOnce opened seats.now) }
{
    for at in 0..opened {
        if count_of(seats, at + 1) != 1 {
            return false;
        }
    }
    true
}

/// How many seats have the number.
fn count_of(seats: &[Seat], number: usize) -> usize
    ensures { result ≡ seats_of seats.now number }
{
    seats.iter().filter(|seat| seat.number == number).count()
}

/// Copies of the seats' books, in the order of their numbers.
pub(crate) fn books_of(
    alloc: Global,
    seats: &[Seat],
    opened: usize,
) -> Result<Vec<SeatBook>, AllocError>
    requires { AreNumbered opened seats.now }
    ensures { IfOk result (λ books. AreBooksOf opened seats.now books.items) }
{
    let mut books = Vec::new(alloc);
    for at in 0..opened {
        let book = book_of(alloc, seats, at + 1)?;
        books.push(book)?;
    }
    Ok(books)
}

/// A copy of the book of the seat of the number.
fn book_of(alloc: Global, seats: &[Seat], number: usize) -> Result<SeatBook, AllocError>
    requires { seats_of seats.now number ≡ 1 }
    ensures { IfOk result (IsBookOf seats.now number) }
{
    for seat in seats {
        if seat.number == number {
            return seat.book.copy(alloc);
        }
    }
    unreachable!()
}

/// Whether each edit and each group of the journal stands in one of the books.
pub(crate) fn are_all_noted(
    alloc: Global,
    journal: &[JournalEntry],
    books: &[SeatBook],
) -> Result<bool, AllocError>
    ensures { IfOk result (λ all. MatchBool all
        ((at : ℕ) → at < length journal.now → is_noted books.now (at + 1) ≡ true)
        ((at : ℕ) × (at < length journal.now) × (is_noted books.now (at + 1) ≡ false))) }
{
    let noted = noted_lengths(alloc, books)?;
    for at in 0..journal.len() {
        if !noted.has(at as u64 + 1) {
            return Ok(false);
        }
    }
    Ok(true)
}
