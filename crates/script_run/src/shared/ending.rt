//! The end of a desk with one seat, whose book is held against the journal.

ghost use Rattle.std.specs.Prelude.{◌≡◌, ◌+◌, IfOk, count_by, length};
ghost use Rattle.decode_pool.specs.Finishing.{is_edit};
ghost use Rattle.script_run.specs.Verdicts.{IsVerdict, is_show};

use crate::shared::audit::Verdict;
use decode_pool::{Desk, FinishFault, Seat, finish};
use seat_books::{SeatBook, SeatReceipt};
use std::alloc::{AllocError, Global};

/// Ends the desk whose one seat this is, and says whether its book agrees with the journal. Where
/// one of the journal's entries stands in no book, the receipt that disagrees is the one that is
/// missing after the last.
pub(crate) fn end(alloc: Global, desk: Desk, seat: Seat) -> Result<Verdict, AllocError>
    requires opened { desk.seats ≡ 1 }
    requires number { seat.number ≡ 1 }
    ensures { IfOk result (IsVerdict seat) }
{
    let (edits, shows) = (edits_in(seat.book()), shows_in(seat.book()));
    let after = next_number(seat.book());
    let mut seats = Vec::new(alloc);
    seats.push(seat)?;
    match finish(alloc, desk, seats) {
        Ok(_) => Ok(Verdict::Agreed { edits, shows }),
        Err(unfinished) => match unfinished.cause {
            FinishFault::SeatDisagrees { seat, number } => Ok(Verdict::Disagrees { seat, number }),
            FinishFault::SeatMissing => Ok(Verdict::Disagrees {
                seat: 1,
                number: after,
            }),
            FinishFault::Memory | FinishFault::NotAudited => Err(AllocError),
        },
    }
}

/// The number of the receipt after the book's last.
fn next_number(book: &SeatBook) -> usize
    ensures { result ≡ length book.now.receipts.items + 1 }
{
    book.receipts.len() + 1
}

/// How many receipts of the book are of edits and groups.
fn edits_in(book: &SeatBook) -> usize
    ensures { result ≡ count_by is_edit book.now.receipts.items }
{
    book.receipts
        .iter()
        .filter(|receipt| is_edit(*receipt))
        .count()
}

/// How many are of units that were shown.
fn shows_in(book: &SeatBook) -> usize
    ensures { result ≡ count_by is_show book.now.receipts.items }
{
    book.receipts
        .iter()
        .filter(|receipt| is_show(*receipt))
        .count()
}

/// Whether the receipt is of an edit or a group.
fn is_edit(receipt: &SeatReceipt) -> bool
    ensures { result ≡ is_edit receipt.now }
{
    matches!(
        receipt,
        SeatReceipt::Edit { .. } | SeatReceipt::Group { .. }
    )
}

/// Whether the receipt is of a unit that was shown.
fn is_show(receipt: &SeatReceipt) -> bool
    ensures { result ≡ is_show receipt.now }
{
    matches!(receipt, SeatReceipt::Show { .. })
}
