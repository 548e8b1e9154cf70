//! The book of a seat.

ghost use Rattle.std.specs.Prelude.{◌≡◌, [], IfOk, ◌||◌, ℕ, OnOk};
ghost use Rattle.std.specs.List.{list_any};
ghost use Rattle.seat_books.specs.Books.{is_edit_of};
ghost use Rattle.seat_books.specs.Noting.{AreNoted};
ghost use Rattle.seat_books.specs.Sets.{has};

use crate::number_set::NumberSet;
use crate::receipts::SeatReceipt;
use std::alloc::{AllocError, Global};

/// The book of a seat: its receipts, in the order in which it made them.
#[derive(Debug, Drop)]
pub struct SeatBook {
    pub receipts: Vec<SeatReceipt>,
}

impl SeatBook {
    /// A book without receipts.
    pub fn new(alloc: Global) -> SeatBook
        ensures { result.receipts.items ≡ [] }
    {
        SeatBook {
            receipts: Vec::new(alloc),
        }
    }

    /// The book once more; it shares the bytes of edits.
    pub fn copy(&self, alloc: Global) -> Result<SeatBook, AllocError>
        ensures { IfOk result (λ copy. copy.receipts.items ≡ self.now.receipts.items) }
    {
        let mut receipts = Vec::with_capacity(alloc, self.receipts.len())?;
        for receipt in &self.receipts {
            receipts.push(receipt.copy()?)?;
        }
        Ok(SeatBook { receipts })
    }
}

/// The lengths at which one of the books has a receipt of the edit or group that made the journal
/// so long.
pub fn noted_lengths(alloc: Global, books: &[SeatBook]) -> Result<NumberSet, AllocError>
    ensures { IfOk result (AreNoted books.now) }
{
    let mut noted = NumberSet::new(alloc);
    for book in books {
        note(&mut noted, book)?;
    }
    Ok(noted)
}

/// Adds the lengths that a book notes for edits and groups.
pub(crate) fn note(noted: &mut NumberSet, book: &SeatBook) -> Result<(), AllocError>
    ensures { OnOk result ((length : ℕ) → has noted.new length
        ≡ (has noted.old length || list_any (is_edit_of length) book.now.receipts.items)) }
{
    for receipt in &book.receipts {
        note_receipt(noted, receipt)?;
    }
    Ok(())
}

/// Adds the length that a receipt notes, where it is of an edit or a group.
fn note_receipt(noted: &mut NumberSet, receipt: &SeatReceipt) -> Result<(), AllocError>
    ensures { OnOk result ((length : ℕ) → has noted.new length
        ≡ (has noted.old length || is_edit_of length receipt.now)) }
{
    match receipt {
        SeatReceipt::Edit { length, .. } | SeatReceipt::Group { length, .. } => noted.add(*length),
        SeatReceipt::Show { .. } | SeatReceipt::Drop { .. } => Ok(()),
    }
}
