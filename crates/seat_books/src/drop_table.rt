//! The pictures that seats dropped, by the length of the journal.

ghost use Rattle.std.specs.Prelude.{◌≡◌, ◌+◌, ◌<◌, ◌==◌, ◌++◌, ◌∷◌, ◌⊎◌, ◌↔◌, [], ℕ, length, Contains, IfOk, OnOk, if◌then◌else◌};
ghost use Rattle.seat_books.specs.Drops.{AreDropsTo, IsDropIn, drops_at};
ghost use Rattle.seat_books.specs.declared.drop_table.SeatDrop.{SeatDrop as DropValue};

use crate::book::SeatBook;
use crate::receipts::SeatReceipt;
use h264_types::pictures::AuId;
use stand_in_session::Dropping;
use std::alloc::{AllocError, Global};

/// A seat, counted from 0, dropped the picture of the unit of the id.
#[derive(Clone, Copy, Debug)]
pub(crate) struct SeatDrop {
    pub(crate) seat: usize,
    pub(crate) id: AuId,
}

/// The drops of pictures that books note, by the length of the journal.
#[derive(Debug, Drop)]
pub(crate) struct DropTable {
    by_length: Vec<Vec<SeatDrop>>,
}

impl DropTable {
    /// The drops that the books of seats note with lengths up to this one, which is that of the
    /// journal.
    pub(crate) fn of(
        alloc: Global,
        books: &[SeatBook],
        most: usize,
    ) -> Result<DropTable, AllocError>
        ensures { IfOk result (AreDropsTo most books.now) }
    {
        let mut table = DropTable::new(alloc, most)?;
        for (seat, book) in books.iter().enumerate() {
            table.add_book(seat, book)?;
        }
        Ok(table)
    }

    /// The drops with the length.
    pub(crate) fn at(&self, n: usize) -> &[SeatDrop]
        ensures { result.now ≡ drops_at self.now n }
    {
        match self.by_length.get(n) {
            Some(drops) => drops.as_slice(),
            None => &[],
        }
    }

    /// No drop, with room for those with lengths up to this one.
    fn new(alloc: Global, most: usize) -> Result<DropTable, AllocError>
        ensures size { IfOk result (λ table. length table.by_length.items ≡ most + 1) }
        ensures none { IfOk result (λ table. (n : ℕ) → drops_at table n ≡ []) }
    {
        let mut by_length = Vec::new(alloc);
        by_length.push(Vec::new(alloc))?;
        for _at in 0..most {
            by_length.push(Vec::new(alloc))?;
        }
        Ok(DropTable { by_length })
    }

    /// Adds the drops of a seat's book.
    fn add_book(&mut self, seat: usize, book: &SeatBook) -> Result<(), AllocError>
        ensures size { OnOk result (length self.new.by_length.items
            ≡ length self.old.by_length.items) }
        ensures drops { OnOk result ((n : ℕ) (drop : DropValue)
            → n < length self.old.by_length.items
            → Contains (drops_at self.new n) drop
            ↔ (Contains (drops_at self.old n) drop ⊎ IsDropIn seat
            book.now.receipts.items n drop)) }
    {
        for receipt in &book.receipts {
            self.add(seat, receipt)?;
        }
        Ok(())
    }

    /// Adds the drop that a receipt notes, if it notes one.
    fn add(&mut self, seat: usize, receipt: &SeatReceipt) -> Result<(), AllocError>
        ensures size { OnOk result (length self.new.by_length.items
            ≡ length self.old.by_length.items) }
        ensures drops { OnOk result ((n : ℕ) (drop : DropValue)
            → n < length self.old.by_length.items
            → Contains (drops_at self.new n) drop
            ↔ (Contains (drops_at self.old n) drop ⊎ IsDropIn seat (receipt.now ∷ []) n drop)) }
    {
        match receipt {
            SeatReceipt::Drop { id, answer, length } => match answer {
                Dropping::Dropped => self.put(*length, SeatDrop { seat, id: *id }),
                Dropping::NotHeld | Dropping::NoSuchUnit => Ok(()),
            },
            SeatReceipt::Edit { .. } | SeatReceipt::Group { .. } | SeatReceipt::Show { .. } => {
                Ok(())
            }
        }
    }

    /// Adds a drop with the length, unless that is above those of the table.
    fn put(&mut self, at: u64, dropped: SeatDrop) -> Result<(), AllocError>
        ensures size { OnOk result (length self.new.by_length.items
            ≡ length self.old.by_length.items) }
        ensures drops { OnOk result ((n : ℕ) → n < length self.old.by_length.items
            → drops_at self.new n
            ≡ (if at == n then drops_at self.old n ++ dropped ∷ [] else drops_at self.old n)) }
    {
        if at < self.by_length.len() as u64 {
            self.by_length[at as usize].push(dropped)?;
        }
        Ok(())
    }
}
