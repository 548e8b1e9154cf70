//! Audits of books that no desk keeps, against the journal of five edits.

use super::{A, P1, P1X, PICTURE_OF_A, after, empty_session, first, replace, row_holds};
use Note::{Drops, Edits, Shows};
use h264_types::pictures::AuId;
use seat_books::{AuditFault, SeatBook, SeatReceipt, audit};
use stand_in_session::{Dropping, Edit, Picture, Session, Shown};
use std::alloc::{AllocError, Global};
use std::process::Abort;
use std::test::Fail;
use unit_outcomes::ValidityFault;

/// The edit of the journal that has this number; another one for 0.
fn edit_of(number: u32) -> Edit {
    match number {
        1 => first(A),
        2 => after(1, P1),
        3 => replace(2, P1X),
        4 => replace(2, P1),
        5 => after(2, SPS),
        _ => first(P1),
    }
}

/// A sequence parameter set alone.
const SPS: &[u8] = &[0, 0, 1, 0x67, 0x42, 0x00, 0x0A, 0xDA, 0x79];

/// What a book notes.
#[derive(Clone, Copy)]
pub(super) enum Note {
    /// The edit of this number, with an id and a length.
    Edits(u32, u32, u64),
    /// What is shown of a unit, with a length.
    Shows(u32, Shown, u64),
    /// What comes of dropping a unit's picture, with a length.
    Drops(u32, Dropping, u64),
}

/// The picture of A.
pub(super) const READY: Shown = Shown::Ready(Picture {
    digest: PICTURE_OF_A,
});

/// The picture of P1 after A, by hashlib of Python.
pub(super) const READY_P1: Shown = Shown::Ready(Picture {
    digest: [
        0x6B, 0xC6, 0xC0, 0x8C, 0xF1, 0xBA, 0xA8, 0x6F, 0x62, 0x95, 0x0D, 0xB2, 0xC1, 0xAC, 0xFA,
        0xAC, 0x24, 0x91, 0x2A, 0x0B, 0x56, 0xA8, 0xE0, 0xE6, 0xAC, 0x08, 0xD3, 0x02, 0xE2, 0xB4,
        0x9D, 0x88,
    ],
});

/// A picture that no unit has.
const INVENTED: Shown = Shown::Ready(Picture { digest: [0; 32] });

const FAULT: Shown = Shown::Fault(ValidityFault::NoIdr);

/// The books of seats, and the seat and number of the first receipt that disagrees.
pub(super) type Row = (&'static [&'static [Note]], Option<(usize, usize)>);

const ROWS: [Row; 26] = [
    (&[], None),
    (
        &[&[Edits(1, 1, 1), Edits(2, 2, 2)], &[Edits(3, 2, 3)]],
        None,
    ),
    // Pending after ready.
    (
        &[&[
            Edits(1, 1, 1),
            Shows(1, READY, 1),
            Shows(1, Shown::Pending, 1),
        ]],
        Some((1, 3)),
    ),
    (
        &[&[
            Shows(1, Shown::NoSuchUnit, 0),
            Shows(1, Shown::Pending, 1),
            Shows(1, READY, 1),
            Shows(1, READY, 4),
            Shows(2, Shown::Pending, 4),
        ]],
        None,
    ),
    (
        &[&[Shows(1, READY, 1), Shows(1, Shown::Pending, 4)]],
        Some((1, 2)),
    ),
    // The picture of P1 isn't wanted while there is another text.
    (
        &[&[
            Shows(2, READY_P1, 2),
            Shows(2, Shown::Pending, 3),
            Shows(2, Shown::Pending, 4),
        ]],
        None,
    ),
    (
        &[&[Shows(2, READY_P1, 2), Shows(2, READY_P1, 3)]],
        Some((1, 2)),
    ),
    // What one book was shown says nothing of another.
    (
        &[&[Shows(1, READY, 1)], &[Shows(1, Shown::Pending, 1)]],
        None,
    ),
    // A length that goes back, or stays where an edit is noted.
    (&[&[Edits(2, 2, 2), Edits(1, 1, 1)]], Some((1, 2))),
    (&[&[Edits(2, 2, 2), Shows(1, READY, 1)]], Some((1, 2))),
    (&[&[Shows(1, READY, 2), Edits(2, 2, 2)]], Some((1, 2))),
    // One edit in two books.
    (&[&[Edits(1, 1, 1)], &[], &[Edits(1, 1, 1)]], Some((3, 1))),
    // Lengths that no edit has.
    (&[&[Edits(1, 1, 0)]], Some((1, 1))),
    (&[&[Shows(1, READY, 6)]], Some((1, 1))),
    (&[&[Edits(4, 2, 6)]], Some((1, 1))),
    // Another edit, another id, another picture.
    (&[&[], &[Edits(0, 1, 1)]], Some((2, 1))),
    (&[&[Edits(1, 2, 1)]], Some((1, 1))),
    (&[&[Shows(1, INVENTED, 1)]], Some((1, 1))),
    // Other answers than that a valid unit has a picture or waits.
    (&[&[Shows(1, FAULT, 1)]], Some((1, 1))),
    (&[&[Shows(1, Shown::NoSuchUnit, 1)]], Some((1, 1))),
    (&[&[Shows(2, Shown::Pending, 1)]], Some((1, 1))),
    // That a unit has no picture is shown of one without a slice, and of no other; and nothing else
    // is of that one.
    (&[&[Edits(5, 3, 5), Shows(3, Shown::Empty, 5)]], None),
    (&[&[Shows(3, Shown::Empty, 4)]], Some((1, 1))),
    (&[&[Shows(2, Shown::Empty, 5)]], Some((1, 1))),
    (&[&[Shows(3, Shown::Pending, 5)]], Some((1, 1))),
    (&[&[Shows(3, FAULT, 5)]], Some((1, 1))),
];

/// The receipt of a note.
fn receipt_of(note: Note) -> SeatReceipt {
    match note {
        Edits(number, id, length) => SeatReceipt::Edit {
            edit: edit_of(number),
            id: AuId::new(id),
            length,
        },
        Shows(id, shown, length) => SeatReceipt::Show {
            id: AuId::new(id),
            shown,
            length,
        },
        Drops(id, answer, length) => SeatReceipt::Drop {
            id: AuId::new(id),
            answer,
            length,
        },
    }
}

/// The book of notes.
fn book_of(alloc: Global, notes: &[Note]) -> Result<SeatBook, AllocError> {
    let mut receipts = Vec::new(alloc);
    for note in notes {
        receipts.push(receipt_of(*note))?;
    }
    Ok(SeatBook { receipts })
}

/// What an audit of the books by the session's journal answers, where the session began without units.
pub(super) fn audit_of(
    alloc: Global,
    session: &Session,
    books: &[SeatBook],
) -> Option<Result<(), AuditFault>> {
    if !session.began_without_units() {
        return None;
    }
    Some(audit(alloc, session.journal(), books))
}

/// The audit of the books of a row answers as the row says.
pub(super) fn is_audited(alloc: Global, session: &Session, row: &Row) -> Result<bool, AllocError> {
    let mut books = Vec::new(alloc);
    for notes in row.0 {
        books.push(book_of(alloc, *notes)?)?;
    }
    let wanted = match row.1 {
        None => Ok(()),
        Some((seat, number)) => Err(AuditFault::SeatDisagrees { seat, number }),
    };
    Ok(audit_of(alloc, session, &books) == Some(wanted))
}

/// A session with the five edits.
pub(super) fn session_of_five(rt: &(impl Abort + AllocGlobal)) -> Session {
    let mut session = empty_session(rt);
    for number in 1..6 {
        if session.edit(edit_of(number)).is_err() {
            panic!(rt; "an edit is refused");
        }
    }
    session
}

#[test]
fn audits_books_as_worked_out_by_hand(rt: HostRuntime) -> Result<(), Fail> {
    let session = session_of_five(&rt);
    for (row, books) in ROWS.iter().enumerate() {
        row_holds(&rt, row, is_audited(rt.alloc(), &session, books)?);
    }
    Ok(())
}
