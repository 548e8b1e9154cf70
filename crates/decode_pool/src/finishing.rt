//! The end of a desk.

ghost use Rattle.std.specs.Prelude.{◌≡◌, IfErr, IfOk, OnOk, option_map};
ghost use Rattle.decode_pool.specs.Jobs.{JobsDiffer};
ghost use Rattle.decode_pool.specs.Finishing.{IsFault, IsFinished, IsRefusal, Tells, TellsAudit, copied};
ghost use Rattle.decode_pool.specs.declared.faults.FinishFault.TheVariants.{Memory};

use crate::desk::DeskOf;
use crate::faults::{FinishFault, Unfinished};
use crate::gathering::{are_all_noted, are_numbered, books_of};
use crate::seat::Seat;
use crate::stand_in::Desk;
use seat_books::{AuditFault, audit, copy_of_entry};
use stand_in_session::{JournalEntry, Session};
use std::alloc::{AllocError, Global};
use std::sync::Mutex;

/// Why a desk isn't finished, and the journal of which that is said.
#[derive(Drop)]
struct Refusal {
    cause: FinishFault,
    journal: Option<Vec<JournalEntry>>,
}

impl From<AllocError> for Refusal {
    ghost from_gives = { λ _ refusal. refusal.cause ≡ Memory };

    fn from(_: AllocError) -> Refusal {
        Refusal {
            cause: FinishFault::Memory,
            journal: None,
        }
    }
}

/// Ends a desk. Its session is handed out where the seats are those that the desk was opened with
/// and their books bear out the session's journal: each receipt agrees with it, and each of its
/// edits and groups stands in one book. Else all that was handed in is handed back. A seat of
/// another desk is known by its number and its book alone.
pub fn finish(alloc: Global, desk: Desk, seats: Vec<Seat>) -> Result<Session, Unfinished>
    ensures ok { IfOk result (λ session. IsFinished desk.seats seats.items session.journal) }
    ensures jobs { IfOk result JobsDiffer }
    ensures err { IfErr result (λ unfinished. IsFault desk.seats seats.items unfinished.cause
        (option_map (λ copy. copy.items) unfinished.journal)) }
    ensures seats { IfErr result (λ unfinished. unfinished.seats ≡ seats) }
    ensures desk { IfErr result (λ unfinished. (unfinished.desk.seats ≡ desk.seats)
        × (unfinished.desk.workers ≡ desk.workers) × (unfinished.desk.cache ≡ desk.cache)) }
{
    let DeskOf {
        state,
        job_due,
        settled,
        changed,
        cache,
        workers,
        seats: opened,
    } = desk;
    let state = state.into_inner();
    match look_through(alloc, opened, &seats, state.session()) {
        Ok(()) => Ok(state.into_session()),
        Err(refusal) => Err(Unfinished {
            desk: DeskOf {
                state: Mutex::new(state),
                job_due,
                settled,
                changed,
                cache,
                workers,
                seats: opened,
            },
            seats,
            cause: refusal.cause,
            journal: refusal.journal,
        }),
    }
}

/// Whether the seats are those that were opened, and their books bear out the session's journal.
fn look_through(
    alloc: Global,
    opened: usize,
    seats: &[Seat],
    session: &Session,
) -> Result<(), Refusal>
    ensures ok { OnOk result (IsFinished opened seats.now session.now.journal) }
    ensures err { IfErr result (IsRefusal opened seats.now) }
{
    if !are_numbered(seats, opened) {
        return Err(Refusal {
            cause: FinishFault::SeatMissing,
            journal: None,
        });
    }
    if !session.began_without_units() {
        return Err(Refusal {
            cause: FinishFault::NotAudited,
            journal: None,
        });
    }
    let books = books_of(alloc, seats, opened)?;
    let journal = session.journal();
    if let Err(fault) = audit(alloc, journal, &books) {
        return Err(refusal_of(fault, copy_of(alloc, journal)));
    }
    let are_noted = are_all_noted(alloc, journal, &books)?;
    if !are_noted {
        return Err(with_journal(FinishFault::SeatMissing, copy_of(alloc, journal)));
    }
    Ok(())
}

/// Why a desk isn't finished whose books don't pass their audit, with this copy of the journal of
/// which that is said.
fn refusal_of(fault: AuditFault, copy: Result<Vec<JournalEntry>, AllocError>) -> Refusal
    ensures { TellsAudit fault (copied (λ it. it.items) copy) result }
{
    match fault {
        AuditFault::SeatDisagrees { seat, number } => {
            with_journal(FinishFault::SeatDisagrees { seat, number }, copy)
        }
        AuditFault::Memory => Refusal::from(AllocError),
    }
}

/// Why a desk isn't finished, with this copy of the journal of which that is said; or that there
/// was no memory for it.
fn with_journal(cause: FinishFault, copy: Result<Vec<JournalEntry>, AllocError>) -> Refusal
    ensures { Tells cause (copied (λ it. it.items) copy) result }
{
    match copy {
        Ok(journal) => Refusal {
            cause,
            journal: Some(journal),
        },
        Err(wanted) => Refusal::from(wanted),
    }
}

/// The entries once more.
fn copy_of(alloc: Global, journal: &[JournalEntry]) -> Result<Vec<JournalEntry>, AllocError>
    ensures { IfOk result (λ copy. copy.items ≡ journal.now) }
{
    let mut copy = Vec::with_capacity(alloc, journal.len())?;
    for entry in journal {
        copy.push(copy_of_entry(alloc, entry)?)?;
    }
    Ok(copy)
}
