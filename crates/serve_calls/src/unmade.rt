//! Why a session that may be kept in a journal doesn't make edits.

ghost use Rattle.std.specs.Prelude.{◌≡◌};
ghost use Rattle.stream_edits.specs.declared.refusals.EditRefused.TheVariants.{Memory};
ghost use Rattle.serve_calls.specs.declared.unmade.EditFault.TheVariants.{Refused as EditIsRefused, Unkept as EditIsUnkept};
ghost use Rattle.serve_calls.specs.declared.unmade.GroupFault.TheVariants.{Refused as GroupIsRefused, Unkept as GroupIsUnkept};
ghost use Rattle.serve_calls.specs.Unmade.{group_made_answer, made_answer, unkept_failure};

use serve_answers::{Answer, of_edit, of_group};
use serve_requests::{CallRefusal, Failure};
use session_journal::Unkept;
use stand_in_session::{EditRefused, GroupReceipt, GroupRefused, Receipt};
use std::alloc::AllocError;

/// Why an edit isn't made.
#[derive(Clone, Copy, Debug, PartialEq, Eq)]
pub enum EditFault {
    /// The stream refuses it, or memory ran out.
    Refused(EditRefused),
    /// It isn't recorded.
    Unkept(Unkept),
}

impl From<EditRefused> for EditFault {
    ghost from_gives = { λ refused fault. fault ≡ EditIsRefused refused };

    fn from(refused: EditRefused) -> EditFault {
        EditFault::Refused(refused)
    }
}

impl From<AllocError> for EditFault {
    ghost from_gives = { λ _ fault. fault ≡ EditIsRefused Memory };

    fn from(_e: AllocError) -> EditFault {
        EditFault::Refused(EditRefused::Memory)
    }
}

impl From<Unkept> for EditFault {
    ghost from_gives = { λ why fault. fault ≡ EditIsUnkept why };

    fn from(why: Unkept) -> EditFault {
        EditFault::Unkept(why)
    }
}

/// Why edits aren't made together.
#[derive(Clone, Copy, Debug, PartialEq, Eq)]
pub enum GroupFault {
    /// The stream refuses one of them, or memory ran out.
    Refused(GroupRefused),
    /// They aren't recorded.
    Unkept(Unkept),
}

impl From<GroupRefused> for GroupFault {
    ghost from_gives = { λ refused fault. fault ≡ GroupIsRefused refused };

    fn from(refused: GroupRefused) -> GroupFault {
        GroupFault::Refused(refused)
    }
}

impl From<Unkept> for GroupFault {
    ghost from_gives = { λ why fault. fault ≡ GroupIsUnkept why };

    fn from(why: Unkept) -> GroupFault {
        GroupFault::Unkept(why)
    }
}

/// The failure of what isn't recorded.
pub(crate) fn unkept_failure(why: Unkept) -> Failure
    ensures { result ≡ unkept_failure why }
{
    match why {
        Unkept::Unwritten => Failure::Refused(CallRefusal::CannotWrite),
        Unkept::Memory => OUT_OF_MEMORY,
    }
}

/// The result of an edit.
pub(crate) fn of_made(answer: Result<Receipt, EditFault>) -> Result<Answer, Failure>
    ensures { result ≡ made_answer answer }
{
    match answer {
        Ok(receipt) => of_edit(Ok(receipt)),
        Err(EditFault::Refused(refused)) => of_edit(Err(refused)),
        Err(EditFault::Unkept(why)) => Err(unkept_failure(why)),
    }
}

/// The result of a group of edits.
pub(crate) fn of_group_made(answer: Result<GroupReceipt, GroupFault>) -> Result<Answer, Failure>
    ensures { result ≡ group_made_answer answer }
{
    match answer {
        Ok(receipt) => of_group(Ok(receipt)),
        Err(GroupFault::Refused(refused)) => of_group(Err(refused)),
        Err(GroupFault::Unkept(why)) => Err(unkept_failure(why)),
    }
}

/// That memory ran out.
pub const OUT_OF_MEMORY: Failure = Failure::Refused(CallRefusal::Memory);
