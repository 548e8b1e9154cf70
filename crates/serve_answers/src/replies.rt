//! What a session answers, as results.

ghost use Rattle.std.specs.Prelude.{◌≡◌, IfOk};
ghost use Rattle.serve_answers.specs.Replies.{drop_answer, edit_answer, give_back_answer, group_answer, land_answer, show_answer, state_of};

use crate::answer::{Answer, Appearance, UnitRange, UnitState};
use crate::words::{Digits, Word};
use serve_requests::{CallRefusal, Failure, Listed};
use stand_in_session::{
    Dropping, EditRefused, GroupReceipt, GroupRefused, Landing, NotOut, Receipt, Returning, Shown,
};
use std::alloc::{AllocError, Global};

/// The result of an edit.
pub fn of_edit(answer: Result<Receipt, EditRefused>) -> Result<Answer, Failure>
    ensures { result ≡ edit_answer answer }
{
    match answer {
        Ok(receipt) => Ok(Answer::Edited {
            edit: receipt.number,
            id: receipt.id.number(),
            steps: receipt.steps,
            changed: UnitRange::of(receipt.changed),
        }),
        Err(refused) => Err(Failure::Refused(CallRefusal::Edit(refused))),
    }
}

/// The result of a group of edits.
pub fn of_group(answer: Result<GroupReceipt, GroupRefused>) -> Result<Answer, Failure>
    ensures { result ≡ group_answer answer }
{
    match answer {
        Ok(receipt) => {
            let GroupReceipt {
                number,
                ids,
                steps,
                changed,
                ..
            } = receipt;
            Ok(Answer::Grouped {
                edit: number,
                ids: Listed::new(ids),
                steps,
                changed: UnitRange::of(changed),
            })
        }
        Err(refused) => Err(Failure::Refused(CallRefusal::Group(refused))),
    }
}

/// The result of what is shown of a unit.
pub fn of_show(alloc: Global, shown: Shown) -> Result<Result<Answer, Failure>, AllocError>
    ensures { IfOk result (λ answer. answer ≡ show_answer shown) }
{
    let appearance = match shown {
        Shown::Ready(picture) => Appearance::Ready {
            picture: Digits::of_picture(alloc, picture)?,
        },
        Shown::Pending => Appearance::Pending,
        Shown::Fault(fault) => Appearance::Fault {
            number: fault.number(),
            name: fault,
        },
        Shown::Empty => Appearance::Empty,
        Shown::NoSuchUnit => return Ok(Err(Failure::Refused(CallRefusal::NoSuchUnit))),
    };
    Ok(Ok(Answer::Shown(appearance)))
}

/// What is shown of a unit, unless it is a picture.
pub fn state_of(shown: Shown) -> Option<UnitState>
    ensures { result ≡ state_of shown }
{
    match shown {
        Shown::Ready(_) => None,
        Shown::Pending => Some(UnitState::Pending),
        Shown::Fault(fault) => Some(UnitState::Fault {
            number: fault.number(),
            name: fault,
        }),
        Shown::Empty => Some(UnitState::Empty),
        Shown::NoSuchUnit => Some(UnitState::None),
    }
}

/// The result of a picture that was to be dropped.
pub fn of_drop(answer: Dropping) -> Result<Answer, Failure>
    ensures { result ≡ drop_answer answer }
{
    match answer {
        Dropping::Dropped => Ok(Answer::Word(Word::Dropped)),
        Dropping::NotHeld => Ok(Answer::Word(Word::NotHeld)),
        Dropping::NoSuchUnit => Err(Failure::Refused(CallRefusal::NoSuchUnit)),
    }
}

/// The result of a job that landed.
pub fn of_land(answer: Result<Landing, NotOut>) -> Answer
    ensures { result ≡ land_answer answer }
{
    match answer {
        Ok(Landing::Taken) => Answer::Word(Word::Taken),
        Ok(Landing::Stale) => Answer::Word(Word::Stale),
        Ok(Landing::Foreign) | Err(NotOut) => Answer::Word(Word::None),
    }
}

/// The result of a job that was given back.
pub fn of_give_back(answer: Result<Returning, NotOut>) -> Answer
    ensures { result ≡ give_back_answer answer }
{
    match answer {
        Ok(Returning::Returned) => Answer::Word(Word::Back),
        Ok(Returning::Foreign) | Err(NotOut) => Answer::Word(Word::None),
    }
}
