//! Replies to commands.

use crate::jobs::Dropping;
use crate::session::Shown;
use h264_types::pictures::AuId;
use picture_store::{Landing, Returning, TakeRefused};
use stream_edits::{EditRefused, GroupReceipt, GroupRefused, Receipt};
use stream_session::NoSuchUnit;
use thiserror::Error;
use unit_outcomes::Outcome;

/// What a command is answered, by the variant of the command's name.
#[derive(Debug, Drop)]
pub enum Reply {
    /// The edit's receipt, or why it is refused.
    Edit(Result<Receipt, EditRefused>),
    /// The group's receipt, or why it is refused.
    Group(Result<GroupReceipt, GroupRefused>),
    /// The unit's outcome.
    Unit(Result<UnitReport, NoSuchUnit>),
    /// The job, `None` where no picture is due, or that all numbers of jobs were given.
    Take(Result<Option<TakenJob>, TakeRefused>),
    /// The job, `None` where no needed unit is due, or that all numbers of jobs were given.
    TakeFor(Result<Option<TakenJob>, TakeRefused>),
    /// What became of the job's result.
    Land(Result<Landing, NotOut>),
    /// What became of the job.
    GiveBack(Result<Returning, NotOut>),
    /// What is shown of the unit.
    Show(Shown),
    /// What became of the unit's picture.
    Dropped(Dropping),
    /// No picture is cached any more.
    Cleared,
}

/// A job that is out, and its unit: the first of the stream, when the job was taken, that has the
/// job's key, or for a job that was taken for a unit the first of its needed units that has it.
#[derive(Clone, Copy, Debug, PartialEq, Eq)]
pub struct TakenJob {
    pub number: u64,
    pub unit: AuId,
}

/// A unit's outcome, and its position in output order where it is valid.
#[derive(Debug)]
pub struct UnitReport {
    pub outcome: Outcome,
    pub position: Option<usize>,
}

// By hand, so that whoever drops one is proved over one call.
impl Drop for UnitReport {
    fn drop(self) {
        let UnitReport {
            outcome: _,
            position: _,
        } = self;
    }
}

/// No job that is out has the number.
#[derive(Clone, Copy, Debug, PartialEq, Eq, Hash, Error)]
#[error("no job of the number is out")]
pub struct NotOut;
