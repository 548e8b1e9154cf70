//! Results.

ghost use Rattle.std.specs.Prelude.{◌≡◌};
ghost use Rattle.serve_answers.specs.Replies.{range_of};

use crate::introduction::Introduction;
use crate::job_answers::JobAnswer;
use crate::journal_answers::EntryAnswer;
use crate::left_out_answers::LeftOutAnswer;
use crate::unit_answers::UnitAnswer;
use crate::words::{Digits, Word};
use h264_types::pictures::AuId;
use serde::{Serialize, Serializer};
use serve_requests::Listed;
use stand_in_session::Changed;
use unit_outcomes::ValidityFault;

/// The result of a call.
#[derive(Debug, Drop, Serialize)]
#[serde(untagged)]
pub enum Answer {
    /// What the server is, and what it takes.
    Initialized(Introduction),
    /// How many units were inserted, the ids of the first and the last of them, where they stand, and
    /// what was left out of their stream if it was mended.
    Loaded {
        units: usize,
        first: Option<u32>,
        last: Option<u32>,
        changed: UnitRange,
        #[serde(skip_serializing_if = "Option::is_none")]
        left_out: Option<Listed<LeftOutAnswer>>,
    },
    /// How many units were saved, and how many bytes they have.
    Saved {
        units: usize,
        bytes: u64,
    },
    /// The number of an edit, the id of its unit, in how many steps of the fold it was made, and which
    /// units it changed.
    Edited {
        edit: u64,
        id: u32,
        steps: u64,
        changed: UnitRange,
    },
    /// The number of a group, the ids of its edits' units, in how many steps of the fold it was made,
    /// and which units it changed.
    Grouped {
        edit: u64,
        #[serde(serialize_with = "write_ids")]
        ids: Listed<AuId>,
        steps: u64,
        changed: UnitRange,
    },
    /// The outcomes of units.
    Units(Listed<UnitAnswer>),
    /// The text of a unit, as base64.
    Text {
        bytes: Digits,
    },
    /// The unit at an output position, if there is one.
    FoundUnit(Option<FoundUnit>),
    /// What is shown of a unit.
    Shown(Appearance),
    /// Which wanted units are ready, and which there are none of now.
    Wanted {
        ready: Listed<Picked>,
        not_now: Listed<u64>,
    },
    /// What became of a picture or a job.
    Word(Word),
    /// A job, if a picture was due.
    Job(Option<JobAnswer>),
    /// Accepted edits.
    Journal(Listed<EntryAnswer>),
    /// How much there is.
    Stats(Stats),
    /// Null.
    Nothing,
}

/// A range of places.
#[derive(Clone, Copy, Debug, PartialEq, Eq, Serialize)]
pub struct UnitRange {
    /// The first place, from 0; 0 where there is none.
    pub from: u64,
    pub count: u64,
}

impl UnitRange {
    /// The range that an edit changed.
    pub(crate) fn of(changed: Changed) -> UnitRange
        ensures { result ≡ range_of changed }
    {
        UnitRange {
            from: changed.from,
            count: changed.count,
        }
    }
}

/// The unit at an output position.
#[derive(Clone, Copy, Debug, PartialEq, Eq, Serialize)]
pub struct FoundUnit {
    pub id: u32,
    /// Its place in decoding order.
    pub place: usize,
}

/// What is shown of a unit.
#[derive(Debug, Drop, Serialize)]
#[serde(tag = "state", rename_all = "snake_case")]
pub enum Appearance {
    Ready {
        picture: Digits,
    },
    Pending,
    Fault {
        number: u8,
        #[serde(serialize_with = "write_fault_name")]
        name: ValidityFault,
    },
    Empty,
}

/// A wanted unit that is ready.
#[derive(Debug, Drop, Serialize)]
pub struct Picked {
    pub id: u64,
    pub picture: Digits,
}

/// A wanted unit that an edit changed, with what is shown of it, unless there is none.
#[derive(Debug, Drop, Serialize)]
pub struct ChangedUnit {
    pub id: u64,
    #[serde(flatten)]
    pub state: UnitState,
}

/// What is shown of a unit without a picture, or that there is no unit.
#[derive(Clone, Copy, Debug, PartialEq, Eq, Serialize)]
#[serde(tag = "state", rename_all = "snake_case")]
pub enum UnitState {
    Pending,
    Fault {
        number: u8,
        #[serde(serialize_with = "write_fault_name")]
        name: ValidityFault,
    },
    Empty,
    None,
}

/// How much there is of what the server keeps.
#[derive(Clone, Copy, Debug, PartialEq, Eq, Serialize)]
pub struct Stats {
    pub units: usize,
    /// A group is one.
    pub edits: usize,
    /// Keys whose pictures are held, and those whose pictures are cached.
    pub held: usize,
    pub cached: usize,
    pub jobs_out: usize,
    /// The sum of all receipts'.
    pub steps: u64,
    /// Of the texts that the session keeps.
    pub bytes: u64,
}

fn write_ids<S: Serializer>(ids: &Listed<AuId>, out: &mut S) -> Result<(), S::Error> {
    out.begin_seq(Some(ids.as_slice().len()))?;
    for id in ids.as_slice() {
        id.number().serialize(out)?;
    }
    out.end_seq()
}

fn write_fault_name<S: Serializer>(fault: &ValidityFault, out: &mut S) -> Result<(), S::Error> {
    fault.name().serialize(out)
}
