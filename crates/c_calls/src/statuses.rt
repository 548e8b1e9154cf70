//! The numbers that calls answer, beside those of refusals that edits have.

/// The call did what it says.
pub const DONE: u32 = 0;
/// A growth of memory was refused.
pub const MEMORY: u32 = 15;
/// No unit has the id.
pub const NO_SUCH_UNIT: u32 = 16;
/// The handle has no session.
pub const NO_SESSION: u32 = 100;
/// The handle has a session already.
pub const IS_OPEN: u32 = 101;
/// The room of the cache is out of its range.
pub const CACHE_RANGE: u32 = 102;
/// What the caller gives has no room for what is asked.
pub const TOO_SMALL: u32 = 103;
/// No unit stands at the place, no edit of the journal has the index, or no reference of a job has
/// it.
pub const NO_SUCH_PLACE: u32 = 104;
/// No job of the number is out.
pub const NO_SUCH_JOB: u32 = 105;
/// The picture has no slice of the index.
pub const NO_SUCH_SLICE: u32 = 106;
/// The unit isn't valid.
pub const NOT_VALID: u32 = 107;
/// No picture is due.
pub const NOTHING_DUE: u32 = 108;
/// All numbers of jobs were given.
pub const JOBS_SPENT: u32 = 109;
/// The result of a job is wanted no more.
pub const STALE: u32 = 110;
/// The unit isn't valid, or its picture isn't held.
pub const NOT_HELD: u32 = 111;
/// The unit is valid, and its picture isn't held.
pub const PENDING: u32 = 112;
/// The unit has a fault.
pub const HAS_FAULT: u32 = 113;
/// The unit has no slice, so that it has no picture.
pub const NO_PICTURE: u32 = 114;
/// An edit of a group is of no kind, or its text isn't within the bytes.
pub const NOT_AN_EDIT: u32 = 115;
/// The slice has no weight table.
pub const NO_WEIGHTS: u32 = 116;
/// No status or fault has the number.
pub const NO_SUCH_NAME: u32 = 117;
/// Without start codes a picture of several slices has no bytes.
pub const SEVERAL_SLICES: u32 = 118;
