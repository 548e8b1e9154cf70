//! The sentences of refusals.

ghost use Rattle.std.specs.Prelude.{◌≡◌};
ghost use Rattle.serve_requests.specs.Reasons.{edit_reason, group_reason, reason_of, stream_reason, unit_reason};

use crate::failure::CallRefusal;
use access_unit::{Refusal as StreamRefusal, Refused};
use stream_edits::{EditRefused, GroupRefused};

/// Why something is refused.
pub(crate) fn reason_of(refusal: CallRefusal) -> &'static str
    ensures { result.now ≡ reason_of refusal }
{
    match refusal {
        CallRefusal::Edit(refused) => edit_reason(refused),
        CallRefusal::Group(refused) => group_reason(refused),
        CallRefusal::Stream(refused) => stream_reason(refused),
        CallRefusal::Loading { refused, .. } => edit_reason(refused),
        CallRefusal::NoSuchUnit => "no unit has the id",
        CallRefusal::TooManyWanted => "more than 64 ids are wanted",
        CallRefusal::CannotRead => "the file can't be read",
        CallRefusal::JobsSpent => "all numbers of jobs were given",
        CallRefusal::CannotWrite => "the file can't be written",
        CallRefusal::NothingToUndo => "there is nothing to undo",
        CallRefusal::NothingToRedo => "there is nothing to redo",
        CallRefusal::Memory => "out of memory",
    }
}

/// Why an edit is refused.
fn edit_reason(refused: EditRefused) -> &'static str
    ensures { result.now ≡ edit_reason refused }
{
    match refused {
        EditRefused::Unit(refused) => unit_reason(refused),
        EditRefused::NoSuchUnit => "no unit has the id",
        EditRefused::StreamFull => "the stream has no room: 65,536 units are the most",
        EditRefused::IdsSpent => "all 4,294,967,295 ids were given",
        EditRefused::Memory => "out of memory",
    }
}

/// Why a group is refused.
fn group_reason(refused: GroupRefused) -> &'static str
    ensures { result.now ≡ group_reason refused }
{
    match refused {
        GroupRefused::Empty => "the group has no edit",
        GroupRefused::TooLarge => "the group has more than 1,024 edits",
        GroupRefused::Edit { refused, .. } => edit_reason(refused),
        GroupRefused::Memory => "out of memory",
    }
}

/// Why a stream is refused.
fn stream_reason(refusal: StreamRefusal) -> &'static str
    ensures { result.now ≡ stream_reason refusal }
{
    match refusal {
        StreamRefusal::Split => unit_reason(Refused::Split),
        StreamRefusal::Unit { refused, .. } => unit_reason(refused),
        StreamRefusal::StreamFull => edit_reason(EditRefused::StreamFull),
    }
}

/// Why an access unit is refused.
fn unit_reason(refused: Refused) -> &'static str
    ensures { result.now ≡ unit_reason refused }
{
    match refused {
        Refused::Split => {
            "the bytes don't begin with a start code, or a NAL unit is empty or has bytes that \
             none may have (B.1, 7.4.1)"
        }
        Refused::UnitType => {
            "a NAL unit is of a type that isn't read: data partitions, a subset SPS, a prefix, or \
             slices of other views or layers (table 7-1)"
        }
        Refused::ForbiddenBit => "forbidden_zero_bit of a NAL unit is 1: it is damaged (7.4.1)",
        Refused::Sps => "a sequence parameter set can't be read (7.3.2.1.1)",
        Refused::Pps => "a picture parameter set can't be read (7.3.2.2)",
        Refused::Switching =>
            "a slice is of type SP or SI, which the Extended profile alone has (7.4.3)",
        Refused::MixedIdr =>
            "slices of an IDR picture and of another one stand in one access unit (7.4.1.2.4)",
        Refused::IdrNotIntra => "an IDR picture has a P or B slice (7.4.3)",
        Refused::IdrNotReference => "an IDR picture has nal_ref_idc 0 (7.4.1)",
        Refused::MixedReference =>
            "nal_ref_idc is 0 in a slice of an access unit and not in another (7.4.1)",
        Refused::UnitOrder => "a NAL unit stands behind a slice that belongs before it (7.4.1.2.3)",
        Refused::TwoPictures => "a second picture begins in one access unit (7.4.1.2.3)",
        Refused::TooLarge => "an access unit has more than 4,194,304 bytes or 256 slices",
        Refused::Memory => "out of memory",
    }
}
