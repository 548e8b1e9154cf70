//! The names of statuses, of faults and of reasons why bytes are left out, and the version.

ghost use Rattle.std.specs.Prelude.{◌≡◌, codes, None, Some, MatchOption, string_bytes};
ghost use Rattle.c_calls.specs.Filling.{Fills};
ghost use Rattle.c_calls.specs.Names.{FillsName, answers, faults, name_in, name_of_status, refusals, whys};

use crate::statuses::NO_SUCH_NAME;
use crate::telling::fill;

/// Writes the name of a status.
pub fn status_name(status: u32, name: &mut [u8], needed: &mut usize) -> u32
    ensures { FillsName (name_of_status status) result name.old name.new needed.old needed.new }
{
    match named_status(status) {
        Some(text) => fill(text.as_bytes(), name, needed),
        None => NO_SUCH_NAME,
    }
}

/// The name of a status.
fn named_status(status: u32) -> Option<&'static str>
    ensures { MatchOption result (name_of_status status ≡ None)
        (λ name. name_of_status status ≡ Some name.now) }
{
    match named_refusal(status) {
        Some(name) => Some(name),
        None => named_answer(status),
    }
}

/// The name of a refusal, or of what isn't refused.
fn named_refusal(status: u32) -> Option<&'static str>
    ensures { MatchOption result (name_in refusals status ≡ None)
        (λ name. name_in refusals status ≡ Some name.now) }
{
    match status {
        0 => Some("Done"),
        1 => Some("Split"),
        2 => Some("UnitType"),
        3 => Some("ForbiddenBit"),
        4 => Some("Sps"),
        5 => Some("Pps"),
        6 => Some("Switching"),
        7 => Some("MixedIdr"),
        8 => Some("IdrNotIntra"),
        9 => Some("IdrNotReference"),
        10 => Some("MixedReference"),
        11 => Some("UnitOrder"),
        13 => Some("TwoPictures"),
        14 => Some("TooLarge"),
        15 => Some("Memory"),
        16 => Some("NoSuchUnit"),
        17 => Some("StreamFull"),
        18 => Some("IdsSpent"),
        20 => Some("EmptyGroup"),
        21 => Some("GroupTooLarge"),
        _ => None,
    }
}

/// The name of what only this interface answers.
fn named_answer(status: u32) -> Option<&'static str>
    ensures { MatchOption result (name_in answers status ≡ None)
        (λ name. name_in answers status ≡ Some name.now) }
{
    match status {
        100 => Some("NoSession"),
        101 => Some("IsOpen"),
        102 => Some("CacheRange"),
        103 => Some("TooSmall"),
        104 => Some("NoSuchPlace"),
        105 => Some("NoSuchJob"),
        106 => Some("NoSuchSlice"),
        107 => Some("NotValid"),
        108 => Some("NothingDue"),
        109 => Some("JobsSpent"),
        110 => Some("Stale"),
        111 => Some("NotHeld"),
        112 => Some("Pending"),
        113 => Some("HasFault"),
        114 => Some("NoPicture"),
        115 => Some("NotAnEdit"),
        116 => Some("NoWeights"),
        117 => Some("NoSuchName"),
        118 => Some("SeveralSlices"),
        _ => None,
    }
}

/// Writes the name of a fault.
pub fn fault_name(fault: u32, name: &mut [u8], needed: &mut usize) -> u32
    ensures { FillsName (name_in faults fault) result name.old name.new needed.old needed.new }
{
    match named_fault(fault) {
        Some(text) => fill(text.as_bytes(), name, needed),
        None => NO_SUCH_NAME,
    }
}

/// The name of a fault.
fn named_fault(fault: u32) -> Option<&'static str>
    ensures { MatchOption result (name_in faults fault ≡ None)
        (λ name. name_in faults fault ≡ Some name.now) }
{
    match fault {
        1 => Some("MissingPps"),
        2 => Some("MissingSps"),
        3 => Some("HeaderCut"),
        4 => Some("HeaderValue"),
        5 => Some("Redundant"),
        6 => Some("SliceOrder"),
        7 => Some("SliceMismatch"),
        8 => Some("NoIdr"),
        9 => Some("SpsChange"),
        10 => Some("IdrFrameNum"),
        11 => Some("FrameNumGap"),
        12 => Some("FrameNumRepeat"),
        13 => Some("OrderRange"),
        14 => Some("OrderTie"),
        15 => Some("NoReference"),
        16 => Some("BadModification"),
        17 => Some("BadMarking"),
        18 => Some("TooManyReferences"),
        _ => None,
    }
}

/// Writes the name of a reason why bytes are left out of a text that is mended.
pub fn why_name(why: u32, name: &mut [u8], needed: &mut usize) -> u32
    ensures { FillsName (name_in whys why) result name.old name.new needed.old needed.new }
{
    match named_why(why) {
        Some(text) => fill(text.as_bytes(), name, needed),
        None => NO_SUCH_NAME,
    }
}

/// The name of such a reason.
fn named_why(why: u32) -> Option<&'static str>
    ensures { MatchOption result (name_in whys why ≡ None)
        (λ name. name_in whys why ≡ Some name.now) }
{
    match why {
        1 => Some("NotNalUnit"),
        2 => Some("Empty"),
        3 => Some("ForbiddenBytes"),
        4 => Some("ForbiddenBit"),
        5 => Some("UnitType"),
        6 => Some("UnreadSps"),
        7 => Some("UnreadPps"),
        8 => Some("Switching"),
        9 => Some("IdrNotIntra"),
        10 => Some("IdrNotReference"),
        11 => Some("TooLarge"),
        _ => None,
    }
}

/// The version: a million times the major number, a thousand times the minor one, and the patch.
pub fn version() -> u32
    ensures { result ≡ 3000 }
{
    3_000
}

/// Writes the version as text.
pub fn version_text(text: &mut [u8], needed: &mut usize) -> u32
    ensures { Fills (codes "0.3.0") result text.old text.new needed.new }
{
    fill("0.3.0".as_bytes(), text, needed)
}
