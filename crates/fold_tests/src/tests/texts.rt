//! What is said of refusals and faults: numbers and names as docs/OUTPUT.md has them, and a text
//! for who reads.

use super::row_holds;
use access_unit::{ReadFault, Refusal, Refused, StreamRefused};
use std::test::Fail;
use unit_outcomes::ValidityFault;

/// Each fault of a unit with its number, its name and its text.
const FAULTS: [(ValidityFault, u8, &str, &str); 18] = [
    (
        ValidityFault::MissingPps,
        1,
        "MissingPps",
        "a slice names a picture parameter set that wasn't sent",
    ),
    (
        ValidityFault::MissingSps,
        2,
        "MissingSps",
        "a sequence parameter set that is named wasn't sent",
    ),
    (
        ValidityFault::HeaderCut,
        3,
        "HeaderCut",
        "a slice header runs past its payload",
    ),
    (
        ValidityFault::HeaderValue,
        4,
        "HeaderValue",
        "a field of a slice header is out of its range",
    ),
    (
        ValidityFault::Redundant,
        5,
        "Redundant",
        "a slice is redundant",
    ),
    (
        ValidityFault::SliceOrder,
        6,
        "SliceOrder",
        "first_mb_in_slice isn't 0 at first, or doesn't rise",
    ),
    (
        ValidityFault::SliceMismatch,
        7,
        "SliceMismatch",
        "slices differ in what they have to share",
    ),
    (
        ValidityFault::NoIdr,
        8,
        "NoIdr",
        "no IDR picture came before",
    ),
    (
        ValidityFault::SpsChange,
        9,
        "SpsChange",
        "the sequence parameter set isn't that of the last IDR picture",
    ),
    (
        ValidityFault::IdrFrameNum,
        10,
        "IdrFrameNum",
        "the frame_num of an IDR picture isn't 0",
    ),
    (
        ValidityFault::FrameNumGap,
        11,
        "FrameNumGap",
        "frame_num is neither the last one nor the next",
    ),
    (
        ValidityFault::FrameNumRepeat,
        12,
        "FrameNumRepeat",
        "frame_num is that of another reference picture",
    ),
    (
        ValidityFault::OrderRange,
        13,
        "OrderRange",
        "a picture order count is out of its range",
    ),
    (
        ValidityFault::OrderTie,
        14,
        "OrderTie",
        "two pictures have one picture order count",
    ),
    (
        ValidityFault::NoReference,
        15,
        "NoReference",
        "there is no frame to refer to",
    ),
    (
        ValidityFault::BadModification,
        16,
        "BadModification",
        "a command of a reference list names no frame",
    ),
    (
        ValidityFault::BadMarking,
        17,
        "BadMarking",
        "the reference marking can't be carried out",
    ),
    (
        ValidityFault::TooManyReferences,
        18,
        "TooManyReferences",
        "more frames are marked than the sequence parameter set allows",
    ),
];

#[test]
fn tells_faults_of_units(rt: HostRuntime) -> Result<(), Fail> {
    for (row, (fault, number, name, text)) in FAULTS.iter().enumerate() {
        let told = format!(in rt.alloc(); "{fault}")?;
        let is_named = fault.number() == *number && fault.name() == *name;
        row_holds(&rt, row, is_named && told.as_str() == *text);
    }
    Ok(())
}

/// Each refusal of a unit's text with its number, its name and its text.
const REFUSALS: [(Refused, u8, &str, &str); 14] = [
    (
        Refused::Split,
        1,
        "Split",
        "the text doesn't split into units",
    ),
    (Refused::UnitType, 2, "UnitType", "a unit's type isn't read"),
    (
        Refused::ForbiddenBit,
        3,
        "ForbiddenBit",
        "a unit's forbidden_zero_bit is 1",
    ),
    (
        Refused::Sps,
        4,
        "Sps",
        "a sequence parameter set can't be read",
    ),
    (
        Refused::Pps,
        5,
        "Pps",
        "a picture parameter set can't be read",
    ),
    (
        Refused::Switching,
        6,
        "Switching",
        "a slice is of type SP or SI",
    ),
    (
        Refused::MixedIdr,
        7,
        "MixedIdr",
        "slices of IDR pictures and of others are mixed",
    ),
    (
        Refused::IdrNotIntra,
        8,
        "IdrNotIntra",
        "a slice of an IDR picture isn't intra",
    ),
    (
        Refused::IdrNotReference,
        9,
        "IdrNotReference",
        "an IDR picture isn't a reference",
    ),
    (
        Refused::MixedReference,
        10,
        "MixedReference",
        "slices of references and of others are mixed",
    ),
    (
        Refused::UnitOrder,
        11,
        "UnitOrder",
        "a unit stands behind a slice that belongs before it",
    ),
    (
        Refused::TwoPictures,
        13,
        "TwoPictures",
        "a second picture begins",
    ),
    (Refused::TooLarge, 14, "TooLarge", "the unit is too large"),
    (Refused::Memory, 15, "Memory", "out of memory"),
];

#[test]
fn tells_refusals_of_units(rt: HostRuntime) -> Result<(), Fail> {
    for (row, (refused, number, name, text)) in REFUSALS.iter().enumerate() {
        let told = format!(in rt.alloc(); "{refused}")?;
        let is_named = refused.number() == *number && refused.name() == *name;
        row_holds(&rt, row, is_named && told.as_str() == *text);
    }
    Ok(())
}

/// Refusals of a stream, with their numbers and their texts.
const STREAMS: [(StreamRefused, u8, &str); 3] = [
    (StreamRefused::Split, 1, "the text doesn't split into units"),
    (
        StreamRefused::Unit {
            index: 65_535,
            refused: Refused::TooLarge,
        },
        2,
        "unit 65535: the unit is too large",
    ),
    (StreamRefused::Memory, 3, "out of memory"),
];

#[test]
fn tells_refusals_of_streams(rt: HostRuntime) -> Result<(), Fail> {
    for (row, (refused, number, text)) in STREAMS.iter().enumerate() {
        let told = format!(in rt.alloc(); "{refused}")?;
        row_holds(
            &rt,
            row,
            refused.number() == *number && told.as_str() == *text,
        );
    }
    Ok(())
}

/// Refusals of a stream for which there is room or not, with their texts.
const READ: [(ReadFault, &str); 4] = [
    (
        ReadFault::Refused(Refusal::Split),
        "the text doesn't split into units",
    ),
    (
        ReadFault::Refused(Refusal::Unit {
            index: 10,
            refused: Refused::UnitType,
        }),
        "unit 10: a unit's type isn't read",
    ),
    (
        ReadFault::Refused(Refusal::StreamFull),
        "the stream has more units than there is room for",
    ),
    (ReadFault::Memory, "out of memory"),
];

#[test]
fn tells_why_no_stream_is_read(rt: HostRuntime) -> Result<(), Fail> {
    for (row, (fault, text)) in READ.iter().enumerate() {
        let told = format!(in rt.alloc(); "{fault}")?;
        row_holds(&rt, row, told.as_str() == *text);
    }
    Ok(())
}
