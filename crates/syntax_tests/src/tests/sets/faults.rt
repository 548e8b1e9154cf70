use super::*;
use std::test::Fail;

/// Each fault with its number and its text.
const TOLD: [(SetFault, u8, &str); 8] = [
    (SetFault::Cut, 1, "the payload ends within a field"),
    (
        SetFault::Range {
            field: SetField::SpsId,
        },
        2,
        "SpsId is out of its range",
    ),
    (SetFault::Profile, 3, "a profile that isn't known"),
    (SetFault::Chroma444, 4, "chroma format 4:4:4"),
    (SetFault::Interlaced, 5, "interlaced coding"),
    (SetFault::SliceGroups, 6, "several slice groups"),
    (SetFault::RefFrames, 7, "more than 16 reference frames"),
    (SetFault::Memory, 8, "out of memory"),
];

/// Each field that has a range with what is said where it is out of it.
const RANGES: [(SetField, &str); 17] = [
    (SetField::SpsId, "SpsId is out of its range"),
    (SetField::ChromaFormat, "ChromaFormat is out of its range"),
    (SetField::BitDepth, "BitDepth is out of its range"),
    (SetField::FrameNumBits, "FrameNumBits is out of its range"),
    (SetField::CountType, "CountType is out of its range"),
    (SetField::CountBits, "CountBits is out of its range"),
    (SetField::CycleLength, "CycleLength is out of its range"),
    (SetField::Offset, "Offset is out of its range"),
    (SetField::Width, "Width is out of its range"),
    (SetField::Height, "Height is out of its range"),
    (SetField::PpsId, "PpsId is out of its range"),
    (SetField::ActiveCount, "ActiveCount is out of its range"),
    (SetField::BipredIdc, "BipredIdc is out of its range"),
    (SetField::InitQp, "InitQp is out of its range"),
    (SetField::InitQs, "InitQs is out of its range"),
    (SetField::ChromaOffset, "ChromaOffset is out of its range"),
    (SetField::Delta, "Delta is out of its range"),
];

#[test]
fn tells_faults(rt: HostRuntime) -> Result<(), Fail> {
    for (row, (fault, number, text)) in TOLD.iter().enumerate() {
        let told = format!(in rt.alloc(); "{fault}")?;
        row_holds(
            &rt,
            row,
            fault.number() == *number && told.as_str() == *text,
        );
    }
    Ok(())
}

#[test]
fn tells_fields_out_of_range(rt: HostRuntime) -> Result<(), Fail> {
    for (row, (field, text)) in RANGES.iter().enumerate() {
        let fault = SetFault::Range { field: *field };
        let told = format!(in rt.alloc(); "{fault}")?;
        row_holds(&rt, row, fault.number() == 2 && told.as_str() == *text);
    }
    Ok(())
}
