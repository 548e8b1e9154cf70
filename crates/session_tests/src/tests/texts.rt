//! What is said of refused edits and of sessions that aren't made: numbers and names as
//! docs/OUTPUT.md has them, and a text for who reads.

use super::row_holds;
use access_unit::Refused;
use stand_in_session::{ConfigFault, EditRefused, NoSuchUnit, NotOut, TakeRefused};
use std::test::Fail;

/// Each refusal of an edit with its number, its name and its text.
const REFUSALS: [(EditRefused, u8, &str, &str); 6] = [
    (
        EditRefused::Unit(Refused::Split),
        1,
        "Split",
        "the text doesn't split into units",
    ),
    (
        EditRefused::Unit(Refused::TwoPictures),
        13,
        "TwoPictures",
        "a second picture begins",
    ),
    (EditRefused::Memory, 15, "Memory", "out of memory"),
    (
        EditRefused::NoSuchUnit,
        16,
        "NoSuchUnit",
        "no unit has the id",
    ),
    (
        EditRefused::StreamFull,
        17,
        "StreamFull",
        "the stream has 65,536 units",
    ),
    (EditRefused::IdsSpent, 18, "IdsSpent", "all ids were given"),
];

#[test]
fn tells_refusals_of_edits(rt: HostRuntime) -> Result<(), Fail> {
    for (row, (refused, number, name, text)) in REFUSALS.iter().enumerate() {
        let told = format!(in rt.alloc(); "{refused}")?;
        let is_named = refused.number() == *number && refused.name() == *name;
        row_holds(&rt, row, is_named && told.as_str() == *text);
    }
    let none = format!(in rt.alloc(); "{NoSuchUnit}")?;
    assert!(rt; none.as_str() == "no unit has the id");
    Ok(())
}

/// Why no job is given though one is due, by number and text.
const TAKES: [(TakeRefused, u8, &str); 2] = [
    (TakeRefused::JobsSpent, 1, "all numbers of jobs were given"),
    (TakeRefused::Memory, 2, "out of memory"),
];

#[test]
fn tells_why_no_job_is_given(rt: HostRuntime) -> Result<(), Fail> {
    for (row, (refused, number, text)) in TAKES.iter().enumerate() {
        let told = format!(in rt.alloc(); "{refused}")?;
        let is_told = refused.number() == *number && told.as_str() == *text;
        row_holds(&rt, row, is_told);
    }
    let none = format!(in rt.alloc(); "{NotOut}")?;
    assert!(rt; none.as_str() == "no job of the number is out");
    Ok(())
}

/// Why no session is made, by number and text.
const FAULTS: [(ConfigFault, u8, &str); 2] = [
    (ConfigFault::Cache, 1, "Cache"),
    (ConfigFault::Memory, 2, "Memory"),
];

#[test]
fn tells_why_no_session_is_made(rt: HostRuntime) -> Result<(), Fail> {
    for (row, (fault, number, text)) in FAULTS.iter().enumerate() {
        let told = format!(in rt.alloc(); "{fault}")?;
        row_holds(
            &rt,
            row,
            fault.number() == *number && told.as_str() == *text,
        );
    }
    Ok(())
}
