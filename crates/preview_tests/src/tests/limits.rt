//! As many units of a stream and lines of a script as there can be, and more.

use super::plans::is_planned;
use super::scripts::ends_as;
use super::{A, P1, repeated, row_holds};
use access_unit::{ReadFault, Refusal, read_units};
use bytes::Bytes;
use console_io::Status;
use std::alloc::{AllocError, Global};
use std::process::Abort;
use std::test::Fail;
use std::thread::Threads;

/// How many units are read of so many, where there is room for so many.
fn units_read(
    rt: &(impl Abort + AllocGlobal + Threads + Sync),
    count: u32,
    capacity: usize,
) -> Result<Result<usize, ReadFault>, AllocError> {
    let text = repeated(rt.alloc(), &P1, count)?;
    match read_units(rt, rt.alloc(), &Bytes::from_vec(text)?, capacity) {
        Ok(units) => Ok(Ok(units.len())),
        Err(fault) => Ok(Err(fault)),
    }
}

const FULL: Result<usize, ReadFault> = Err(ReadFault::Refused(Refusal::StreamFull));

/// How many units a stream has, for how many there is room, and what is read.
const ROOMS: [(u32, usize, Result<usize, ReadFault>); 9] = [
    (1, 0, FULL),
    (1, 1, Ok(1)),
    (2, 1, FULL),
    (16, 16, Ok(16)),
    (17, 16, FULL),
    (1_024, 1_024, Ok(1_024)),
    (1_025, 1_024, FULL),
    (65_536, 65_536, Ok(65_536)),
    (65_537, 65_536, FULL),
];

#[test]
fn reads_as_many_units_as_there_is_capacity_for(rt: HostRuntime) -> Result<(), Fail> {
    for (row, (count, capacity, read)) in ROOMS.iter().enumerate() {
        row_holds(&rt, row, units_read(&rt, *count, *capacity)? == *read);
    }
    Ok(())
}

/// The lines of so many units without parameter sets.
fn missing_sets(alloc: Global, count: u32) -> Result<String, AllocError> {
    let mut lines = String::new(alloc);
    for id in 1..=count {
        lines.writeln(format_args!("unit {id} fault 1 MissingPps"))?;
    }
    Ok(lines)
}

#[test]
fn plans_65_536_units(rt: HostRuntime) -> Result<(), Fail> {
    let text = repeated(rt.alloc(), &P1, 65_536)?;
    let lines = missing_sets(rt.alloc(), 65_536)?;
    assert!(rt; is_planned(&rt, &text, Status::Success, lines.as_bytes()));
    Ok(())
}

#[test]
fn refuses_more_units_than_65_536(rt: HostRuntime) -> Result<(), Fail> {
    let text = repeated(rt.alloc(), &A, 65_537)?;
    assert!(rt; is_planned(&rt, &text, Status::Failure, b"refused 17 StreamFull\n"));
    Ok(())
}

/// A script of so many lines is answered line by line, and one of as many lines and a wrong one
/// isn't run.
fn runs_lines(
    rt: &(impl Abort + AllocGlobal + Threads + Sync),
    count: u32,
    message: &str,
) -> Result<bool, AllocError> {
    let mut script = repeated(rt.alloc(), b"unit 7\n", count)?;
    let lines = repeated(rt.alloc(), b"unit 7 none\n", count)?;
    let runs = ends_as(rt, &script, &[], Status::Success, &lines, b"");
    script.extend_from_slice(b"unit\n")?;
    Ok(runs && ends_as(rt, &script, &[], Status::Failure, b"", message.as_bytes()))
}

/// How many lines a script has, and what is told of the wrong one after them.
const LINES: [(u32, &str); 7] = [
    (0, "script fault at line 1\n"),
    (15, "script fault at line 16\n"),
    (16, "script fault at line 17\n"),
    (1_024, "script fault at line 1025\n"),
    (65_535, "script fault at line 65536\n"),
    (65_536, "script fault at line 65537\n"),
    (100_000, "script fault at line 100001\n"),
];

#[test]
fn runs_scripts_of_many_lines(rt: HostRuntime) -> Result<(), Fail> {
    for (row, (count, message)) in LINES.iter().enumerate() {
        row_holds(&rt, row, runs_lines(&rt, *count, message)?);
    }
    Ok(())
}
