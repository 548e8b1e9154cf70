//! The program `timed_calls`: calls of a session that are made again and again, as bench/calls.c
//! makes them through C.
//!
//! `timed_calls UNITS CALL TURNS` reads the file UNITS, which has the text of each unit after its
//! length of four bytes, lowest first, and inserts the units into a session. It makes a call up to
//! TURNS times, and prints how many of them were answered as they have to be. CALL is `job`,
//! `show`, `unit_request`, `edit` or `job_request`. bench/c times it; the gate runs it briefly.
#![tactic(auto)]

mod asked;
mod controls;
mod host;
mod units;

use anyhow::Result;
use asked::Asked;
use host::Host;
use std::{env, fs};

/// Makes the calls that the words after the program's name ask for; how many were answered as they
/// have to be.
fn made(rt: &HostRuntime) -> Result<u64> {
    let words: Vec<String> = env::args(rt)?.skip(1).collect(rt.alloc())?;
    let asked = Asked::read(&words)?;
    let file = fs::read(rt, asked.file)?;
    let units = units::units_in(rt.alloc(), &file)?;
    let mut host = Host::new(rt.alloc(), &units)?;
    host.make(asked.call, asked.turns)
}

fn main(rt: HostRuntime) -> Result<()> {
    let count = made(&rt)?;
    println!(rt; "{count}")?;
    Ok(())
}
