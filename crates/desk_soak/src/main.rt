//! The program `desk_soak`: seats that edit and are shown units, drawn at random, and workers that
//! decode, each in a thread of its own at one desk. At the end the desk is finished, so that the
//! seats' books are held against the journal.
//!
//! `desk_soak SEATS WORKERS COMMANDS SEED` lets each seat draw so many commands and prints
//! `agreed`, or why not, which is a failure. tools/soak runs it at length; the gate runs it
//! briefly.
#![tactic(auto)]

mod load;
mod seats;
mod soak;

use load::Load;
use std::alloc::{AllocError, Global};
use std::io::Write;
use std::process::ExitCode;
use std::sync::Wait;
use std::thread::Threads;
use std::{env, io};

/// The words after the program's name.
fn words(rt: &HostRuntime) -> io::Result<Vec<String>> {
    let words = env::args(rt)?.skip(1).collect(rt.alloc())?;
    Ok(words)
}

/// What is printed of the load that the words ask for.
fn answer<R: Threads + Wait + Sync>(
    rt: &R,
    alloc: Global,
    words: io::Result<Vec<String>>,
) -> Result<&'static str, AllocError> {
    let Ok(words) = words else {
        return Err(AllocError);
    };
    match Load::read(&words) {
        Some(load) => soak::soak(rt, alloc, load),
        None => Ok("desk_soak SEATS WORKERS COMMANDS SEED, with 1 to 64 seats and as many workers"),
    }
}

fn main(rt: HostRuntime) -> ExitCode {
    let said = match answer(&rt, rt.alloc(), words(&rt)) {
        Ok(said) => said,
        Err(_) => "out of memory",
    };
    let is_printed = rt.stdout().write_all(said.as_bytes()).is_ok()
        && rt.stdout().write_all(b"\n").is_ok();
    if is_printed && said == soak::AGREED {
        ExitCode::SUCCESS
    } else {
        ExitCode::FAILURE
    }
}
