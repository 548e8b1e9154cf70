ghost use Rattle.std.specs.Prelude.{◌≡◌, IfOk};
ghost use Rattle.stream_session.specs.Machines.{empty};

mod acts;
mod folding;
mod groups;
mod lost;
mod marks;
mod middle;
mod reading;
mod runs;
mod seen;
mod sessions;
mod starved;
mod streams;

use session_builders::EditRow;
use stand_in_session::{Config, ConfigFault, Runner, Session};
use std::alloc::Global;
use std::process::Abort;

/// Asserts what a row of a table says.
fn row_holds(rt: &impl Abort, row: usize, holds: bool) {
    assert!(rt; holds, "row {row}");
}

/// A session with an empty stream, where there is memory for one.
fn new_session(alloc: Global) -> Result<Session, ConfigFault>
    ensures { IfOk result (λ session. session ≡ empty 64) }
{
    Session::new(alloc, Config { cache: 64 })
}

/// A session with an empty stream, made again where memory runs out.
fn empty_session(rt: &(impl Abort + AllocGlobal)) -> Session
    ensures { result ≡ empty 64 }
{
    match new_session(rt.alloc()) {
        Ok(session) => session,
        Err(_) => match new_session(rt.alloc()) {
            Ok(session) => session,
            Err(_) => panic!(rt; "no session is made"),
        },
    }
}

/// A runner with an empty stream, where there is memory for one.
fn new_runner(alloc: Global) -> Result<Runner, ConfigFault>
    ensures { IfOk result (λ runner. runner ≡ empty 64) }
{
    Runner::new(alloc, Config { cache: 64 })
}

/// A runner with an empty stream, made again where memory runs out.
fn empty_runner(rt: &(impl Abort + AllocGlobal)) -> Runner
    ensures { result ≡ empty 64 }
{
    match new_runner(rt.alloc()) {
        Ok(runner) => runner,
        Err(_) => match new_runner(rt.alloc()) {
            Ok(runner) => runner,
            Err(_) => panic!(rt; "no runner is made"),
        },
    }
}

/// The insertion of a unit after the last one, of which there are so many under the ids from 1 on.
fn appended(last: u32, text: &'static [u8]) -> EditRow {
    if last == 0 {
        EditRow::First(text)
    } else {
        EditRow::After(last, text)
    }
}
