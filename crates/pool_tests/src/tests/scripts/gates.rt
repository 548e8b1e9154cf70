//! Workers whose gates hand each job back: all of them end, and then a run that waits for pictures
//! ends too.

ghost use Rattle.std.specs.Prelude.{◌≡◌, IfOk, length};

use super::{OPTIONS, Row, console, is_as, script_of};
use console_io::Status;
use decode_pool::Gate;
use script_run::shared::{audit_with, script_with};
use stand_in_device::{Finished, Undone};
use stand_in_session::Job;
use std::alloc::{AllocError, Global};
use std::process::Abort;
use std::sync::Wait;
use std::thread::Threads;

/// A gate that hands each job back.
#[derive(Drop)]
struct HandsBack;

impl Gate for HandsBack {
    fn decode(&mut self, _alloc: Global, job: Job) -> Result<Finished, Undone> {
        Err(Undone {
            job,
            cause: AllocError,
        })
    }
}

const RUN: Row = Row {
    script: "settle\nload one\nshow 1\nsettle\nshow 1\n",
    status: Status::Failure,
    lines: "settled\nloaded 1\nshow 1 pending\n",
    message: "out of memory\n",
};

const AUDIT: Row = Row {
    script: "settle\nload one\nshow 1\nsettle\nshow 1\n",
    status: Status::Failure,
    lines: "",
    message: "out of memory\n",
};

/// What decodes: two gates.
fn gates(alloc: Global) -> Result<Vec<HandsBack>, AllocError>
    ensures { IfOk result (λ gates. length gates.items ≡ 2) }
{
    let mut gates = Vec::new(alloc);
    gates.push(HandsBack)?;
    gates.push(HandsBack)?;
    Ok(gates)
}

/// Whether the run ends as the row says.
fn runs_so<R: Abort + AllocGlobal + Threads + Wait + Sync>(
    rt: &R,
    row: &Row,
) -> Result<bool, AllocError> {
    let (script, mut console) = (script_of(row.script), console(rt.alloc()));
    let gates = gates(rt.alloc())?;
    let ended = script_with(rt, rt.alloc(), OPTIONS, gates, script, &mut console);
    Ok(is_as(row, ended.status, &console))
}

/// Whether the audit does.
fn audits_so<R: Abort + AllocGlobal + Threads + Wait + Sync>(
    rt: &R,
    row: &Row,
) -> Result<bool, AllocError> {
    let (script, mut console) = (script_of(row.script), console(rt.alloc()));
    let gates = gates(rt.alloc())?;
    let ended = audit_with(rt, rt.alloc(), OPTIONS, gates, script, &mut console);
    Ok(is_as(row, ended.status, &console))
}

#[test]
fn a_run_ends_where_no_worker_is_left(rt: HostRuntime) -> Result<(), AllocError> {
    assert!(rt; runs_so(&rt, &RUN)?);
    assert!(rt; audits_so(&rt, &AUDIT)?);
    Ok(())
}
