//! Scripts that are audited: one line at the end.

use super::{OPTIONS, Row, console, is_as, script_of};
use console_io::Status;
use script_run::shared::audit_with_workers;
use std::process::Abort;
use std::sync::Wait;
use std::thread::Threads;

const ROWS: [Row; 8] = [
    Row {
        script: "insert first 000001 6742000ADA79 000001 68CE3880 000001 65888480\n\
        insert after 1 000001 419A23\n\
        settle\n\
        show 2\n\
        delete 1\n\
        show 2\n",
        status: Status::Success,
        lines: "agreed 3 edits 2 shows\n",
        message: "",
    },
    // Each unit of a file is an edit; a show of no unit is one too, and a refused edit is none.
    Row {
        script: "load one\nload one\nshow 1\nshow 9\ndelete 9\nshow 2\n",
        status: Status::Success,
        lines: "agreed 2 edits 3 shows\n",
        message: "",
    },
    // A unit without a picture is waited for no more than one with a fault.
    Row {
        script: "load one\ninsert after 1 000001 6742000ADA79\nshow 2\nsettle\nshow 2\n",
        status: Status::Success,
        lines: "agreed 2 edits 2 shows\n",
        message: "",
    },
    Row {
        script: "load seventy\nshow 33\nshow 70\n",
        status: Status::Success,
        lines: "agreed 70 edits 2 shows\n",
        message: "",
    },
    Row {
        script: "",
        status: Status::Success,
        lines: "agreed 0 edits 0 shows\n",
        message: "",
    },
    Row {
        script: "load one\nload none\n",
        status: Status::Failure,
        lines: "",
        message: "cannot read none\n",
    },
    Row {
        script: "settle\nland 1\n",
        status: Status::Failure,
        lines: "",
        message: "script fault at line 2\n",
    },
    Row {
        script: "unit 1\n",
        status: Status::Failure,
        lines: "",
        message: "script fault at line 1\n",
    },
];

/// Whether the audit of a script ends as its row says, by two workers.
fn ends_so<R: Abort + AllocGlobal + Threads + Wait + Sync>(rt: &R, row: &Row) -> bool {
    let (script, mut console) = (script_of(row.script), console(rt.alloc()));
    let ended = audit_with_workers(rt, rt.alloc(), OPTIONS, 2, script, &mut console);
    is_as(row, ended.status, &console)
}

#[test]
fn audits_of_a_seat_end_so(rt: HostRuntime) {
    for (number, row) in ROWS.iter().enumerate() {
        assert!(rt; ends_so(&rt, row), "row {number}");
    }
}
