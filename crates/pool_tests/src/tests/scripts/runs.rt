//! Scripts that a seat runs.

use super::{OPTIONS, REPAIRED, Row, console, is_as, script_of};
use console_io::Status;
use script_run::Options;
use script_run::shared::script_with_workers;
use std::process::Abort;
use std::sync::Wait;
use std::thread::Threads;

const ROWS: [Row; 7] = [
    REPAIRED,
    Row {
        script: "load one\nsettle\nshow 1\nshow 2\nload none\nshow 1\n",
        status: Status::Failure,
        lines: "loaded 1\nsettled\nshow 1 ready\nshow 2 none\n",
        message: "cannot read none\n",
    },
    Row {
        script: "delete 7\ninsert first 00 00 01 67 42 00 0A DA 79\nsettle\nshow 1\n",
        status: Status::Success,
        lines: "refused 16 NoSuchUnit\nedit 1 id 1\nsettled\nshow 1 empty\n",
        message: "",
    },
    Row {
        script: "# nothing is run\ndelete 1\n\nunit 1\n",
        status: Status::Failure,
        lines: "",
        message: "script fault at line 4\n",
    },
    Row {
        script: "take\n",
        status: Status::Failure,
        lines: "",
        message: "script fault at line 1\n",
    },
    Row {
        script: "settle\n",
        status: Status::Success,
        lines: "settled\n",
        message: "",
    },
    // The units of a file come after the last one in their order, however many there are.
    Row {
        script: "load one\nload seventy\nsettle\nshow 1\nshow 71\nshow 72\ndelete 33\nshow 33\nshow 34\n",
        status: Status::Success,
        lines: "loaded 1\nloaded 70\nsettled\nshow 1 ready\nshow 71 ready\nshow 72 none\nedit 72 id 33\nshow 33 none\nshow 34 ready\n",
        message: "",
    },
];

/// A unit has three pictures in turn, and then the first one's text again while nobody decodes.
const RECALLED: &str = "insert first 000001 6742000ADA79 000001 68CE3880 000001 65888480\n\
    settle\n\
    replace 1 000001 6742000ADA79 000001 68CE3880 000001 65888481\n\
    settle\n\
    replace 1 000001 6742000ADA79 000001 68CE3880 000001 65888482\n\
    settle\n\
    rest off\n\
    replace 1 000001 6742000ADA79 000001 68CE3880 000001 65888480\n\
    show 1\n";

/// With a cache of room for one picture.
const SMALL: Options<'static> = Options {
    name: "a script",
    cache: 1,
    hex: false,
};

/// How that script ends there: the cache has the second picture alone.
const PENDING: Row = Row {
    script: RECALLED,
    status: Status::Success,
    lines: "edit 1 id 1\nsettled\nedit 2 id 1\nsettled\nedit 3 id 1\nsettled\nrest off\nedit 4 id 1\nshow 1 pending\n",
    message: "",
};

/// How it ends where there is room for both.
const READY: Row = Row {
    script: RECALLED,
    status: Status::Success,
    lines: "edit 1 id 1\nsettled\nedit 2 id 1\nsettled\nedit 3 id 1\nsettled\nrest off\nedit 4 id 1\nshow 1 ready\n",
    message: "",
};

/// Whether a script ends as its row says, by two workers, with these options.
fn ends_so<R: Abort + AllocGlobal + Threads + Wait + Sync>(
    rt: &R,
    options: Options<'static>,
    row: &Row,
) -> bool {
    let (script, mut console) = (script_of(row.script), console(rt.alloc()));
    let ended = script_with_workers(rt, rt.alloc(), options, 2, script, &mut console);
    is_as(row, ended.status, &console)
}

#[test]
fn scripts_of_a_seat_end_so(rt: HostRuntime) {
    for (number, row) in ROWS.iter().enumerate() {
        assert!(rt; ends_so(&rt, OPTIONS, row), "row {number}");
    }
}

#[test]
fn the_cache_beside_workers_has_the_capacity_that_is_asked_for(rt: HostRuntime) {
    assert!(rt; ends_so(&rt, SMALL, &PENDING));
    assert!(rt; ends_so(&rt, OPTIONS, &READY));
}
