//! The threads of a run: one for each worker, beside that of the seat.

ghost use Rattle.std.specs.Prelude.{◌≡◌, IfErr, OnOk};
ghost use Rattle.script_run.specs.SharedRunning.{WritesRun};
ghost use Rattle.script_run.specs.SharedStops.{StopsRun};

use crate::RunFault;
use crate::shared::commands::{Interpreter, run_commands};
use console_io::{Sink, Source};
use decode_pool::{Desk, Gate, Seat, worker};
use edit_script::SeatCommand;
use std::alloc::Global;
use std::sync::Wait;
use std::thread;
use std::thread::{Scope, Threads};

/// A desk, and what the workers decode by: each has a gate.
#[derive(Drop)]
pub(crate) struct Pool<D> {
    pub(crate) desk: Desk,
    pub(crate) gates: Vec<D>,
}

/// How a run went, with the desk and its seat.
#[derive(Drop)]
pub(crate) struct Ran<'a> {
    pub(crate) result: Result<(), RunFault<'a>>,
    pub(crate) desk: Desk,
    pub(crate) seat: Seat,
}

/// Runs the commands by the seat while a worker for each gate decodes, and hands desk and seat
/// back. However the run ends, the desk is closed then, and the threads have ended. Where one can't
/// be started, nothing is run.
pub(crate) fn run_beside<'a, R, D, S, W>(
    rt: &'a R,
    alloc: Global,
    pool: Pool<D>,
    interpreter: Interpreter<S>,
    commands: Vec<SeatCommand<'a>>,
    writer: &mut W,
) -> Ran<'a>
where
    R: Threads + Wait + Sync,
    D: Gate + Send + Drop,
    S: Source + Drop,
    W: Sink,
    ensures seats { result.desk.seats ≡ pool.desk.seats }
    ensures capacity { result.desk.cache ≡ pool.desk.cache }
    ensures workers { result.desk.workers ≡ pool.desk.workers }
    ensures ok { OnOk result.result
        (WritesRun (S.file interpreter.files) interpreter.hex interpreter.seat
        commands.entry.items result.seat (W.contents writer.old) (W.contents writer.new)) }
    ensures stops { IfErr result.result (λ fault. StopsRun
        (S.file interpreter.files) interpreter.hex interpreter.seat commands.entry.items fault
        (W.refuses writer.new) (W.contents writer.old) (W.contents writer.new)) }
{
    let Pool { desk, gates } = pool;
    let shared = &desk;
    // The writer is handed back, as nothing is known of what a closure wrote that has it lent.
    let (result, seat, _writer) = thread::scope(
        thread::scope_env(),
        rt,
        move |scope| -> (Result<(), RunFault>, Seat, &mut W)
            ensures ok { OnOk result.0
                (WritesRun (S.file interpreter.files) interpreter.hex interpreter.seat
                commands.entry.items result.1
                (W.contents writer.entry.now) (W.contents result.2.now)) }
            ensures stops { IfErr result.0 (λ fault. StopsRun
                (S.file interpreter.files) interpreter.hex interpreter.seat
                commands.entry.items fault
                (W.refuses result.2.now) (W.contents writer.entry.now) (W.contents result.2.now)) }
            ensures lent { writer.entry.ghost_name ≡ result.2.ghost_name }
        {
            let mut interpreter = interpreter;
            let result = match start_all(scope, rt, alloc, shared, gates) {
                true => run_commands(rt, alloc, shared, commands, &mut interpreter, writer),
                false => Err(RunFault::Memory),
            };
            shared.close(rt);
            (result, interpreter.seat, writer)
        },
    );
    Ran { result, desk, seat }
}

/// Starts a worker for each gate; whether all of them could be started.
fn start_all<'s, E, R, D>(
    scope: &Scope<'s, E>,
    rt: &'s R,
    alloc: Global,
    desk: &'s Desk,
    gates: Vec<D>,
) -> bool
where
    R: Threads + Wait + Sync,
    D: Gate + Send + Drop + 's,
{
    for gate in gates {
        if scope.spawn(move || worker(rt, alloc, desk, gate)).is_err() {
            return false;
        }
    }
    true
}
