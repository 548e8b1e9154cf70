//! `preview run --workers`: a script read, run by a seat while workers decode, and answered line by
//! line.

ghost use Rattle.std.specs.Prelude.{◌≡◌, ◌≢◌, ◌≤◌, ℕ, List, length, IfErr, IfOk, IfSome};
ghost use Rattle.std.specs.Io.KnownBytes.{Keeps};
ghost use Rattle.console_io.specs.Messages.{Tells};
ghost use Rattle.script_run.specs.Messages.{run_fault_text};
ghost use Rattle.script_run.specs.declared.run_fault.RunFault.{RunFault};
ghost use Rattle.script_run.specs.SharedRunning.{WritesScript, WritesScriptTo, IsNew};
ghost use Rattle.script_run.specs.SharedStops.{StopsBy, StopsText};

use crate::shared::commands::Interpreter;
use crate::shared::threads::{Pool, run_beside};
use crate::{Options, RunFault, Script, say_run_fault};
use console_io::{Console, Ended, Sink, Source, Status, say_out_of_memory, whole_input};
use decode_pool::{Desk, Gate, Seat};
use edit_script::read_seat_script;
use stand_in_device::Device;
use stand_in_session::Config;
use std::alloc::{AllocError, Global};
use std::io::Read;
use std::sync::Wait;
use std::thread::Threads;

/// Runs the script as `script_with` does, by so many workers with a device each.
pub fn script_with_workers<R, I, S, W, E>(
    rt: &R,
    alloc: Global,
    options: Options<'_>,
    workers: usize,
    script: Script<I, S>,
    console: &mut Console<W, E>,
) -> Ended
where
    R: Threads + Wait + Sync,
    I: Read + Drop,
    S: Source + Drop,
    W: Sink,
    E: Sink,
    requires { (1 ≤ workers) × (workers ≤ 64) }
    ensures done { result.status ≡ Status.Success
        → Keeps (E.contents console.old.errors) (E.contents console.new.errors) }
    ensures answered { result.status ≡ Status.Success → IfSome (I.remaining script.text) (λ text.
        WritesScript (S.file script.files) text options.entry.hex
        (W.contents console.old.output) (W.contents console.new.output)) }
    ensures stops { result.status ≡ Status.Failure → (fault : RunFault)
        × IfSome (I.remaining script.text) (λ text.
        StopsBy (S.file script.files) options.entry.name.now text options.entry.hex fault
        (W.refuses console.new.output)
        (W.contents console.old.output) (W.contents console.new.output))
        × Tells result.told (E.refuses console.new.errors)
        (E.contents console.old.errors) (E.contents console.new.errors) (run_fault_text fault) }
    ensures usage { result.status ≢ Status.Usage }
{
    match devices(alloc, workers) {
        Ok(gates) => script_with(rt, alloc, options, gates, script, console),
        Err(_) => Ended::failed(say_run_fault(RunFault::Memory, &mut console.errors)),
    }
}

/// Runs the script by the one seat of a desk of its own, while a worker for each gate decodes in a
/// thread. Each line that is a command is answered by one write. Why the run ends before the script
/// does is told to the console's `errors`; a thread that can't be started, and workers that have
/// all ended while pictures are due, are told as lack of memory is.
pub fn script_with<R, D, I, S, W, E>(
    rt: &R,
    alloc: Global,
    options: Options<'_>,
    gates: Vec<D>,
    script: Script<I, S>,
    console: &mut Console<W, E>,
) -> Ended
where
    R: Threads + Wait + Sync,
    D: Gate + Send + Drop,
    I: Read + Drop,
    S: Source + Drop,
    W: Sink,
    E: Sink,
    requires { (1 ≤ length gates.items) × (length gates.items ≤ 64) }
    ensures done { result.status ≡ Status.Success
        → Keeps (E.contents console.old.errors) (E.contents console.new.errors) }
    // What is written at success are the seat's answers to the script that was read.
    ensures answered { result.status ≡ Status.Success → IfSome (I.remaining script.text) (λ text.
        WritesScript (S.file script.files) text options.entry.hex
        (W.contents console.old.output) (W.contents console.new.output)) }
    // At a failure it is what the fault that is told leaves of it.
    ensures stops { result.status ≡ Status.Failure → (fault : RunFault)
        × IfSome (I.remaining script.text) (λ text.
        StopsBy (S.file script.files) options.entry.name.now text options.entry.hex fault
        (W.refuses console.new.output)
        (W.contents console.old.output) (W.contents console.new.output))
        × Tells result.told (E.refuses console.new.errors)
        (E.contents console.old.errors) (E.contents console.new.errors) (run_fault_text fault) }
    ensures usage { result.status ≢ Status.Usage }
{
    let Script {
        text: mut reader,
        files,
    } = script;
    let text = match whole_input(alloc, &mut reader) {
        Ok(text) => text,
        Err(fault) => {
            let fault = RunFault::of_input(fault, options.name);
            return Ended::failed(say_run_fault(fault, &mut console.errors));
        }
    };
    let script = Script {
        text: text.as_slice(),
        files,
    };
    match run_text(rt, alloc, options, gates, script, &mut console.output) {
        Ok(_) => Ended::done(),
        Err(fault) => Ended::failed(say_run_fault(fault, &mut console.errors)),
    }
}

/// Runs the script of this text, and hands out the desk and its seat. Where a line is no command of
/// a seat, nothing is run.
pub(crate) fn run_text<'a, R, D, S, W>(
    rt: &'a R,
    alloc: Global,
    options: Options<'_>,
    gates: Vec<D>,
    script: Script<&'a [u8], S>,
    writer: &mut W,
) -> Result<(Desk, Seat), RunFault<'a>>
where
    R: Threads + Wait + Sync,
    D: Gate + Send + Drop,
    S: Source + Drop,
    W: Sink,
    requires { (1 ≤ length gates.items) × (length gates.items ≤ 64) }
    ensures ok { IfOk result (λ ended. WritesScriptTo (S.file script.entry.files)
        script.entry.text.now options.entry.hex ended.1
        (W.contents writer.old) (W.contents writer.new)) }
    ensures seats { IfOk result (λ ended. (ended.0.seats ≡ 1) × (ended.1.number ≡ 1)) }
    // The desk has the room that is asked for, and as many workers as there are gates.
    ensures capacity { IfOk result (λ ended. ended.0.cache ≡ options.entry.cache) }
    ensures workers { IfOk result (λ ended. ended.0.workers ≡ length gates.items) }
    ensures stops { IfErr result (λ fault. StopsText
        (S.file script.entry.files) script.entry.text.now options.entry.hex fault
        (W.refuses writer.new) (W.contents writer.old) (W.contents writer.new)) }
{
    let commands = read_seat_script(alloc, script.text)?;
    let (desk, seat) = open(alloc, options.cache, gates.len())?;
    let (files, hex) = (script.files, options.hex);
    let interpreter = Interpreter { seat, files, hex };
    let pool = Pool { desk, gates };
    let ran = run_beside(rt, alloc, pool, interpreter, commands, writer);
    match ran.result {
        Ok(()) => Ok((ran.desk, ran.seat)),
        Err(fault) => Err(fault),
    }
}

/// A desk with an empty stream for so many workers, and its one seat.
pub(crate) fn open(alloc: Global, cache: u16, workers: usize) -> Result<(Desk, Seat), AllocError>
    requires cache { (1 ≤ cache) × (cache ≤ 4096) }
    requires workers { (1 ≤ workers) × (workers ≤ 64) }
    ensures capacity { IfOk result (λ opened. opened.0.cache ≡ cache) }
    ensures workers { IfOk result (λ opened. opened.0.workers ≡ workers) }
    ensures seats { IfOk result (λ opened. opened.0.seats ≡ 1) }
    ensures new { IfOk result (λ opened. IsNew opened.1) }
{
    let (desk, mut seats) = Desk::open(alloc, Config { cache }, workers, 1)?;
    match seats.pop() {
        Some(seat) => Ok((desk, seat)),
        None => unreachable!(),
    }
}

/// So many devices.
pub(crate) fn devices(alloc: Global, count: usize) -> Result<Vec<Device>, AllocError>
    ensures { IfOk result (λ made. length made.items ≡ count) }
{
    let mut made = Vec::with_capacity(alloc, count)?;
    for _ in 0..count {
        made.push(Device::new(alloc))?;
    }
    Ok(made)
}
