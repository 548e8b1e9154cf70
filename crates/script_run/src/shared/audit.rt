//! `preview audit`: a script read and run by a seat while workers decode, and the seat's book held
//! against the journal.

ghost use Rattle.std.specs.Prelude.{◌≡◌, ◌≢◌, ◌≤◌, IfErr, IfOk, IfSome, length, Some};
ghost use Rattle.std.specs.Io.KnownBytes.{Keeps};
ghost use Rattle.script_run.specs.Audits.{EndsAudit, FailsAudit, IsAudited, StopsAudit, WritesAgreed, WritesVerdict};
ghost use Rattle.script_run.specs.SharedStops.{StopsText};
ghost use Rattle.script_run.specs.Verdicts.{verdict_line};

use crate::shared::ending::end;
use crate::shared::nowhere::Nowhere;
use crate::shared::run::{devices, run_text};
use crate::{Options, RunFault, Script, say_run_fault};
use console_io::{Console, Ended, Sink, Source, Status, whole_input, write_bytes};
use decode_pool::Gate;
use std::alloc::Global;
use std::fmt;
use std::fmt::{Display, Formatter, Write};
use std::io::Read;
use std::sync::Wait;
use std::thread::Threads;

/// What the audit of a seat's book comes to, and the line that says so (docs/OUTPUT.md).
#[derive(Clone, Copy, Debug, Drop)]
pub(crate) enum Verdict {
    /// Each receipt agrees with the journal: so many of edits, and so many of units that were
    /// shown.
    Agreed { edits: usize, shows: usize },
    /// The receipt of this number is the first that doesn't, in the book of this seat. Both are
    /// counted from 1.
    Disagrees { seat: usize, number: usize },
}

impl Display for Verdict {
    ghost output = { λ verdict. Some (verdict_line verdict) };

    fn fmt<W: Write>(&self, f: &mut Formatter<W>) -> fmt::Result {
        match self {
            Verdict::Agreed { edits, shows } => writeln!(f, "agreed {edits} edits {shows} shows"),
            Verdict::Disagrees { seat, number } => {
                writeln!(f, "disagrees seat {seat} receipt {number}")
            }
        }
    }
}

/// Audits the script as `audit_with` does, by so many workers with a device each.
pub fn audit_with_workers<R, I, S, W, E>(
    rt: &R,
    alloc: Global,
    options: Options<'_>,
    workers: usize,
    script: Script<I, S>,
    console: &mut Console<W, E>,
) -> Ended
where
    R: Threads + Wait + Sync,
    I: Read + Drop,
    S: Source + Drop,
    W: Sink,
    E: Sink,
    requires { (1 ≤ workers) × (workers ≤ 64) }
    ensures done { result.status ≡ Status.Success
        → Keeps (E.contents console.old.errors) (E.contents console.new.errors) }
    ensures agreed { result.status ≡ Status.Success → IfSome (I.remaining script.text) (λ text.
        WritesAgreed (S.file script.files) text
        (W.contents console.old.output) (W.contents console.new.output)) }
    ensures fails { result.status ≡ Status.Failure → FailsAudit
        (S.file script.files) options.entry.name.now (I.remaining script.text) result.told
        (W.refuses console.new.output)
        (W.contents console.old.output) (W.contents console.new.output)
        (E.refuses console.new.errors)
        (E.contents console.old.errors) (E.contents console.new.errors) }
    ensures usage { result.status ≢ Status.Usage }
{
    match devices(alloc, workers) {
        Ok(gates) => audit_with(rt, alloc, options, gates, script, console),
        Err(_) => Ended::failed(say_run_fault(RunFault::Memory, &mut console.errors)),
    }
}

/// Runs the script as `script_with` does, but writes nothing of what answers its lines: at the end
/// the desk is finished, and one line says whether the seat's book agrees with the journal. Where
/// it doesn't, that is a failure too, of which nothing is told.
pub fn audit_with<R, D, I, S, W, E>(
    rt: &R,
    alloc: Global,
    options: Options<'_>,
    gates: Vec<D>,
    script: Script<I, S>,
    console: &mut Console<W, E>,
) -> Ended
where
    R: Threads + Wait + Sync,
    D: Gate + Send + Drop,
    I: Read + Drop,
    S: Source + Drop,
    W: Sink,
    E: Sink,
    requires { (1 ≤ length gates.items) × (length gates.items ≤ 64) }
    ensures done { result.status ≡ Status.Success
        → Keeps (E.contents console.old.errors) (E.contents console.new.errors) }
    // At success the line is written that each receipt agrees.
    ensures agreed { result.status ≡ Status.Success → IfSome (I.remaining script.text) (λ text.
        WritesAgreed (S.file script.files) text
        (W.contents console.old.output) (W.contents console.new.output)) }
    // At a failure it is the line that one doesn't, or what the fault that is told leaves.
    ensures fails { result.status ≡ Status.Failure → FailsAudit
        (S.file script.files) options.entry.name.now (I.remaining script.text) result.told
        (W.refuses console.new.output)
        (W.contents console.old.output) (W.contents console.new.output)
        (E.refuses console.new.errors)
        (E.contents console.old.errors) (E.contents console.new.errors) }
    ensures usage { result.status ≢ Status.Usage }
{
    let Script {
        text: mut reader,
        files,
    } = script;
    let text = match whole_input(alloc, &mut reader) {
        Ok(text) => text,
        Err(fault) => {
            let fault = RunFault::of_input(fault, options.name);
            return Ended::failed(say_run_fault(fault, &mut console.errors));
        }
    };
    let script = Script {
        text: text.as_slice(),
        files,
    };
    match audit_text(rt, alloc, options, gates, script, &mut console.output) {
        Ok(Verdict::Agreed { .. }) => Ended::done(),
        Ok(Verdict::Disagrees { .. }) => Ended::failed(Ok(())),
        Err(fault) => Ended::failed(say_run_fault(fault, &mut console.errors)),
    }
}

/// Audits the script of this text, and writes the line of what that comes to.
fn audit_text<'a, R, D, S, W>(
    rt: &'a R,
    alloc: Global,
    options: Options<'_>,
    gates: Vec<D>,
    script: Script<&'a [u8], S>,
    writer: &mut W,
) -> Result<Verdict, RunFault<'a>>
where
    R: Threads + Wait + Sync,
    D: Gate + Send + Drop,
    S: Source + Drop,
    W: Sink,
    requires { (1 ≤ length gates.items) × (length gates.items ≤ 64) }
    ensures ok { IfOk result (λ verdict. WritesVerdict
        (S.file script.entry.files) script.entry.text.now verdict
        (W.contents writer.old) (W.contents writer.new)) }
    ensures stops { IfErr result (λ fault. EndsAudit
        (S.file script.entry.files) script.entry.text.now fault
        (W.refuses writer.new) (W.contents writer.old) (W.contents writer.new)) }
{
    let verdict = judge(rt, alloc, options, gates, script)?;
    let line = verdict.to_string(alloc)?;
    write_bytes(writer, line.as_bytes())?;
    Ok(verdict)
}

/// Runs the script of this text, and says whether the seat's book agrees with the journal.
fn judge<'a, R, D, S>(
    rt: &'a R,
    alloc: Global,
    options: Options<'_>,
    gates: Vec<D>,
    script: Script<&'a [u8], S>,
) -> Result<Verdict, RunFault<'a>>
where
    R: Threads + Wait + Sync,
    D: Gate + Send + Drop,
    S: Source + Drop,
    requires { (1 ≤ length gates.items) × (length gates.items ≤ 64) }
    ensures ok { IfOk result (IsAudited (S.file script.entry.files) script.entry.text.now) }
    ensures stops { IfErr result (StopsAudit (S.file script.entry.files) script.entry.text.now) }
{
    let plain = Options {
        name: options.name,
        cache: options.cache,
        hex: false,
    };
    let mut nowhere = Nowhere;
    let (desk, seat) = run_text(rt, alloc, plain, gates, script, &mut nowhere)?;
    Ok(end(alloc, desk, seat)?)
}
