//! `preview run`: a script read, run on a session and answered line by line.

ghost use Rattle.std.specs.Prelude.{◌≡◌, ◌≢◌, ℕ, List, IfErr, IfOk, IfSome, OnOk, Some, string_bytes};
ghost use Rattle.std.specs.Io.KnownBytes.{Keeps};
ghost use Rattle.script_run.specs.Answers.{reply_lines, report_lines};
ghost use Rattle.console_io.specs.Messages.{Tells};
ghost use Rattle.script_run.specs.Messages.{run_fault_text};
ghost use Rattle.script_run.specs.RunFaults.{IsCommandFault};
ghost use Rattle.script_run.specs.declared.run_fault.RunFault.{RunFault};
ghost use Rattle.script_run.specs.Running.{Answers, Follows, SaysUnit, WritesRun, WritesScript};
ghost use Rattle.script_run.specs.Stops.{StopsAt, StopsBy, StopsText};
ghost use Rattle.script_run.specs.ToldUnits.{IsReportJson, IsToldOf};

use crate::answers::{AcceptedLine, NoUnitLine, RefusedLine};
use crate::group_lines::{GroupLine, GroupRefusedLine};
use crate::job_lines::{DroppedLine, GivenLine, LandedLine, TakenLine};
use crate::loading::load;
use crate::marking::{mark, say_altered};
use crate::options::{Options, Script};
use crate::run_fault::{RunFault, say_run_fault};
use crate::settling::settle;
use crate::shown_lines::shown_line;
use console_io::{Console, Ended, Sink, Source, Status, whole_input, write_bytes};
use edit_script::{SessionCommand as Command, id_of_number, read_session_script};
use h264_types::pictures::AuId;
use stand_in_session::{
    Command as Call, Config, Doubt, NoSuchUnit, Reply, Runner, Session, UnitReport,
};
use std::alloc::{AllocError, Global};
use std::io::Read;
use std::thread::Threads;
use unit_printing::json::{DecodeMode, Encoder, JsonLine};
use unit_printing::lines::UnitLines;

/// What a script's commands are run on: a session, and the files that they name. Pictures are
/// printed with digits where `hex` asks for them.
#[derive(Drop)]
struct Interpreter<S> {
    runner: Runner,
    files: S,
    hex: bool,
}

/// Runs the script on a session of its own. Each line that is a command is answered by one write,
/// and `json` by a line of this encoder. Why the run ends before the script does is told to the
/// console's `errors`.
pub fn script_on<J: Encoder, R: Read + Drop, S: Source + Drop, W: Sink, E: Sink>(
    threads: &(impl Threads + Sync),
    alloc: Global,
    encoder: &J,
    options: Options<'_>,
    script: Script<R, S>,
    console: &mut Console<W, E>,
) -> Ended
    ensures done { result.status ≡ Status.Success
        → Keeps (E.contents console.old.errors) (E.contents console.new.errors) }
    // What is written at success is a run of the script that was read.
    ensures answered { result.status ≡ Status.Success → IfSome (R.remaining script.text) (λ text.
        WritesScript J.says (S.file script.files) text options.entry.cache options.entry.hex
        (W.contents console.old.output) (W.contents console.new.output)) }
    // At a failure it is what the fault that is told leaves of it.
    ensures stops { result.status ≡ Status.Failure → (fault : RunFault)
        × IfSome (R.remaining script.text) (λ text.
        StopsBy J.says (S.file script.files) options.entry.name.now text options.entry.cache
        options.entry.hex fault (W.refuses console.new.output)
        (W.contents console.old.output) (W.contents console.new.output))
        × Tells result.told (E.refuses console.new.errors)
        (E.contents console.old.errors) (E.contents console.new.errors) (run_fault_text fault) }
    ensures usage { result.status ≢ Status.Usage }
{
    let Script {
        text: mut reader,
        files,
    } = script;
    let text = match whole_input(alloc, &mut reader) {
        Ok(text) => text,
        Err(fault) => {
            let fault = RunFault::of_input(fault, options.name);
            return Ended::failed(say_run_fault(fault, &mut console.errors));
        }
    };
    let script = Script {
        text: text.as_slice(),
        files,
    };
    match run_text(
        threads,
        alloc,
        encoder,
        options,
        script,
        &mut console.output,
    ) {
        Ok(()) => Ended::done(),
        Err(fault) => Ended::failed(say_run_fault(fault, &mut console.errors)),
    }
}

/// Runs the script of this text. Where a line is no command of a session, nothing is run.
fn run_text<'a, J: Encoder, S: Source + Drop, W: Sink>(
    threads: &(impl Threads + Sync),
    alloc: Global,
    encoder: &J,
    options: Options<'_>,
    script: Script<&'a [u8], S>,
    writer: &mut W,
) -> Result<(), RunFault<'a>>
    ensures ok { OnOk result
        (WritesScript J.says (S.file script.entry.files) script.entry.text.now options.entry.cache
        options.entry.hex (W.contents writer.old) (W.contents writer.new)) }
    ensures stops { IfErr result (λ fault. StopsText J.says
        (S.file script.entry.files) script.entry.text.now options.entry.cache options.entry.hex
        fault (W.refuses writer.new) (W.contents writer.old) (W.contents writer.new)) }
{
    let commands = read_session_script(alloc, script.text)?;
    let (cache, hex, files) = (options.cache, options.hex, script.files);
    // The options are in range.
    let Ok(runner) = Runner::new(alloc, Config { cache }) else {
        return Err(RunFault::Memory);
    };
    let mut interpreter = Interpreter { runner, files, hex };
    run_commands(threads, alloc, encoder, commands, &mut interpreter, writer)
}

/// Runs the commands one after the other, and writes what each one prints.
fn run_commands<'a, J: Encoder, S: Source, W: Sink>(
    threads: &(impl Threads + Sync),
    alloc: Global,
    encoder: &J,
    commands: Vec<Command<'a>>,
    interpreter: &mut Interpreter<S>,
    writer: &mut W,
) -> Result<(), RunFault<'a>>
    ensures ok { OnOk result
        (WritesRun J.says (S.file interpreter.old.files) interpreter.old.hex interpreter.old.runner
        commands.entry.items interpreter.new.runner
        (W.contents writer.old) (W.contents writer.new)) }
    ensures stops { IfErr result (λ fault. StopsAt J.says
        (S.file interpreter.old.files) interpreter.old.hex interpreter.old.runner
        commands.entry.items fault
        (W.refuses writer.new) (W.contents writer.old) (W.contents writer.new)) }
{
    for command in commands {
        let lines = run_command(threads, alloc, encoder, command, interpreter)?;
        write_bytes(writer, lines.as_bytes())?;
    }
    Ok(())
}

/// Runs a command, and gives the lines that answer it.
fn run_command<'a, J: Encoder, S: Source>(
    threads: &(impl Threads + Sync),
    alloc: Global,
    encoder: &J,
    command: Command<'a>,
    interpreter: &mut Interpreter<S>,
) -> Result<String, RunFault<'a>>
    ensures ok { IfOk result (λ lines. Answers J.says (S.file interpreter.old.files)
        interpreter.old.hex interpreter.old.runner command.entry (string_bytes lines)
        interpreter.new.runner) }
    ensures kept { (name : List ℕ)
        → S.file interpreter.new.files name ≡ S.file interpreter.old.files name }
    ensures hex { interpreter.new.hex ≡ interpreter.old.hex }
    ensures named { IfErr result (IsCommandFault command.entry) }
{
    let (hex, runner) = (interpreter.hex, &mut interpreter.runner);
    match command {
        Command::Load { path } => load(threads, alloc, path, runner, &mut interpreter.files),
        Command::Json { number } => Ok(say_unit(alloc, encoder, runner, number)?),
        Command::Mark => Ok(mark(alloc, runner)?),
        Command::Altered { number } => Ok(say_altered(alloc, runner.session(), number)?),
        Command::Settle => Ok(settle(alloc, runner, None)?),
        Command::SettleFor { number } => {
            let unit = Some(id_of_number(number));
            Ok(settle(alloc, runner, unit)?)
        }
        Command::Edit(edit) => Ok(follow(alloc, runner, Call::Edit(edit), 0, hex)?),
        Command::Group(edits) => Ok(follow(alloc, runner, Call::Group(edits), 0, hex)?),
        Command::Take => Ok(follow(alloc, runner, Call::Take, 0, hex)?),
        Command::Clear => Ok(follow(alloc, runner, Call::ClearCache, 0, hex)?),
        Command::TakeFor { number } => {
            let told = Call::TakeFor(id_of_number(number));
            Ok(follow(alloc, runner, told, number, hex)?)
        }
        Command::Land { number } => Ok(follow(alloc, runner, Call::Land(number), number, hex)?),
        Command::GiveBack { number } => {
            Ok(follow(alloc, runner, Call::GiveBack(number), number, hex)?)
        }
        Command::Unit { number } => {
            let told = Call::Unit(id_of_number(number));
            Ok(follow(alloc, runner, told, number, hex)?)
        }
        Command::Show { number } => {
            let told = Call::Show(id_of_number(number));
            Ok(follow(alloc, runner, told, number, hex)?)
        }
        Command::Drop { number } => {
            let told = Call::Drop(id_of_number(number));
            Ok(follow(alloc, runner, told, number, hex)?)
        }
    }
}

/// Tells the session something that asks for this number, and gives the lines of its reply.
fn follow(
    alloc: Global,
    runner: &mut Runner,
    told: Call,
    number: u64,
    hex: bool,
) -> Result<String, AllocError>
    ensures { IfOk result (λ lines. Follows hex runner.old told number
        (string_bytes lines) runner.new) }
{
    let reply = runner.step(told)?;
    reply_lines(alloc, number, hex, &reply)
}

/// Asks the session for the unit of this number, and gives the line of what it reports.
fn say_unit<J: Encoder>(
    alloc: Global,
    encoder: &J,
    runner: &mut Runner,
    number: u64,
) -> Result<String, AllocError>
    ensures { IfOk result (λ line. SaysUnit J.says runner.old number
        (string_bytes line) runner.new) }
{
    let reply = runner.step(Call::Unit(id_of_number(number)))?;
    match &reply {
        Reply::Unit(report) => {
            let line = json_line(alloc, runner.session(), number, report)?;
            encoder.encode(alloc, &line)
        }
        // A session that is asked for a unit replies with a report.
        _ => Err(AllocError),
    }
}

/// The line of JSON of what is reported of the unit of this number: its outcome with what is told of
/// its doubt, or that there is none.
fn json_line(
    alloc: Global,
    session: &Session,
    number: u64,
    report: &Result<UnitReport, NoSuchUnit>,
) -> Result<JsonLine, AllocError>
    ensures { IfOk result (IsReportJson session.now.register.stream number report.now) }
{
    match report {
        Ok(report) => {
            let (id, mode) = (id_of_number(number), DecodeMode::SliceBased);
            let told = doubt_of(session, id)?;
            JsonLine::of_unit(alloc, mode, id, report.position, &report.outcome, told)
        }
        Err(NoSuchUnit) => Ok(JsonLine::of_no_unit(number)),
    }
}

/// What is told of the doubt of the unit of the id, which is there.
fn doubt_of(session: &Session, id: AuId) -> Result<Doubt, AllocError>
    ensures { IfOk result (IsToldOf session.now.register.stream id) }
{
    let Some(at) = session.place(id) else {
        return Err(AllocError);
    };
    let told = session.doubts(at, 1)?;
    Ok(told[0])
}

/// The lines of a reply to what asks for this number.
fn reply_lines(alloc: Global, number: u64, hex: bool, reply: &Reply) -> Result<String, AllocError>
    ensures { IfOk result (λ lines. reply_lines hex number reply.now ≡ Some (string_bytes lines)) }
{
    match reply {
        Reply::Edit(Ok(receipt)) => AcceptedLine(*receipt).to_string(alloc),
        Reply::Edit(Err(refused)) => RefusedLine(*refused).to_string(alloc),
        Reply::Group(Ok(receipt)) => GroupLine(receipt).to_string(alloc),
        Reply::Group(Err(refused)) => GroupRefusedLine(*refused).to_string(alloc),
        Reply::Unit(report) => report_lines(alloc, number, report),
        Reply::Take(Ok(job)) | Reply::TakeFor(Ok(job)) => TakenLine(*job).to_string(alloc),
        // All numbers of jobs were given, which is told as lack of memory is.
        Reply::Take(Err(_)) | Reply::TakeFor(Err(_)) => Err(AllocError),
        Reply::Land(answer) => LandedLine(number, *answer).to_string(alloc),
        Reply::GiveBack(answer) => GivenLine(number, *answer).to_string(alloc),
        Reply::Show(shown) => shown_line(alloc, number, *shown, hex),
        Reply::Dropped(dropping) => DroppedLine(number, *dropping).to_string(alloc),
        Reply::Cleared => String::from_str(alloc, "cleared\n"),
    }
}

/// The lines of what is reported of the unit of this number: its outcome, or that there is none.
fn report_lines(
    alloc: Global,
    number: u64,
    report: &Result<UnitReport, NoSuchUnit>,
) -> Result<String, AllocError>
    ensures { IfOk result (λ lines. string_bytes lines ≡ report_lines number report.now) }
{
    match report {
        Ok(report) => UnitLines {
            id: id_of_number(number),
            outcome: &report.outcome,
            position: report.position,
        }
        .to_string(alloc),
        Err(NoSuchUnit) => NoUnitLine(number).to_string(alloc),
    }
}
