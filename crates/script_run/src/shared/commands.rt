//! The commands of a script, run by a seat one after the other.

ghost use Rattle.std.specs.Prelude.{◌≡◌, ℕ, List, IfErr, IfOk, OnOk, string_bytes, Some};
ghost use Rattle.script_run.specs.SharedRunning.{Answers, Drops, Edits, EditsGroup, Settles, SettlesFor, ShowsLine, WritesRun};
ghost use Rattle.script_run.specs.SharedStops.{IsCommandFault, StopsAt};
ghost use Rattle.script_run.specs.WantedLines.{rest_line, want_line, wanted_line};
ghost use Rattle.script_run.specs.JobLines.{cleared_line};

use crate::shared::loading::load;
use crate::{
    AcceptedLine, DroppedLine, GroupLine, GroupRefusedLine, RefusedLine, RunFault, shown_line,
};
use console_io::{Sink, Source, write_bytes};
use decode_pool::{Desk, Seat, Settled, TooManyWanted};
use edit_script::{SeatCommand, id_of_number};
use h264_types::pictures::AuId;
use stand_in_session::Edit;
use std::alloc::{AllocError, Global};
use std::fmt;
use std::fmt::{Display, Formatter, Write};
use std::sync::Wait;
use std::thread::Threads;

/// What a script's commands are run on: a desk's seat, and the files that they name. Pictures are
/// printed with digits where `hex` asks for them.
#[derive(Drop)]
pub(crate) struct Interpreter<S> {
    pub(crate) seat: Seat,
    pub(crate) files: S,
    pub(crate) hex: bool,
}

/// Runs the commands one after the other, and writes what each one prints.
pub(crate) fn run_commands<'a, R: Threads + Wait + Sync, S: Source, W: Sink>(
    rt: &R,
    alloc: Global,
    desk: &Desk,
    commands: Vec<SeatCommand<'a>>,
    interpreter: &mut Interpreter<S>,
    writer: &mut W,
) -> Result<(), RunFault<'a>>
    ensures ok { OnOk result
        (WritesRun (S.file interpreter.old.files) interpreter.old.hex interpreter.old.seat
        commands.entry.items interpreter.new.seat
        (W.contents writer.old) (W.contents writer.new)) }
    ensures stops { IfErr result (λ fault. StopsAt
        (S.file interpreter.old.files) interpreter.old.hex interpreter.old.seat
        commands.entry.items fault
        (W.refuses writer.new) (W.contents writer.old) (W.contents writer.new)) }
{
    for command in commands {
        let lines = run_command(rt, alloc, desk, command, interpreter)?;
        write_bytes(writer, lines.as_bytes())?;
    }
    Ok(())
}

/// Runs a command, and gives the lines that answer it.
fn run_command<'a, R: Threads + Wait + Sync, S: Source>(
    rt: &R,
    alloc: Global,
    desk: &Desk,
    command: SeatCommand<'a>,
    interpreter: &mut Interpreter<S>,
) -> Result<String, RunFault<'a>>
    ensures ok { IfOk result (λ lines. Answers (S.file interpreter.old.files) interpreter.old.hex
        interpreter.old.seat command.entry (string_bytes lines) interpreter.new.seat) }
    ensures kept { (name : List ℕ)
        → S.file interpreter.new.files name ≡ S.file interpreter.old.files name }
    ensures hex { interpreter.new.hex ≡ interpreter.old.hex }
    ensures named { IfErr result (IsCommandFault command.entry) }
{
    let (hex, seat) = (interpreter.hex, &mut interpreter.seat);
    match command {
        SeatCommand::Edit(edit) => Ok(edit_desk(rt, alloc, desk, seat, edit)?),
        SeatCommand::Group(edits) => Ok(group_desk(rt, alloc, desk, seat, edits)?),
        SeatCommand::Load { path } => load(rt, alloc, desk, seat, path, &mut interpreter.files),
        SeatCommand::Settle => Ok(settle(rt, alloc, desk, seat)?),
        SeatCommand::SettleFor { number } => Ok(settle_for(rt, alloc, desk, seat, number)?),
        SeatCommand::Show { number } => Ok(show(rt, alloc, desk, seat, number, hex)?),
        SeatCommand::Drop { number } => Ok(drop_picture(rt, alloc, desk, seat, number)?),
        SeatCommand::Clear => Ok(clear(rt, alloc, desk, seat)?),
        SeatCommand::Want(ids) => Ok(want(rt, alloc, desk, seat, ids.as_slice())?),
        SeatCommand::Rest(rest) => Ok(set_rest(rt, alloc, desk, seat, rest)?),
    }
}

/// Edits the desk's stream, and gives the line that says what becomes of the edit.
fn edit_desk<R: Wait>(
    rt: &R,
    alloc: Global,
    desk: &Desk,
    seat: &mut Seat,
    edit: Edit,
) -> Result<String, AllocError>
    ensures { IfOk result (λ line. Edits seat.old edit (string_bytes line) seat.new) }
{
    match seat.edit(rt, desk, edit) {
        Ok(receipt) => AcceptedLine(receipt).to_string(alloc),
        Err(refused) => RefusedLine(refused).to_string(alloc),
    }
}

/// Makes edits of the desk's stream together, and gives the line that says their outcomes.
fn group_desk<R: Wait>(
    rt: &R,
    alloc: Global,
    desk: &Desk,
    seat: &mut Seat,
    edits: Vec<Edit>,
) -> Result<String, AllocError>
    ensures { IfOk result (λ line. EditsGroup seat.old edits.items (string_bytes line) seat.new) }
{
    match seat.edit_group(rt, desk, edits) {
        Ok(receipt) => GroupLine(&receipt).to_string(alloc),
        Err(refused) => GroupRefusedLine(refused).to_string(alloc),
    }
}

/// Waits until no unit is pending, or until all that is wanted is done where the rest isn't
/// decoded, and gives the line that says so. Where all workers have ended before, by a job that one
/// couldn't decode or take, memory ran out or job numbers are spent.
fn settle<R: Wait>(rt: &R, alloc: Global, desk: &Desk, seat: &Seat) -> Result<String, AllocError>
    ensures { IfOk result (λ line. Settles (string_bytes line)) }
{
    match seat.settle(rt, desk) {
        Settled::Done | Settled::Rested => String::from_str(alloc, "settled\n"),
        Settled::Idle => Err(AllocError),
    }
}

/// Waits until the unit of this number isn't pending, and gives the line that says so; likewise
/// where all workers have ended.
fn settle_for<R: Wait>(
    rt: &R,
    alloc: Global,
    desk: &Desk,
    seat: &Seat,
    number: u64,
) -> Result<String, AllocError>
    ensures { IfOk result (λ line. SettlesFor number (string_bytes line)) }
{
    match seat.settle_for(rt, desk, id_of_number(number)) {
        Settled::Done => String::from_str(alloc, "settled\n"),
        Settled::Idle | Settled::Rested => Err(AllocError),
    }
}

/// The line of what the seat is shown of the unit of this number.
fn show<R: Wait>(
    rt: &R,
    alloc: Global,
    desk: &Desk,
    seat: &mut Seat,
    number: u64,
    hex: bool,
) -> Result<String, AllocError>
    ensures { IfOk result (λ line. ShowsLine hex seat.old number (string_bytes line) seat.new) }
{
    let shown = seat.show(rt, desk, id_of_number(number))?;
    shown_line(alloc, number, shown, hex)
}

/// Drops the picture of the unit of this number, and gives the line that says what came of that.
fn drop_picture<R: Wait>(
    rt: &R,
    alloc: Global,
    desk: &Desk,
    seat: &mut Seat,
    number: u64,
) -> Result<String, AllocError>
    ensures { IfOk result (λ line. Drops seat.old number (string_bytes line) seat.new) }
{
    let answer = seat.drop_picture(rt, desk, id_of_number(number))?;
    DroppedLine(number, answer).to_string(alloc)
}

/// Drops the cached pictures, and gives the line that says so.
fn clear<R: Wait>(rt: &R, alloc: Global, desk: &Desk, seat: &Seat) -> Result<String, AllocError>
    ensures { IfOk result (λ line. string_bytes line ≡ cleared_line) }
{
    seat.clear_cache(rt, desk);
    String::from_str(alloc, "cleared\n")
}

/// Wants the units of these ids first, and gives the line that says how many, or that they are too
/// many.
fn want<R: Wait>(
    rt: &R,
    alloc: Global,
    desk: &Desk,
    seat: &Seat,
    ids: &[AuId],
) -> Result<String, AllocError>
    ensures { IfOk result (λ line. string_bytes line ≡ want_line ids.now) }
{
    match seat.want(rt, desk, ids) {
        Ok(()) => WantedLine(ids.len()).to_string(alloc),
        Err(TooManyWanted) => String::from_str(alloc, "refused 22 TooManyWanted\n"),
    }
}

/// Has the rest of the stream decoded too or not, and gives the line that says so.
fn set_rest<R: Wait>(
    rt: &R,
    alloc: Global,
    desk: &Desk,
    seat: &Seat,
    rest: bool,
) -> Result<String, AllocError>
    ensures { IfOk result (λ line. string_bytes line ≡ rest_line rest) }
{
    seat.rest(rt, desk, rest);
    match rest {
        true => String::from_str(alloc, "rest on\n"),
        false => String::from_str(alloc, "rest off\n"),
    }
}

/// The line of so many ids that are wanted first.
#[derive(Drop)]
pub(crate) struct WantedLine(pub(crate) usize);

impl Display for WantedLine {
    ghost output = { λ line. Some (wanted_line line.0) };

    fn fmt<W: Write>(&self, f: &mut Formatter<W>) -> fmt::Result {
        let count = self.0;
        writeln!(f, "wanted {count}")
    }
}
