//! `load`: the units of a file inserted one after the other.

ghost use Rattle.std.specs.Prelude.{◌≡◌, ℕ, List, length, IfErr, IfOk, IfSome, string_bytes};
ghost use Rattle.annexb.specs.ByteStream.{joined};
ghost use Rattle.stream_edits.specs.declared.edits.Edit.TheVariants.{Insert};
ghost use Rattle.stand_in_session.specs.declared.commands.Command.TheVariants as told;
ghost use Rattle.stand_in_session.specs.declared.replies.Reply.TheVariants as replies;
ghost use Rattle.stand_in_session.specs.Runs.{Answers as Replies};
ghost use Rattle.script_run.specs.RunFaults.{IsLoadFault};
ghost use Rattle.stream_edits.specs.Streams.{end_of};
ghost use Rattle.script_run.specs.Running.{InsertsAll, Loads};

use crate::answers::{LoadedLine, RefusedLine};
use crate::run_fault::RunFault;
use access_unit::{MOST_UNITS, ReadFault, read_units};
use bytes::Bytes;
use console_io::Source;
use picture_keys::{HashedUnit, hash_units};
use stand_in_session::{EditRefused, ReadEdit, Receipt, Runner};
use std::alloc::{AllocError, Global};
use std::thread::Threads;
use unit_printing::lines::RefusalLine;

/// Inserts the units of the file of this name after the last one, each by an edit, and gives the
/// line that says how many; or why the file's stream is refused, or why an edit is, which ends the
/// loading.
pub fn load<'a, S: Source>(
    threads: &(impl Threads + Sync),
    alloc: Global,
    path: &'a str,
    runner: &mut Runner,
    source: &mut S,
) -> Result<String, RunFault<'a>>
    ensures ok { IfOk result (λ lines. (text : List ℕ)
        × IfSome (S.file source.old path.now) (λ bytes. text ≡ bytes)
        × Loads runner.old text (string_bytes lines) runner.new) }
    ensures kept { (name : List ℕ) → S.file source.new name ≡ S.file source.old name }
    ensures named { IfErr result (IsLoadFault path.entry) }
{
    let text = shared_file(alloc, path, source)?;
    let capacity = MOST_UNITS.saturating_sub(runner.session().last().units);
    match read_units(threads, alloc, &text, capacity) {
        Ok(units) => Ok(insert_all(alloc, hash_units(threads, alloc, units)?, runner)?),
        Err(ReadFault::Refused(refusal)) => Ok(RefusalLine(refusal).to_string(alloc)?),
        Err(ReadFault::Memory) => Err(RunFault::Memory),
    }
}

/// The text of the file of this name, in one buffer that units can share.
pub fn shared_file<'a, S: Source>(
    alloc: Global,
    path: &'a str,
    source: &mut S,
) -> Result<Bytes, RunFault<'a>>
    ensures ok { IfOk result (λ text. IfSome (S.file source.old path.now) (λ bytes. text ≡ bytes)) }
    ensures kept { (name : List ℕ) → S.file source.new name ≡ S.file source.old name }
    ensures named { IfErr result (IsLoadFault path.entry) }
{
    match source.whole_file(alloc, path) {
        Ok(text) => Ok(Bytes::from_vec(text)?),
        Err(fault) => Err(RunFault::of_input(fault, path)),
    }
}

/// Inserts the units after the last one, and gives the line that says how many, or why one is
/// refused.
fn insert_all(
    alloc: Global,
    units: Vec<HashedUnit>,
    runner: &mut Runner,
) -> Result<String, AllocError>
    ensures { IfOk result (λ lines.
        InsertsAll (length units.items) runner.old units.items (string_bytes lines) runner.new) }
{
    let count = units.len();
    for unit in units {
        if let Err(refused) = insert_last(alloc, unit, runner) {
            return RefusedLine(refused).to_string(alloc);
        }
    }
    LoadedLine(count).to_string(alloc)
}

/// Inserts a unit after the last one.
fn insert_last(alloc: Global, unit: HashedUnit, runner: &mut Runner) -> Result<Receipt, EditRefused>
    ensures { Replies runner.old (told.Edit
        (Insert (end_of runner.old.register.stream) (joined unit)))
        (replies.Edit result) runner.new }
{
    let place = runner.session().end();
    runner.edit_read(ReadEdit::insertion(alloc, place, unit)?)
}
