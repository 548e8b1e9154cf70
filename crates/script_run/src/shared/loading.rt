//! `load`: the units of a file inserted one after the other, by a seat.

ghost use Rattle.std.specs.Prelude.{◌≡◌, ℕ, List, [], length, IfErr, IfOk, IfSome, string_bytes};
ghost use Rattle.script_run.specs.RunFaults.{IsLoadFault};
ghost use Rattle.decode_pool.specs.Appends.{AppendsSome};
ghost use Rattle.script_run.specs.SharedRunning.{InsertsAll, Loads};

use crate::{LoadedLine, RefusedLine, RunFault, shared_file};
use access_unit::{MOST_UNITS, ReadFault, read_units};
use console_io::Source;
use decode_pool::{Desk, Seat};
use picture_keys::{HashedUnit, hash_units};
use stand_in_session::EditRefused;
use std::alloc::{AllocError, Global};
use std::mem::replace;
use std::sync::Wait;
use std::thread::Threads;
use unit_printing::lines::RefusalLine;

/// How many units are inserted at most while the seat has the desk's lock once.
const HANDFUL: usize = 32;

/// Inserts the units of the file of this name after the last one, each by an edit of the seat, and
/// gives the line that says how many; or why the file's stream is refused, or why an edit is, which
/// ends the loading.
pub(crate) fn load<'a, R: Threads + Wait + Sync, S: Source>(
    rt: &R,
    alloc: Global,
    desk: &Desk,
    seat: &mut Seat,
    path: &'a str,
    source: &mut S,
) -> Result<String, RunFault<'a>>
    ensures ok { IfOk result (λ lines. (text : List ℕ)
        × IfSome (S.file source.old path.now) (λ bytes. text ≡ bytes)
        × Loads seat.old text (string_bytes lines) seat.new) }
    ensures kept { (name : List ℕ) → S.file source.new name ≡ S.file source.old name }
    ensures named { IfErr result (IsLoadFault path.entry) }
{
    let text = shared_file(alloc, path, source)?;
    let capacity = MOST_UNITS.saturating_sub(seat.last(rt, desk).units);
    match read_units(rt, alloc, &text, capacity) {
        Ok(units) => {
            let units = hash_units(rt, alloc, units)?;
            Ok(insert_all(rt, alloc, desk, seat, units)?)
        },
        Err(ReadFault::Refused(refusal)) => Ok(RefusalLine(refusal).to_string(alloc)?),
        Err(ReadFault::Memory) => Err(RunFault::Memory),
    }
}

/// Inserts the units after the last one, a handful at a time, and gives the line that says how
/// many, or why one is refused.
fn insert_all<R: Wait>(
    rt: &R,
    alloc: Global,
    desk: &Desk,
    seat: &mut Seat,
    units: Vec<HashedUnit>,
) -> Result<String, AllocError>
    ensures { IfOk result (λ lines.
        InsertsAll (length units.items) seat.old units.items (string_bytes lines) seat.new) }
{
    let count = units.len();
    let mut handful = Vec::new(alloc);
    for unit in units {
        handful.push(unit)?;
        if handful.len() < HANDFUL {
            continue;
        }
        if let Some(refused) = insert_handful(rt, alloc, desk, seat, &mut handful) {
            return RefusedLine(refused).to_string(alloc);
        }
    }
    match insert_handful(rt, alloc, desk, seat, &mut handful) {
        Some(refused) => RefusedLine(refused).to_string(alloc),
        None => LoadedLine(count).to_string(alloc),
    }
}

/// Inserts the units of a handful after the last one, and leaves it empty. Why one of them is
/// refused, if one is: those behind it aren't inserted.
fn insert_handful<R: Wait>(
    rt: &R,
    alloc: Global,
    desk: &Desk,
    seat: &mut Seat,
    handful: &mut Vec<HashedUnit>,
) -> Option<EditRefused>
    ensures inserted { (inserted : ℕ)
        × AppendsSome seat.old handful.old.items (record { inserted = inserted; refused = result })
        seat.new }
    ensures empty { handful.new.items ≡ [] }
{
    let units = replace(handful, Vec::new(alloc));
    seat.append_read(rt, desk, units).refused
}
