//! Whole streams, whose access units are inserted one after the other.

ghost use Rattle.std.specs.Prelude.{◌≡◌};
ghost use Rattle.annexb.specs.ByteStream.{joined};
ghost use Rattle.stream_edits.specs.declared.edits.Edit.TheVariants.{Insert};
ghost use Rattle.c_calls.specs.Editing.{MakesEdit};
ghost use Rattle.stream_edits.specs.Streams.{end_of};
ghost use Rattle.c_calls.specs.Loading.{InsertsAll, LoadsTo, index_of, none_at, number_of_refusal, with_one};

use crate::statuses::{DONE, MEMORY};
use crate::surface_session::SurfaceSession;
use access_unit::{MOST_UNITS, ReadFault, Refusal, Unit, read_alone};
use picture_keys::HashedUnit;
use std::alloc::Global;
use stream_edits::{EditRefused, ReadEdit, Receipt};

/// What is told of a stream that is loaded. Its units have the ids from the first one's on.
#[repr(C)]
#[derive(Clone, Copy, Debug, PartialEq, Eq)]
pub struct LoadReceipt {
    /// How many edits and groups were accepted, with the last one of these.
    pub number: u64,
    /// How many steps of the fold they made.
    pub steps: u64,
    /// How many bytes were hashed for them.
    pub hashed: u64,
    /// How many units were inserted.
    pub units: u64,
    /// The first place of the units that they changed, and how many these are: those that were inserted.
    pub changed_from: u64,
    pub changed_count: u64,
    /// Which access unit the stream is refused for, from 0 on.
    pub index: u64,
    /// The id of the first unit.
    pub first: u32,
}

/// Inserts the access units of a text after the last one, each by an edit. A text that is refused
/// inserts none; an edit that is refused ends it, and those before it stay.
pub fn load(
    alloc: Global,
    session: &mut SurfaceSession,
    text: &[u8],
    loaded: &mut LoadReceipt,
) -> u32
    ensures { LoadsTo session.old text.now result loaded.new session.new }
{
    let capacity = MOST_UNITS.saturating_sub(session.inner.last().units);
    *loaded = none_at(0);
    match read_alone(alloc, text, capacity) {
        Ok(units) => insert_all(alloc, units, session, loaded),
        Err(ReadFault::Refused(refusal)) => {
            *loaded = none_at(index_of(refusal));
            number_of_refusal(refusal)
        }
        Err(ReadFault::Memory) => MEMORY,
    }
}

/// Inserts the units after the last one, and tells what was inserted.
fn insert_all(
    alloc: Global,
    units: Vec<Unit>,
    session: &mut SurfaceSession,
    loaded: &mut LoadReceipt,
) -> u32
    ensures { InsertsAll session.old units.items loaded.old result loaded.new session.new }
{
    for unit in units {
        match insert_last(alloc, unit, session) {
            Ok(receipt) => *loaded = with_one(*loaded, receipt),
            Err(refused) => return u32::from(refused.number()),
        }
    }
    DONE
}

/// Inserts a unit after the last one.
fn insert_last(
    alloc: Global,
    unit: Unit,
    session: &mut SurfaceSession,
) -> Result<Receipt, EditRefused>
    ensures { MakesEdit session.old (Insert (end_of session.old.register.stream) (joined unit))
        result session.new }
{
    let place = session.inner.end();
    session
        .inner
        .edit_read(ReadEdit::insertion(alloc, place, HashedUnit::of(unit))?)
}

/// What is told where nothing was inserted.
fn none_at(index: u64) -> LoadReceipt
    ensures { result ≡ none_at index }
{
    LoadReceipt {
        number: 0,
        steps: 0,
        hashed: 0,
        units: 0,
        changed_from: 0,
        changed_count: 0,
        index,
        first: 0,
    }
}

/// What is told after one unit more.
fn with_one(loaded: LoadReceipt, receipt: Receipt) -> LoadReceipt
    ensures { result ≡ with_one loaded receipt }
{
    LoadReceipt {
        number: receipt.number,
        steps: loaded.steps.saturating_add(receipt.steps),
        hashed: loaded.hashed.saturating_add(receipt.hashed),
        units: loaded.units.saturating_add(1),
        changed_from: if loaded.units == 0 {
            receipt.changed.from
        } else {
            loaded.changed_from
        },
        changed_count: loaded.units.saturating_add(1),
        index: 0,
        first: if loaded.units == 0 {
            receipt.id.number()
        } else {
            loaded.first
        },
    }
}

/// Which access unit a stream is refused for.
fn index_of(refusal: Refusal) -> u64
    ensures { result ≡ index_of refusal }
{
    match refusal {
        Refusal::Unit { index, .. } => index as u64,
        Refusal::Split | Refusal::StreamFull => 0,
    }
}

/// The number of a stream's refusal.
fn number_of_refusal(refusal: Refusal) -> u32
    ensures { result ≡ number_of_refusal refusal }
{
    match refusal {
        Refusal::Split => 1,
        Refusal::Unit { refused, .. } => u32::from(refused.number()),
        Refusal::StreamFull => 17,
    }
}
