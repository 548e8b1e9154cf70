//! The session of a stream.

ghost use Rattle.std.specs.Prelude.{◌≡◌, ℕ, ◌++◌, List, [], ◌∷◌, IfErr, IfOk, OnOk, Some, length};
ghost use Rattle.draw_run.specs.Loading.{HasLoaded, IsLoadFault, IsLoaded};
ghost use Rattle.stream_edits.specs.Streams.{start_of};

use crate::fault::EditsFault;
use access_unit::{MOST_UNITS, ReadFault, read_units};
use bytes::Bytes;
use picture_keys::{HashedUnit, hash_units};
use stand_in_session::{Config, ReadEdit, Session};
use std::alloc::{AllocError, Global};
use std::thread::Threads;

/// For how many pictures that no unit has any more the session has room, as a script's has by
/// default.
const CAPACITY: u16 = 64;

/// A session with the stream of this text.
pub(crate) fn loaded(
    threads: &(impl Threads + Sync),
    alloc: Global,
    text: &Bytes,
) -> Result<Session, EditsFault>
    ensures ok { IfOk result (IsLoaded text.now) }
    ensures fault { IfErr result (IsLoadFault text.now) }
{
    match read_units(threads, alloc, text, MOST_UNITS) {
        Ok(units) => Ok(session_of(alloc, hash_units(threads, alloc, units)?)?),
        Err(ReadFault::Refused(refusal)) => Err(EditsFault::Refused(refusal)),
        Err(ReadFault::Memory) => Err(EditsFault::Memory),
    }
}

/// A session whose stream has these units.
fn session_of(alloc: Global, units: Vec<HashedUnit>) -> Result<Session, AllocError>
    ensures { IfOk result (HasLoaded units.items) }
{
    let Ok(mut session) = Session::new(alloc, Config { cache: CAPACITY }) else {
        return Err(AllocError);
    };
    for unit in units {
        insert_last(alloc, unit, &mut session)?;
    }
    Ok(session)
}

/// Inserts a unit after the last one.
fn insert_last(alloc: Global, unit: HashedUnit, session: &mut Session) -> Result<(), AllocError>
    ensures { (parts : List (List (List ℕ))) → HasLoaded parts session.old
        → OnOk result (HasLoaded (parts ++ unit ∷ []) session.new) }
{
    let place = session.end();
    match session.edit_read(ReadEdit::insertion(alloc, place, unit)?) {
        Ok(_) => Ok(()),
        // The stream has room and ids are left, so that memory ran out.
        Err(_) => Err(AllocError),
    }
}
