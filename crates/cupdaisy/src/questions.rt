//! Questions about the stream.

ghost use Rattle.std.specs.Prelude.{◌≡◌, ℕ, length, Result};
ghost use Rattle.c_calls.specs.Doubting.{TellsDoubts};
ghost use Rattle.c_calls.specs.Finding.{IsAtPosition};
ghost use Rattle.c_calls.specs.Keys.{IsKeyOf, TellsUse};
ghost use Rattle.c_calls.specs.Showing.{ShowsTo};
ghost use Rattle.c_calls.specs.Asking.{id_at, outcome_answer, place_answer, position_answer};
ghost use Rattle.c_calls.specs.Statuses.{done};
ghost use Rattle.c_calls.specs.Telling.{Tells};
ghost use Rattle.cupdaisy.specs.Calls.{Asks, AsksTwo};

use crate::Handle;
use c_calls::{NO_SESSION, UnitDoubt, UnitOutcome};
use std::alloc::Global;

/// How many units the stream has.
#[unsafe(no_mangle)]
pub extern "C" fn cupdaisy_units(alloc: Global, session: &mut Handle, units: &mut usize) -> u32
    ensures { Asks session.old.held.state result units.old units.new session.new.held.state
        (λ machine. (result ≡ done) × (units.new ≡ length machine.register.stream)) }
{
    let Some(inner) = session.take(alloc) else {
        return NO_SESSION;
    };
    let status = c_calls::units(&inner, units);
    session.put(inner);
    status
}

/// The id of the unit at a place.
#[unsafe(no_mangle)]
pub extern "C" fn cupdaisy_id_at(
    alloc: Global,
    session: &mut Handle,
    place: usize,
    id: &mut u32,
) -> u32
    ensures { Asks session.old.held.state result id.old id.new session.new.held.state
        (λ machine. Tells (id_at machine.register.stream place) result id.old id.new) }
{
    let Some(inner) = session.take(alloc) else {
        return NO_SESSION;
    };
    let status = c_calls::id_at(&inner, place, id);
    session.put(inner);
    status
}

/// The place of the unit of the id, from 0 on in decoding order.
#[unsafe(no_mangle)]
pub extern "C" fn cupdaisy_place(
    alloc: Global,
    session: &mut Handle,
    id: u32,
    place: &mut usize,
) -> u32
    ensures { Asks session.old.held.state result place.old place.new session.new.held.state
        (λ machine. Tells (place_answer machine.register.stream id) result place.old place.new) }
{
    let Some(inner) = session.take(alloc) else {
        return NO_SESSION;
    };
    let status = c_calls::place(&inner, id, place);
    session.put(inner);
    status
}

/// The position of the unit of the id in output order, from 0 on.
#[unsafe(no_mangle)]
pub extern "C" fn cupdaisy_position(
    alloc: Global,
    session: &mut Handle,
    id: u32,
    position: &mut usize,
) -> u32
    ensures { Asks session.old.held.state result position.old position.new session.new.held.state
        (λ machine. Tells (position_answer machine.register.stream id) result position.old
        position.new) }
{
    let Some(inner) = session.take(alloc) else {
        return NO_SESSION;
    };
    let status = c_calls::position(&inner, id, position);
    session.put(inner);
    status
}

/// The id of the unit at a position in output order.
#[unsafe(no_mangle)]
pub extern "C" fn cupdaisy_unit_at(
    alloc: Global,
    session: &mut Handle,
    position: usize,
    id: &mut u32,
) -> u32
    ensures { Asks session.old.held.state result id.old id.new session.new.held.state
        (λ machine. (answer : Result ℕ ℕ) × IsAtPosition machine.register.stream position answer
        × Tells answer result id.old id.new) }
{
    let Some(inner) = session.take(alloc) else {
        return NO_SESSION;
    };
    let status = c_calls::unit_at(&inner, position, id);
    session.put(inner);
    status
}

/// The outcome of the unit of the id.
#[unsafe(no_mangle)]
pub extern "C" fn cupdaisy_outcome_of(
    alloc: Global,
    session: &mut Handle,
    id: u32,
    outcome: &mut UnitOutcome,
) -> u32
    ensures { Asks session.old.held.state result outcome.old outcome.new session.new.held.state
        (λ machine. Tells (outcome_answer machine.register.stream id) result outcome.old
        outcome.new) }
{
    let Some(inner) = session.take(alloc) else {
        return NO_SESSION;
    };
    let status = c_calls::outcome(&inner, id, outcome);
    session.put(inner);
    status
}

/// Which units from a place on follow a damage, and which of them are in doubt.
#[unsafe(no_mangle)]
pub extern "C" fn cupdaisy_doubts(
    alloc: Global,
    session: &mut Handle,
    from: usize,
    doubts: &mut [UnitDoubt],
    count: &mut usize,
) -> u32
    ensures { AsksTwo session.old.held.state result doubts.old doubts.new count.old count.new
        session.new.held.state
        (λ machine. TellsDoubts machine.register.stream from result doubts.old doubts.new
        count.old count.new) }
{
    let Some(inner) = session.take(alloc) else {
        return NO_SESSION;
    };
    let status = c_calls::doubts(&inner, from, doubts, count);
    session.put(inner);
    status
}

/// The surface of the unit of the id, as the stream is now.
#[unsafe(no_mangle)]
pub extern "C" fn cupdaisy_show(
    alloc: Global,
    session: &mut Handle,
    id: u32,
    surface: &mut u64,
) -> u32
    ensures { Asks session.old.held.state result surface.old surface.new session.new.held.state
        (λ machine. ShowsTo machine id result surface.old surface.new) }
{
    let Some(inner) = session.take(alloc) else {
        return NO_SESSION;
    };
    let status = c_calls::show(&inner, id, surface);
    session.put(inner);
    status
}

/// The number of the key of the unit of the id.
#[unsafe(no_mangle)]
pub extern "C" fn cupdaisy_key(alloc: Global, session: &mut Handle, id: u32, key: &mut u64) -> u32
    ensures { Asks session.old.held.state result key.old key.new session.new.held.state
        (λ machine. (answer : Result ℕ ℕ) × IsKeyOf machine id answer
        × Tells answer result key.old key.new) }
{
    let Some(inner) = session.take(alloc) else {
        return NO_SESSION;
    };
    let status = c_calls::key(&inner, id, key);
    session.put(inner);
    status
}

/// Whether a number is that of a key in use.
#[unsafe(no_mangle)]
pub extern "C" fn cupdaisy_in_use(
    alloc: Global,
    session: &mut Handle,
    key: u64,
    in_use: &mut u32,
) -> u32
    ensures { Asks session.old.held.state result in_use.old in_use.new session.new.held.state
        (λ machine. (result ≡ done) × TellsUse machine.numbers key in_use.new) }
{
    let Some(inner) = session.take(alloc) else {
        return NO_SESSION;
    };
    let status = c_calls::in_use(&inner, key, in_use);
    session.put(inner);
    status
}
