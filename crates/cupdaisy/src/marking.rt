//! Marks of the stream, and the units that are altered since.

ghost use Rattle.std.specs.Prelude.{ℕ, Result};
ghost use Rattle.c_calls.specs.Marking.{IsAlteredAnswer, MarksTo};
ghost use Rattle.c_calls.specs.Telling.{Tells};
ghost use Rattle.cupdaisy.specs.Calls.{Asks, Changes};

use crate::Handle;
use c_calls::NO_SESSION;
use std::alloc::Global;

/// Marks the stream as it is.
#[unsafe(no_mangle)]
pub extern "C" fn cupdaisy_mark(alloc: Global, session: &mut Handle) -> u32
    ensures { Changes session.old.held.state result session.new.held.state
        (λ old new. MarksTo old result new) }
{
    let Some(mut inner) = session.take(alloc) else {
        return NO_SESSION;
    };
    let status = c_calls::mark(&mut inner);
    session.put(inner);
    status
}

/// Whether the unit of the id is altered since the stream was marked.
#[unsafe(no_mangle)]
pub extern "C" fn cupdaisy_is_altered(
    alloc: Global,
    session: &mut Handle,
    id: u32,
    altered: &mut u32,
) -> u32
    ensures { Asks session.old.held.state result altered.old altered.new session.new.held.state
        (λ machine. (answer : Result ℕ ℕ) × IsAlteredAnswer machine id answer
        × Tells answer result altered.old altered.new) }
{
    let Some(inner) = session.take(alloc) else {
        return NO_SESSION;
    };
    let status = c_calls::is_altered(&inner, id, altered);
    session.put(inner);
    status
}
