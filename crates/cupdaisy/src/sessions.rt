//! Sessions that are opened and closed.

ghost use Rattle.std.specs.Prelude.{◌≡◌, ◌⊎◌, MatchResult};
ghost use Rattle.stream_session.specs.Machines.{empty};
ghost use Rattle.c_calls.specs.Statuses.{cache_range, memory};
ghost use Rattle.cupdaisy.specs.Opening.{Closes, IsCapacity, Opens};

use crate::Handle;
use c_calls::{CACHE_RANGE, DONE, IS_OPEN, MEMORY, NO_SESSION, SurfaceSession};
use std::alloc::Global;
use stream_session::{Config, ConfigFault};

/// Opens a session with an empty stream, whose cache has room for so many pictures.
#[unsafe(no_mangle)]
pub extern "C" fn cupdaisy_open(alloc: Global, session: &mut Handle, cache: u16) -> u32
    ensures { Opens session.old.held.state cache result session.new.held.state }
{
    if let Some(inner) = session.take(alloc) {
        session.put(inner);
        return IS_OPEN;
    }
    match opened(alloc, cache) {
        Ok(inner) => {
            session.put(inner);
            DONE
        }
        Err(why) => why,
    }
}

/// A new session, or why there is none.
fn opened(alloc: Global, cache: u16) -> Result<Box<SurfaceSession, Global>, u32>
    ensures { MatchResult result
        (λ session. IsCapacity cache × (session.value ≡ empty cache))
        (λ why. ((IsCapacity cache → ⊥) × (why ≡ cache_range)) ⊎ (IsCapacity cache × (why ≡ memory))) }
{
    match SurfaceSession::new(alloc, Config { cache }) {
        Ok(session) => boxed(alloc, session),
        Err(ConfigFault::Cache) => Err(CACHE_RANGE),
        Err(ConfigFault::Memory) => Err(MEMORY),
    }
}

/// The session in a block of its own.
fn boxed(alloc: Global, session: SurfaceSession) -> Result<Box<SurfaceSession, Global>, u32>
    ensures { MatchResult result (λ boxed. boxed.value ≡ session) (λ why. why ≡ memory) }
{
    match Box::new(alloc, session) {
        Ok(boxed) => Ok(boxed),
        Err(_) => Err(MEMORY),
    }
}

/// Closes the session. All that it had is freed.
#[unsafe(no_mangle)]
pub extern "C" fn cupdaisy_close(alloc: Global, session: &mut Handle) -> u32
    ensures { Closes session.old.held.state result session.new.held.state }
{
    match session.take(alloc) {
        Some(inner) => {
            drop(inner);
            DONE
        }
        None => NO_SESSION,
    }
}
