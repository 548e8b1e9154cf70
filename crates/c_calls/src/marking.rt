//! Marks of the stream, and the units that are altered since.

ghost use Rattle.std.specs.Prelude.{ℕ, Result};
ghost use Rattle.c_calls.specs.Marking.{IsAlteredAnswer, MarksTo};
ghost use Rattle.c_calls.specs.Telling.{Tells};

use crate::statuses::{DONE, MEMORY, NO_SUCH_UNIT};
use crate::surface_session::SurfaceSession;
use crate::telling::tell;
use decode_jobs::surfaces::Surface;
use h264_types::pictures::AuId;
use stream_session::Session;

/// Marks the stream as it is; takes memory.
pub fn mark(session: &mut SurfaceSession) -> u32
    ensures { MarksTo session.old result session.new }
{
    match session.inner.mark() {
        Ok(()) => DONE,
        Err(_) => MEMORY,
    }
}

/// Whether the unit of the id is altered since the stream was marked. 1 or 0 is told.
pub fn is_altered(session: &SurfaceSession, id: u32, altered: &mut u32) -> u32
    ensures { (answer : Result ℕ ℕ) × IsAlteredAnswer session.now id answer
        × Tells answer result altered.old altered.new }
{
    tell(altered_of(&session.inner, id), altered)
}

/// 1 where the unit of the id is altered, else 0, or why nothing is told.
fn altered_of(session: &Session<Surface>, id: u32) -> Result<u32, u32>
    ensures { IsAlteredAnswer session.now id result }
{
    match session.is_altered(AuId::new(id)) {
        Some(altered) => Ok(u32::from(altered)),
        None => Err(NO_SUCH_UNIT),
    }
}
