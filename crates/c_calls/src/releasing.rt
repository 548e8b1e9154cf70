//! Surfaces that go back to the host.

ghost use Rattle.std.specs.Prelude.{◌≡◌};
ghost use Rattle.c_calls.specs.Releasing.{DropsTo, GoBack, ReleasesTo, UncachesTo, as_dropped};

use crate::statuses::{DONE, NO_SUCH_UNIT, NOT_HELD};
use crate::surface_session::SurfaceSession;
use crate::telling::tell;
use decode_jobs::surfaces::Surface;
use h264_types::pictures::AuId;
use stream_session::{Dropped, Session};

/// Gives back the surface of the unit of the id. It is held no more, also for each unit that has the
/// same key; a job that is out may still refer to it.
pub fn drop_picture(session: &mut SurfaceSession, id: u32, surface: &mut u64) -> u32
    ensures { DropsTo session.old id result surface.old surface.new session.new }
{
    let answer = session.inner.drop_picture(AuId::new(id));
    tell(as_dropped(answer), surface)
}

/// What comes of dropping a unit's picture, as it is told.
fn as_dropped(answer: Dropped<Surface>) -> Result<u64, u32>
    ensures { result ≡ as_dropped answer }
{
    match answer {
        Dropped::Picture(surface) => Ok(surface.handle),
        Dropped::NotHeld => Err(NOT_HELD),
        Dropped::NoSuchUnit => Err(NO_SUCH_UNIT),
    }
}

/// Gives back the surface that was cached first; a job that is out may still refer to it.
pub fn uncache(session: &mut SurfaceSession, surface: &mut u64) -> u32
    ensures { UncachesTo session.old result surface.old surface.new session.new }
{
    match session.inner.uncache() {
        Some(found) => tell(Ok(found.handle), surface),
        None => NOT_HELD,
    }
}

/// Gives back surfaces that edits let go and to which no job that is out refers, as many as there is
/// room for, and tells how many.
pub fn released(session: &mut SurfaceSession, surfaces: &mut [u64], count: &mut usize) -> u32
    ensures { ReleasesTo session.old result surfaces.old surfaces.new count.new session.new }
{
    *count = go_back(&mut session.inner, surfaces);
    DONE
}

/// Gives released surfaces back until there is no more room, or none is left that can go.
fn go_back(session: &mut Session<Surface>, surfaces: &mut [u64]) -> usize
    ensures { GoBack session.old surfaces.old result surfaces.new session.new }
{
    for index in 0..surfaces.len() {
        match session.take_released() {
            Some(found) => surfaces[index] = found.handle,
            None => return index,
        }
    }
    surfaces.len()
}
