//! Surfaces that go back to the host.

ghost use Rattle.c_calls.specs.Releasing.{DropsTo, ReleasesTo, UncachesTo};
ghost use Rattle.cupdaisy.specs.Calls.{Does, DoesTwo};

use crate::Handle;
use c_calls::NO_SESSION;
use std::alloc::Global;

/// Gives back the surface of the unit of the id.
#[unsafe(no_mangle)]
pub extern "C" fn cupdaisy_drop_picture(
    alloc: Global,
    session: &mut Handle,
    id: u32,
    surface: &mut u64,
) -> u32
    ensures { Does session.old.held.state result surface.old surface.new session.new.held.state
        (λ old new. DropsTo old id result surface.old surface.new new) }
{
    let Some(mut inner) = session.take(alloc) else {
        return NO_SESSION;
    };
    let status = c_calls::drop_picture(&mut inner, id, surface);
    session.put(inner);
    status
}

/// Gives back the surface that was cached first.
#[unsafe(no_mangle)]
pub extern "C" fn cupdaisy_uncache(alloc: Global, session: &mut Handle, surface: &mut u64) -> u32
    ensures { Does session.old.held.state result surface.old surface.new session.new.held.state
        (λ old new. UncachesTo old result surface.old surface.new new) }
{
    let Some(mut inner) = session.take(alloc) else {
        return NO_SESSION;
    };
    let status = c_calls::uncache(&mut inner, surface);
    session.put(inner);
    status
}

/// Gives back surfaces that edits let go, as many as have room.
#[unsafe(no_mangle)]
pub extern "C" fn cupdaisy_released(
    alloc: Global,
    session: &mut Handle,
    surfaces: &mut [u64],
    count: &mut usize,
) -> u32
    ensures { DoesTwo session.old.held.state result surfaces.old surfaces.new count.old count.new
        session.new.held.state
        (λ old new. ReleasesTo old result surfaces.old surfaces.new count.new new) }
{
    let Some(mut inner) = session.take(alloc) else {
        return NO_SESSION;
    };
    let status = c_calls::released(&mut inner, surfaces, count);
    session.put(inner);
    status
}
