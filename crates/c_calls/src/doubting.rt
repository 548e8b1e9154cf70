//! Which units follow a damage, and which of them are in doubt.

ghost use Rattle.std.specs.Prelude.{◌≡◌, ◌≤◌, length, map};
ghost use Rattle.c_calls.specs.Doubting.{TellsDoubts, as_unit_doubt};
ghost use Rattle.c_calls.specs.Grouping.{filled};

use crate::statuses::{DONE, MEMORY};
use crate::surface_session::SurfaceSession;
use stream_session::Doubt;

/// What is told of a unit behind a damage: the id of the unit that shows it, 0 where there is none, and
/// 1 where the unit is in doubt, else 0.
#[repr(C)]
#[derive(Clone, Copy, Debug, PartialEq, Eq)]
pub struct UnitDoubt {
    pub follows: u32,
    pub in_doubt: u32,
}

/// What is told of the units from a place on, as many as there is room for, or up to the last one; and
/// how many they are.
pub fn doubts(
    session: &SurfaceSession,
    from: usize,
    doubts: &mut [UnitDoubt],
    count: &mut usize,
) -> u32
    ensures { TellsDoubts session.now.register.stream from result doubts.old doubts.new count.old
        count.new }
{
    let units = session.inner.ids().len();
    let first = from.min(units);
    let taken = doubts.len().min(units - first);
    match session.inner.doubts(first, taken) {
        Ok(found) => {
            fill_doubts(&found, doubts);
            *count = taken;
            DONE
        }
        Err(_) => MEMORY,
    }
}

/// Writes what is told of each unit, at the start of what is there.
fn fill_doubts(from: &[Doubt], doubts: &mut [UnitDoubt])
    requires { length from.now ≤ length doubts.old }
    ensures { doubts.new ≡ filled (map as_unit_doubt from.now) doubts.old }
{
    for index in 0..from.len() {
        doubts[index] = as_unit_doubt(from[index]);
    }
}

/// A unit's doubt, as it is told.
fn as_unit_doubt(doubt: Doubt) -> UnitDoubt
    ensures { result ≡ as_unit_doubt doubt }
{
    UnitDoubt {
        follows: match doubt.follows {
            Some(id) => id.number(),
            None => 0,
        },
        in_doubt: u32::from(doubt.in_doubt),
    }
}
