//! The keys of units: what their pictures are made of.

ghost use Rattle.std.specs.Prelude.{◌≡◌, ◌↔◌, ℕ, Contains, IsTrue, Result, Some};
ghost use Rattle.c_calls.specs.Keys.{IsKeyOf, TellsUse};
ghost use Rattle.c_calls.specs.Statuses.{done};
ghost use Rattle.c_calls.specs.Telling.{Tells};

use crate::statuses::{DONE, NO_SUCH_UNIT, NOT_VALID};
use crate::surface_session::SurfaceSession;
use crate::telling::tell;
use decode_jobs::dep_keys::KeyId;
use decode_jobs::surfaces::Surface;
use h264_types::pictures::AuId;
use stream_session::Session;

/// The number of the key of the unit of the id: units have equal numbers exactly where their
/// pictures are made alike, and a number stays while some unit has its key.
pub fn key(session: &SurfaceSession, id: u32, key: &mut u64) -> u32
    ensures { (answer : Result ℕ ℕ) × IsKeyOf session.now id answer
        × Tells answer result key.old key.new }
{
    tell(key_of(&session.inner, id), key)
}

/// The number of the key of the unit of the id, or why there is none.
fn key_of(session: &Session<Surface>, id: u32) -> Result<u64, u32>
    ensures { IsKeyOf session.now id result }
{
    match session.key(AuId::new(id)) {
        Ok(Some(key)) => Ok(key.number()),
        Ok(None) => Err(NOT_VALID),
        Err(_) => Err(NO_SUCH_UNIT),
    }
}

/// Whether a number is that of a key in use: of one that some unit of the stream has. 1 or 0 is
/// told.
pub fn in_use(session: &SurfaceSession, key: u64, in_use: &mut u32) -> u32
    ensures { (result ≡ done) × TellsUse session.now.numbers key in_use.new }
{
    *in_use = u32::from(is_among(session.inner.numbers(), key));
    DONE
}

/// Whether a number is among those of units.
fn is_among(numbers: &[Option<KeyId>], key: u64) -> bool
    ensures { IsTrue result ↔ Contains numbers.now (Some key) }
{
    for number in numbers {
        if is_number(*number, key) {
            return true;
        }
    }
    false
}

/// Whether this is that number.
fn is_number(number: Option<KeyId>, key: u64) -> bool
    ensures { IsTrue result ↔ (number ≡ Some key) }
{
    match number {
        Some(number) => number.number() == key,
        None => false,
    }
}
