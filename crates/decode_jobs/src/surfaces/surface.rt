//! Surfaces.

use crate::Decoded;

/// A surface of the host's, by its handle.
#[derive(Clone, Copy, Debug, PartialEq, Eq, Drop)]
pub struct Surface {
    pub handle: u64,
}

impl Decoded for Surface {
    ghost use Rattle.std.specs.Prelude.{true};
    ghost use Rattle.decode_jobs.specs.Made.{IsPictureOf, IsPictureOf-closed};
    ghost use Rattle.decode_jobs.specs.Host.{IsMadeByHost};

    ghost IsDecoded = { IsMadeByHost };

    ghost IsOf = { IsPictureOf IsMadeByHost };

    ghost closed = { IsPictureOf-closed IsMadeByHost };

    ghost GoesBack = { true };

    fn goes_back() -> bool {
        true
    }

    fn is_same(&self, other: &Surface) -> bool {
        self.handle == other.handle
    }
}
