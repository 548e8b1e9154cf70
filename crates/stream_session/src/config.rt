//! What a session is made with.

ghost use Rattle.std.specs.Prelude.{◌≡◌, ◌≤◌, false, true};
ghost use Rattle.held_pictures.specs.Bounded.{most_capacity};
ghost use Rattle.stream_session.specs.declared.config.ConfigFault.TheVariants.{Memory};
ghost use Rattle.stream_session.specs.Numbers.{number_of_config};

use picture_store::MOST_CAPACITY;
use std::alloc::AllocError;
use thiserror::Error;

/// What a session is made with.
#[derive(Clone, Copy, Debug, PartialEq, Eq)]
pub struct Config {
    /// How many pictures the cache has room for, 1 to `MOST_ROOM`.
    pub cache: u16,
}

impl Config {
    /// Whether the cache's room is in its range.
    pub(crate) fn is_in_range(self) -> bool
        ensures yes { result ≡ true → (1 ≤ self.cache) × (self.cache ≤ most_capacity) }
        ensures no { result ≡ false → (1 ≤ self.cache) × (self.cache ≤ most_capacity) → ⊥ }
    {
        self.cache > 0 && self.cache <= MOST_CAPACITY
    }
}

/// Why no session is made.
#[derive(Clone, Copy, Debug, PartialEq, Eq, Hash, Error)]
pub enum ConfigFault {
    /// The room of the cache is out of its range.
    #[error("Cache")]
    Cache,
    /// A growth was refused.
    #[error("Memory")]
    Memory,
}

impl ConfigFault {
    /// The fault's number, from 1 in the order above.
    pub fn number(self) -> u8
        ensures { result ≡ number_of_config self }
    {
        match self {
            ConfigFault::Cache => 1,
            ConfigFault::Memory => 2,
        }
    }
}

impl From<AllocError> for ConfigFault {
    ghost from_gives = { λ error fault. fault ≡ Memory };

    fn from(_: AllocError) -> ConfigFault {
        ConfigFault::Memory
    }
}
