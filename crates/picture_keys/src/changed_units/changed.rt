//! A range of places of units that changed.

ghost use Rattle.std.specs.Prelude.{◌≡◌, ◌+◌, ◌<◌, ◌≤◌, ◌^◌};
ghost use Rattle.picture_keys.specs.Ranges.{no_units, with_unit};

/// The least range of places that has every unit that changed: the first place, and how many
/// there are; 0 and 0 where none changed.
#[derive(Clone, Copy, Debug, PartialEq, Eq, Drop)]
pub struct Changed {
    pub from: u64,
    pub count: u64,
}

impl Changed {
    /// That of no unit.
    pub fn none() -> Changed
        ensures { result ≡ no_units }
    {
        Changed { from: 0, count: 0 }
    }

    /// With the unit at a place behind it.
    pub(crate) fn with_unit(self, at: u64) -> Changed
        requires behind { self.from + self.count ≤ at }
        requires fits { at + 1 < 2 ^ 64 }
        ensures { result ≡ with_unit self at }
    {
        if self.count == 0 {
            return Changed { from: at, count: 1 };
        }
        Changed {
            from: self.from,
            count: at - self.from + 1,
        }
    }
}
