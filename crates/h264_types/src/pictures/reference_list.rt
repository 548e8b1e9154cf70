//! A reference picture list (8.2.4).

ghost use Rattle.std.specs.Prelude.{◌≡◌, ◌≤◌, length, []};

use arrayvec::ArrayVec;
use std::marker::Model;

/// A reference picture list: each entry is the place of a frame in the marks, or missing.
#[derive(Debug, PartialEq, Eq, Drop)]
pub struct List {
    pub entries: ArrayVec<Option<u8>, 32>,
}

impl Model for List {
    ghost use Rattle.std.specs.Prelude.{ℕ, Option, List};

    ghost Value = { List (Option ℕ) };

    ghost view = { λ list. list.entries.items };

    ghost inverse = { λ items. record { entries = record { items = items } } };
}

impl List {
    /// No entries.
    pub fn new() -> List
        ensures { result ≡ [] }
    {
        List {
            entries: ArrayVec::new(),
        }
    }

    /// The entries, at most 32.
    pub fn entries(&self) -> &[Option<u8>]
        ensures value { result.now ≡ self.now }
        ensures fits { length result.now ≤ 32 }
    {
        self.entries.as_slice()
    }

    /// The same entries.
    pub fn copy(&self) -> List
        ensures { result ≡ self.now }
    {
        let mut entries = ArrayVec::new();
        let _ = entries.try_extend_from_slice(self.entries.as_slice());
        List { entries }
    }
}
