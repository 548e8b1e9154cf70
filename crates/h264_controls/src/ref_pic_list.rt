//! A reference list of a control.

ghost use Rattle.std.specs.Prelude.{◌≡◌, ◌↔◌, ◌≤◌, length, IfOk, IsTrue};
ghost use Rattle.h264_controls.specs.ListEntries.{entries_in};

use crate::few::Few;
use h264_types::pictures::List;
use std::alloc::{AllocError, Global};
use std::boxed::Box;
use std::marker::Model;

/// How many entries stand in the list itself, which takes 16 bytes with them.
const FEW: usize = 7;

/// The active entries of a reference list, at most 32: each the index of an entry of the decoded
/// picture buffer, or missing. A short list takes no memory of its own.
#[derive(Debug)]
pub struct RefPicList {
    entries: Entries,
}

// By hand, so that whoever drops one is proved over one call.
impl Drop for RefPicList {
    fn drop(self) {
        let RefPicList { entries: _ } = self;
    }
}

/// Where the entries of a list stand.
#[derive(Debug, Drop)]
enum Entries {
    Few(Few<Option<u8>, 7>),
    Many(Box<Vec<Option<u8>>>),
}

impl Model for RefPicList {
    ghost use Rattle.std.specs.Prelude.{ℕ, ◌≤◌, List, Option, length};
    ghost use Rattle.h264_controls.specs.ListEntries.{entries_in};

    ghost Value = { List (Option ℕ) };

    ghost view = { λ list. entries_in list.entries };

    ghost invariant = { λ list. length (entries_in list.entries) ≤ 32 };
}

impl RefPicList {
    /// The list with these entries.
    pub fn of(alloc: Global, list: &List) -> Result<RefPicList, AllocError>
        ensures { IfOk result (λ entries. entries ≡ list.now) }
    {
        RefPicList::with_entries(alloc, list.entries())
    }

    /// The list with these entries.
    fn with_entries(alloc: Global, entries: &[Option<u8>]) -> Result<RefPicList, AllocError>
        requires { length entries.now ≤ 32 }
        ensures { IfOk result (λ list. list ≡ entries.now) }
    {
        let entries = if entries.len() <= FEW {
            Entries::Few(Few::of(None, entries))
        } else {
            Entries::Many(Box::new(alloc, Vec::from_slice(alloc, entries)?)?)
        };
        Ok(RefPicList { entries })
    }

    /// The entries, in order.
    pub fn entries(&self) -> &[Option<u8>]
        ensures value { result.now ≡ self.now }
        ensures fits { length result.now ≤ 32 }
    {
        match &self.entries {
            Entries::Few(few) => few.as_slice(),
            Entries::Many(many) => many.as_slice(),
        }
    }

    /// The same entries.
    pub fn copy(&self) -> Result<RefPicList, AllocError>
        ensures { IfOk result (λ copy. copy ≡ self.now) }
    {
        match &self.entries {
            Entries::Few(few) => Ok(RefPicList {
                entries: Entries::Few(Few::of(None, few.as_slice())),
            }),
            Entries::Many(many) => RefPicList::with_entries(*many.allocator(), many.as_slice()),
        }
    }

    /// Whether both have the same entries in the same order.
    pub fn is_same(&self, other: &RefPicList) -> bool
        ensures { IsTrue result ↔ (self.now ≡ other.now) }
    {
        self.entries() == other.entries()
    }
}
