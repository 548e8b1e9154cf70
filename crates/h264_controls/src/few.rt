//! Items that stand in the value itself.

ghost use Rattle.std.specs.Prelude.{◌≡◌, ◌≤◌, ◌<◌, length};

use std::marker::Model;

/// At most N items, which take no memory of their own.
#[derive(Debug, Drop)]
pub(crate) struct Few<T, const N: usize> {
    len: u8,
    items: [T; N],
}

impl<T, const N: usize> Model for Few<T, N> {
    ghost use Rattle.std.specs.Prelude.{◌≤◌, List, take};

    ghost Value = { List T };

    ghost view = { λ few. take few.len few.items };

    ghost invariant = { λ few. few.len ≤ N };
}

impl<T: Copy, const N: usize> Few<T, N> {
    /// These items. The places that are left have the blank.
    pub(crate) fn of(blank: T, items: &[T]) -> Few<T, N>
        requires fit { length items.now ≤ N }
        requires few { length items.now < 256 }
        ensures { result ≡ items.now }
    {
        let mut places = [blank; N];
        let len = items.len();
        places[..len].copy_from_slice(items);
        Few {
            len: len as u8,
            items: places,
        }
    }

    /// The items, in order.
    pub(crate) fn as_slice(&self) -> &[T]
        ensures value { result.now ≡ self.now }
        ensures fit { length result.now ≤ N }
    {
        &self.items[..usize::from(self.len)]
    }
}
