//! The offsets of picture order count type 1 (7.4.2.1.1).

ghost use Rattle.std.specs.Prelude.{◌≡◌, ◌<◌, ◌≤◌, ℤ, List, [], ◌∷◌, ◌++◌, length, IfOk, OnErr};

use std::alloc::{AllocError, Global};
use std::marker::Model;

/// The offsets of a cycle of reference frames, offset_for_ref_frame: at most 255.
#[derive(Debug, Drop)]
pub struct Offsets {
    items: Vec<i32>,
}

impl Model for Offsets {
    ghost Value = { List ℤ };

    ghost view = { λ o. o.items.items };

    ghost invariant = { λ o. length o.items.items ≤ 255 };
}

impl Offsets {
    /// No offsets.
    pub fn new(alloc: Global) -> Self
        ensures { result ≡ [] }
    {
        Offsets {
            items: Vec::new(alloc),
        }
    }

    /// One more offset.
    pub fn push(&mut self, offset: i32) -> Result<(), AllocError>
        requires { length self.old < 255 }
        ensures pushed { IfOk result (λ _. self.new ≡ self.old ++ offset ∷ []) }
        ensures unchanged { OnErr result (self.new ≡ self.old) }
    {
        self.items.push(offset)?;
        Ok(())
    }

    /// The offsets, in the order of the cycle.
    pub fn as_slice(&self) -> &[i32]
        ensures value { result.now ≡ self.now }
        ensures bound { length self.now ≤ 255 }
    {
        self.items.as_slice()
    }
}
