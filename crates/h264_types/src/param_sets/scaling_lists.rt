//! Scaling lists as they were read (7.3.2.1.1.1).

ghost use Rattle.std.specs.Prelude.{◌≡◌, ℤ, List, [], ◌∷◌, ◌++◌, Option, IfOk, OnErr};

use std::alloc::{AllocError, Global};
use std::marker::Model;

/// A scaling list as it was read: its deltas.
#[derive(Debug, Drop)]
pub struct ScalingList {
    deltas: Vec<i8>,
}

impl Model for ScalingList {
    ghost Value = { List ℤ };

    ghost view = { λ l. l.deltas.items };
}

impl ScalingList {
    /// A list of which nothing is read.
    pub fn new(alloc: Global) -> Self
        ensures { result ≡ [] }
    {
        ScalingList {
            deltas: Vec::new(alloc),
        }
    }

    /// One more delta.
    pub fn push(&mut self, delta: i8) -> Result<(), AllocError>
        ensures pushed { IfOk result (λ _. self.new ≡ self.old ++ delta ∷ []) }
        ensures unchanged { OnErr result (self.new ≡ self.old) }
    {
        self.deltas.push(delta)?;
        Ok(())
    }

    /// The deltas, in order.
    pub fn deltas(&self) -> &[i8]
        ensures { result.now ≡ self.now }
    {
        self.deltas.as_slice()
    }
}

/// The scaling lists of a parameter set as they were read, each or nothing.
#[derive(Debug, Drop)]
pub struct ScalingLists {
    lists: Vec<Option<ScalingList>>,
}

impl Model for ScalingLists {
    ghost Value = { List (Option (List ℤ)) };

    ghost view = { λ l. l.lists.items };
}

impl ScalingLists {
    /// No lists.
    pub fn new(alloc: Global) -> Self
        ensures { result ≡ [] }
    {
        ScalingLists {
            lists: Vec::new(alloc),
        }
    }

    /// One more list.
    pub fn push(&mut self, list: Option<ScalingList>) -> Result<(), AllocError>
        ensures pushed { IfOk result (λ _. self.new ≡ self.old ++ list ∷ []) }
        ensures unchanged { OnErr result (self.new ≡ self.old) }
    {
        self.lists.push(list)?;
        Ok(())
    }

    /// The lists, in order.
    pub fn as_slice(&self) -> &[Option<ScalingList>]
        ensures { result.now ≡ self.now }
    {
        self.lists.as_slice()
    }
}
