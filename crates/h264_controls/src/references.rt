//! The units that the frames of the decoded picture buffer were decoded from.

ghost use Rattle.std.specs.Prelude.{◌≡◌, ◌↔◌, slice_get, map, IfOk, IsTrue};
ghost use Rattle.h264_controls.specs.References.{references};
ghost use Rattle.h264_controls.specs.UnitIds.{ids_in};

use crate::few::Few;
use h264_types::pictures::{AuId, Frame, Marks};
use h264_types::slice_headers::SliceHeader;
use std::alloc::{AllocError, Global};
use std::marker::Model;

/// How many ids stand in the value itself, which takes 32 bytes with them.
const FEW: usize = 6;

/// The units of the frames of the decoded picture buffer, in the order of its entries. Few of them
/// take no memory of their own.
#[derive(Debug)]
pub struct References {
    ids: Ids,
}

// By hand, so that whoever drops one is proved over one call.
impl Drop for References {
    fn drop(self) {
        let References { ids: _ } = self;
    }
}

/// Where the ids stand.
#[derive(Debug, Drop)]
enum Ids {
    Few(Few<AuId, 6>),
    Many(Vec<AuId>),
}

impl Model for References {
    ghost use Rattle.std.specs.Prelude.{ℕ, List};
    ghost use Rattle.h264_controls.specs.UnitIds.{ids_in};

    ghost Value = { List ℕ };

    ghost view = { λ references. ids_in references.ids };
}

impl References {
    /// These units.
    pub fn new(ids: Vec<AuId>) -> References
        ensures { result ≡ ids.items }
    {
        let ids = if ids.len() <= FEW {
            Ids::Few(Few::of(AuId::new(0), &ids))
        } else {
            Ids::Many(ids)
        };
        References { ids }
    }

    /// Those of a slice with this header, before the marking of its picture.
    pub fn of(alloc: Global, marks: &Marks, header: &SliceHeader) -> Result<References, AllocError>
        ensures { IfOk result (λ units. units ≡ references marks.now.frames header.now) }
    {
        if header.is_idr() {
            Ok(References::new(Vec::new(alloc)))
        } else {
            units_of(alloc, marks.frames())
        }
    }

    /// The units, in the order of the entries.
    pub fn as_slice(&self) -> &[AuId]
        ensures { result.now ≡ self.now }
    {
        match &self.ids {
            Ids::Few(few) => few.as_slice(),
            Ids::Many(many) => many.as_slice(),
        }
    }

    /// Whether both have the same units in the same order.
    pub fn is_same(&self, other: &References) -> bool
        ensures { IsTrue result ↔ (self.now ≡ other.now) }
    {
        self.as_slice() == other.as_slice()
    }

    /// The unit of the entry at an index, if it holds a frame.
    pub fn get(&self, index: u8) -> Option<AuId>
        ensures { result ≡ slice_get self.now index }
    {
        self.as_slice().get(usize::from(index)).copied()
    }
}

/// The units of the frames.
fn units_of(alloc: Global, frames: &[Frame]) -> Result<References, AllocError>
    ensures { IfOk result (λ units. units ≡ map (λ frame. frame.id) frames.now) }
{
    let mut ids = Vec::with_capacity(alloc, frames.len())?;
    for frame in frames {
        ids.push(frame.id)?;
    }
    Ok(References::new(ids))
}
