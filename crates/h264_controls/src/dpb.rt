//! The decoded picture buffer of a control.

ghost use Rattle.std.specs.Prelude.{◌≡◌, ◌↔◌, ◌<◌, ◌≤◌, [], ◌∷◌, ◌++◌, length, IfOk, OnErr, OnOk, IsTrue};

use crate::v4l2_ctrl_h264_decode_params::V4l2H264DpbEntry;
use std::alloc::{AllocError, Global};
use std::marker::Model;

/// The entries of the decoded picture buffer that hold a frame, in order: at most 16.
#[derive(Debug, Drop)]
pub struct Dpb {
    entries: Vec<V4l2H264DpbEntry>,
}

impl Model for Dpb {
    ghost use Rattle.std.specs.Prelude.{◌≤◌, List, length};
    ghost use Rattle.h264_controls.specs.declared.v4l2_ctrl_h264_decode_params.V4l2H264DpbEntry.{V4l2H264DpbEntry};

    ghost Value = { List V4l2H264DpbEntry };

    ghost view = { λ dpb. dpb.entries.items };

    ghost invariant = { λ dpb. length dpb.entries.items ≤ 16 };
}

impl Dpb {
    /// No entries, and room for this many.
    pub fn with_capacity(alloc: Global, entries: usize) -> Result<Dpb, AllocError>
        ensures { IfOk result (λ dpb. dpb ≡ []) }
    {
        Ok(Dpb {
            entries: Vec::with_capacity(alloc, entries)?,
        })
    }

    /// One entry more, after the others.
    pub fn push(&mut self, entry: V4l2H264DpbEntry) -> Result<(), AllocError>
        requires { length self.old < 16 }
        ensures pushed { OnOk result (self.new ≡ self.old ++ entry ∷ []) }
        ensures unchanged { OnErr result (self.new ≡ self.old) }
    {
        self.entries.push(entry)?;
        Ok(())
    }

    /// The entries, in order.
    pub fn as_slice(&self) -> &[V4l2H264DpbEntry]
        ensures value { result.now ≡ self.now }
        ensures fits { length result.now ≤ 16 }
    {
        self.entries.as_slice()
    }

    /// Whether both have the same entries in the same order.
    pub fn is_same(&self, other: &Dpb) -> bool
        ensures { IsTrue result ↔ (self.now ≡ other.now) }
    {
        self.as_slice() == other.as_slice()
    }
}
