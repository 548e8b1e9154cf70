//! What the fold keeps of the units before.

ghost use Rattle.std.specs.Prelude.{◌≡◌, ◌↔◌, IfOk, IsTrue};
ghost use Rattle.request_core.specs.States.{no_units};
ghost use Rattle.request_core.specs.Agreement.{Agreement};

use h264_types::base::Shared;
use h264_types::param_sets::Sps;
use h264_types::pictures::{Frame, Marks};
use slice_decoding::order_count::Anchor;
use slice_reading::Tables;
use std::alloc::{AllocError, Global};
use std::marker::Model;

/// What the fold keeps of the units before: the parameter sets, shared, and little else.
#[derive(Debug)]
pub struct State {
    pub(crate) tables: Shared<Tables>,
    /// The set of the last IDR picture.
    pub(crate) active: Option<Shared<Sps>>,
    pub(crate) anchor: Anchor,
    /// PrevRefFrameNum (7.4.3).
    pub(crate) prev_ref_frame_num: u16,
    /// Shared, so that a state is copied and moved without the frames.
    pub(crate) marks: Shared<Marks>,
}

// By hand, so that whoever drops one is proved over one call.
impl Drop for State {
    fn drop(self) {
        let State {
            tables: _,
            active: _,
            anchor: _,
            prev_ref_frame_num: _,
            marks: _,
        } = self;
    }
}

impl Model for State {
    ghost use Rattle.request_core.specs.States.{FoldState};

    ghost Value = { FoldState };

    ghost view = { λ state. record {
      tables = state.tables;
      active = state.active;
      anchor = state.anchor;
      prev_ref_frame_num = state.prev_ref_frame_num;
      marks = state.marks;
    } };
}

impl State {
    /// The state before the first unit.
    pub fn new(alloc: Global) -> Result<State, AllocError>
        ensures { IfOk result (λ state. state ≡ no_units) }
    {
        Ok(State {
            tables: Shared::new(alloc, Tables::new(alloc)?)?,
            active: None,
            anchor: Anchor::new(),
            prev_ref_frame_num: 0,
            marks: Shared::new(alloc, Marks::new())?,
        })
    }

    /// The same state; it shares what is large.
    pub fn copy(&self) -> Result<State, AllocError>
        ensures { IfOk result (λ copy. copy ≡ self.now) }
    {
        Ok(State {
            tables: self.tables.clone()?,
            active: self.active()?,
            anchor: self.anchor,
            prev_ref_frame_num: self.prev_ref_frame_num,
            marks: self.marks.clone()?,
        })
    }

    /// Whether both are the same: the sets in the tables by their contents, the marked frames with
    /// their ids, in decode order.
    pub fn is_same(&self, other: &State) -> bool
        ensures { IsTrue result ↔ (self.now ≡ other.now) }
    {
        self.prev_ref_frame_num == other.prev_ref_frame_num
            && self.marks.is_same(&other.marks)
            && same_anchor(self.anchor, other.anchor)
            && same_active(&self.active, &other.active)
            && self.tables.is_same(&other.tables)
    }

    /// The frames that are marked as references, in decode order.
    pub fn frames(&self) -> &[Frame]
        ensures { result.now ≡ self.now.marks.frames }
    {
        self.marks.frames()
    }

    /// The set of the last IDR picture, shared.
    pub(crate) fn active(&self) -> Result<Option<Shared<Sps>>, AllocError>
        ensures { IfOk result (λ active. active ≡ self.now.active) }
    {
        match &self.active {
            Some(active) => Ok(Some(active.clone()?)),
            None => Ok(None),
        }
    }
}

/// Whether counting goes on alike.
fn same_anchor(a: Anchor, b: Anchor) -> bool
    ensures { IsTrue result ↔ (a ≡ b) }
{
    a.prev_pic_order_cnt_msb == b.prev_pic_order_cnt_msb
        && a.prev_pic_order_cnt_lsb == b.prev_pic_order_cnt_lsb
        && a.prev_frame_num_offset == b.prev_frame_num_offset
        && a.prev_frame_num == b.prev_frame_num
}

/// Whether both have the same set, or none.
fn same_active(a: &Option<Shared<Sps>>, b: &Option<Shared<Sps>>) -> bool
    ensures { IsTrue result ↔ (a.now ≡ b.now) }
{
    match (a, b) {
        (Some(a), Some(b)) => a.is_same(b),
        (None, None) => true,
        _ => false,
    }
}

/// Where the folds over two streams agree in state, which `State::is_same` tests, they agree in all
/// outcomes of further units, the same after both.
pub fn agreement()
    ensures { Agreement }
{}
