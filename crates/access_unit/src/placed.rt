//! Where the slices of an access unit stand.
ghost use Rattle.std.specs.Prelude.{◌≡◌, ◌≤◌, length, IfOk};
ghost use Rattle.std.specs.List.{filter, list_all};
ghost use Rattle.annexb.specs.NalUnit.{is_slice};
ghost use Rattle.access_unit.specs.Placed.{ArePlaced, first_of, slices_among};

use crate::shared_nal::SharedNal;
use std::alloc::{AllocError, Global};
use std::boxed::Box;

/// Where the slices of an access unit stand.
#[derive(Debug, Drop)]
pub(crate) enum Slices {
    /// Among the NAL units, from this one on: no other stands after the first of them.
    From(usize),
    /// By themselves.
    Apart(Box<Vec<SharedNal>>),
}

impl Slices {
    /// The slices of an access unit of these NAL units.
    pub(crate) fn among<'a>(&'a self, nals: &'a [SharedNal]) -> &'a [SharedNal]
        requires { first_of self.now ≤ length nals.now }
        ensures { result.now ≡ slices_among nals.now self.now }
    {
        match self {
            Slices::From(first) => nals.split_at(*first).1,
            Slices::Apart(slices) => slices.as_slice(),
        }
    }
}

/// Where these slices stand, which are those of the NAL units.
pub(crate) fn placed(
    alloc: Global,
    nals: &[SharedNal],
    slices: Vec<SharedNal>,
) -> Result<Slices, AllocError>
    requires { slices.items ≡ filter is_slice nals.now }
    ensures { IfOk result (ArePlaced nals.now) }
{
    let first = nals.len().saturating_sub(slices.len());
    if are_slices(nals.split_at(first).1) {
        Ok(Slices::From(first))
    } else {
        Ok(Slices::Apart(Box::new(alloc, slices)?))
    }
}

/// Whether all NAL units are slices.
fn are_slices(nals: &[SharedNal]) -> bool
    ensures { result ≡ list_all is_slice nals.now }
{
    nals.iter().all(
        |nal: &SharedNal| -> bool
            ensures { result ≡ is_slice nal.now }
        { nal.nal().is_slice() },
    )
}
