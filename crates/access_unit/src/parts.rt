//! What is stored of NAL units.
ghost use Rattle.std.specs.Prelude.{◌≡◌, [], ◌∷◌, ◌++◌, None, IfOk, IfErr, OnOk};
ghost use Rattle.access_unit.specs.Refusals.{refusal_at};
ghost use Rattle.access_unit.specs.Stored.{IsStored, IsShown, slice_of};
ghost use Rattle.std.specs.Option.{option_to_list};

use crate::checks::{check_header, check_order};
use crate::parameter_sets::{ParameterSet, read_set};
use crate::refused::Refused;
use crate::shared_nal::SharedNal;
use std::alloc::{AllocError, Global};

/// NAL units, and the slices and the parameter sets among them, in order.
#[derive(Debug, Drop)]
pub(crate) struct Parts {
    pub(crate) nals: Vec<SharedNal>,
    pub(crate) slices: Vec<SharedNal>,
    pub(crate) sets: Vec<ParameterSet>,
}

impl Parts {
    /// No parts, with room for this many NAL units.
    pub(crate) fn with_capacity(alloc: Global, nals: usize) -> Result<Parts, AllocError>
        ensures { IfOk result (IsStored []) }
    {
        Ok(Parts {
            nals: Vec::with_capacity(alloc, nals)?,
            slices: Vec::new(alloc),
            sets: Vec::new(alloc),
        })
    }

    /// Adds a NAL unit, unless it is refused after those before it.
    pub(crate) fn add(&mut self, alloc: Global, coded: SharedNal) -> Result<(), Refused>
        requires { IsStored self.old.nals.items self.old }
        ensures ok { OnOk result (IsStored (self.old.nals.items ++ coded ∷ []) self.new
            × (refusal_at self.old.nals.items coded ≡ None)) }
        ensures err { IfErr result (IsShown (refusal_at self.old.nals.items coded)) }
    {
        let nal = coded.nal();
        check_header(&nal)?;
        let set = read_set(alloc, &nal)?;
        check_order(&self.slices, &nal)?;
        push_some(&mut self.sets, set)?;
        push_some(&mut self.slices, slice_of(&coded)?)?;
        self.nals.push(coded)?;
        Ok(())
    }
}

/// The NAL unit once more, if it's a slice.
fn slice_of(coded: &SharedNal) -> Result<Option<SharedNal>, AllocError>
    ensures { IfOk result (λ slice. slice ≡ slice_of coded.now) }
{
    if coded.nal().is_slice() {
        Ok(Some(coded.clone()?))
    } else {
        Ok(None)
    }
}

/// Adds the item, if there is one.
fn push_some<T: Drop>(items: &mut Vec<T>, item: Option<T>) -> Result<(), AllocError>
    ensures { OnOk result (items.new.items ≡ items.old.items ++ option_to_list item) }
{
    if let Some(item) = item {
        items.push(item)?;
    }
    Ok(())
}
