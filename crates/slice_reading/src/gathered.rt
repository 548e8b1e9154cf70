//! What the slices of a unit give: all that they have, or the least of their faults.

ghost use Rattle.std.specs.Prelude.{◌≡◌, [], OnOk, OnErr, IfOk, Ok, Err, Result, List, length, ◌-◌, option_copied, slice_get};
ghost use Rattle.unit_outcomes.specs.declared.validity_fault.ValidityFault.{ValidityFault};
ghost use Rattle.unit_outcomes.specs.Numbers.{number_of};
ghost use Rattle.slice_reading.specs.Numbers.{lower, gathered};
ghost use Rattle.slice_reading.specs.Answers.{Answers, AnswersAs};
ghost use Rattle.slice_reading.specs.Gathering.{gathered_after, lower_after};

use crate::unplanned::Unplanned;
use std::alloc::{AllocError, Global};
use std::marker::Model;
use unit_outcomes::ValidityFault;

/// What slices gave so far: an item each, or of those that showed a fault the fault of the lowest
/// number.
#[derive(Debug, Drop)]
pub struct Gathered<T> {
    items: Vec<T>,
    fault: Option<ValidityFault>,
}

impl<T> Model for Gathered<T> {
    ghost use Rattle.std.specs.Prelude.{Result, List};
    ghost use Rattle.unit_outcomes.specs.declared.validity_fault.ValidityFault.{ValidityFault};
    ghost use Rattle.slice_reading.specs.Gathering.{found};

    ghost Value = { Result (List T) ValidityFault };

    ghost view = { λ gathered. found gathered.items.items gathered.fault };
}

impl<T: Drop> Gathered<T> {
    /// Nothing yet, with room for what this many slices give.
    pub fn with_capacity(alloc: Global, slices: usize) -> Result<Gathered<T>, AllocError>
        ensures { IfOk result (λ gathered. gathered ≡ Ok []) }
    {
        Ok(Gathered {
            items: Vec::with_capacity(alloc, slices)?,
            fault: None,
        })
    }

    /// Adds what one more slice gives.
    ///
    /// Where memory runs out, for this or by the slice, nothing is added.
    pub fn add(&mut self, answer: Result<T, Unplanned>) -> Result<(), AllocError>
        ensures added { (says : Result T ValidityFault) → Answers answer says
            → OnOk result (self.new ≡ gathered_after self.old says) }
        ensures kept { OnErr result (self.new ≡ self.old) }
    {
        match answer {
            Ok(item) => self.push(item),
            Err(Unplanned::Fault(fault)) => {
                self.add_fault(fault);
                Ok(())
            }
            Err(Unplanned::Memory) => Err(AllocError),
        }
    }

    /// Adds an item.
    #[inline(always)]
    pub(crate) fn push(&mut self, item: T) -> Result<(), AllocError>
        ensures added { OnOk result (self.new ≡ gathered_after self.old (Ok item)) }
        ensures kept { OnErr result (self.new ≡ self.old) }
    {
        self.items.push(item)?;
        Ok(())
    }

    /// Adds a fault.
    pub(crate) fn add_fault(&mut self, fault: ValidityFault)
        ensures { self.new ≡ gathered_after self.old (Err fault) }
    {
        self.fault = Some(lower(self.fault, fault));
    }

    /// The last item, also where there is a fault.
    pub(crate) fn last(&self) -> Option<&T>
        ensures { (items : List T) → self.now ≡ Ok items
            → option_copied result ≡ slice_get items (length items - 1) }
    {
        self.items.last()
    }

    /// All that the slices have, or the least fault.
    pub fn finish(self) -> Result<Vec<T>, Unplanned>
        ensures { AnswersAs (λ items. items.items) result self }
    {
        match self.fault {
            None => Ok(self.items),
            Some(fault) => Err(Unplanned::Fault(fault)),
        }
    }
}

/// The fault of the lower number of this one and one before, if there was one.
fn lower(before: Option<ValidityFault>, fault: ValidityFault) -> ValidityFault
    ensures { result ≡ lower_after before fault }
{
    match before {
        Some(other) if other.number() <= fault.number() => other,
        _ => fault,
    }
}
