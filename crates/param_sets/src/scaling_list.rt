//! The syntax of scaling lists (7.3.2.1.1.1).

ghost use Rattle.std.specs.Prelude.{◌≡◌, ◌≤◌, List, [], ◌∷◌, ◌++◌, replicate, length, Some};
ghost use Rattle.expgolomb.specs.TableReading.{rows_at};
ghost use Rattle.param_sets.specs.Answer.{Stores};
ghost use Rattle.h264_types.specs.ScaleSteps.{Deltas, list_size};
ghost use Rattle.param_sets.specs.Scaling.{take_list, present_row, delta_row, list_rows};

use crate::fault::{SetFault, SetField};
use crate::set_fields::small;
use expgolomb::{Bits, flag};
use h264_types::param_sets::{ScalingList, ScalingLists, scale_after};
use std::alloc::Global;

/// Reads so many scaling lists.
pub fn scaling_lists(
    alloc: Global,
    bits: &mut Bits<'_>,
    count: u8,
) -> Result<ScalingLists, SetFault>
    ensures { Stores (λ lists. lists) result bits.new
        (rows_at take_list (list_rows 0 count) [] bits.old) }
{
    let mut lists = ScalingLists::new(alloc);
    for j in 0..count {
        let list = scaling_list(alloc, bits, size_of_list(j))?;
        lists.push(list)?;
    }
    Ok(lists)
}

// A list of this size, if it is present.
fn scaling_list(
    alloc: Global,
    bits: &mut Bits<'_>,
    size: u8,
) -> Result<Option<ScalingList>, SetFault>
    ensures { (lists : List Deltas) → Stores (λ list. lists ++ list ∷ []) result bits.new
        (rows_at take_list (present_row ∷ replicate size
        (delta_row (length lists))) lists bits.old) }
{
    if flag(bits, SetFault::Cut)? {
        Ok(Some(deltas(alloc, bits, size)?))
    } else {
        Ok(None)
    }
}

// The deltas of a list of this size.
fn deltas(alloc: Global, bits: &mut Bits<'_>, size: u8) -> Result<ScalingList, SetFault>
    ensures { (lists : List Deltas) → Stores (λ list. lists ++ Some list ∷ []) result bits.new
        (rows_at take_list (replicate size (delta_row (length lists)))
        (lists ++ Some [] ∷ []) bits.old) }
{
    let wrong = SetFault::Range {
        field: SetField::Delta,
    };
    let mut list = ScalingList::new(alloc);
    let mut next = 8;
    for _i in 0..size {
        if next == 0 {
            return Ok(list);
        }
        let delta = small(bits, -128, 127, wrong)?;
        list.push(delta)?;
        next = scale_after(next, delta);
    }
    Ok(list)
}

// How many entries list number j has.
fn size_of_list(j: u8) -> u8
    ensures { result ≡ list_size j }
{
    if j < 6 { 16 } else { 64 }
}
