//! What keeps the slices of a unit from being those of one picture (7.4.1.2.4).

ghost use Rattle.std.specs.Prelude.{◌≡◌, ◌==◌, ◌∷◌, ◌&&◌, Bool, not, IsTrue, ◌↔◌, map};
ghost use Rattle.std.specs.List.{list_any};
ghost use lib.Pointwise.{pointwise};
ghost use Rattle.slice_reading.specs.Faults.{first_shown, is_redundant, rises_from, same_operation, same_marking, same_picture, slice_rows};

use crate::slices::Slice;
use h264_types::slice_headers::{DecRefPicMarking, MemoryManagementControlOperation};
use unit_outcomes::ValidityFault;

/// The first fault that the slices of a unit show by themselves: a redundant one, an order in which
/// first_mb_in_slice doesn't rise from 0 on, or a difference in what the slices of a picture share
/// (7.4.1.2.4).
///
/// The first slice stands before the others.
pub fn slice_fault(first: &Slice, others: &[Slice]) -> Option<ValidityFault>
    ensures { result ≡ first_shown (slice_rows first.now others.now) }
{
    if is_redundant(first) || has_redundant(others) {
        Some(ValidityFault::Redundant)
    } else if first.header.first_mb_in_slice != 0 || !rises(others) {
        Some(ValidityFault::SliceOrder)
    } else if has_mismatch(first, others) {
        Some(ValidityFault::SliceMismatch)
    } else {
        None
    }
}

/// Whether redundant_pic_cnt of any slice isn't 0.
fn has_redundant(slices: &[Slice]) -> bool
    ensures { result ≡ list_any is_redundant slices.now }
{
    slices.iter().any(
        |slice| -> bool
            ensures { result ≡ is_redundant slice.now }
        { is_redundant(slice) },
    )
}

/// Whether any slice differs from the first in what the slices of a picture share.
fn has_mismatch(first: &Slice, others: &[Slice]) -> bool
    ensures { result ≡ list_any (λ other. not (same_picture first.now other)) others.now }
{
    others.iter().any(
        |slice| -> bool
            ensures { result ≡ not (same_picture first.entry.now slice.now) }
        { !same_picture(first, slice) },
    )
}

/// Whether redundant_pic_cnt isn't 0.
fn is_redundant(slice: &Slice) -> bool
    ensures { result ≡ is_redundant slice.now }
{
    slice.header.redundant_pic_cnt != 0
}

/// Whether first_mb_in_slice rises from 0 on.
fn rises(slices: &[Slice]) -> bool
    ensures { result ≡ rises_from 0 slices.now }
{
    let mut last = 0;
    for slice in slices {
        if slice.header.first_mb_in_slice <= last {
            return false;
        }
        last = slice.header.first_mb_in_slice;
    }
    true
}

/// Whether two slices agree in what the slices of a picture share.
fn same_picture(a: &Slice, b: &Slice) -> bool
    ensures { result ≡ same_picture a.now b.now }
{
    a.sps().seq_parameter_set_id == b.sps().seq_parameter_set_id
        && a.header.frame_num == b.header.frame_num
        && a.header.idr_pic_id == b.header.idr_pic_id
        && a.header.pic_order_cnt_lsb == b.header.pic_order_cnt_lsb
        && a.header.delta_pic_order_cnt_bottom == b.header.delta_pic_order_cnt_bottom
        && a.header.delta_pic_order_cnt0 == b.header.delta_pic_order_cnt0
        && a.header.delta_pic_order_cnt1 == b.header.delta_pic_order_cnt1
        && same_marking(&a.header.dec_ref_pic_marking, &b.header.dec_ref_pic_marking)
}

/// Whether two slices have the same dec_ref_pic_marking.
fn same_marking(a: &DecRefPicMarking, b: &DecRefPicMarking) -> bool
    ensures { result ≡ same_marking a.now b.now }
{
    match (a, b) {
        (
            DecRefPicMarking::Idr {
                no_output_of_prior_pics_flag: no_output,
                long_term_reference_flag: long_term,
            },
            DecRefPicMarking::Idr {
                no_output_of_prior_pics_flag,
                long_term_reference_flag,
            },
        ) => no_output == no_output_of_prior_pics_flag && long_term == long_term_reference_flag,
        (DecRefPicMarking::SlidingWindow, DecRefPicMarking::SlidingWindow) => true,
        (
            DecRefPicMarking::Adaptive { operations: a },
            DecRefPicMarking::Adaptive { operations: b },
        ) => { same_operations(a.as_slice(), b.as_slice()) }
        _ => false,
    }
}

/// Whether the same operations stand in the same order.
fn same_operations(
    a: &[MemoryManagementControlOperation],
    b: &[MemoryManagementControlOperation],
) -> bool
    ensures { result ≡ pointwise same_operation a.now b.now }
{
    a == b
}
