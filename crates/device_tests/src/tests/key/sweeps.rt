//! What a sweep keeps, and numbers that are given again.

use super::{Number, Zeros, have_classes, intern, intern_rows};
use decode_jobs::dep_keys::{Fingerprint, KeyId, Keys};
use std::alloc::{AllocError, AllocGlobal};
use std::process::Abort;
use std::test::Fail;

/// Whether just these rows' keys are live.
pub(super) fn are_live<F: Fingerprint<Number>>(
    keys: &Keys<Number, F>,
    ids: &[KeyId],
    rows: &[usize],
) -> bool {
    for (row, id) in ids.iter().enumerate() {
        if keys.is_live(*id) != rows.contains(&row) {
            return false;
        }
    }
    true
}

/// Whether the key of row 9 has its work and its entries, the rows 3, 3 and 0.
fn is_row_9<F: Fingerprint<Number>>(keys: &Keys<Number, F>, ids: &[KeyId], root: KeyId) -> bool {
    match keys.node(root) {
        Some(node) => node.content().number == 4 && are_entries(node.entries(), ids),
        None => false,
    }
}

fn are_entries(entries: &[Option<KeyId>], ids: &[KeyId]) -> bool {
    let [Some(first), Some(second), Some(last)] = entries else {
        return false;
    };
    ids.get(3) == Some(first) && ids.get(3) == Some(second) && ids.get(0) == Some(last)
}

/// Whether a sweep keeps the keys of row 9 and of all below it, and no others.
fn keeps_row_9<F: Fingerprint<Number>>(
    keys: &mut Keys<Number, F>,
    ids: &[KeyId],
    root: KeyId,
) -> Result<bool, AllocError> {
    keys.sweep(&[root])?;
    Ok(are_live(keys, ids, &[0, 2, 3, 4, 9, 10]) && keys.len() == 3 && is_row_9(keys, ids, root))
}

/// Whether the rows that were kept have the numbers that they had.
fn have_their_numbers(ids: &[KeyId], again: &[KeyId]) -> bool {
    again.get(9) == ids.get(9) && again.get(4) == ids.get(3) && again.get(2) == ids.get(0)
}

/// Whether a sweep keeps the keys of a root and of all below it, under their numbers.
fn sweeps_rows<F: Fingerprint<Number>>(
    rt: &(impl Abort + AllocGlobal),
    keys: &mut Keys<Number, F>,
) -> Result<bool, AllocError> {
    let ids = intern_rows(rt, keys)?;
    let Some(root) = ids.get(9).copied() else {
        return Ok(false);
    };
    if !keeps_row_9(keys, &ids, root)? {
        return Ok(false);
    }
    let again = intern_rows(rt, keys)?;
    Ok(have_classes(&again) && keys.len() == 11 && have_their_numbers(&ids, &again))
}

#[test]
fn sweep_keeps_what_is_below_a_root(rt: HostRuntime) -> Result<(), Fail> {
    let mut keys = Keys::new(rt.alloc());
    assert!(rt; sweeps_rows(&rt, &mut keys)?);
    Ok(())
}

#[test]
fn sweep_keeps_what_is_below_a_root_by_a_fingerprint_of_zeros(rt: HostRuntime) -> Result<(), Fail> {
    let mut keys = Keys::with(rt.alloc(), Zeros);
    assert!(rt; sweeps_rows(&rt, &mut keys)?);
    Ok(())
}

/// Whether a key over the one that is kept has the number 1, and a sweep for that one drops it.
fn comes_and_goes<F: Fingerprint<Number>>(
    rt: &(impl Abort + AllocGlobal),
    keys: &mut Keys<Number, F>,
    number: u32,
    kept: KeyId,
) -> Result<bool, AllocError> {
    let newest = intern(rt, keys, number, &[Some(kept)])?;
    keys.sweep(&[kept])?;
    Ok(newest.number() == 1 && keys.len() == 1 && !keys.is_live(newest))
}

/// Whether a number is given again once its key is live no more, and never while it is.
fn gives_numbers_again<F: Fingerprint<Number>>(
    rt: &(impl Abort + AllocGlobal),
    keys: &mut Keys<Number, F>,
) -> Result<bool, AllocError> {
    let kept = intern(rt, keys, 0, &[])?;
    for number in 1..100 {
        if !comes_and_goes(rt, keys, number, kept)? {
            return Ok(false);
        }
    }
    let newest = intern(rt, keys, 100, &[])?;
    keys.sweep(&[newest])?;
    let is_alone = keys.len() == 1 && !keys.is_live(kept);
    keys.sweep(&[kept])?;
    Ok(kept.number() == 0 && is_alone && keys.is_empty())
}

#[test]
fn numbers_of_dead_keys_are_given_again(rt: HostRuntime) -> Result<(), Fail> {
    let mut keys = Keys::new(rt.alloc());
    assert!(rt; gives_numbers_again(&rt, &mut keys)?);
    Ok(())
}
