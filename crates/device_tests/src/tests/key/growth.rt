//! Calls of which any growth of memory may be refused.

use super::sweeps::are_live;
use super::{Number, ROWS, entries_of, have_classes, intern};
use decode_jobs::dep_keys::{KeyId, Keys, Sha256Fingerprint};
use std::alloc::{AllocError, AllocGlobal};
use std::process::Abort;
use std::test::Fail;

/// Interns a row again that ran out of memory, which left so many keys.
fn intern_again(
    rt: &(impl Abort + AllocGlobal),
    keys: &mut Keys<Number, Sha256Fingerprint>,
    number: u32,
    entries: &[Option<KeyId>],
    before: usize,
) -> Result<KeyId, AllocError> {
    assert!(rt; keys.len() == before);
    intern(rt, keys, number, entries)
}

/// Interns the rows; a row that runs out of memory leaves the keys as they were, and is interned
/// again.
fn intern_through(
    rt: &(impl Abort + AllocGlobal),
    keys: &mut Keys<Number, Sha256Fingerprint>,
) -> Result<Vec<KeyId>, AllocError> {
    let mut ids = Vec::with_capacity(rt.alloc(), ROWS.len())?;
    for row in ROWS {
        let entries = entries_of(rt, row, &ids)?;
        let before = keys.len();
        let id = match intern(rt, keys, row.0, &entries) {
            Ok(id) => id,
            Err(AllocError) => intern_again(rt, keys, row.0, &entries, before)?,
        };
        ids.push(id)?;
    }
    Ok(ids)
}

/// Whether a sweep that runs out of memory leaves the keys as they were; made again, it keeps row 9
/// and what is below it.
fn sweeps_through(
    keys: &mut Keys<Number, Sha256Fingerprint>,
    ids: &[KeyId],
    root: KeyId,
) -> Result<bool, AllocError> {
    if keys.sweep(&[root]).is_err() {
        if keys.len() != 11 {
            return Ok(false);
        }
        keys.sweep(&[root])?;
    }
    Ok(are_live(keys, ids, &[0, 2, 3, 4, 9, 10]) && keys.len() == 3)
}

/// Whether the rows have their classes, and a sweep keeps row 9 and what is below it.
fn goes_through(
    rt: &(impl Abort + AllocGlobal),
    keys: &mut Keys<Number, Sha256Fingerprint>,
    ids: &[KeyId],
) -> Result<bool, AllocError> {
    let Some(root) = ids.get(9).copied() else {
        return Ok(false);
    };
    Ok(have_classes(ids) && keys.len() == 11 && sweeps_through(keys, ids, root)?)
}

#[test]
fn refused_growths_leave_the_keys(rt: HostRuntime) -> Result<(), Fail> {
    let mut keys = Keys::new(rt.alloc());
    if let Ok(ids) = intern_through(&rt, &mut keys) {
        assert!(rt; goes_through(&rt, &mut keys, &ids)?);
    }
    Ok(())
}
