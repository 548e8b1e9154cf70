//! Values with several owners, and ranges that are replaced.

use crate::base::{Shared, replace_range};
use std::alloc::{AllocError, Global};

#[test]
fn refused_shared_value(rt: HostRuntime) {
    match Shared::new(rt.alloc(), 7) {
        Err(failed) => assert_eq!(rt; failed.value, 7),
        Ok(seven) => {
            assert_eq!(rt; *seven, 7);
            if let Ok(copy) = seven.clone() {
                assert_eq!(rt; *copy, 7);
            }
        }
    }
}

fn list_of(alloc: Global, numbers: &[u8]) -> Result<Vec<u8>, AllocError> {
    let mut made = Vec::with_capacity(alloc, 16)?;
    made.extend_from_slice(numbers)?;
    Ok(made)
}

fn replaced(alloc: Global, to: usize, made: &[u8]) -> Result<Vec<u8>, AllocError> {
    let mut items = list_of(alloc, &[1, 2, 3, 4, 5])?;
    let made = list_of(alloc, made)?;
    let room = items.capacity() - items.len();
    if 1 <= to && to <= items.len() && made.len() <= room {
        replace_range(&mut items, 1, to, made);
    }
    Ok(items)
}

#[test]
fn replaced_ranges(rt: HostRuntime) {
    if let Ok(fewer) = replaced(rt.alloc(), 4, &[7]) {
        assert_eq!(rt; fewer.as_slice(), [1, 7, 5].as_slice());
    }
    if let Ok(as_many) = replaced(rt.alloc(), 3, &[7, 8]) {
        assert_eq!(rt; as_many.as_slice(), [1, 7, 8, 4, 5].as_slice());
    }
    if let Ok(one_more) = replaced(rt.alloc(), 2, &[7, 8]) {
        assert_eq!(rt; one_more.as_slice(), [1, 7, 8, 3, 4, 5].as_slice());
    }
    if let Ok(more) = replaced(rt.alloc(), 2, &[7, 8, 9, 6]) {
        assert_eq!(rt; more.as_slice(), [1, 7, 8, 9, 6, 3, 4, 5].as_slice());
    }
}
