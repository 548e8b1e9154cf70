//! Calls of which any growth of memory may be refused.

use annexb::{Nal, SplitFault, cut_units, join, payload, split};
use std::alloc::Global;

/// Four units, which are two access units.
const UNITS: [u8; 20] = [
    0, 0, 1, 0x67, 1, 0, 0, 1, 0x68, 2, 0, 0, 1, 0x65, 0x88, 0, 0, 1, 0x41, 0x9A,
];

/// The units joined are the text, where memory is there.
fn joins(alloc: Global, units: &[Nal<'_>]) -> bool {
    match join(alloc, units) {
        Ok(text) => text.as_slice() == UNITS.as_slice(),
        Err(_) => true,
    }
}

/// The units are two access units, where memory is there.
fn cuts(alloc: Global, units: &[Nal<'_>]) -> bool {
    match cut_units(alloc, units) {
        Ok(ranges) => ranges.len() == 2,
        Err(_) => true,
    }
}

/// The payload of the first unit is its bytes, where memory is there.
fn takes_payload(alloc: Global, units: &[Nal<'_>]) -> bool {
    match units.first() {
        Some(nal) => match payload(alloc, nal) {
            Ok(payload) => payload.as_slice() == nal.bytes(),
            Err(_) => true,
        },
        None => false,
    }
}

#[test]
fn refused_growth_of_a_text(rt: HostRuntime) {
    let alloc = rt.alloc();
    match split(alloc, &UNITS) {
        Ok(nals) => {
            assert!(rt;
                nals.len() == 4
                    && joins(alloc, &nals)
                    && cuts(alloc, &nals)
                    && takes_payload(alloc, &nals)
            );
        }
        Err(fault) => assert!(rt; fault == SplitFault::Memory),
    }
}

/// The same units, and after them 00 00 02.
const FORBIDDEN: [u8; 23] = [
    0, 0, 1, 0x67, 1, 0, 0, 1, 0x68, 2, 0, 0, 1, 0x65, 0x88, 0, 0, 1, 0x41, 0x9A, 0, 0, 2,
];

#[test]
fn refused_growth_hides_no_fault(rt: HostRuntime) {
    let found = split(rt.alloc(), &FORBIDDEN).err();
    assert!(rt; found == Some(SplitFault::ForbiddenBytes { at: 20 }));
}
