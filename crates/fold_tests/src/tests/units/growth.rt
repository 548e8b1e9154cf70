//! Calls of which any growth of memory may be refused.

use access_unit::{Refused, SharedNal, StreamRefused, Unit, read_shared, read_stream, read_unit};
use bytes::Bytes;

/// Three units, one of them with sets.
const STREAM: [u8; 36] = [
    0, 0, 1, 0x67, 0x42, 0x00, 0x0A, 0xDA, 0x79, 0, 0, 1, 0x68, 0xCE, 0x38, 0x80, 0, 0, 1, 0x65,
    0x88, 0x84, 0x80, 0, 0, 1, 0x41, 0x9A, 0x23, 0, 0, 1, 0x41, 0x9A, 0x43, 0,
];

/// The slice's bytes are seven with their start code, where there is memory for them.
fn has_seven_bytes(slice: &SharedNal) -> bool {
    match slice.coded() {
        Ok(bytes) => bytes.len() == 7,
        Err(_) => true,
    }
}

/// The first unit, or the lack of memory.
fn is_first_unit(read: &Result<Unit, Refused>) -> bool {
    match read {
        Err(refused) => *refused == Refused::Memory,
        Ok(unit) => {
            unit.nals().len() == 3
                && unit.sets().len() == 2
                && unit.slices().iter().all(has_seven_bytes)
        }
    }
}

#[test]
fn refused_growth_of_a_unit(rt: HostRuntime) {
    assert!(rt; is_first_unit(&read_unit(rt.alloc(), &STREAM[..23])));
}

#[test]
fn refused_growth_of_a_shared_text(rt: HostRuntime) {
    if let Ok(text) = Bytes::copy_from_slice(rt.alloc(), &STREAM[..23]) {
        assert!(rt; is_first_unit(&read_shared(rt.alloc(), &text)));
    }
}

#[test]
fn refused_growth_of_a_stream(rt: HostRuntime) {
    let is_read = match read_stream(&rt, rt.alloc(), &STREAM) {
        Err(refused) => refused == StreamRefused::Memory,
        Ok(units) => units.len() == 3,
    };
    assert!(rt; is_read);
}
