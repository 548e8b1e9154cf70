//! Snapshots that are read, and those that are refused.

use crate::snapshots::{Snapshot, SnapshotRefused};
use bytes::Bytes;
use h264_types::pictures::AuId;
use std::alloc::{AllocError, Global};

/// An IDR picture without its sets.
static I: [u8; 7] = [0, 0, 1, 0x65, 0x88, 0x84, 0x80];

/// The same without its start code.
static NONE: [u8; 4] = [0x65, 0x88, 0x84, 0x80];

/// A snapshot of units of one text under these ids.
fn snapshot(
    alloc: Global,
    text: &'static [u8],
    ids: &[u32],
    ids_given: u32,
) -> Result<Snapshot, AllocError> {
    let mut units = Vec::with_capacity(alloc, ids.len())?;
    for id in ids {
        units.push((AuId::new(*id), Bytes::from_static(text)))?;
    }
    Ok(Snapshot::new(units, ids_given))
}

/// How many units are read of the snapshot of this text and these ids, and how many ids were given.
fn read(
    alloc: Global,
    text: &'static [u8],
    ids: &[u32],
    ids_given: u32,
) -> Result<(usize, u32), SnapshotRefused> {
    let read = snapshot(alloc, text, ids, ids_given)?.read(alloc)?;
    Ok((read.units().len(), read.ids_given()))
}

#[test]
fn reads_units_under_ids_that_were_given(rt: HostRuntime) {
    assert!(rt; read(rt.alloc(), &I, &[7, 1, 9], 9) == Ok((3, 9)));
    assert!(rt; read(rt.alloc(), &I, &[], 4) == Ok((0, 4)));
}

/// Ids that no stream has, and how many were given.
const REFUSED: [(&[u32], u32); 4] = [(&[0], 1), (&[1, 3, 1], 3), (&[2, 2], 2), (&[1, 3], 2)];

#[test]
fn refuses_ids_of_no_stream(rt: HostRuntime) {
    for (ids, ids_given) in REFUSED {
        assert!(rt; read(rt.alloc(), &I, ids, ids_given) == Err(SnapshotRefused::NoStream));
    }
}

#[test]
fn refuses_a_text_of_no_unit(rt: HostRuntime) {
    assert!(rt; read(rt.alloc(), &NONE, &[1], 1) == Err(SnapshotRefused::NoStream));
}

/// How many units of a snapshot of so many are read.
fn read_many(alloc: Global, count: u32) -> Result<(usize, u32), SnapshotRefused> {
    let mut ids = Vec::new(alloc);
    for before in 0..count {
        ids.push(before + 1)?;
    }
    read(alloc, &I, &ids, count)
}

#[test]
fn refuses_more_than_65_536_units(rt: HostRuntime) {
    assert!(rt; read_many(rt.alloc(), 65_537) == Err(SnapshotRefused::NoStream));
}

#[test]
fn refused_snapshot(rt: HostRuntime) {
    let first = read(rt.alloc(), &I, &[1, 2], 2);
    if first == Err(SnapshotRefused::Memory) {
        assert!(rt; read(rt.alloc(), &I, &[1, 2], 2) == Ok((2, 2)));
    } else {
        assert!(rt; first == Ok((2, 2)));
    }
}
