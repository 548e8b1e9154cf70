//! Keys of the pictures of streams.

ghost use Rattle.std.specs.Prelude.{replicate};

use access_unit::Unit;
use decode_jobs::dep_keys::{Fingerprint, KeyId, Keys, Node, Sha256Fingerprint};
use h264_types::pictures::AuId;
use picture_keys::{KeyNumbers, RequestBodies, SlicesDigest, node_of};
use request_core::scratch;
use std::alloc::{AllocError, AllocGlobal};
use std::process::Abort;
use std::test::Fail;
use unit_outcomes::Outcome;

/// Sets and an IDR picture, of one macroblock, count type 2 and one reference frame.
const A: &[u8] = &[
    0, 0, 1, 0x67, 0x42, 0x00, 0x0A, 0xDA, 0x79, 0, 0, 1, 0x68, 0xCE, 0x38, 0x80, 0, 0, 1, 0x65,
    0x88, 0x84, 0x80,
];

/// The same at level 1.1.
const A_11: &[u8] = &[
    0, 0, 1, 0x67, 0x42, 0x00, 0x0B, 0xDA, 0x79, 0, 0, 1, 0x68, 0xCE, 0x38, 0x80, 0, 0, 1, 0x65,
    0x88, 0x84, 0x80,
];

/// The IDR picture alone.
const I: &[u8] = &[0, 0, 1, 0x65, 0x88, 0x84, 0x80];

/// P pictures with frame_num 1 and 2, and the first with a byte more.
const P1: &[u8] = &[0, 0, 1, 0x41, 0x9A, 0x23];

const P2: &[u8] = &[0, 0, 1, 0x41, 0x9A, 0x43];

const P1X: &[u8] = &[0, 0, 1, 0x41, 0x9A, 0x23, 0x80];

/// Sets and an IDR picture, of count type 0 and two reference frames; the same with other slice
/// data; a P picture; and a B picture that is shown between them.
const IDR: &[u8] = &[
    0, 0, 1, 0x67, 0x4D, 0x00, 0x0A, 0xF6, 0xF2, 0, 0, 1, 0x68, 0xCE, 0x38, 0x80, 0, 0, 1, 0x65,
    0x88, 0x84, 0x0C,
];

const IDR_X: &[u8] = &[
    0, 0, 1, 0x67, 0x4D, 0x00, 0x0A, 0xF6, 0xF2, 0, 0, 1, 0x68, 0xCE, 0x38, 0x80, 0, 0, 1, 0x65,
    0x88, 0x84, 0x0D,
];

const P: &[u8] = &[0, 0, 1, 0x41, 0x9A, 0x28, 0x30];

const B: &[u8] = &[0, 0, 1, 0x01, 0x9E, 0x45, 0x18];

/// A P picture with frame_num 1 that is no reference.
const N1: &[u8] = &[0, 0, 1, 0x01, 0x9A, 0x27];

/// Units under their ids, each with the class of its key, if it is valid: equal keys have equal
/// classes, others have other ones. Ids, and pictures that aren't referred to, are no part of a
/// key; parameter sets and references are.
type Row = &'static [(u32, &'static [u8], Option<usize>)];

const ROWS: [Row; 10] = [
    &[(1, A, Some(0)), (2, P1, Some(1)), (3, P2, Some(2))],
    &[(1, A, Some(0)), (4, P1, Some(1)), (3, P2, Some(2))],
    &[(1, A, Some(0)), (2, P1X, Some(3)), (3, P2, Some(4))],
    &[(1, A, Some(0)), (2, I, Some(0)), (3, P1, Some(1))],
    &[(1, A, Some(0)), (3, P2, None)],
    &[(1, A, Some(0)), (2, N1, Some(5)), (3, P1, Some(1))],
    &[(1, A_11, Some(6)), (2, P1, Some(7))],
    &[(1, IDR, Some(8)), (2, P, Some(9)), (3, B, Some(10))],
    &[(5, IDR, Some(8)), (4, P, Some(9)), (7, B, Some(10))],
    &[(1, IDR_X, Some(11)), (2, P, Some(12)), (3, B, Some(13))],
];

/// A fingerprint that is the same for each node.
#[derive(Debug, Drop)]
struct Zeros;

impl Fingerprint<RequestBodies> for Zeros {
    ghost digest = { λ node. replicate 32 0 };

    fn of(&mut self, _node: &Node<RequestBodies>) -> Result<[u8; 32], AllocError> {
        Ok([0; 32])
    }
}

/// The units of a row.
fn units_of(rt: &(impl Abort + AllocGlobal), row: Row) -> Result<Vec<(AuId, Unit)>, AllocError> {
    let mut units = Vec::new(rt.alloc());
    for (id, text, _) in row {
        units.push((AuId::new(*id), super::fold::unit(rt, text)?))?;
    }
    Ok(units)
}

/// The number of the key of a unit, which is known from then on.
fn key_of<F: Fingerprint<RequestBodies>>(
    rt: &(impl Abort + AllocGlobal),
    keys: &mut Keys<RequestBodies, F>,
    numbers: &mut KeyNumbers,
    id: AuId,
    outcome: &Outcome,
) -> Result<Option<KeyId>, AllocError> {
    let Outcome::Plan(plan) = outcome else {
        return Ok(None);
    };
    let digest = SlicesDigest::of_requests(plan.requests.as_slice());
    let node = node_of(rt.alloc(), numbers, &plan.requests, digest)?;
    assert!(rt; keys.are_live(node.entries()));
    let key = keys.intern(node)?;
    numbers.put(id, key)?;
    Ok(Some(key))
}

/// The number that was given first for each class.
#[derive(Drop)]
struct Classes {
    first: [Option<KeyId>; 14],
}

impl Classes {
    /// Whether a key has the number of its class, and no other class has it.
    fn fits(&mut self, class: usize, key: KeyId) -> bool {
        if class >= self.first.len() {
            return false;
        }
        if self.first[class].is_none() {
            let is_new = !self.first.contains(&Some(key));
            self.first[class] = Some(key);
            is_new
        } else {
            self.first[class] == Some(key)
        }
    }
}

/// Whether the keys of a row's units are those of their classes.
fn row_fits<F: Fingerprint<RequestBodies>>(
    rt: &(impl Abort + AllocGlobal),
    keys: &mut Keys<RequestBodies, F>,
    classes: &mut Classes,
    row: Row,
) -> Result<bool, AllocError> {
    let units = units_of(rt, row)?;
    let outcomes = scratch(rt.alloc(), &units)?;
    let mut numbers = KeyNumbers::new(rt.alloc());
    let mut fits = true;
    for ((id, _, class), outcome) in row.iter().zip(&outcomes) {
        let key = key_of(rt, keys, &mut numbers, AuId::new(*id), outcome)?;
        fits = fits
            && match (key, class) {
                (Some(key), Some(class)) => classes.fits(*class, key),
                (None, None) => true,
                _ => false,
            };
    }
    Ok(fits)
}

/// Whether all rows have the keys of their classes.
fn rows_fit<F: Fingerprint<RequestBodies> + Drop>(
    rt: &(impl Abort + AllocGlobal),
    fingerprint: F,
) -> Result<bool, AllocError> {
    let mut keys = Keys::with(rt.alloc(), fingerprint);
    let mut classes = Classes { first: [None; 14] };
    let mut fit = true;
    for row in ROWS {
        fit = row_fits(rt, &mut keys, &mut classes, row)? && fit;
    }
    Ok(fit && keys.len() == 14)
}

#[test]
fn equal_pictures_have_equal_keys(rt: HostRuntime) -> Result<(), Fail> {
    assert!(rt; rows_fit(&rt, Sha256Fingerprint)?);
    Ok(())
}

#[test]
fn equality_decides_and_no_fingerprint(rt: HostRuntime) -> Result<(), Fail> {
    assert!(rt; rows_fit(&rt, Zeros)?);
    Ok(())
}
