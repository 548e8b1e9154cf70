//! Requests of whole pictures, by slices that are put together by hand.

use super::row_holds;
use SliceType::{B, I, P};
use bytes::Bytes;
use frame_requests::{FrameRequest, StartCode, frame_bytes, frame_size};
use h264_controls::Request;
use h264_types::pictures::AuId;
use h264_types::slice_headers::SliceType;
use std::alloc::{AllocError, Global};
use std::test::Fail;
use test_builders::{p_controls, request_of};

/// The type of a slice, and its bytes.
type Slice = (SliceType, &'static [u8]);

/// The slices of a picture; the number of its flags, by the kernel's header; its bytes, and those
/// without a start code, if it has such.
type Picture = (&'static [Slice], u32, &'static [u8], Option<&'static [u8]>);

const PICTURES: [Picture; 6] = [
    (
        &[(I, &[0, 0, 1, 0x61, 0xA0])],
        0,
        &[0, 0, 1, 0x61, 0xA0],
        Some(&[0x61, 0xA0]),
    ),
    (
        &[(P, &[0, 0, 1, 0x61, 0xE1])],
        8,
        &[0, 0, 1, 0x61, 0xE1],
        Some(&[0x61, 0xE1]),
    ),
    (
        &[(B, &[0, 0, 1, 0x01])],
        16,
        &[0, 0, 1, 0x01],
        Some(&[0x01]),
    ),
    (
        &[(I, &[0, 0, 1, 0x61, 0xA0]), (P, &[0, 0, 1, 0x61])],
        8,
        &[0, 0, 1, 0x61, 0xA0, 0, 0, 1, 0x61],
        None,
    ),
    (
        &[(P, &[0, 0, 1, 0x61]), (B, &[0, 0, 1, 0x61, 0xA2])],
        16,
        &[0, 0, 1, 0x61, 0, 0, 1, 0x61, 0xA2],
        None,
    ),
    (
        &[
            (B, &[0, 0, 1, 0x61, 0xA2]),
            (P, &[0, 0, 1, 0x61]),
            (I, &[0, 0, 1, 0x61, 0xA3]),
        ],
        16,
        &[0, 0, 1, 0x61, 0xA2, 0, 0, 1, 0x61, 0, 0, 1, 0x61, 0xA3],
        None,
    ),
];

/// The requests of the slices, of the unit 7.
fn requests_of(alloc: Global, slices: &[Slice]) -> Result<Vec<Request>, AllocError> {
    let mut requests = Vec::new(alloc);
    for (slice_type, bytes) in slices {
        let mut controls = p_controls(alloc, Some(0))?;
        controls.slice_params.slice_type = *slice_type;
        let request = request_of(alloc, 7, controls, *bytes, &[AuId::new(3)], false)?;
        requests.push(request)?;
    }
    Ok(requests)
}

/// Whether there are just these bytes, or none.
fn has_bytes(found: &Option<Bytes>, wanted: Option<&[u8]>) -> bool {
    match (found, wanted) {
        (Some(found), Some(wanted)) => found.as_slice() == wanted,
        (None, None) => true,
        _ => false,
    }
}

/// Whether the request of the picture of these slices has the row's flags.
fn has_flags(slices: &[Request], number: u32) -> Result<bool, AllocError> {
    match FrameRequest::of(slices)? {
        Some(frame) => Ok(frame.timestamp == 7000 && frame.flags.number() == number),
        None => Ok(false),
    }
}

/// Whether the picture of these slices is that of the row.
fn is_picture(alloc: Global, slices: &[Request], row: &Picture) -> Result<bool, AllocError> {
    let joined = frame_bytes(alloc, slices, StartCode::AnnexB)?;
    let bare = frame_bytes(alloc, slices, StartCode::Without)?;
    Ok(
        frame_size(slices) == Some(row.2.len())
            && has_bytes(&joined, Some(row.2))
            && has_bytes(&bare, row.3)
            && has_flags(slices, row.1)?,
    )
}

/// Whether the picture of the row's slices is that of the row.
fn picture_holds(alloc: Global, row: &Picture) -> Result<bool, AllocError> {
    let requests = requests_of(alloc, row.0)?;
    is_picture(alloc, &requests, row)
}

#[test]
fn pictures_are_those_of_their_slices(rt: HostRuntime) -> Result<(), Fail> {
    for (row, picture) in PICTURES.iter().enumerate() {
        row_holds(&rt, row, picture_holds(rt.alloc(), picture)?);
    }
    Ok(())
}

#[test]
fn refused_growth_of_a_picture(rt: HostRuntime) {
    for (row, picture) in PICTURES.iter().enumerate() {
        row_holds(&rt, row, picture_holds(rt.alloc(), picture) != Ok(false));
    }
}
