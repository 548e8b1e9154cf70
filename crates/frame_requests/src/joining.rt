//! The bytes of a picture's slices together.

ghost use Rattle.std.specs.Prelude.{◌≡◌, ◌<◌, ◌^◌, drop, length, IfOk};
ghost use Rattle.std.specs.List.{flat_map};
ghost use Rattle.std.specs.Option.{SomeIff};
ghost use Rattle.annexb.specs.ByteStream.{start_code};
ghost use Rattle.frame_requests.specs.FrameBytes.{bytes_of, frame_bytes, frame_size};

use annexb::START_CODE;
use bytes::Bytes;
use h264_controls::Request;
use std::alloc::{AllocError, Global};

/// enum v4l2_stateless_h264_start_code: what stands before the bytes of a slice.
#[derive(Clone, Copy, Debug, PartialEq, Eq)]
pub enum StartCode {
    /// V4L2_STATELESS_H264_START_CODE_NONE: nothing, so that a decoder can't tell slices apart.
    Without,
    /// V4L2_STATELESS_H264_START_CODE_ANNEX_B: a start code of three bytes.
    AnnexB,
}

/// The bytes of a picture of these slices: those of each slice, one after the other, each with its
/// start code. Without start codes a picture has bytes only where it has one slice. The bytes of
/// one slice are shared.
pub fn frame_bytes(
    alloc: Global,
    slices: &[Request],
    start_code: StartCode,
) -> Result<Option<Bytes>, AllocError>
    ensures { IfOk result (λ bytes. bytes ≡ frame_bytes start_code slices.now) }
{
    match (start_code, slices) {
        (StartCode::AnnexB, [slice]) => Ok(Some(slice.bytes().clone()?)),
        (StartCode::AnnexB, _) => Ok(Some(joined(alloc, slices)?)),
        (StartCode::Without, [slice]) => Ok(Some(bare(slice.bytes())?)),
        (StartCode::Without, _) => Ok(None),
    }
}

/// How many bytes a picture of these slices has with start codes, if the number has 64 bits.
pub fn frame_size(slices: &[Request]) -> Option<usize>
    ensures { SomeIff result (frame_size slices.now < 2 ^ 64) (frame_size slices.now) }
{
    let mut size: usize = 0;
    for slice in slices {
        let Some(more) = size.checked_add(slice.bytes().len()) else {
            return None;
        };
        size = more;
    }
    Some(size)
}

/// The bytes of the slices, one after the other.
fn joined(alloc: Global, slices: &[Request]) -> Result<Bytes, AllocError>
    ensures { IfOk result (λ bytes. bytes ≡ flat_map bytes_of slices.now) }
{
    let mut bytes = Vec::with_capacity(alloc, frame_size(slices).ok_or(AllocError)?)?;
    for slice in slices {
        bytes.extend_from_slice(slice.bytes().as_slice())?;
    }
    Ok(Bytes::from_vec(bytes)?)
}

/// A slice's NAL unit, of its bytes with a start code.
fn bare(bytes: &Bytes) -> Result<Bytes, AllocError>
    ensures { IfOk result (λ unit. unit ≡ drop (length start_code) bytes.now) }
{
    bytes.slice(START_CODE.len().min(bytes.len())..)
}
