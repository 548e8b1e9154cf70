//! What a stateless decoder is asked to do for a slice.

ghost use Rattle.std.specs.Prelude.{◌≡◌, slice_get, option_map, IfOk, ◌↔◌, IsTrue};
ghost use Rattle.h264_controls.specs.References.{timestamp};

use crate::controls::Controls;
use crate::references::References;
use bytes::Bytes;
use h264_types::base::Shared;
use h264_types::pictures::AuId;
use std::alloc::AllocError;

/// The body of a slice: all of its request that doesn't depend on the place of its unit in the
/// stream.
#[derive(Debug)]
pub struct RequestBody {
    pub controls: Controls,
    /// The slice's NAL unit after a start code of three bytes.
    pub bytes: Bytes,
}

// By hand, so that whoever drops one is proved over one call.
impl Drop for RequestBody {
    fn drop(self) {
        let RequestBody {
            controls: _,
            bytes: _,
        } = self;
    }
}

impl RequestBody {
    /// Whether both have the same controls and bytes.
    pub fn is_same(&self, other: &RequestBody) -> bool
        ensures { IsTrue result ↔ (self.now ≡ other.now) }
    {
        self.bytes.as_slice() == other.bytes.as_slice() && self.controls.is_same(&other.controls)
    }
}

/// The request of one slice, by the Request API of the Linux kernel.
#[derive(Debug)]
pub struct Request {
    pub body: Shared<RequestBody>,
    /// The timestamp of the unit, in nanoseconds.
    pub timestamp: u64,
    /// The units of the frames of the decoded picture buffer: reference_ts of its entries is their
    /// timestamp.
    pub references: Shared<References>,
    /// V4L2_BUF_FLAG_M2M_HOLD_CAPTURE_BUF: more slices of the picture follow.
    pub hold: bool,
}

// By hand, so that whoever drops one is proved over one call.
impl Drop for Request {
    fn drop(self) {
        let Request {
            body: _,
            timestamp: _,
            references: _,
            hold: _,
        } = self;
    }
}

impl Request {
    /// The controls.
    pub fn controls(&self) -> &Controls
        ensures { result.now ≡ self.now.body.controls }
    {
        &self.body.controls
    }

    /// The slice's NAL unit after a start code of three bytes.
    pub fn bytes(&self) -> &Bytes
        ensures { result.now ≡ self.now.body.bytes }
    {
        &self.body.bytes
    }

    /// The unit of the frame at an index of the decoded picture buffer, which an entry of a
    /// reference list names.
    pub fn reference(&self, index: u8) -> Option<AuId>
        ensures { result ≡ slice_get self.now.references index }
    {
        self.references.get(index)
    }

    /// reference_ts of the entry at an index of the decoded picture buffer, in nanoseconds.
    pub fn reference_ts(&self, index: u8) -> Option<u64>
        ensures { result ≡ option_map timestamp (slice_get self.now.references index) }
    {
        match self.reference(index) {
            Some(id) => Some(id.timestamp()),
            None => None,
        }
    }

    /// The same request, all shared.
    pub fn copy(&self) -> Result<Request, AllocError>
        ensures { IfOk result (λ copy. copy ≡ self.now) }
    {
        Ok(Request {
            body: self.body.clone()?,
            timestamp: self.timestamp,
            references: self.references.clone()?,
            hold: self.hold,
        })
    }
}
