//! Requests of slices.

ghost use Rattle.std.specs.Prelude.{◌≡◌, ◌*◌, IfOk};

use bytes::Bytes;
use h264_controls::{Controls, References, Request, RequestBody};
use h264_types::base::Shared;
use h264_types::pictures::AuId;
use std::alloc::{AllocError, Global};

/// The value with one owner.
pub fn shared<T: Drop>(alloc: Global, value: T) -> Result<Shared<T>, AllocError>
    ensures { IfOk result (λ shared. shared ≡ value) }
{
    Ok(Shared::new(alloc, value)?)
}

/// The request of a slice with these bytes, of the unit of this id, whose references are these
/// units.
pub fn request_of(
    alloc: Global,
    id: u32,
    controls: Controls,
    bytes: &[u8],
    references: &[AuId],
    hold: bool,
) -> Result<Request, AllocError>
    ensures { IfOk result (λ request. request.timestamp ≡ 1000 * id) }
{
    let body = RequestBody {
        controls,
        bytes: Bytes::copy_from_slice(alloc, bytes)?,
    };
    let references = References::new(references.to_vec(alloc)?);
    Ok(Request {
        body: shared(alloc, body)?,
        timestamp: AuId::new(id).timestamp(),
        references: shared(alloc, references)?,
        hold,
    })
}
