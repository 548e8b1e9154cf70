//! Payloads: units without their emulation prevention bytes (7.3.1, 7.4.1).
ghost use Rattle.std.specs.Prelude.{◌≡◌, ℕ, List, length, take, drop, min, IfOk};
ghost use Rattle.annexb.specs.EmulationPrevention.{escape, payload_of, IsPlainFront};

use crate::nal_unit::Nal;
use memchr::memmem;
use std::alloc::{AllocError, Global};

/// What the unit's bytes are without emulation prevention, its header included.
pub fn payload(alloc: Global, nal: &Nal<'_>) -> Result<Vec<u8>, AllocError>
    ensures value { IfOk result (λ payload. payload.items ≡ payload_of nal.now) }
    ensures escaped { IfOk result (λ payload. escape payload.items ≡ nal.now) }
    ensures only { (payload : List ℕ) → escape payload ≡ nal.now
        → IfOk result (λ found. found.items ≡ payload) }
{
    let mut rest = nal.bytes();
    let mut payload = Vec::with_capacity(alloc, rest.len())?;
    loop {
        let len = plain_len(rest, rest.len());
        payload.extend_from_slice(&rest[..len])?;
        if len == rest.len() {
            return Ok(payload);
        }
        rest = rest.split_at(len + 1).1;
    }
}

/// Writes the first bytes of the payload, as many as `front` holds or the payload has, and says how
/// many; what stands after them in `front` stays. It reads no further into the unit than these
/// bytes take.
pub fn payload_front(nal: &Nal<'_>, front: &mut [u8]) -> usize
    ensures count { result ≡ min (length front.old) (length (payload_of nal.now)) }
    ensures written { take result front.new ≡ take (length front.old) (payload_of nal.now) }
    ensures rest { drop result front.new ≡ drop result front.old }
{
    let limit = front.len();
    let mut rest = nal.bytes();
    let mut written = 0;
    loop {
        let len = plain_len(rest, limit - written);
        front[written..written + len].copy_from_slice(&rest[..len]);
        written += len;
        if written == limit || len == rest.len() {
            return written;
        }
        rest = rest.split_at(len + 1).1;
    }
}

/// How many bytes stand before the first emulation_prevention_three_byte, the end or the limit.
fn plain_len(bytes: &[u8], limit: usize) -> usize
    ensures { IsPlainFront bytes.now limit result }
{
    let front = &bytes[..bytes.len().min(limit)];
    match memmem::find(front, &[0, 0, 3]) {
        Some(zeros) => zeros + 2,
        None => front.len(),
    }
}
