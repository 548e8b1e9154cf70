//! Sets that no encoder writes.

use super::*;
use Code::{Fixed, Signed, TooLong, Unsigned};

/// A syntax element as it is coded.
#[derive(Clone, Copy, Debug)]
pub(super) enum Code {
    /// u(n): n and the value.
    Fixed(u32, u64),
    /// ue(v).
    Unsigned(u64),
    /// se(v).
    Signed(i32),
    /// 32 zeros and a one.
    TooLong,
}

/// Writes one code more.
pub(super) fn put(writer: &mut BitWriter, code: Code) -> Result<(), AllocError> {
    match code {
        Fixed(n, value) => writer.u(n, value),
        Unsigned(value) => writer.ue(value),
        Signed(value) => writer.se(value),
        TooLong => writer.u(33, 1),
    }
}

/// The bytes, after as many ones as any set can take.
pub(super) fn filled(alloc: Global, writer: &mut BitWriter) -> Result<Vec<u8>, AllocError> {
    writer.ones(400)?;
    writer.bytes(alloc, writer.count())
}
