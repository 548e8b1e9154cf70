//! The pieces between start codes (B.1).

ghost use Rattle.stream_mending.specs.Pieces.{IsNext};
ghost use Rattle.std.specs.Prelude.{◌≡◌, ◌≤◌, length, take};
ghost use Rattle.annexb.specs.Faults.{zero_run};
ghost use Rattle.stream_mending.specs.Segments.{trimmed};

use annexb::START_CODE;
use memchr::memmem;

/// Bytes around a start code.
#[derive(Drop)]
pub(crate) struct Piece<'a> {
    /// What stands before it.
    pub(crate) bytes: &'a [u8],
    /// What stands after it.
    pub(crate) rest: &'a [u8],
}

/// What stands around the first start code, if there is one.
pub(crate) fn next_piece(bytes: &[u8]) -> Option<Piece<'_>>
    ensures { IsNext bytes.now result }
{
    match memmem::find(bytes, &START_CODE) {
        Some(len) => Some(Piece {
            bytes: bytes.split_at(len).0,
            rest: bytes.split_at(len + 3).1,
        }),
        None => None,
    }
}

/// How many bytes there are without the zeros at their end.
pub(crate) fn trimmed_len(bytes: &[u8]) -> usize
    ensures within { result ≤ length bytes.now }
    ensures value { take result bytes.now ≡ trimmed bytes.now }
{
    let mut len = bytes.len();
    while len > 0 && bytes[len - 1] == 0 {
        len -= 1;
    }
    len
}

/// How many zeros the bytes begin with.
pub(crate) fn zero_run(bytes: &[u8]) -> usize
    ensures value { result ≡ zero_run bytes.now }
    ensures within { result ≤ length bytes.now }
{
    for (count, byte) in bytes.iter().enumerate() {
        if *byte != 0 {
            return count;
        }
    }
    bytes.len()
}
