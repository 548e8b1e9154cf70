//! Byte streams, by the first NAL unit that tells.

ghost use Rattle.std.specs.Prelude.{◌≡◌, map};
ghost use Rattle.stream_reasons.specs.Headers.{first_header, header_kind, header_row, kind_after, kind_at};

use crate::file_kinds::FileKind;
use crate::file_kinds::rows::HEADERS;

/// What stands after a start code in a byte stream of a kind.
#[derive(Drop)]
pub(crate) struct Header {
    pub(crate) kind: FileKind,
    pub(crate) bytes: &'static [u8],
}

/// The kind that the first start code tells after which a header of the table stands.
#[tactic(auto, using(crate::proofs::Walks::header_kind_steps))]
pub(crate) fn header_kind(bytes: &[u8]) -> Option<FileKind>
    ensures { result ≡ header_kind bytes.now }
{
    for at in 0..bytes.len() {
        let found = kind_at(bytes.split_at(at).1);
        if found.is_some() {
            return found;
        }
    }
    None
}

/// The kind that the bytes tell where they begin with a start code.
fn kind_at(bytes: &[u8]) -> Option<FileKind>
    ensures { result ≡ kind_at bytes.now }
{
    match bytes {
        [0, 0, 1, rest @ ..] => kind_after(rest),
        _ => None,
    }
}

/// The kind that the bytes after a start code tell.
fn kind_after(bytes: &[u8]) -> Option<FileKind>
    ensures { result ≡ kind_after bytes.now }
{
    first_header(&HEADERS, bytes)
}

/// The kind of the first header with which the bytes begin.
fn first_header(headers: &[Header], bytes: &[u8]) -> Option<FileKind>
    ensures { result ≡ first_header (map header_row headers.now) bytes.now }
{
    for header in headers {
        if bytes.starts_with(header.bytes) {
            return Some(header.kind);
        }
    }
    None
}
