//! The kind of a file.

ghost use Rattle.std.specs.Prelude.{◌≡◌, take};
ghost use Rattle.stream_reasons.specs.Kinds.{coded_kind, kind_in, kind_of};
ghost use Rattle.stream_reasons.specs.Plain.{is_text, is_text_byte, plain_kind};

use crate::file_kinds::FileKind;
use crate::file_kinds::headers::header_kind;
use crate::file_kinds::lengths::is_length_prefixed;
use crate::file_kinds::signatures::container_kind;
use annexb::first_unit;

/// How many of a file's bytes tell its kind at most.
pub const FIRST_BYTES: usize = 65_536;

/// The kind of the file that begins with these bytes. It is whole, or these are `FIRST_BYTES` or
/// more: no others are looked at.
#[tactic(auto, using(crate::proofs::Walks::whole_steps))]
pub fn kind_of(text: &[u8]) -> FileKind
    ensures { result ≡ kind_of text.now }
{
    if text.len() > FIRST_BYTES {
        kind_in(text.split_at(FIRST_BYTES).0)
    } else {
        kind_in(text)
    }
}

/// The kind that these bytes tell.
fn kind_in(bytes: &[u8]) -> FileKind
    ensures { result ≡ kind_in bytes.now }
{
    if bytes.is_empty() {
        FileKind::Empty
    } else {
        match container_kind(bytes) {
            Some(kind) => kind,
            None => coded_kind(bytes),
        }
    }
}

/// The kind that bytes tell that are of no container.
fn coded_kind(bytes: &[u8]) -> FileKind
    ensures { result ≡ coded_kind bytes.now }
{
    if is_length_prefixed(bytes) {
        FileKind::LengthPrefixedH264
    } else {
        match header_kind(bytes) {
            Some(kind) => kind,
            None => plain_kind(bytes),
        }
    }
}

/// The kind of such bytes.
pub(crate) fn plain_kind(bytes: &[u8]) -> FileKind
    ensures { result ≡ plain_kind bytes.now }
{
    if first_unit(bytes).is_some() {
        FileKind::H264AnnexB
    } else if is_text(bytes) {
        FileKind::Text
    } else {
        FileKind::Unknown
    }
}

/// Whether all bytes are those of text.
fn is_text(bytes: &[u8]) -> bool
    ensures { result ≡ is_text bytes.now }
{
    bytes.iter().all(|byte| is_text_byte(*byte))
}

/// Whether it is no control character but a tab, a line feed, a form feed or a carriage return
/// (IETF RFC 20, 5.2).
fn is_text_byte(byte: u8) -> bool
    ensures { result ≡ is_text_byte byte }
{
    matches!(byte, 9 | 10 | 12 | 13 | 32..=126 | 128..)
}
