//! Bytes by which a kind of file is known.

ghost use Rattle.std.specs.Prelude.{◌≡◌, map};
ghost use Rattle.std.specs.List.{list_all};
ghost use Rattle.stream_reasons.specs.Signatures.{container_kind, first_kind, fits, kind_row, placed, stands};

use crate::file_kinds::FileKind;
use crate::file_kinds::rows::CONTAINERS;

/// Bytes at a place, counted from 0.
#[derive(Drop)]
pub(crate) struct Signature {
    pub(crate) at: usize,
    pub(crate) bytes: &'static [u8],
}

/// A kind of file, and the marks that all stand in one.
#[derive(Drop)]
pub(crate) struct Row {
    pub(crate) kind: FileKind,
    pub(crate) signatures: &'static [Signature],
}

/// The first kind in the table whose marks all stand in the bytes.
pub(crate) fn container_kind(bytes: &[u8]) -> Option<FileKind>
    ensures { result ≡ container_kind bytes.now }
{
    first_kind(&CONTAINERS, bytes)
}

/// The kind of the first row that fits.
fn first_kind(rows: &[Row], bytes: &[u8]) -> Option<FileKind>
    ensures { result ≡ first_kind (map kind_row rows.now) bytes.now }
{
    for row in rows {
        if fits(row, bytes) {
            return Some(row.kind);
        }
    }
    None
}

/// Whether all marks of the row stand in the bytes.
fn fits(row: &Row, bytes: &[u8]) -> bool
    ensures { result ≡ fits bytes.now (kind_row row.now) }
{
    all_stand(row.signatures, bytes)
}

/// Whether all marks stand in the bytes.
fn all_stand(signatures: &[Signature], bytes: &[u8]) -> bool
    ensures { result ≡ list_all (stands bytes.now) (map placed signatures.now) }
{
    for signature in signatures {
        if !stands(signature, bytes) {
            return false;
        }
    }
    true
}

/// Whether the mark stands in the bytes.
fn stands(signature: &Signature, bytes: &[u8]) -> bool
    ensures { result ≡ stands bytes.now (placed signature.now) }
{
    match bytes.get(signature.at..) {
        Some(rest) => rest.starts_with(signature.bytes),
        None => signature.bytes.is_empty(),
    }
}
