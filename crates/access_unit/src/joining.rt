//! NAL units that stand joined in a text (B.1.1).
ghost use Rattle.std.specs.Prelude.{◌≡◌, ◌++◌, IfOk, IfSome, IsTrue};
ghost use Rattle.annexb.specs.ByteStream.{start_code};
ghost use Rattle.annexb.specs.ByteStream.{joined};

use crate::cuts::START_CODE_LEN;
use crate::shared_nal::SharedNal;
use bytes::Bytes;
use std::alloc::AllocError;

/// The text of several NAL units joined, where it stands so in this text, in front of the place. No
/// byte is copied.
pub(crate) fn joined_text(
    text: &Bytes,
    end: Option<&usize>,
    nals: &[SharedNal],
) -> Result<Option<Bytes>, AllocError>
    ensures { IfOk result (λ found. IfSome found (λ shared. shared ≡ joined nals.now)) }
{
    let Some(end) = end else {
        return Ok(None);
    };
    let Some(begin) = end.checked_sub(length_of(nals)) else {
        return Ok(None);
    };
    if nals.len() < 2 || *end > text.len() {
        return Ok(None);
    }
    let shared = text.slice(begin..*end)?;
    if is_joined(shared.as_slice(), nals) {
        Ok(Some(shared))
    } else {
        Ok(None)
    }
}

/// How many bytes NAL units have with their start codes.
fn length_of(nals: &[SharedNal]) -> usize {
    let mut length = 0usize;
    for nal in nals {
        length = length.saturating_add(START_CODE_LEN.saturating_add(nal.nal().bytes().len()));
    }
    length
}

/// Whether the text is that of the NAL units joined.
fn is_joined(text: &[u8], nals: &[SharedNal]) -> bool
    ensures { IsTrue result → text.now ≡ joined nals.now }
{
    let mut rest = text;
    for nal in nals {
        let Some(after) = behind(rest, nal) else {
            return false;
        };
        rest = after;
    }
    rest.is_empty()
}

/// What stands behind the NAL unit that the text begins with, if it does.
fn behind<'a>(text: &'a [u8], nal: &SharedNal) -> Option<&'a [u8]>
    ensures { IfSome result (λ rest. text.now ≡ start_code ++ nal.now ++ rest.now) }
{
    let bytes = after(text, &[0, 0, 1])?;
    after(bytes, nal.nal().bytes())
}

/// What stands behind these bytes, if the text begins with them.
fn after<'a>(text: &'a [u8], front: &[u8]) -> Option<&'a [u8]>
    ensures { IfSome result (λ rest. text.now ≡ front.now ++ rest.now) }
{
    if text.len() < front.len() {
        return None;
    }
    let (begin, rest) = text.split_at(front.len());
    if begin == front { Some(rest) } else { None }
}
