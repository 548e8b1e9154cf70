//! Where access units stand in a file.

ghost use Rattle.std.specs.Prelude.{◌≡◌, ◌≤◌, length, IfOk, vec_len};
ghost use Rattle.stream_check.specs.Spans.{longest};

use access_unit::Unit;
use annexb::START_CODE;
use memchr::memmem;
use serde::Serialize;
use std::alloc::{AllocError, Global};

/// Where an access unit stands.
#[derive(Clone, Copy, Serialize)]
pub struct UnitSpan {
    /// The place of the start code of its first NAL unit, from 0.
    pub byte: usize,
    /// How many bytes there are from there up to the next access unit, or to the end.
    pub bytes: usize,
}

/// Where the access units stand that were read from this text.
pub(crate) fn spans(alloc: Global, text: &[u8], units: &[Unit]) -> Result<Vec<UnitSpan>, AllocError>
    ensures { IfOk result (λ spans. vec_len spans ≡ length units.now) }
{
    let mut spans = Vec::with_capacity(alloc, units.len())?;
    let mut rest = behind(text, 0);
    for unit in units {
        let byte = text.len() - rest.len();
        rest = behind_unit(rest, unit.nals().len());
        spans.push(UnitSpan {
            byte,
            bytes: text.len() - rest.len() - byte,
        })?;
    }
    Ok(spans)
}

/// How many bytes the longest access unit has; 0 where there is none.
pub fn longest(spans: &[UnitSpan]) -> usize
    ensures { result ≡ longest spans.now }
{
    let mut longest = 0;
    for place in spans {
        longest = longest.max(place.bytes);
    }
    longest
}

/// The text behind so many NAL units, with the first of which it begins.
fn behind_unit(text: &[u8], count: usize) -> &[u8]
    ensures { length result.now ≤ length text.now }
{
    let mut rest = text;
    'units: for _ in 0..count {
        rest = behind(rest, START_CODE.len());
    }
    rest
}

/// The text from its first start code behind so many bytes on; nothing where there is none.
fn behind(text: &[u8], from: usize) -> &[u8]
    ensures { length result.now ≤ length text.now }
{
    let Some(rest) = text.get(from..) else {
        return &[];
    };
    match memmem::find(rest, &START_CODE) {
        Some(at) => rest.split_at(at).1,
        None => &[],
    }
}
