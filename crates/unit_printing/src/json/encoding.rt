//! Lines as text.

ghost use Rattle.std.specs.Prelude.{List, ℕ, IfOk, string_bytes, ⊤};
ghost use Rattle.unit_printing.specs.declared.json.json_line.JsonLine.{JsonLine as LineValue};

use crate::json::json_line::JsonLine;
use std::alloc::{AllocError, Global};

/// enum v4l2_stateless_h264_decode_mode: what one request asks a decoder for.
#[derive(Clone, Copy, Debug, PartialEq, Eq)]
pub enum DecodeMode {
    /// V4L2_STATELESS_H264_DECODE_MODE_SLICE_BASED: a slice.
    SliceBased,
    /// V4L2_STATELESS_H264_DECODE_MODE_FRAME_BASED: a picture.
    FrameBased,
}

/// How units are printed: by this encoder, with the requests for a decoder of this mode.
#[derive_where(Clone, Copy)]
pub struct JsonForm<'a, J> {
    pub encoder: &'a J,
    pub mode: DecodeMode,
}

/// What writes lines as text.
pub trait Encoder {
    // The text is that of the line; by default nothing is known of it.
    ghost says: { LineValue → List ℕ → Type 0 } = { λ _ _. ⊤ };

    /// The line as text, with a line break after it.
    fn encode(&self, alloc: Global, line: &JsonLine) -> Result<String, AllocError>
        ensures { IfOk result (λ text. says line.now (string_bytes text)) };
}

/// Lines as `serde_json` writes them, compactly. It declares nothing of the text.
#[derive(Clone, Copy, Debug)]
pub struct Json;

impl Encoder for Json {
    fn encode(&self, alloc: Global, line: &JsonLine) -> Result<String, AllocError> {
        let Ok(mut text) = serde_json::to_string(alloc, line) else {
            return Err(AllocError);
        };
        text.push('\n')?;
        Ok(text)
    }
}
