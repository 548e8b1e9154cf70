//! Text in XML: the characters that have a meaning there are written as references (XML 1.0, 2.4
//! and 4.6).

ghost use Rattle.std.specs.Prelude.{◌≡◌, ◌++◌, ℕ, List, OnOk};
ghost use Rattle.std.specs.List.{All};
ghost use Rattle.stream_svg.specs.Escapes.{IsHarmless, ReadsAs, escaped, mark_of};

use std::alloc::AllocError;

/// Adds a text to the bytes of a document, with references in place of the characters that have a
/// meaning in XML.
pub fn push_escaped(bytes: &mut Vec<u8>, text: &[u8]) -> Result<(), AllocError>
    ensures { OnOk result (bytes.new.items ≡ bytes.old.items ++ escaped text.now) }
{
    for byte in text {
        push_mark(bytes, *byte)?;
    }
    Ok(())
}

/// Adds one byte of a text.
fn push_mark(bytes: &mut Vec<u8>, byte: u8) -> Result<(), AllocError>
    ensures { OnOk result (bytes.new.items ≡ bytes.old.items ++ mark_of byte) }
{
    match byte {
        b'"' => bytes.extend_from_slice(b"&quot;"),
        b'&' => bytes.extend_from_slice(b"&amp;"),
        b'\'' => bytes.extend_from_slice(b"&#39;"),
        b'<' => bytes.extend_from_slice(b"&lt;"),
        b'>' => bytes.extend_from_slice(b"&gt;"),
        _ => bytes.extend_from_slice(&[byte]),
    }
}

/// What is read back of an escaped text is the text, and no character of it has a meaning in XML
/// but the `&` of its references.
pub fn escapes_are_read_back()
    ensures read { (text : List ℕ) → ReadsAs (escaped text) text }
    ensures harmless { (text : List ℕ) → All IsHarmless (escaped text) }
{}
