//! Words, digits and base64 in results.

ghost use Rattle.std.specs.Prelude.{◌≡◌, IfOk, string_bytes};
ghost use Rattle.base64.specs.Engines.{standard};
ghost use Rattle.base64.specs.GeneralPurpose.{encode_of};
ghost use Rattle.hex.specs.Hex.{encode_lower};

use base64::engine::general_purpose::STANDARD;
use serde::Serialize;
use stand_in_device::Picture;
use std::alloc::{AllocError, Global};
use std::marker::Model;

/// A result that is a word.
#[derive(Clone, Copy, Debug, PartialEq, Eq, Serialize)]
#[serde(rename_all = "snake_case")]
pub enum Word {
    Dropped,
    #[serde(rename = "not held")]
    NotHeld,
    Cleared,
    Marked,
    Taken,
    Stale,
    None,
    Back,
    Reset,
    Compacted,
}

/// A text. Clauses see its bytes.
#[derive(Debug, Drop, Serialize)]
#[serde(transparent)]
pub struct Text {
    text: String,
}

impl Model for Text {
    ghost use Rattle.std.specs.Prelude.{List, ℕ, string_bytes};

    ghost Value = { List ℕ };

    ghost view = { λ it. string_bytes it.text };
}

impl Text {
    /// This text.
    pub(crate) fn new(text: String) -> Text
        ensures { result ≡ string_bytes text }
    {
        Text { text }
    }

    /// A text once more.
    pub fn of(alloc: Global, text: &str) -> Result<Text, AllocError>
        ensures { IfOk result (λ it. it ≡ text.now) }
    {
        Ok(Text {
            text: String::from_str(alloc, text)?,
        })
    }
}

/// Bytes as text: hexadecimal digits, or base64. Clauses see the text.
#[derive(Debug, Drop, Serialize)]
#[serde(transparent)]
pub struct Digits {
    text: String,
}

impl Model for Digits {
    ghost use Rattle.std.specs.Prelude.{List, ℕ, string_bytes};

    ghost Value = { List ℕ };

    ghost view = { λ digits. string_bytes digits.text };
}

impl Digits {
    /// The hash of a picture, as 64 hexadecimal digits.
    pub fn of_picture(alloc: Global, picture: Picture) -> Result<Digits, AllocError>
        ensures { IfOk result (λ digits. digits ≡ encode_lower picture.digest) }
    {
        Ok(Digits {
            text: hex::encode(alloc, picture.digest.as_slice())?,
        })
    }

    /// Bytes, as base64.
    pub fn of_bytes(alloc: Global, bytes: &[u8]) -> Result<Digits, AllocError>
        ensures { IfOk result (λ digits. digits ≡ encode_of standard bytes.now) }
    {
        Ok(Digits {
            text: STANDARD.encode(alloc, bytes)?,
        })
    }

    /// The text.
    pub fn as_str(&self) -> &str
        ensures { result.now ≡ self.now }
    {
        self.text.as_str()
    }
}
