//! Streams that are to be loaded.

ghost use Rattle.std.specs.Prelude.{◌≡◌, true, IfOk, MatchResult};
ghost use Rattle.serve_calls.specs.Failing.{out_of_memory};
ghost use Rattle.serve_calls.specs.Preparing.{prepared};

use crate::unmade::OUT_OF_MEMORY;
use bytes::Bytes;
use serve_answers::{LeftOutAnswer, of_left_out};
use serve_requests::{Failure, Listed};
use std::alloc::{AllocError, Global};
use stream_mending::{Mended, mend};

/// A stream that is to be loaded, and what was left out of it if it was mended.
#[derive(Drop)]
pub(crate) struct Prepared {
    pub(crate) text: Bytes,
    pub(crate) left_out: Option<Listed<LeftOutAnswer>>,
}

impl Prepared {
    /// A stream as it came, or mended.
    pub(crate) fn of(alloc: Global, text: Bytes, mend: bool) -> Result<Prepared, Failure>
        ensures { MatchResult result (λ it. it ≡ prepared mend text)
            (λ failure. failure ≡ out_of_memory) }
    {
        if !mend {
            return Ok(Prepared {
                text,
                left_out: None,
            });
        }
        match Prepared::mended(alloc, &text) {
            Ok(it) => Ok(it),
            Err(_) => Err(OUT_OF_MEMORY),
        }
    }

    /// A stream mended.
    fn mended(alloc: Global, text: &Bytes) -> Result<Prepared, AllocError>
        ensures { IfOk result (λ it. it ≡ prepared true text.now) }
    {
        let Mended { bytes, left_out } = mend(alloc, text.as_slice())?;
        let left_out = of_left_out(alloc, &left_out)?;
        Ok(Prepared {
            text: Bytes::from_vec(bytes)?,
            left_out: Some(left_out),
        })
    }
}
