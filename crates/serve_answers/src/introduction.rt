//! What a server is, and what it takes.

ghost use Rattle.std.specs.Prelude.{◌≡◌, IfOk};
ghost use Rattle.serve_answers.specs.Introductions.{introduction, limits};

use crate::left_out_answers::MOST_LEFT_OUT;
use crate::words::Text;
use access_unit::{MOST_BYTES, MOST_UNITS};
use serde::Serialize;
use serve_requests::{Listed, Method};
use std::alloc::{AllocError, Global};
use stream_edits::MOST_EDITS;

const NAME: &str = "cupdaisy";

const VERSION: &str = "0.3.0";

/// What a server is, and what it takes.
#[derive(Debug, Drop, Serialize)]
pub struct Introduction {
    pub name: Text,
    pub version: Text,
    /// The methods that there are.
    pub methods: Listed<Method>,
    pub limits: Limits,
}

/// How much a server takes at most.
#[derive(Clone, Copy, Debug, PartialEq, Eq, Serialize)]
pub struct Limits {
    /// The units of a stream.
    pub units: usize,
    /// The bytes of a unit, start codes of three bytes among them.
    pub unit_bytes: usize,
    /// The slices of a unit.
    pub slices: usize,
    /// The edits of a group.
    pub group: usize,
    /// The ids that are wanted at once.
    pub wanted: usize,
    /// The units that are told at once.
    pub count: usize,
    /// The ranges of bytes that are told of what a load left out.
    pub left_out: usize,
    /// The bytes of a line.
    pub message_bytes: usize,
}

impl Introduction {
    /// Of a server that has methods about jobs or none, and a method about a journal's file or none.
    pub fn of(alloc: Global, has_jobs: bool, has_journal: bool) -> Result<Introduction, AllocError>
        ensures { IfOk result (λ it. it ≡ introduction has_jobs has_journal) }
    {
        Ok(Introduction {
            name: Text::of(alloc, NAME)?,
            version: Text::of(alloc, VERSION)?,
            methods: Method::all(alloc, has_jobs, has_journal)?,
            limits: Limits::here(),
        })
    }
}

impl Limits {
    /// Those of a server.
    fn here() -> Limits
        ensures { result ≡ limits }
    {
        Limits {
            units: MOST_UNITS,
            unit_bytes: MOST_BYTES,
            slices: 256,
            group: MOST_EDITS,
            wanted: 64,
            count: 1_000,
            left_out: MOST_LEFT_OUT,
            message_bytes: 64 * 1024 * 1024,
        }
    }
}
