//! What a command line asks for.

ghost use Rattle.std.specs.Prelude.{◌≤◌};
ghost use Rattle.held_pictures.specs.Bounded.{most_capacity};
ghost use Rattle.cli.specs.Bounds.{most_workers};

use draw_run::{Choice, EditedChoice};
use script_run::Options;
use unit_printing::json::DecodeMode;

/// The most workers that may be asked for.
pub const MOST_WORKERS: usize = 64;

/// What the command line asks for.
#[derive(Clone, Copy, Debug)]
pub enum Invocation<'a> {
    /// The plan of the stream in this file, `-` being the standard input: as JSON with the requests
    /// for a decoder of this mode, or in lines of text.
    Plan {
        file: &'a str,
        json: Option<DecodeMode>,
    },
    /// The stream in this file, `-` being the standard input, without what no command reads.
    Mend {
        file: &'a str,
    },
    /// What is the matter with this file, `-` being the standard input: as JSON, or in lines of text.
    Check {
        file: &'a str,
        json: bool,
    },
    /// A drawing of the chosen units of the stream in this file, `-` being the standard input.
    Draw {
        file: &'a str,
        choice: Choice,
    },
    /// A drawing of the chosen units of that stream after the edits of the script of this name, `-`
    /// being the standard input.
    DrawEdited {
        file: &'a str,
        script: &'a str,
        choice: EditedChoice,
    },
    /// A run of the script that the options name, `-` being the standard input: in one thread, or
    /// beside workers.
    Run {
        options: Options<'a>,
        workers: Option<Workers>,
    },
    /// An audit of it, beside workers.
    Audit {
        options: Options<'a>,
        workers: Workers,
    },
    /// A server.
    Serve(Serving<'a>),
}

/// How many workers decode, each in a thread of its own.
#[derive(Clone, Copy, Debug)]
pub struct Workers {
    /// 1 to `MOST_WORKERS`.
    pub count: usize,
    ghost in_range: { (1 ≤ count) × (count ≤ most_workers) },
}

/// With what a server is run.
#[derive(Clone, Copy, Debug)]
pub struct Serving<'a> {
    /// The workers that decode; with none it is all one thread.
    pub workers: Option<Workers>,
    /// For how many pictures that no unit has the session has room, 1 to `MOST_ROOM`.
    pub cache: u16,
    /// The file in which edits are recorded, if they are.
    pub journal: Option<&'a str>,
    ghost capacity: { (1 ≤ cache) × (cache ≤ most_capacity) },
}
