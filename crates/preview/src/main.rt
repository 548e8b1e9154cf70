//! The program `preview`: what a stateless decoder is asked for a stream of H.264, printed as
//! lines.
//!
//! `preview plan FILE` plans a byte stream and prints a block of lines for each access unit, or why
//! the stream is refused (plan_stream); `preview draw FILE` draws one as SVG (draw_run), also after
//! edits (draw_run); `preview run SCRIPT` edits a stream in a session, and prints what each edit
//! and each question is answered, in one thread or beside workers that decode (script_run);
//! `preview audit SCRIPT` says whether the book of such a run agrees with its journal (script_run).
//! docs/OUTPUT.md has the lines and the statuses. What the words ask for is read by
//! cli and done by cli, which says behind it why files weren't taken; this crate hands it the
//! process's own words, files and streams.
#![tactic(auto)]

use console_io::{Console, Inputs, Status};
use failure_reasons::Watched;
use std::io::Stderr;
use std::process::ExitCode;

fn main(rt: HostRuntime) -> ExitCode {
    let inputs = Inputs {
        directory: &rt,
        standard: rt.stdin(),
    };
    let mut console = Console {
        output: Watched::new(rt.stdout()),
        errors: rt.stderr(),
    };
    let ended = cli::run(&rt, rt.alloc(), cli::words(&rt), inputs, &mut console);
    if ended.status == Status::Failure || console.output.has_refusal() {
        explain(&rt, &mut console.errors);
    }
    ended.status.exit_code()
}

/// Says why what the process's words name wasn't taken, where that is known.
fn explain(rt: &HostRuntime, errors: &mut Stderr) {
    if let Ok(words) = cli::words(rt) {
        let _told = cli::explain(rt.alloc(), words.as_slice(), rt, errors);
    }
}
