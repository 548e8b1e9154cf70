//! What is found of a file.

ghost use Rattle.std.specs.Prelude.{◌≡◌, ◌==◌, ◌↔◌, IfOk, IsTrue};
ghost use Rattle.stream_reasons.specs.Kinds.{kind_of as kind_of_text};
ghost use Rattle.stream_mending.specs.Mended.{told};
ghost use Rattle.unit_printing.specs.StreamLines.{stream_outcomes};
ghost use Rattle.access_unit.specs.StreamUnits.{IsStreamRefused, most_units};
ghost use Rattle.std.specs.Prelude.{◌≤◌, length};
ghost use Rattle.stream_check.specs.CheckResult.{IsCheckOf, IsFine, IsFound, IsTaken, is_fine};

use crate::counts::StreamCounts;
use crate::doubt_ranges::{DoubtRange, doubt_ranges};
use crate::folding::{FoldedStream, fold};
use crate::problems::Problem;
use crate::set_words::SetWords;
use crate::sets::sets_in_words;
use crate::spans::{UnitSpan, spans};
use crate::surfaces::surfaces;
use crate::unread::{Unread, left_out};
use access_unit::{MOST_UNITS, ReadFault, Refusal, Unit, read_units};
use bytes::Bytes;
use std::alloc::{AllocError, Global};
use std::thread::Threads;
use stream_reasons::file_kinds::{FileKind, kind_of};
use unit_printing::json::doubts_of_units;

/// What a file is found to be.
#[derive(Drop)]
pub enum CheckResult {
    /// No byte stream of H.264, by its first bytes.
    Other(FileKind),
    /// A stream that is refused.
    Refused(RefusedStream),
    /// A stream.
    Stream(CheckedStream),
}

/// A stream that is refused.
#[derive(Drop)]
pub struct RefusedStream {
    pub refusal: Refusal,
    /// What `mend` leaves out of it.
    pub unread: Vec<Unread>,
}

/// A stream that isn't refused.
#[derive(Drop)]
pub struct CheckedStream {
    /// Each sequence parameter set in words, where it says something new.
    pub sets: Vec<SetWords>,
    pub counts: StreamCounts,
    /// The units with a fault, in order.
    pub problems: Vec<Problem>,
    pub doubt_ranges: Vec<DoubtRange>,
    /// Where each unit stands.
    pub spans: Vec<UnitSpan>,
    /// How many surfaces a decoder needs that shows the pictures in output order.
    pub surfaces: usize,
}

impl CheckResult {
    /// Whether there is nothing to complain of: it is a stream, and no unit has a fault.
    pub fn is_fine(&self) -> bool
        ensures { result ≡ is_fine self.now }
    {
        match self {
            CheckResult::Other(_) => false,
            CheckResult::Refused(_) => false,
            CheckResult::Stream(stream) => stream.counts.faults == 0,
        }
    }
}

/// What the file of this text is found to be.
pub fn check(
    threads: &(impl Threads + Sync),
    alloc: Global,
    text: &Bytes,
) -> Result<CheckResult, AllocError>
    ensures found { IfOk result (IsFound text.now) }
    ensures fine { IfOk result (λ found. IsTrue (is_fine found) ↔ IsFine text.now) }
{
    match read_units(threads, alloc, text, MOST_UNITS) {
        Ok(units) => Ok(CheckResult::Stream(check_units(alloc, text, &units)?)),
        Err(ReadFault::Refused(refusal)) => check_refused(alloc, text, refusal),
        Err(ReadFault::Memory) => Err(AllocError),
    }
}

/// What a file is found to be that isn't read as a stream.
fn check_refused(alloc: Global, text: &Bytes, refusal: Refusal) -> Result<CheckResult, AllocError>
    requires not_taken { ¬ IsTaken text.now }
    requires refused { IsStreamRefused text.now most_units refusal }
    ensures found { IfOk result (IsFound text.now) }
    ensures fine { IfOk result (λ found. IsTrue (is_fine found) ↔ IsFine text.now) }
{
    match kind_of(text) {
        FileKind::H264AnnexB => Ok(CheckResult::Refused(RefusedStream {
            refusal,
            unread: left_out(alloc, text)?,
        })),
        kind => Ok(CheckResult::Other(kind)),
    }
}

/// What is found of the units of a stream.
fn check_units(alloc: Global, text: &[u8], units: &[Unit]) -> Result<CheckedStream, AllocError>
    requires { length units.now ≤ most_units }
    ensures { IfOk result (IsCheckOf units.now) }
{
    let FoldedStream { outcomes, problems } = fold(alloc, units)?;
    let doubts = doubts_of_units(alloc, units, &outcomes)?;
    let positions = output_order::positions(alloc, &outcomes)?;
    Ok(CheckedStream {
        sets: sets_in_words(alloc, units)?,
        counts: StreamCounts::of(&outcomes, &doubts)?,
        problems,
        doubt_ranges: doubt_ranges(alloc, &doubts)?,
        spans: spans(alloc, text, units)?,
        surfaces: surfaces(alloc, &outcomes, &positions)?,
    })
}
