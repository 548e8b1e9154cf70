//! What is found of a file, as text.

use access_unit::Refusal;
use std::fmt;
use std::fmt::{Display, Formatter, Write};
use stream_check::{
    CheckResult, CheckedStream, DoubtRange, Problem, RefusedStream, StreamCounts, Unread, longest,
};
use stream_reasons::Reason;
use stream_reasons::file_kinds::FileKind;
use unit_outcomes::ValidityFault;

/// How many lines of one kind are printed.
const MOST_LINES: usize = 20;

/// The kinds of faults, in the order of their numbers.
const FAULTS: [ValidityFault; 18] = [
    ValidityFault::MissingPps,
    ValidityFault::MissingSps,
    ValidityFault::HeaderCut,
    ValidityFault::HeaderValue,
    ValidityFault::Redundant,
    ValidityFault::SliceOrder,
    ValidityFault::SliceMismatch,
    ValidityFault::NoIdr,
    ValidityFault::SpsChange,
    ValidityFault::IdrFrameNum,
    ValidityFault::FrameNumGap,
    ValidityFault::FrameNumRepeat,
    ValidityFault::OrderRange,
    ValidityFault::OrderTie,
    ValidityFault::NoReference,
    ValidityFault::BadModification,
    ValidityFault::BadMarking,
    ValidityFault::TooManyReferences,
];

/// What was found of the file of this name, as lines of text.
#[derive(Drop)]
pub struct Report<'a> {
    pub name: &'a str,
    pub found: &'a CheckResult,
}

impl<'a> Display for Report<'a> {
    fn fmt<W: Write>(&self, f: &mut Formatter<W>) -> fmt::Result {
        f.write_str(self.name)?;
        f.write_str(": ")?;
        match self.found {
            CheckResult::Other(kind) => write!(f, "{}", OtherLines(*kind)),
            CheckResult::Refused(refused) => write!(f, "{}", RefusedLines(refused)),
            CheckResult::Stream(stream) => write!(f, "{}", StreamLines(stream)),
        }
    }
}

/// What is said of a file that is no byte stream of H.264.
#[derive(Drop)]
struct OtherLines(FileKind);

impl Display for OtherLines {
    fn fmt<W: Write>(&self, f: &mut Formatter<W>) -> fmt::Result {
        let (negation, sentence) = (negation(self.0), self.0.sentence());
        writeln!(f, "{negation}: {sentence}")?;
        match self.0.command() {
            Some(command) => writeln!(f, "this makes a byte stream of it: {command}"),
            None => Ok(()),
        }
    }
}

/// What a file of this kind isn't: a container may hold H.264, and so may a file of which nothing is
/// known.
fn negation(kind: FileKind) -> &'static str {
    match kind {
        FileKind::Mp4
        | FileKind::Matroska
        | FileKind::MpegTransportStream
        | FileKind::MpegProgramStream
        | FileKind::Avi
        | FileKind::Flv
        | FileKind::LengthPrefixedH264
        | FileKind::Unknown => "not a byte stream of H.264 (Annex B)",
        _ => "not H.264",
    }
}

/// What is said of a stream that is refused.
#[derive(Drop)]
struct RefusedLines<'a>(&'a RefusedStream);

impl<'a> Display for RefusedLines<'a> {
    fn fmt<W: Write>(&self, f: &mut Formatter<W>) -> fmt::Result {
        let why = Refused(self.0.refusal);
        let unread = self.0.unread.as_slice();
        writeln!(f, "a byte stream of H.264 (Annex B) that is refused")?;
        writeln!(f, "first problem: {why}")?;
        writeln!(f, "{}", MendLine(unread.len()))?;
        for line in unread.iter().take(MOST_LINES) {
            writeln!(f, "{}", UnreadLine(line))?;
        }
        let rest = unread.len().saturating_sub(MOST_LINES);
        write!(
            f,
            "{}",
            RestLine {
                rest,
                of: "what is left out"
            }
        )
    }
}

/// What `mend` does.
#[derive(Drop)]
struct MendLine(usize);

impl Display for MendLine {
    fn fmt<W: Write>(&self, f: &mut Formatter<W>) -> fmt::Result {
        if self.0 == 0 {
            write!(
                f,
                "preview mend leaves nothing out, and puts a delimiter where two pictures are taken for one"
            )
        } else {
            write!(
                f,
                "preview mend writes a stream of what can be read, and leaves this out:"
            )
        }
    }
}

/// Why a stream is refused.
#[derive(Drop)]
struct Refused(Refusal);

impl Display for Refused {
    fn fmt<W: Write>(&self, f: &mut Formatter<W>) -> fmt::Result {
        match self.0 {
            Refusal::Split => write!(f, "{}", Reason::Refused(access_unit::Refused::Split)),
            Refusal::Unit { index, refused } => {
                let reason = Reason::Refused(refused);
                write!(f, "in the access unit at index {index}, {reason}")
            }
            Refusal::StreamFull => write!(f, "{}", Reason::StreamFull),
        }
    }
}

/// What is left out of a stream, and why.
#[derive(Drop)]
struct UnreadLine<'a>(&'a Unread);

impl<'a> Display for UnreadLine<'a> {
    fn fmt<W: Write>(&self, f: &mut Formatter<W>) -> fmt::Result {
        let left_out = self.0.left_out;
        match self.0.reason {
            Some(reason) => write!(f, "  {left_out}: {reason}"),
            None => write!(f, "  {left_out}"),
        }
    }
}

/// How many lines of one kind aren't printed, if there are any.
#[derive(Drop)]
struct RestLine<'a> {
    rest: usize,
    of: &'a str,
}

impl<'a> Display for RestLine<'a> {
    fn fmt<W: Write>(&self, f: &mut Formatter<W>) -> fmt::Result {
        let (rest, of) = (self.rest, self.of);
        if rest == 0 {
            Ok(())
        } else {
            writeln!(f, "  and {rest} more of {of}")
        }
    }
}

/// What is said of a stream.
#[derive(Drop)]
struct StreamLines<'a>(&'a CheckedStream);

impl<'a> Display for StreamLines<'a> {
    fn fmt<W: Write>(&self, f: &mut Formatter<W>) -> fmt::Result {
        f.write_str("a byte stream of H.264 (Annex B)\n")?;
        for words in self.0.sets.as_slice() {
            writeln!(f, "{words}")?;
        }
        write!(f, "{}", CountLines(&self.0.counts))?;
        let (surfaces, longest) = (self.0.surfaces, longest(self.0.spans.as_slice()));
        writeln!(
            f,
            "surfaces that a decoder needs to show pictures in output order: {surfaces}"
        )?;
        writeln!(f, "largest access unit: {longest} bytes")?;
        write!(f, "{}", ProblemLines(self.0))?;
        write!(f, "{}", DoubtLines(self.0))
    }
}

/// What is counted.
#[derive(Drop)]
struct CountLines<'a>(&'a StreamCounts);

impl<'a> Display for CountLines<'a> {
    fn fmt<W: Write>(&self, f: &mut Formatter<W>) -> fmt::Result {
        let counts = *self.0;
        let (units, faults, without) = (counts.units, counts.faults, counts.without_picture);
        writeln!(
            f,
            "access units: {units}, of which {faults} can't be decoded and {without} have no picture"
        )?;
        let (i, p, b) = (counts.intra, counts.predicted, counts.bipredicted);
        let (idr, slices) = (counts.idr, counts.slices);
        writeln!(
            f,
            "pictures that can be decoded: {i} I, {p} P and {b} B, of which {idr} are IDR, in {slices} slices"
        )?;
        let (periods, longest, frames) = (
            counts.periods,
            counts.longest_period,
            counts.most_frames,
        );
        writeln!(
            f,
            "output order begins anew at {periods} of them; the most pictures from one such on: {longest}"
        )?;
        writeln!(f, "most reference frames before a picture: {frames}")
    }
}

/// The units with a fault.
#[derive(Drop)]
struct ProblemLines<'a>(&'a CheckedStream);

impl<'a> Display for ProblemLines<'a> {
    fn fmt<W: Write>(&self, f: &mut Formatter<W>) -> fmt::Result {
        let faults = self.0.counts.faults;
        writeln!(f, "problems, access units that can't be decoded: {faults}")?;
        for fault in &FAULTS {
            write!(
                f,
                "{}",
                FaultLines {
                    fault: *fault,
                    stream: self.0
                }
            )?;
        }
        Ok(())
    }
}

/// The units with a fault of one kind.
#[derive(Drop)]
struct FaultLines<'a> {
    fault: ValidityFault,
    stream: &'a CheckedStream,
}

impl<'a> Display for FaultLines<'a> {
    fn fmt<W: Write>(&self, f: &mut Formatter<W>) -> fmt::Result {
        let mut count: usize = 0;
        for problem in self.stream.problems.as_slice() {
            if problem.fault.number() == self.fault.number() {
                if count < MOST_LINES {
                    let place = problem.span_in(self.stream.spans.as_slice()).byte;
                    writeln!(f, "{}", ProblemLine { problem, place })?;
                }
                count = count.saturating_add(1);
            }
        }
        let rest = count.saturating_sub(MOST_LINES);
        write!(
            f,
            "{}",
            RestLine {
                rest,
                of: self.fault.name()
            }
        )
    }
}

/// A unit with a fault, and the place of its first byte.
#[derive(Drop)]
struct ProblemLine<'a> {
    problem: &'a Problem,
    place: usize,
}

impl<'a> Display for ProblemLine<'a> {
    fn fmt<W: Write>(&self, f: &mut Formatter<W>) -> fmt::Result {
        let (unit, place) = (self.problem.unit.number(), self.place);
        let fault = self.problem.fault;
        let (number, name, reason) = (fault.number(), fault.name(), self.problem.reason);
        write!(
            f,
            "  unit {unit} at byte {place}: {reason} [fault {number}, {name}]"
        )
    }
}

/// The doubt_ranges in doubt.
#[derive(Drop)]
struct DoubtLines<'a>(&'a CheckedStream);

impl<'a> Display for DoubtLines<'a> {
    fn fmt<W: Write>(&self, f: &mut Formatter<W>) -> fmt::Result {
        let count = self.0.counts.in_doubt;
        writeln!(
            f,
            "pictures in doubt, which may be made of other frames than was meant: {count}"
        )?;
        for doubt_range in self.0.doubt_ranges.iter().take(MOST_LINES) {
            writeln!(f, "{}", DoubtRangeLine(doubt_range))?;
        }
        let rest = self.0.doubt_ranges.len().saturating_sub(MOST_LINES);
        write!(
            f,
            "{}",
            RestLine {
                rest,
                of: "such stretches"
            }
        )
    }
}

/// A doubt_range in doubt.
#[derive(Drop)]
struct DoubtRangeLine<'a>(&'a DoubtRange);

impl<'a> Display for DoubtRangeLine<'a> {
    fn fmt<W: Write>(&self, f: &mut Formatter<W>) -> fmt::Result {
        let (first, last) = (self.0.first.number(), self.0.last.number());
        let (count, follows) = (self.0.in_doubt, self.0.follows.number());
        write!(
            f,
            "  {count} of units {first} to {last}, after the fault of unit {follows}"
        )
    }
}
