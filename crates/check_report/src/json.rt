//! What is found of a file, as JSON (docs/OUTPUT.md).

use access_unit::{Refusal, Refused};
use serde::Serialize;
use std::alloc::{AllocError, Global};
use stream_check::{
    CheckResult, CheckedStream, DoubtRange, Problem, RefusedStream, SetWords, StreamCounts,
    UnitSpan, Unread, chroma_words, longest, profile_words,
};
use stream_reasons::Reason;
use stream_reasons::file_kinds::FileKind;

/// What is found of a file: one object.
#[derive(Drop, Serialize)]
#[serde(untagged)]
enum CheckResultJson {
    Other(OtherJson),
    Refused(RefusedJson),
    Stream(StreamJson),
}

/// A file of another kind.
#[derive(Drop, Serialize)]
struct OtherJson {
    kind: &'static str,
    sentence: &'static str,
    #[serde(skip_serializing_if = "Option::is_none")]
    command: Option<&'static str>,
}

/// A stream that is refused: the index of the access unit, from 0, where it is one, and what `mend`
/// leaves out.
#[derive(Drop, Serialize)]
struct RefusedJson {
    kind: &'static str,
    #[serde(skip_serializing_if = "Option::is_none")]
    index: Option<usize>,
    number: u8,
    name: &'static str,
    reason: String,
    left_out: Vec<LeftOutJson>,
}

/// What is left out of a stream.
#[derive(Drop, Serialize)]
struct LeftOutJson {
    byte: usize,
    bytes: usize,
    why: String,
    #[serde(skip_serializing_if = "Option::is_none")]
    reason: Option<String>,
}

/// A stream.
#[derive(Drop, Serialize)]
struct StreamJson {
    kind: &'static str,
    sets: Vec<SetJson>,
    counts: StreamCounts,
    surfaces: usize,
    longest_unit: usize,
    problems: Vec<ProblemJson>,
    doubts: Vec<DoubtRangeJson>,
    units: Vec<UnitSpan>,
}

/// A sequence parameter set.
#[derive(Drop, Serialize)]
struct SetJson {
    seq_parameter_set_id: u8,
    profile: &'static str,
    level: String,
    width: u32,
    height: u32,
    chroma: &'static str,
    luma_bits: u8,
    chroma_bits: u8,
    frame_num_bits: u8,
    pic_order_cnt_type: u8,
    max_num_ref_frames: u8,
}

/// A unit with a fault.
#[derive(Drop, Serialize)]
struct ProblemJson {
    unit: u32,
    byte: usize,
    bytes: usize,
    number: u8,
    name: &'static str,
    reason: String,
}

/// A doubt_range in doubt.
#[derive(Drop, Serialize)]
struct DoubtRangeJson {
    first: u32,
    last: u32,
    follows: u32,
    in_doubt: usize,
}

/// What was found, as an object with a line break after it.
pub fn json_of(alloc: Global, found: &CheckResult) -> Result<String, AllocError> {
    let json = check_result_json(alloc, found)?;
    let Ok(mut text) = serde_json::to_string(alloc, &json) else {
        return Err(AllocError);
    };
    text.push('\n')?;
    Ok(text)
}

fn check_result_json(alloc: Global, found: &CheckResult) -> Result<CheckResultJson, AllocError> {
    match found {
        CheckResult::Other(kind) => Ok(CheckResultJson::Other(other_json(*kind))),
        CheckResult::Refused(refused) => Ok(CheckResultJson::Refused(refused_json(
            alloc, refused,
        )?)),
        CheckResult::Stream(stream) => Ok(CheckResultJson::Stream(stream_json(alloc, stream)?)),
    }
}

fn other_json(kind: FileKind) -> OtherJson {
    OtherJson {
        kind: kind.name(),
        sentence: kind.sentence(),
        command: kind.command(),
    }
}

fn refused_json(alloc: Global, refused: &RefusedStream) -> Result<RefusedJson, AllocError> {
    let (index, number, name) = numbered(refused.refusal);
    Ok(RefusedJson {
        kind: FileKind::H264AnnexB.name(),
        index,
        number,
        name,
        reason: reason_of(refused.refusal).to_string(alloc)?,
        left_out: left_out_json(alloc, &refused.unread)?,
    })
}

/// The index of the access unit, if it is one that is refused, and the number and the name.
fn numbered(refusal: Refusal) -> (Option<usize>, u8, &'static str) {
    match refusal {
        Refusal::Split => (None, Refused::Split.number(), Refused::Split.name()),
        Refusal::Unit { index, refused } => (Some(index), refused.number(), refused.name()),
        Refusal::StreamFull => (None, 17, "StreamFull"),
    }
}

fn reason_of(refusal: Refusal) -> Reason {
    match refusal {
        Refusal::Split => Reason::Refused(Refused::Split),
        Refusal::Unit { index: _, refused } => Reason::Refused(refused),
        Refusal::StreamFull => Reason::StreamFull,
    }
}

fn left_out_json(alloc: Global, unread: &[Unread]) -> Result<Vec<LeftOutJson>, AllocError> {
    let mut json = Vec::with_capacity(alloc, unread.len())?;
    for one in unread {
        json.push(one_left_out(alloc, one)?)?;
    }
    Ok(json)
}

fn one_left_out(alloc: Global, unread: &Unread) -> Result<LeftOutJson, AllocError> {
    Ok(LeftOutJson {
        byte: unread.left_out.byte,
        bytes: unread.left_out.bytes,
        why: unread.left_out.why.to_string(alloc)?,
        reason: said(alloc, unread.reason)?,
    })
}

fn said(alloc: Global, reason: Option<Reason>) -> Result<Option<String>, AllocError> {
    match reason {
        Some(reason) => Ok(Some(reason.to_string(alloc)?)),
        None => Ok(None),
    }
}

fn stream_json(alloc: Global, stream: &CheckedStream) -> Result<StreamJson, AllocError> {
    Ok(StreamJson {
        kind: FileKind::H264AnnexB.name(),
        sets: sets_json(alloc, &stream.sets)?,
        counts: stream.counts,
        surfaces: stream.surfaces,
        longest_unit: longest(&stream.spans),
        problems: problems_json(alloc, &stream.problems, &stream.spans)?,
        doubts: doubts_json(alloc, &stream.doubt_ranges)?,
        units: copied(alloc, &stream.spans)?,
    })
}

fn copied(alloc: Global, spans: &[UnitSpan]) -> Result<Vec<UnitSpan>, AllocError> {
    let mut copies = Vec::with_capacity(alloc, spans.len())?;
    copies.extend_from_slice(spans)?;
    Ok(copies)
}

fn sets_json(alloc: Global, sets: &[SetWords]) -> Result<Vec<SetJson>, AllocError> {
    let mut json = Vec::with_capacity(alloc, sets.len())?;
    for words in sets {
        json.push(set_json(alloc, words)?)?;
    }
    Ok(json)
}

fn set_json(alloc: Global, words: &SetWords) -> Result<SetJson, AllocError> {
    Ok(SetJson {
        seq_parameter_set_id: words.seq_parameter_set_id,
        profile: profile_words(words.profile),
        level: words.level.to_string(alloc)?,
        width: words.width,
        height: words.height,
        chroma: chroma_words(words.chroma),
        luma_bits: words.luma_bits,
        chroma_bits: words.chroma_bits,
        frame_num_bits: words.frame_num_bits,
        pic_order_cnt_type: words.pic_order_cnt_type,
        max_num_ref_frames: words.max_num_ref_frames,
    })
}

fn problems_json(
    alloc: Global,
    problems: &[Problem],
    spans: &[UnitSpan],
) -> Result<Vec<ProblemJson>, AllocError> {
    let mut json = Vec::with_capacity(alloc, problems.len())?;
    for problem in problems {
        json.push(problem_json(alloc, problem, problem.span_in(spans))?)?;
    }
    Ok(json)
}

fn problem_json(
    alloc: Global,
    problem: &Problem,
    place: UnitSpan,
) -> Result<ProblemJson, AllocError> {
    Ok(ProblemJson {
        unit: problem.unit.number(),
        byte: place.byte,
        bytes: place.bytes,
        number: problem.fault.number(),
        name: problem.fault.name(),
        reason: problem.reason.to_string(alloc)?,
    })
}

fn doubts_json(
    alloc: Global,
    doubt_ranges: &[DoubtRange],
) -> Result<Vec<DoubtRangeJson>, AllocError> {
    let mut json = Vec::with_capacity(alloc, doubt_ranges.len())?;
    for doubt_range in doubt_ranges {
        json.push(DoubtRangeJson {
            first: doubt_range.first.number(),
            last: doubt_range.last.number(),
            follows: doubt_range.follows.number(),
            in_doubt: doubt_range.in_doubt,
        })?;
    }
    Ok(json)
}
