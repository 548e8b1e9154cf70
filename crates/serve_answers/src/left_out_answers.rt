//! What mending left out of a stream that is loaded, as results.

ghost use Rattle.std.specs.Prelude.{◌≡◌, IfOk, map, take};
ghost use Rattle.serve_answers.specs.LeftOutAnswers.{left_out_answer, left_out_answers, most_left_out};

use crate::words::Text;
use serde::Serialize;
use serve_requests::Listed;
use std::alloc::{AllocError, Global};
use stream_mending::LeftOut;

/// How many of the ranges that are left out are told at most.
pub(crate) const MOST_LEFT_OUT: usize = 1_000;

/// Bytes that are left out.
#[derive(Debug, Drop, Serialize)]
pub struct LeftOutAnswer {
    /// The place of the first, from 0.
    pub byte: usize,
    /// How many they are.
    pub bytes: usize,
    /// Why, in words.
    pub why: Text,
}

/// The first of what is left out, as many as are told.
pub fn of_left_out(alloc: Global, left_out: &[LeftOut]) -> Result<Listed<LeftOutAnswer>, AllocError>
    ensures { IfOk result (λ answers. answers ≡ left_out_answers left_out.now) }
{
    Ok(Listed::new(answers(alloc, first_of(left_out))?))
}

/// The first of these, as many as are told.
fn first_of(left_out: &[LeftOut]) -> &[LeftOut]
    ensures { result.now ≡ take most_left_out left_out.now }
{
    &left_out[..MOST_LEFT_OUT.min(left_out.len())]
}

/// All of these.
fn answers(alloc: Global, left_out: &[LeftOut]) -> Result<Vec<LeftOutAnswer>, AllocError>
    ensures { IfOk result (λ answers. answers.items ≡ map left_out_answer left_out.now) }
{
    let mut answers = Vec::with_capacity(alloc, left_out.len())?;
    for one in left_out {
        answers.push(LeftOutAnswer::of(alloc, *one)?)?;
    }
    Ok(answers)
}

impl LeftOutAnswer {
    /// Bytes that are left out.
    fn of(alloc: Global, left_out: LeftOut) -> Result<LeftOutAnswer, AllocError>
        ensures { IfOk result (λ answer. answer ≡ left_out_answer left_out) }
    {
        Ok(LeftOutAnswer {
            byte: left_out.byte,
            bytes: left_out.bytes,
            why: Text::new(left_out.why.to_string(alloc)?),
        })
    }
}
