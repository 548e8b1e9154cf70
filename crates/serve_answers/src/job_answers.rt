//! A job as a result: what a decoder is asked, with the bytes, and the pictures that it needs.

ghost use Rattle.std.specs.Prelude.{◌≡◌, IfOk, map};
ghost use Rattle.serve_answers.specs.JobAnswers.{job_answer, reference_answer, request_answer};

use crate::words::Digits;
use h264_controls::Request;
use h264_types::pictures::AuId;
use serde::Serialize;
use serve_requests::Listed;
use stand_in_device::{Input, Reference};
use std::alloc::{AllocError, Global};
use unit_printing::json::RequestJson;

/// A job.
#[derive(Debug, Drop, Serialize)]
pub struct JobAnswer {
    pub job: u64,
    pub unit: u32,
    pub requests: Listed<RequestAnswer>,
    pub references: Listed<ReferenceAnswer>,
}

/// A request, with the bytes of its slice.
#[derive(Debug, Drop, Serialize)]
pub struct RequestAnswer {
    #[serde(flatten)]
    pub request: RequestJson,
    /// Its bytes, as base64.
    #[serde(rename = "data")]
    pub text: Digits,
}

/// A picture that a job needs.
#[derive(Debug, Drop, Serialize)]
pub struct ReferenceAnswer {
    pub timestamp: u64,
    pub picture: Digits,
}

impl JobAnswer {
    /// The job of this number, which was taken for this unit and is made of this.
    pub fn of(
        alloc: Global,
        number: u64,
        unit: AuId,
        input: &Input,
    ) -> Result<JobAnswer, AllocError>
        ensures { IfOk result (λ answer. answer ≡ job_answer number unit input.now) }
    {
        Ok(JobAnswer {
            job: number,
            unit: unit.number(),
            requests: requests(alloc, input.requests())?,
            references: references(alloc, input.references())?,
        })
    }
}

/// The requests of a job.
fn requests(alloc: Global, requests: &[Request]) -> Result<Listed<RequestAnswer>, AllocError>
    ensures { IfOk result (λ answers. answers ≡ map request_answer requests.now) }
{
    let mut answers = Vec::with_capacity(alloc, requests.len())?;
    for request in requests {
        answers.push(RequestAnswer::of(alloc, request)?)?;
    }
    Ok(Listed::new(answers))
}

impl RequestAnswer {
    /// A request, with the bytes of its slice.
    fn of(alloc: Global, request: &Request) -> Result<RequestAnswer, AllocError>
        ensures { IfOk result (λ answer. answer ≡ request_answer request.now) }
    {
        Ok(RequestAnswer {
            request: RequestJson::of(request),
            text: Digits::of_bytes(alloc, request.bytes())?,
        })
    }
}

/// The pictures that a job needs.
fn references(
    alloc: Global,
    references: &[Reference],
) -> Result<Listed<ReferenceAnswer>, AllocError>
    ensures { IfOk result (λ answers. answers ≡ map reference_answer references.now) }
{
    let mut answers = Vec::with_capacity(alloc, references.len())?;
    for reference in references {
        answers.push(ReferenceAnswer::of(alloc, *reference)?)?;
    }
    Ok(Listed::new(answers))
}

impl ReferenceAnswer {
    /// A picture that a job needs.
    fn of(alloc: Global, reference: Reference) -> Result<ReferenceAnswer, AllocError>
        ensures { IfOk result (λ answer. answer ≡ reference_answer reference) }
    {
        Ok(ReferenceAnswer {
            timestamp: reference.timestamp,
            picture: Digits::of_picture(alloc, reference.picture)?,
        })
    }
}
