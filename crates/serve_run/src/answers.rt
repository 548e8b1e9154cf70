//! The answers to the messages of a line.

use serde_json::Value;
use serve_answers::{Answer, failure_text, result_text};
use serve_requests::Failure;
use std::alloc::{AllocError, Global};

/// The answers to the messages of a line, as one text.
#[derive(Drop)]
pub(crate) struct Answers {
    alloc: Global,
    /// Whether they stand in an array, each behind `[` or a comma. Else there is one at most.
    are_array: bool,
    text: String,
    /// Whether memory ran out: then there is no text, and nothing is added any more.
    has_failed: bool,
}

impl Answers {
    /// Before the first answer.
    pub(crate) fn new(alloc: Global, are_array: bool) -> Answers {
        Answers {
            alloc,
            are_array,
            text: String::new(alloc),
            has_failed: false,
        }
    }

    /// Adds what answers the request of this id.
    pub(crate) fn add(&mut self, id: Option<&Value>, answer: &Result<Answer, Failure>) {
        self.has_failed = self.has_failed || self.push(id, answer).is_err();
    }

    /// Adds an answer, or part of it where memory runs out.
    fn push(
        &mut self,
        id: Option<&Value>,
        answer: &Result<Answer, Failure>,
    ) -> Result<(), AllocError> {
        let answer = match answer {
            Ok(answer) => result_text(self.alloc, id, answer)?,
            Err(failure) => failure_text(self.alloc, id, *failure)?,
        };
        if self.are_array {
            self.text
                .push(if self.text.is_empty() { '[' } else { ',' })?;
        }
        self.text.push_str(answer.as_str())?;
        Ok(())
    }

    /// The text, if there are any.
    pub(crate) fn into_text(self) -> Result<Option<String>, AllocError> {
        if self.has_failed {
            return Err(AllocError);
        }
        if self.text.is_empty() {
            return Ok(None);
        }
        let mut text = self.text;
        if self.are_array {
            text.push(']')?;
        }
        Ok(Some(text))
    }
}
