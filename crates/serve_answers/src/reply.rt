//! What answers a request, and notifications, as text.

use serde::Serialize;
use serde_json::Value;
use serve_requests::{Detail, Failure};
use std::alloc::{AllocError, Global};

/// The version of JSON-RPC.
const VERSION: &str = "2.0";

#[derive(Drop, Serialize)]
struct Answered<'a, R> {
    jsonrpc: &'static str,
    id: Option<&'a Value>,
    result: &'a R,
}

#[derive(Drop, Serialize)]
struct Failed<'a> {
    jsonrpc: &'static str,
    id: Option<&'a Value>,
    error: Error,
}

#[derive(Drop, Serialize)]
struct Error {
    code: i32,
    message: &'static str,
    #[serde(skip_serializing_if = "Option::is_none")]
    data: Option<Detail>,
}

#[derive(Drop, Serialize)]
struct Notification<'a, P> {
    jsonrpc: &'static str,
    method: &'static str,
    params: &'a P,
}

/// The text of a result, without a line break. No clause says what it is.
pub fn result_text<R: Serialize>(
    alloc: Global,
    id: Option<&Value>,
    answer: &R,
) -> Result<String, AllocError> {
    text_of(
        alloc,
        &Answered {
            jsonrpc: VERSION,
            id,
            result: answer,
        },
    )
}

/// The text of a failure, without a line break. No clause says what it is.
pub fn failure_text(
    alloc: Global,
    id: Option<&Value>,
    failure: Failure,
) -> Result<String, AllocError> {
    let error = Error {
        code: failure.code(),
        message: failure.message(),
        data: failure.detail(),
    };
    text_of(
        alloc,
        &Failed {
            jsonrpc: VERSION,
            id,
            error,
        },
    )
}

/// The text of a notification of this method, without a line break. No clause says what it is.
pub fn notification_text<P: Serialize>(
    alloc: Global,
    method: &'static str,
    params: &P,
) -> Result<String, AllocError> {
    text_of(
        alloc,
        &Notification {
            jsonrpc: VERSION,
            method,
            params,
        },
    )
}

/// A value as text.
fn text_of<T: Serialize>(alloc: Global, value: &T) -> Result<String, AllocError> {
    match serde_json::to_string(alloc, value) {
        Ok(text) => Ok(text),
        Err(_) => Err(AllocError),
    }
}
