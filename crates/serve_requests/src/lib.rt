//! What a server is asked by a message of JSON-RPC 2.0 (docs/SERVER.md).
//!
//! `Message::of` says what a value of JSON is as a message, and `RpcRequest::call` which call a
//! request asks for, or why it asks for none. A refusal is a `Failure`, with its code, its message
//! and what is told beside them. No session is asked here. Below is edit_script, whose rule for
//! ids this is; above are serve_answers and serve_calls.
#![tactic(auto)]

mod call;
mod edits;
mod failure;
mod fields;
mod listed;
mod message;
mod method;
mod parameter;
mod reasons;
mod request;

pub use call::{Call, Loaded, Name};
pub use failure::{CallRefusal, Detail, Failure, Why};
pub use listed::Listed;
pub use message::{Message, RpcRequest};
pub use method::Method;
pub use parameter::Parameter;
