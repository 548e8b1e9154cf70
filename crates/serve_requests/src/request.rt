//! The call that a request asks for.

ghost use Rattle.std.specs.Prelude.{◌≡◌};
ghost use Rattle.serve_requests.specs.Requests.{IsRequestAnswer, called, called_by, called_with, has_items};
ghost use Rattle.serde_json.specs.View.{view};
ghost use Rattle.serve_requests.specs.Messages.{lent, parts_of};

use crate::call::{Call, call_with};
use crate::failure::{CallRefusal, Failure};
use crate::fields::FieldFault;
use crate::message::RpcRequest;
use crate::method::Method;
use serde_json::Value;
use std::alloc::Global;

impl<'a> RpcRequest<'a> {
    /// The call that it asks for, or why it asks for none. Methods about jobs are there where
    /// `has_jobs` says so, and that about a journal's file where `has_journal` does; one that isn't
    /// there is refused as such, whatever its parameters are.
    pub fn call(&self, alloc: Global, has_jobs: bool, has_journal: bool) -> Result<Call, Failure>
        ensures { IsRequestAnswer (called has_jobs has_journal (parts_of self.now)) result }
    {
        match Method::named(self.method) {
            Some(method) if method.is_offered(has_jobs, has_journal) => {
                call_of(alloc, method, self.parameters)
            }
            _ => Err(Failure::NoMethod),
        }
    }
}

/// The call of a method by its parameters, if there are any.
fn call_of(alloc: Global, method: Method, parameters: Option<&Value>) -> Result<Call, Failure>
    ensures { IsRequestAnswer (called_with method (lent parameters.entry)) result }
{
    match parameters {
        Some(parameters) => call_by(alloc, method, parameters),
        None => call_by(alloc, method, &Value::Null),
    }
}

/// The call of a method by its parameters.
fn call_by(alloc: Global, method: Method, parameters: &Value) -> Result<Call, Failure>
    ensures { IsRequestAnswer (called_by method (view parameters.now)) result }
{
    if has_items(parameters) && !method.takes_any() {
        return Err(Failure::Parameters(method.first_parameter()));
    }
    match call_with(alloc, method, parameters) {
        Ok(call) => Ok(call),
        Err(FieldFault::Wrong(parameter)) => Err(Failure::Parameters(Some(parameter))),
        Err(FieldFault::Memory) => Err(Failure::Refused(CallRefusal::Memory)),
    }
}

/// Whether parameters are an array that isn't empty.
fn has_items(parameters: &Value) -> bool
    ensures { result ≡ has_items (view parameters.now) }
{
    match parameters.as_array() {
        Some(items) => !items.as_slice().is_empty(),
        None => false,
    }
}
