//! What a message is: a request, or none.

ghost use Rattle.std.specs.Prelude.{◌≡◌, option_and_then, option_map};
ghost use Rattle.serde_json.specs.Find.{as_str};
ghost use Rattle.serde_json.specs.View.{view};
ghost use Rattle.serve_requests.specs.Messages.{IsMessage, id_in, is_id, is_request, is_structured, is_version, lent, may_be};

use serde_json::Value;

/// A message. What it borrows is that of its text.
#[derive(Debug)]
pub enum Message<'a> {
    /// A request.
    RpcRequest(RpcRequest<'a>),
    /// None, with its id if it has one that may be.
    Other { id: Option<&'a Value> },
}

/// A request.
#[derive(Clone, Copy, Debug)]
pub struct RpcRequest<'a> {
    /// The id by which it is answered. One without isn't answered.
    pub id: Option<&'a Value>,
    /// The name of the method.
    pub method: &'a str,
    /// The parameters, if there are any.
    pub parameters: Option<&'a Value>,
}

impl<'a> Message<'a> {
    /// What a value is as a message.
    pub fn of(value: &'a Value) -> Message<'a>
        ensures { IsMessage (view value.now) result }
    {
        let method = value.get("method").and_then(Value::as_str);
        match method {
            Some(method) if is_request(value) => Message::RpcRequest(RpcRequest {
                id: value.get("id"),
                method,
                parameters: value.get("params"),
            }),
            _ => Message::Other { id: id_in(value) },
        }
    }
}

/// Whether a message has the version, and an id and parameters that may be.
fn is_request(value: &Value) -> bool
    ensures { result ≡ is_request (view value.now) }
{
    is_version(value.get("jsonrpc").and_then(Value::as_str))
        && may_be_id(value.get("id"))
        && may_be_parameters(value.get("params"))
}

/// Whether a text is the version.
fn is_version(text: Option<&str>) -> bool
    ensures { result ≡ is_version (option_map (λ it. it.now) text.entry) }
{
    match text {
        Some(text) => text == "2.0",
        None => false,
    }
}

/// Whether an id may be this one, or not be there.
fn may_be_id(value: Option<&Value>) -> bool
    ensures { result ≡ may_be is_id (lent value.entry) }
{
    match value {
        Some(value) => is_id(value),
        None => true,
    }
}

/// Whether parameters may be these, or not be there.
fn may_be_parameters(value: Option<&Value>) -> bool
    ensures { result ≡ may_be is_structured (lent value.entry) }
{
    match value {
        Some(value) => is_structured(value),
        None => true,
    }
}

/// Whether a value may be an id.
fn is_id(value: &Value) -> bool
    ensures { result ≡ is_id (view value.now) }
{
    match value {
        Value::Null | Value::Number(_) | Value::String(_) => true,
        _ => false,
    }
}

/// Whether a value may be parameters.
fn is_structured(value: &Value) -> bool
    ensures { result ≡ is_structured (view value.now) }
{
    match value {
        Value::Array(_) | Value::Object(_) => true,
        _ => false,
    }
}

/// The id that any message has, if it may be one.
fn id_in(value: &Value) -> Option<&Value>
    ensures { lent result ≡ id_in (view value.now) }
{
    match value.get("id") {
        Some(id) if is_id(id) => Some(id),
        _ => None,
    }
}
