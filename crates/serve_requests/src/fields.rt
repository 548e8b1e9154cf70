//! The parameters of a message, read one by one.

ghost use Rattle.std.specs.Prelude.{◌≡◌, option_map};
ghost use Rattle.std.specs.Option.{ok_or};
ghost use Rattle.serde_json.specs.Find.{as_bool};
ghost use Rattle.serde_json.specs.View.{items_view, view};
ghost use Rattle.serve_requests.specs.declared.fields.FieldFault.TheVariants.{Memory, Wrong};
ghost use Rattle.serve_requests.specs.Fields.{IsFieldAnswer, all_of, bytes_of, count_of, number_of, numbers_of, optional, required, value_at};

use crate::listed::Listed;
use crate::parameter::Parameter;
use base64::DecodeAllocError;
use base64::engine::general_purpose::STANDARD;
use bytes::Bytes;
use serde_json::Value;
use std::alloc::{AllocError, AllocFailed, Global};

/// How many units are told at once.
const MOST_TOLD: u64 = 1_000;

/// Why parameters aren't read.
#[derive(Clone, Copy, Debug, PartialEq, Eq)]
pub enum FieldFault {
    /// This one is missing, of the wrong type or out of range.
    Wrong(Parameter),
    /// A growth was refused.
    Memory,
}

impl From<Parameter> for FieldFault {
    ghost from_gives = { λ parameter fault. fault ≡ Wrong parameter };

    fn from(parameter: Parameter) -> FieldFault {
        FieldFault::Wrong(parameter)
    }
}

impl From<AllocError> for FieldFault {
    ghost from_gives = { λ _ fault. fault ≡ Memory };

    fn from(_error: AllocError) -> FieldFault {
        FieldFault::Memory
    }
}

impl<T: Drop> From<AllocFailed<T>> for FieldFault {
    ghost from_gives = { λ _ fault. fault ≡ Memory };

    fn from(_error: AllocFailed<T>) -> FieldFault {
        FieldFault::Memory
    }
}

/// The value of a parameter, if it is there.
pub(crate) fn value_at<'a>(parameters: &'a Value, parameter: Parameter) -> Option<&'a Value>
    ensures { option_map (λ value. view value.now) result
        ≡ value_at parameter (view parameters.now) }
{
    parameters.get(parameter.name())
}

/// A number.
pub(crate) fn number(parameters: &Value, parameter: Parameter) -> Result<u64, Parameter>
    ensures { result ≡ required number_of parameter (view parameters.now) }
{
    value_at(parameters, parameter)
        .and_then(Value::as_u64)
        .ok_or(parameter)
}

/// A number, if it is there.
pub(crate) fn number_if_any(
    parameters: &Value,
    parameter: Parameter,
) -> Result<Option<u64>, Parameter>
    ensures { result ≡ optional number_of parameter (view parameters.now) }
{
    match value_at(parameters, parameter) {
        Some(value) => Ok(Some(value.as_u64().ok_or(parameter)?)),
        None => Ok(None),
    }
}

/// Whether something is, if that is there.
pub(crate) fn flag_if_any(
    parameters: &Value,
    parameter: Parameter,
) -> Result<Option<bool>, Parameter>
    ensures { result ≡ optional as_bool parameter (view parameters.now) }
{
    match value_at(parameters, parameter) {
        Some(value) => Ok(Some(value.as_bool().ok_or(parameter)?)),
        None => Ok(None),
    }
}

/// A count of units to be told.
pub(crate) fn count(parameters: &Value) -> Result<u64, Parameter>
    ensures { result ≡ required count_of Parameter.Count (view parameters.now) }
{
    let count = number(parameters, Parameter::Count)?;
    if count <= MOST_TOLD {
        Ok(count)
    } else {
        Err(Parameter::Count)
    }
}

/// Bytes, as base64.
pub(crate) fn bytes(
    alloc: Global,
    parameters: &Value,
    parameter: Parameter,
) -> Result<Bytes, FieldFault>
    ensures { IsFieldAnswer (required bytes_of parameter (view parameters.now)) result }
{
    let value = value_at(parameters, parameter).ok_or(parameter)?;
    bytes_of(alloc, value, parameter)
}

/// The bytes that a parameter's value stands for, as base64.
pub(crate) fn bytes_of(
    alloc: Global,
    value: &Value,
    parameter: Parameter,
) -> Result<Bytes, FieldFault>
    ensures { IsFieldAnswer (ok_or (bytes_of (view value.now)) parameter) result }
{
    let text = value.as_str().ok_or(parameter)?;
    match STANDARD.decode(alloc, text.as_bytes()) {
        Ok(bytes) => Ok(Bytes::from_vec(bytes)?),
        Err(DecodeAllocError::OutOfMemory) => Err(FieldFault::Memory),
        Err(_) => Err(FieldFault::Wrong(parameter)),
    }
}

/// Numbers.
pub(crate) fn numbers(
    alloc: Global,
    parameters: &Value,
    parameter: Parameter,
) -> Result<Listed<u64>, FieldFault>
    ensures { IsFieldAnswer (required numbers_of parameter (view parameters.now)) result }
{
    let value = value_at(parameters, parameter).ok_or(parameter)?;
    let values = value.as_array().ok_or(parameter)?;
    all_numbers(alloc, values, parameter)
}

/// The numbers that a parameter's values are.
fn all_numbers(
    alloc: Global,
    values: &[Value],
    parameter: Parameter,
) -> Result<Listed<u64>, FieldFault>
    ensures { IsFieldAnswer (ok_or (all_of number_of (items_view values.now)) parameter) result }
{
    let mut numbers = Vec::with_capacity(alloc, values.len())?;
    for value in values {
        numbers.push(value.as_u64().ok_or(parameter)?)?;
    }
    Ok(Listed::new(numbers))
}
