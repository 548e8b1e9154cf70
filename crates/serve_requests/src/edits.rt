//! Edits as parameters.

ghost use Rattle.std.specs.Prelude.{◌≡◌};
ghost use Rattle.serde_json.specs.View.{items_view, view};
ghost use Rattle.serve_requests.specs.Calls.{IsEntryAnswer, deletion_in, entries_of, entry_of, id_of_value, insertion_in, place_of, replacement_in};
ghost use Rattle.serve_requests.specs.Fields.{IsFieldAnswer, all_of, required};
ghost use Rattle.std.specs.Option.{ok_or};

use crate::fields::{FieldFault, bytes, number, value_at};
use crate::listed::Listed;
use crate::parameter::Parameter;
use edit_script::id_of_number;
use h264_types::pictures::AuId;
use serde_json::Value;
use std::alloc::Global;
use stream_edits::{Edit, InsertionPoint};

/// An insertion.
pub(crate) fn insertion(alloc: Global, parameters: &Value) -> Result<Edit, FieldFault>
    ensures { IsFieldAnswer (insertion_in (view parameters.now)) result }
{
    let place = place(parameters)?;
    let text = bytes(alloc, parameters, Parameter::Bytes)?;
    Ok(Edit::Insert(place, text))
}

/// A deletion.
pub(crate) fn deletion(parameters: &Value) -> Result<Edit, Parameter>
    ensures { result ≡ deletion_in (view parameters.now) }
{
    Ok(Edit::Delete(id(parameters)?))
}

/// A replacement.
pub(crate) fn replacement(alloc: Global, parameters: &Value) -> Result<Edit, FieldFault>
    ensures { IsFieldAnswer (replacement_in (view parameters.now)) result }
{
    let id = id(parameters)?;
    let text = bytes(alloc, parameters, Parameter::Bytes)?;
    Ok(Edit::Replace(id, text))
}

/// The id of a unit.
fn id(parameters: &Value) -> Result<AuId, Parameter>
    ensures { result ≡ required id_of_value Parameter.Id (view parameters.now) }
{
    Ok(id_of_number(number(parameters, Parameter::Id)?))
}

/// The place of an insertion.
fn place(parameters: &Value) -> Result<InsertionPoint, Parameter>
    ensures { result ≡ required place_of Parameter.After (view parameters.now) }
{
    let value = value_at(parameters, Parameter::After).ok_or(Parameter::After)?;
    match value {
        Value::Null => Ok(InsertionPoint::First),
        _ => {
            let number = value.as_u64().ok_or(Parameter::After)?;
            Ok(InsertionPoint::After(id_of_number(number)))
        }
    }
}

/// The edits of a group.
pub(crate) fn entries(alloc: Global, parameters: &Value) -> Result<Listed<Edit>, FieldFault>
    ensures { IsFieldAnswer (required entries_of Parameter.Edits (view parameters.now)) result }
{
    let value = value_at(parameters, Parameter::Edits).ok_or(Parameter::Edits)?;
    let values = value.as_array().ok_or(Parameter::Edits)?;
    all_entries(alloc, values)
}

/// The edits that all of a group's entries ask for.
fn all_entries(alloc: Global, values: &[Value]) -> Result<Listed<Edit>, FieldFault>
    ensures { IsFieldAnswer (ok_or (all_of entry_of (items_view
        values.now)) Parameter.Edits) result }
{
    let mut edits = Vec::with_capacity(alloc, values.len())?;
    for value in values {
        match entry(alloc, value) {
            Ok(edit) => edits.push(edit)?,
            Err(FieldFault::Wrong(_)) => return Err(FieldFault::Wrong(Parameter::Edits)),
            Err(FieldFault::Memory) => return Err(FieldFault::Memory),
        }
    }
    Ok(Listed::new(edits))
}

/// The edit that an entry of a group asks for, or which parameter of it is wrong.
fn entry(alloc: Global, value: &Value) -> Result<Edit, FieldFault>
    ensures { IsEntryAnswer (entry_of (view value.now)) result }
{
    match (
        value.get("insert"),
        value.get("delete"),
        value.get("replace"),
    ) {
        (Some(insert), None, None) => insertion(alloc, insert),
        (None, Some(delete), None) => Ok(deletion(delete)?),
        (None, None, Some(replace)) => replacement(alloc, replace),
        _ => Err(FieldFault::Wrong(Parameter::Edits)),
    }
}
