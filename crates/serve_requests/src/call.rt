//! The calls that requests ask for.

ghost use Rattle.std.specs.Prelude.{◌≡◌};
ghost use Rattle.serde_json.specs.View.{view};
ghost use Rattle.serve_requests.specs.Calls.{call_with, file_named, journal_in, load_in, loaded_in, save_in, units_in, want_in};
ghost use Rattle.serve_requests.specs.Fields.{IsFieldAnswer};
ghost use Rattle.serve_requests.specs.declared.parameter.Parameter.TheVariants.{Path};
ghost use Rattle.serde_json.specs.Find.{as_str};
ghost use Rattle.std.specs.Option.{ok_or};

use crate::edits::{deletion, entries, insertion, replacement};
use crate::fields::{
    FieldFault, bytes_of, count, flag_if_any, number, number_if_any, numbers, value_at,
};
use crate::listed::Listed;
use crate::method::Method;
use crate::parameter::Parameter;
use bytes::Bytes;
use serde_json::Value;
use std::alloc::Global;
use std::marker::Model;
use stream_edits::Edit;

/// What a request asks for.
#[derive(Debug, Drop)]
pub enum Call {
    /// What the server is, and what it takes.
    Initialize,
    /// The insertion of units, each after the last one; of a stream that is mended or as it came.
    Load {
        loaded: Loaded,
        mend: bool,
    },
    /// That the stream is saved as the file of this name.
    Save(Name),
    /// An edit of the stream.
    Edit(Edit),
    /// These edits, all of them or none.
    Group(Listed<Edit>),
    /// The last edit, group or load that isn't undone, taken back.
    Undo,
    /// The last of these that was taken back, done again.
    Redo,
    /// The mark by which units are altered from then on.
    Mark,
    /// What becomes of so many units from a place on, with their controls if they are asked for.
    Units {
        from: u64,
        count: u64,
        controls: bool,
    },
    /// The text of the unit of this number, as it was given.
    Text(u64),
    /// The unit at this output position.
    Find(u64),
    /// What is shown of the unit of this number.
    Show(u64),
    /// That the units of these numbers are looked at first, and whether all others are looked at
    /// too.
    Want {
        ids: Listed<u64>,
        rest: bool,
    },
    /// That the picture of the unit of this number is gone; without a number, that of each cached
    /// key.
    Drop(Option<u64>),
    /// A picture to decode, as a job; with a number, one that the unit of this number needs.
    Take(Option<u64>),
    /// The result of the job of this number.
    Land(u64),
    /// The job of this number, given back undone.
    GiveBack(u64),
    /// So many of the edits that were accepted, from one on, those of a group as one.
    Journal {
        from: u64,
        count: u64,
    },
    /// How much there is of what the server keeps.
    Stats,
    /// That all is as at the beginning.
    Reset,
    /// That the journal's file is written anew, as the stream is.
    Compact,
    /// The end.
    Shutdown,
}

/// Where the units of a load are.
#[derive(Debug, Drop)]
pub enum Loaded {
    /// In the file of this name.
    File(Name),
    /// In these bytes.
    Text(Bytes),
}

/// The name of a file. Clauses see its bytes.
#[derive(Debug, Drop)]
pub struct Name {
    text: String,
}

impl Model for Name {
    ghost use Rattle.std.specs.Prelude.{List, ℕ, string_bytes};

    ghost Value = { List ℕ };

    ghost view = { λ name. string_bytes name.text };
}

impl Name {
    /// The name as text.
    pub fn as_str(&self) -> &str
        ensures { result.now ≡ self.now }
    {
        self.text.as_str()
    }
}

/// The call of a method by its parameters.
pub(crate) fn call_with(
    alloc: Global,
    method: Method,
    parameters: &Value,
) -> Result<Call, FieldFault>
    ensures { IsFieldAnswer (call_with method (view parameters.now)) result }
{
    match method {
        Method::Initialize => Ok(Call::Initialize),
        Method::Load => load(alloc, parameters),
        Method::Save => save(alloc, parameters),
        Method::Insert => Ok(Call::Edit(insertion(alloc, parameters)?)),
        Method::Delete => Ok(Call::Edit(deletion(parameters)?)),
        Method::Replace => Ok(Call::Edit(replacement(alloc, parameters)?)),
        Method::Group => Ok(Call::Group(entries(alloc, parameters)?)),
        Method::Undo => Ok(Call::Undo),
        Method::Redo => Ok(Call::Redo),
        Method::Mark => Ok(Call::Mark),
        Method::Units => Ok(units(parameters)?),
        Method::Text => Ok(Call::Text(number(parameters, Parameter::Id)?)),
        Method::Find => Ok(Call::Find(number(parameters, Parameter::Position)?)),
        Method::Show => Ok(Call::Show(number(parameters, Parameter::Id)?)),
        Method::Want => want(alloc, parameters),
        Method::Drop => Ok(Call::Drop(number_if_any(parameters, Parameter::Id)?)),
        Method::Take => Ok(Call::Take(number_if_any(parameters, Parameter::Id)?)),
        Method::Land => Ok(Call::Land(number(parameters, Parameter::Job)?)),
        Method::GiveBack => Ok(Call::GiveBack(number(parameters, Parameter::Job)?)),
        Method::Journal => Ok(journal(parameters)?),
        Method::Stats => Ok(Call::Stats),
        Method::Reset => Ok(Call::Reset),
        Method::Compact => Ok(Call::Compact),
        Method::Shutdown => Ok(Call::Shutdown),
    }
}

/// The units of a range.
fn units(parameters: &Value) -> Result<Call, Parameter>
    ensures { result ≡ units_in (view parameters.now) }
{
    let from = number(parameters, Parameter::From)?;
    let count = count(parameters)?;
    let controls = flag_if_any(parameters, Parameter::Controls)?;
    Ok(Call::Units {
        from,
        count,
        controls: controls.unwrap_or(false),
    })
}

/// A range of the journal.
fn journal(parameters: &Value) -> Result<Call, Parameter>
    ensures { result ≡ journal_in (view parameters.now) }
{
    let from = number(parameters, Parameter::From)?;
    let count = count(parameters)?;
    Ok(Call::Journal { from, count })
}

/// The wanted ids, and whether the rest is looked at too.
fn want(alloc: Global, parameters: &Value) -> Result<Call, FieldFault>
    ensures { IsFieldAnswer (want_in (view parameters.now)) result }
{
    let ids = numbers(alloc, parameters, Parameter::Ids)?;
    let rest = flag_if_any(parameters, Parameter::Rest)?;
    Ok(Call::Want {
        ids,
        rest: rest.unwrap_or(true),
    })
}

/// The units of a file or of bytes, and whether the stream is mended.
fn load(alloc: Global, parameters: &Value) -> Result<Call, FieldFault>
    ensures { IsFieldAnswer (load_in (view parameters.now)) result }
{
    let loaded = source(alloc, parameters)?;
    let mend = flag_if_any(parameters, Parameter::Mend)?;
    Ok(Call::Load {
        loaded,
        mend: mend.unwrap_or(false),
    })
}

/// The file that the stream is saved as.
fn save(alloc: Global, parameters: &Value) -> Result<Call, FieldFault>
    ensures { IsFieldAnswer (save_in (view parameters.now)) result }
{
    let path = value_at(parameters, Parameter::Path).ok_or(Parameter::Path)?;
    Ok(Call::Save(name_of(alloc, path)?))
}

/// What a load takes its units from: a file of a name, or bytes.
fn source(alloc: Global, parameters: &Value) -> Result<Loaded, FieldFault>
    ensures { IsFieldAnswer (loaded_in (view parameters.now)) result }
{
    let path = value_at(parameters, Parameter::Path);
    let text = value_at(parameters, Parameter::Bytes);
    match (path, text) {
        (Some(path), None) => file_named(alloc, path),
        (None, Some(text)) => Ok(Loaded::Text(bytes_of(alloc, text, Parameter::Bytes)?)),
        _ => Err(FieldFault::Wrong(Parameter::Path)),
    }
}

/// The file whose name is a value.
fn file_named(alloc: Global, path: &Value) -> Result<Loaded, FieldFault>
    ensures { IsFieldAnswer (file_named (view path.now)) result }
{
    Ok(Loaded::File(name_of(alloc, path)?))
}

/// The name that a value is.
fn name_of(alloc: Global, path: &Value) -> Result<Name, FieldFault>
    ensures { IsFieldAnswer (ok_or (as_str (view path.now)) Path) result }
{
    let path = path.as_str().ok_or(Parameter::Path)?;
    let text = String::from_str(alloc, path)?;
    Ok(Name { text })
}
