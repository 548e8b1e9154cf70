//! The parameters of methods.

ghost use Rattle.std.specs.Prelude.{◌≡◌};
ghost use Rattle.serve_requests.specs.Parameters.{name_of};

use serde::Serialize;

/// A parameter of a method.
#[derive(Clone, Copy, Debug, PartialEq, Eq, Serialize)]
#[serde(rename_all = "lowercase")]
pub enum Parameter {
    Path,
    Bytes,
    Mend,
    After,
    Id,
    Edits,
    From,
    Count,
    Controls,
    Position,
    Ids,
    Rest,
    Job,
}

impl Parameter {
    /// Its name in a message.
    pub fn name(self) -> &'static str
        ensures { result.now ≡ name_of self }
    {
        match self {
            Parameter::Path => "path",
            Parameter::Bytes => "bytes",
            Parameter::Mend => "mend",
            Parameter::After => "after",
            Parameter::Id => "id",
            Parameter::Edits => "edits",
            Parameter::From => "from",
            Parameter::Count => "count",
            Parameter::Controls => "controls",
            Parameter::Position => "position",
            Parameter::Ids => "ids",
            Parameter::Rest => "rest",
            Parameter::Job => "job",
        }
    }
}
