//! The methods of the server.

ghost use Rattle.std.specs.Prelude.{◌≡◌, IfOk};
ghost use Rattle.serve_requests.specs.Methods.{first_parameter, is_offered, method_named, method_of_pictures, methods, takes_any};

use crate::listed::Listed;
use crate::parameter::Parameter;
use serde::Serialize;
use std::alloc::{AllocError, Global};

/// A method.
#[derive(Clone, Copy, Debug, PartialEq, Eq, Serialize)]
#[serde(rename_all = "snake_case")]
pub enum Method {
    Initialize,
    Load,
    Save,
    Insert,
    Delete,
    Replace,
    Group,
    Undo,
    Redo,
    Mark,
    Units,
    Text,
    Find,
    Show,
    Want,
    Drop,
    Take,
    Land,
    GiveBack,
    Journal,
    Stats,
    Reset,
    Compact,
    Shutdown,
}

impl Method {
    /// The method of this name, if there is one.
    pub fn named(name: &str) -> Option<Method>
        ensures { result ≡ method_named name.now }
    {
        match name {
            "load" => Some(Method::Load),
            "save" => Some(Method::Save),
            "insert" => Some(Method::Insert),
            "delete" => Some(Method::Delete),
            "replace" => Some(Method::Replace),
            "group" => Some(Method::Group),
            "undo" => Some(Method::Undo),
            "redo" => Some(Method::Redo),
            "mark" => Some(Method::Mark),
            "units" => Some(Method::Units),
            "text" => Some(Method::Text),
            "find" => Some(Method::Find),
            "show" => Some(Method::Show),
            _ => Method::named_of_pictures(name),
        }
    }

    /// The method of this name among those that bring pictures or tell of the server.
    fn named_of_pictures(name: &str) -> Option<Method>
        ensures { result ≡ method_of_pictures name.now }
    {
        match name {
            "initialize" => Some(Method::Initialize),
            "want" => Some(Method::Want),
            "drop" => Some(Method::Drop),
            "take" => Some(Method::Take),
            "land" => Some(Method::Land),
            "give_back" => Some(Method::GiveBack),
            "journal" => Some(Method::Journal),
            "stats" => Some(Method::Stats),
            "reset" => Some(Method::Reset),
            "compact" => Some(Method::Compact),
            "shutdown" => Some(Method::Shutdown),
            _ => None,
        }
    }

    /// Whether it is there, where those about jobs and that about a journal's file are there or not.
    pub fn is_offered(self, has_jobs: bool, has_journal: bool) -> bool
        ensures { result ≡ is_offered has_jobs has_journal self }
    {
        match self {
            Method::Take | Method::Land | Method::GiveBack => has_jobs,
            Method::Compact => has_journal,
            _ => true,
        }
    }

    /// Whether it takes any parameters, a list too.
    pub(crate) fn takes_any(self) -> bool
        ensures { result ≡ takes_any self }
    {
        match self {
            Method::Initialize => true,
            _ => false,
        }
    }

    /// The methods that there are, with those about jobs or without, and with those about a journal's
    /// file or without.
    pub fn all(
        alloc: Global,
        has_jobs: bool,
        has_journal: bool,
    ) -> Result<Listed<Method>, AllocError>
        ensures { IfOk result (λ them. them ≡ methods has_jobs has_journal) }
    {
        let mut methods = vec![in alloc;
            Method::Initialize,
            Method::Load,
            Method::Save,
            Method::Insert,
            Method::Delete,
            Method::Replace,
            Method::Group,
            Method::Undo,
            Method::Redo,
            Method::Mark,
            Method::Units,
            Method::Text,
            Method::Find,
            Method::Show,
            Method::Want,
            Method::Drop,
        ]?;
        if has_jobs {
            methods.push(Method::Take)?;
            methods.push(Method::Land)?;
            methods.push(Method::GiveBack)?;
        }
        methods.push(Method::Journal)?;
        methods.push(Method::Stats)?;
        methods.push(Method::Reset)?;
        if has_journal {
            methods.push(Method::Compact)?;
        }
        methods.push(Method::Shutdown)?;
        Ok(Listed::new(methods))
    }

    /// Its first parameter, if it has any.
    pub(crate) fn first_parameter(self) -> Option<Parameter>
        ensures { result ≡ first_parameter self }
    {
        match self {
            Method::Load | Method::Save => Some(Parameter::Path),
            Method::Insert => Some(Parameter::After),
            Method::Group => Some(Parameter::Edits),
            Method::Units | Method::Journal => Some(Parameter::From),
            Method::Find => Some(Parameter::Position),
            Method::Want => Some(Parameter::Ids),
            Method::Land | Method::GiveBack => Some(Parameter::Job),
            Method::Initialize
            | Method::Undo
            | Method::Redo
            | Method::Mark
            | Method::Stats
            | Method::Reset
            | Method::Compact
            | Method::Shutdown => None,
            _ => Some(Parameter::Id),
        }
    }
}
