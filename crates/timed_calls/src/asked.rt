//! What the program's words ask for.

ghost use Rattle.std.specs.Prelude.{◌≡◌};
ghost use Rattle.timed_calls.specs.Calls.{call_named};

use anyhow::{Result, bail};

/// A call that is made again and again.
#[derive(Clone, Copy, Debug, PartialEq, Eq)]
pub(crate) enum Call {
    /// A job is taken, decoded and landed.
    Job,
    /// The picture of a unit is asked for.
    Show,
    /// The kernel's structs are filled from the first request of a unit.
    UnitRequest,
    /// A unit is replaced.
    Edit,
    /// The kernel's structs are filled from the first request of a job that is out.
    JobRequest,
}

impl Call {
    /// The call of this name, if there is one.
    fn named(name: &str) -> Option<Call>
        ensures { result ≡ call_named name.now }
    {
        match name {
            "job" => Some(Call::Job),
            "show" => Some(Call::Show),
            "unit_request" => Some(Call::UnitRequest),
            "edit" => Some(Call::Edit),
            "job_request" => Some(Call::JobRequest),
            _ => None,
        }
    }
}

/// A call, how often it is made, and the file of the units.
#[derive(Clone, Copy, Debug)]
pub(crate) struct Asked<'a> {
    pub(crate) file: &'a str,
    pub(crate) call: Call,
    pub(crate) turns: u64,
}

impl<'a> Asked<'a> {
    /// What these words ask for.
    pub(crate) fn read(words: &'a [String]) -> Result<Asked<'a>> {
        let [file, call, turns] = words else {
            bail!("timed_calls UNITS CALL TURNS");
        };
        let Some(call) = Call::named(call) else {
            bail!("no call has the name {call}");
        };
        Ok(Asked {
            file,
            call,
            turns: turns.parse()?,
        })
    }
}
