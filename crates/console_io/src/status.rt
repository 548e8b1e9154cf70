//! How a run ends.

ghost use Rattle.std.specs.Prelude.{◌≡◌, IsOk};
ghost use Rattle.std.specs.Process.{exit_status};
ghost use Rattle.console_io.specs.Status.{number_of};

use crate::chunks::PrintFault;
use std::process::ExitCode;

/// How a run of the program ends.
#[derive(Clone, Copy, Debug, PartialEq, Eq)]
pub enum Status {
    /// What was asked for is done.
    Success = 0,
    /// The input can't be read, its stream is refused, memory runs out, or the output can't be
    /// written.
    Failure = 1,
    /// The command line is wrong.
    Usage = 2,
}

impl Status {
    /// The status as the system has it.
    pub fn exit_code(self) -> ExitCode
        ensures { exit_status result ≡ number_of self }
    {
        ExitCode::from(self as u8)
    }
}

/// How a run ended, and what became of what it tells.
#[derive(Clone, Copy, Debug, PartialEq, Eq)]
pub struct Ended {
    pub status: Status,
    /// Whether all that is told on standard error was written.
    pub told: Result<(), PrintFault>,
}

impl Ended {
    /// All is done, and nothing is told.
    pub fn done() -> Ended
        ensures status { result.status ≡ Status.Success }
        ensures told { IsOk result.told }
    {
        Ended {
            status: Status::Success,
            told: Ok(()),
        }
    }

    /// It failed, which was told so far.
    pub fn failed(told: Result<(), PrintFault>) -> Ended
        ensures { result ≡ record { status = Status.Failure; told = told } }
    {
        Ended {
            status: Status::Failure,
            told,
        }
    }

    /// The command line is wrong, which was told so far.
    pub fn mistaken(told: Result<(), PrintFault>) -> Ended
        ensures { result ≡ record { status = Status.Usage; told = told } }
    {
        Ended {
            status: Status::Usage,
            told,
        }
    }
}
