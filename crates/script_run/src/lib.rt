//! `preview run`: a script read, run on a session and answered line by line.
//!
//! `script_on` reads a script, runs its commands one after the other over a session of
//! stand_in_session, and writes what answers each. What it reads and writes, and the files that it
//! loads, are generic. `shared` runs a script beside workers, with the same lines. Below are
//! edit_script, unit_printing, decode_pool and console_io; above are draw_run and cli.
#![tactic(auto)]

mod answers;
mod group_lines;
mod job_lines;
mod loading;
mod marking;
mod options;
mod run;
mod run_fault;
mod settling;
pub mod shared;
mod shown_lines;

pub use answers::{AcceptedLine, LoadedLine, RefusedLine};
pub use group_lines::{GroupLine, GroupRefusedLine};
pub use job_lines::DroppedLine;
pub use loading::shared_file;
pub use options::{Options, Script};
pub use run::script_on;
pub use run_fault::{RunFault, say_run_fault};
pub use settling::{SettleFault, settle_for};
pub use shown_lines::shown_line;
pub use stand_in_session::MOST_CAPACITY;
