//! What a program reads and writes: whole inputs, files by their names, bytes for a writer,
//! messages and statuses. A `Console` is what a run writes, `Inputs` are what it reads, and
//! `file_saving` saves a file whole.
//!
//! All of it is generic over the readers and writers, whose bytes the contracts name where those
//! declare them; the system's files and streams declare none. Nothing here knows of video:
//! plan_stream, script_run and preview do.
#![tactic(auto)]

mod chunks;
mod console;
pub mod file_saving;
mod input;
mod messages;
mod sink;
mod source;
mod status;

pub use chunks::{Chunks, PrintFault, write_bytes};
pub use console::{Console, Inputs};
pub use input::{InputFault, NamedInput, read_some, whole_input};
pub use messages::{
    say_input_fault, say_line, say_not_text, say_out_of_memory, say_print_fault, say_unread,
};
pub use sink::Sink;
pub use source::{Directory, Files, Source};
pub use status::{Ended, Status};
