//! A session over a stream of access units under edits, with the pictures of the stand-in.
//!
//! stream_session has `Session`, over the pictures of any decoder; here it is at the stand-in, whose
//! picture of a key is one digest. A `Runner` follows commands on a session, one at a time, with a
//! device that decodes its jobs, and `run` a list of them. Above is the program.
#![tactic(auto)]

mod commands;
mod jobs;
mod replies;
mod runner;
mod session;

pub use commands::Command;
pub use decode_jobs::dep_keys::KeyId;
pub use jobs::{Dropping, drop_picture};
pub use picture_store::{Landing, MOST_CAPACITY, Returning, TakeRefused};
pub use replies::{NotOut, Reply, TakenJob, UnitReport};
pub use runner::{Runner, run};
pub use session::{Session, Shown};
pub use stand_in_device::{Finished, Job, Picture};
pub use stream_edits::{
    Changed, Edit, EditRefused, GroupReceipt, GroupRefused, InsertionPoint, JournalEntry, Last,
    ReadEdit, ReadGroup, Receipt, ids_differ,
};
pub use stream_session::{Config, ConfigFault, Doubt, NoSuchUnit};
