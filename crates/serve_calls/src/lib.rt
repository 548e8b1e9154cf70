//! What a server does for each call, and what it answers (docs/SERVER.md).
//!
//! A `Server` keeps a session by a `Backend`, of its own (`Alone`) or at a desk (serve_run).
//! `Journaled` is one whose edits are recorded before they are made, where there is a journal.
//! `Server::serve` takes a message: its answer is made of what the session answers to the call that
//! the message asks for, and one that is refused changes nothing. Below are serve_requests, which
//! reads requests, and serve_answers, which makes results; above is serve_run, which reads and
//! writes lines.
#![tactic(auto)]

mod alone;
mod backend;
mod calls;
mod journaled;
mod lists;
mod loading;
mod preparing;
mod questions;
mod remembering;
mod replaying;
mod requests;
mod saving;
mod server;
mod sums;
mod texts;
mod undoing;
mod unmade;
mod wanted_units;
mod wanting;

pub use alone::Alone;
pub use backend::{Backend, LendsSession};
pub use journaled::Journaled;
pub use replaying::Unreplayed;
pub use requests::Served;
pub use server::Server;
pub use sums::Sums;
pub use unmade::{EditFault, GroupFault, OUT_OF_MEMORY};
pub use wanted_units::WantedUnit;
pub use wanting::picked;
