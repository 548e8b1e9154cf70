//! The C interface: a session for an editor in any language that calls C.
//!
//! A `Handle` is a struct of a pointer and a flag, whose zeros are a handle without a session. It
//! has a boxed `SurfaceSession` of c_calls, or none: `take` takes it out, so that it can be
//! worked with as any box, and `put` puts it back. Neither allocates. Each export takes the session
//! out of the caller's handle, has c_calls work with it and puts it back; a handle without a
//! session is answered so. What each call does and what it tells is said in include/cupdaisy.h.
#![tactic(auto)]

mod edits;
mod frames;
mod handle;
mod held;
mod jobs;
mod journal;
mod marking;
mod mending;
mod names;
mod questions;
mod releasing;
mod requests;
mod sessions;

pub use handle::Handle;
pub use held::Held;
