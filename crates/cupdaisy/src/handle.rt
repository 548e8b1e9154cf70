//! The handle.

ghost use Rattle.std.specs.Prelude.{◌≡◌, None, Some, is_some, MatchOption};

use crate::held::Held;
use c_calls::SurfaceSession;
use std::alloc::Global;
use std::mem::replace;

/// A session, or none, as C keeps it: a pointer and whether it points to one.
#[repr(C)]
pub struct Handle {
    pub held: Held,
    full: bool,
    ghost tells: { full ≡ is_some held.state },
}

impl Handle {
    /// A handle without a session.
    pub fn empty(alloc: Global) -> Handle
        ensures { result.held.state ≡ None }
    {
        Handle {
            held: Held::empty(alloc),
            full: false,
        }
    }

    /// The handle of a session.
    fn of(session: Box<SurfaceSession, Global>) -> Handle
        ensures { result.held.state ≡ Some session.value }
    {
        Handle {
            held: Held::of(session),
            full: true,
        }
    }

    /// The session, if there is one.
    fn into_session(self) -> Option<Box<SurfaceSession, Global>>
        ensures { MatchOption result
            (self.held.state ≡ None)
            (λ session. self.held.state ≡ Some session.value) }
    {
        let Handle { held, full } = self;
        if full {
            Some(held.into_box())
        } else {
            held.close();
            None
        }
    }

    /// Takes the session out, if there is one, and leaves none.
    pub fn take(&mut self, alloc: Global) -> Option<Box<SurfaceSession, Global>>
        ensures leaves { self.new.held.state ≡ None }
        ensures takes { MatchOption result
            (self.old.held.state ≡ None)
            (λ session. self.old.held.state ≡ Some session.value) }
    {
        replace(self, Handle::empty(alloc)).into_session()
    }

    /// Puts a session where there is none.
    pub fn put(&mut self, session: Box<SurfaceSession, Global>)
        requires { self.old.held.state ≡ None }
        ensures { self.new.held.state ≡ Some session.value }
    {
        let Handle { held, full: _ } = replace(self, Handle::of(session));
        held.close();
    }
}
