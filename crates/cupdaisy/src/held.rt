//! A boxed session whose type names no other type, or none.

ghost use Rattle.std.specs.Prelude.{◌≡◌, Option, None, Some, is_some, true};
ghost use Rattle.cupdaisy.specs.Ownership.{State, held_owns, state_coded};

mod parts;

use c_calls::SurfaceSession;
use parts::RawParts;
use std::alloc::Global;
use std::marker::Model;

/// What a pointer of a `Held` points to, as C sees it.
#[repr(C)]
pub struct Opaque {
    byte: u8,
}

/// A session in a block of its own, or none; it is as large as a pointer. Clauses see the session's
/// state.
#[repr(C)]
pub struct Held {
    at: *mut Opaque,
    alloc: Global,
    pub ghost state: { Option State } by { state_coded },
}

impl Model for Held {
    ghost also_owns = { λ held. held_owns held.alloc held.at held.state };
}

impl Held {
    /// None: a null pointer.
    pub fn empty(alloc: Global) -> Held
        ensures { result.state ≡ None }
    {
        Held {
            at: std::ptr::null_mut(),
            alloc,
        }
    }

    /// The session.
    pub fn of(session: Box<SurfaceSession, Global>) -> Held
        ensures { result.state ≡ Some session.value }
    {
        Held::of_parts(RawParts::of(session))
    }

    fn of_parts(parts: RawParts<SurfaceSession, Global>) -> Held
        ensures { result.state ≡ Some parts.value }
    {
        let RawParts { ptr, alloc } = parts;
        Held {
            at: ptr.cast(),
            alloc,
        }
    }

    fn into_parts(self) -> RawParts<SurfaceSession, Global>
        requires { is_some self.state ≡ true }
        ensures { self.state ≡ Some result.value }
    {
        let Held { at, alloc } = self;
        RawParts {
            ptr: at.cast(),
            alloc,
        }
    }

    /// The session, of which there is one.
    pub fn into_box(self) -> Box<SurfaceSession, Global>
        requires { is_some self.state ≡ true }
        ensures { self.state ≡ Some result.value }
    {
        self.into_parts().into_box()
    }

    /// Lets go of none.
    pub fn close(self)
        requires { self.state ≡ None }
    {
        let Held { at: _, alloc: _ } = self;
    }
}

// A session may be handed from thread to thread, to one call at a time.
unsafe impl Send for Held {}
