//! The session that a handle has: one over the surfaces of a host.

ghost use Rattle.std.specs.Prelude.{◌≡◌, ◌≤◌, ◌↔◌, IfOk, IsErrOf};
ghost use Rattle.held_pictures.specs.Bounded.{most_capacity};
ghost use Rattle.stream_session.specs.Machines.{empty};

use decode_jobs::surfaces::Surface;
use std::alloc::Global;
use std::marker::Model;
use stream_session::{Config, ConfigFault, Session};

/// A session over the surfaces of a host. Clauses see it as that session.
pub struct SurfaceSession {
    pub(crate) inner: Session<Surface>,
}

// By hand, as a session's.
impl Drop for SurfaceSession {
    fn drop(self) {
        let SurfaceSession { inner: _ } = self;
    }
}

impl Model for SurfaceSession {
    ghost use Rattle.std.specs.Coded.{codes};
    ghost use Rattle.decode_jobs.specs.Trees.{tree_code};
    ghost use Rattle.picture_keys.specs.contracts.request_bodies.RequestBodies as bodies;
    ghost use Rattle.c_calls.specs.Machines.{Machine};

    ghost Value = { Machine };

    ghost coded = { Prim.hlevel (codes, tree_code bodies.the_row.coded) };

    ghost view = { λ session. session.inner };
}

impl SurfaceSession {
    /// A session with an empty stream.
    pub fn new(alloc: Global, config: Config) -> Result<SurfaceSession, ConfigFault>
        ensures ok { IfOk result (λ session. session ≡ empty config.cache) }
        ensures cache { IsErrOf result ConfigFault.Cache
            ↔ ((1 ≤ config.cache) × (config.cache ≤ most_capacity) → ⊥) }
    {
        Ok(SurfaceSession {
            inner: Session::new(alloc, config)?,
        })
    }
}
