//! Outcomes with the digest of their slices' bytes.

ghost use Rattle.std.specs.Prelude.{◌≡◌};
ghost use Rattle.picture_keys.specs.Digests.{IsDigestOf};

use crate::digest::SlicesDigest;
use std::marker::Model;
use std::ops::Deref;
use unit_outcomes::Outcome;

/// A unit's outcome, with the digest of its slices' bytes. Clauses see the outcome.
#[derive(Debug)]
pub struct HashedOutcome {
    outcome: Outcome,
    digest: SlicesDigest,
}

// By hand, so that whoever drops one is proved over one call.
impl Drop for HashedOutcome {
    fn drop(self) {
        let HashedOutcome {
            outcome: _,
            digest: _,
        } = self;
    }
}

impl Model for HashedOutcome {
    ghost use Rattle.unit_outcomes.specs.declared.outcome.Outcome.{Outcome};
    ghost use Rattle.picture_keys.specs.Digests.{IsDigestOf};

    ghost Value = { Outcome };

    ghost view = { λ hashed. hashed.outcome };

    ghost invariant = { λ hashed. IsDigestOf hashed.outcome hashed.digest.bytes };
}

impl HashedOutcome {
    /// This outcome of a unit, of whose slices this is the digest.
    pub fn new(outcome: Outcome, digest: SlicesDigest) -> HashedOutcome
        requires { IsDigestOf outcome digest.bytes }
        ensures { result ≡ outcome }
    {
        HashedOutcome { outcome, digest }
    }

    /// The digest of the slices of its requests, if it has any.
    pub fn digest(&self) -> SlicesDigest
        ensures { IsDigestOf self.now result.bytes }
    {
        self.digest
    }
}

impl Deref for HashedOutcome {
    type Target = Outcome;

    ghost deref_gives = { λ hashed outcome. outcome ≡ hashed };

    fn deref(&self) -> &Outcome {
        &self.outcome
    }
}
