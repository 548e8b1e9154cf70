//! The bodies of a unit's requests, which a key is made of.

ghost use Rattle.std.specs.Prelude.{◌≡◌, ◌++◌, ℕ, List, IfOk};
ghost use Rattle.std.specs.Bool.{Decides};
ghost use Rattle.sha2.specs.Hashers.{Holds256};
ghost use Rattle.param_set_controls.specs.Words.{s32};
ghost use Rattle.decode_jobs.specs.Keys.{bodies_of};
ghost use Rattle.std.specs.List.{flat_map};
ghost use Rattle.picture_keys.specs.Digests.{bytes_of};
ghost use Rattle.picture_keys.specs.SliceBytes.{slices_digest};
ghost use Rattle.picture_keys.specs.Messages.{order_bytes, bodies_bytes};

use crate::SlicesDigest;
use decode_jobs::dep_keys::Content as NodeContent;
use h264_controls::RequestBody;
use h264_types::base::Shared;
use sha2::{Digest, Sha256};
use std::alloc::{AllocError, Global};
use std::marker::Model;
use unit_outcomes::Requests;

/// The bodies of a unit's slices, in order, shared with its requests: the controls without
/// timestamps, and the bytes, of which it has the digest.
#[derive(Debug, Drop)]
pub struct RequestBodies {
    slices: Vec<Shared<RequestBody>>,
    digest: SlicesDigest,
}

impl Model for RequestBodies {
    ghost use Rattle.std.specs.Prelude.{List};
    ghost use Rattle.h264_controls.specs.declared.request.RequestBody.{RequestBody};

    ghost Value = { List RequestBody };

    ghost view = { λ bodies. bodies.slices.items };

    ghost use Rattle.std.specs.Prelude.{◌≡◌, map};
    ghost use Rattle.picture_keys.specs.SliceBytes.{slices_digest};

    ghost invariant = { λ bodies.
        bodies.digest.bytes ≡ slices_digest (map (λ body. body.bytes) bodies.slices.items) };
}

impl RequestBodies {
    /// The bodies of these requests, of whose slices this is the digest.
    pub fn of(
        alloc: Global,
        requests: &Requests,
        digest: SlicesDigest,
    ) -> Result<RequestBodies, AllocError>
        requires { digest.bytes ≡ slices_digest (bytes_of requests.now) }
        ensures { IfOk result (λ bodies. bodies ≡ bodies_of requests.now) }
    {
        let requests = requests.as_slice();
        let mut slices = Vec::with_capacity(alloc, requests.len())?;
        for request in requests {
            slices.push(request.body.clone()?)?;
        }
        Ok(RequestBodies { slices, digest })
    }
}

impl NodeContent for RequestBodies {
    ghost bytes = { bodies_bytes };

    fn is_same(&self, other: &RequestBodies) -> bool {
        self.digest.is_same(&other.digest) && are_same(&self.slices, &other.slices)
    }

    fn feed(&self, hasher: &mut Sha256) {
        feed_orders(hasher, &self.slices);
        hasher.update(self.digest.bytes());
    }
}

/// Whether the bodies are the same, in the same order.
fn are_same(bodies: &[Shared<RequestBody>], others: &[Shared<RequestBody>]) -> bool
    ensures { Decides result (bodies.now ≡ others.now) }
{
    match (bodies, others) {
        ([], []) => true,
        ([body, bodies @ ..], [other, others @ ..]) => {
            body.is_same(other) && are_same(bodies, others)
        }
        _ => false,
    }
}

/// Adds the picture order counts of bodies to a hasher.
fn feed_orders(hasher: &mut Sha256, bodies: &[Shared<RequestBody>])
    ensures { (message : List ℕ) → Holds256 hasher.old message
        → Holds256 hasher.new (message ++ flat_map order_bytes bodies.now) }
{
    for body in bodies {
        feed_order(hasher, body.controls.decode_params.top_field_order_cnt);
    }
}

/// Adds a picture order count to a hasher.
#[tactic(auto, unfolding(param_set_controls::specs::Words::s32, param_set_controls::specs::Words::u32))]
fn feed_order(hasher: &mut Sha256, order: i32)
    ensures { (message : List ℕ) → Holds256 hasher.old message
        → Holds256 hasher.new (message ++ s32 order) }
{
    hasher.update(order.cast_unsigned().to_le_bytes());
}
