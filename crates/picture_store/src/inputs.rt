//! What a job is given to decode.

ghost use Rattle.std.specs.Prelude.{◌≡◌, Some, All, Contains, IfOk};
ghost use Rattle.decode_jobs.specs.KeyMaps.{tree_at};
ghost use Rattle.decode_jobs.specs.Keys.{Key};
ghost use Rattle.picture_keys.specs.Known.{Known};
ghost use Rattle.picture_store.specs.Stores.{IsReady};
ghost use Rattle.held_pictures.specs.KeySlots.{numbers_held, pictures_held};
ghost use Rattle.picture_store.specs.Stored.{keys_for, AreRight};
ghost use Rattle.picture_store.specs.Inputs.{HasKnown, IsInputOf};

use crate::naming::{frames_of, references_of};
use decode_jobs::dep_keys::{Fingerprint, KeyId, Keys};
use decode_jobs::{Decoded, Input};
use h264_controls::Request;
use held_pictures::key_slots::KeySlots;
use picture_keys::{RequestBodies, units_named};
use std::alloc::{AllocError, Global};
use unit_outcomes::Outcome;

/// The requests of a unit with this key, and the pictures that their lists name, each once and in
/// the order of the decoded picture buffer, each of which is held.
pub(crate) fn input_of<F: Fingerprint<RequestBodies>, P: Decoded>(
    alloc: Global,
    keys: &Keys<RequestBodies, F>,
    key_slots: &KeySlots<P>,
    outcome: &Outcome,
    key: KeyId,
) -> Result<Input<P>, AllocError>
    requires right { AreRight P.IsDecoded P.IsOf keys.now key_slots.now }
    requires ready { (tree : Key) × (tree_at keys.now key ≡ Some tree)
        × IsReady (keys_for keys.now (numbers_held key_slots.now)) tree }
    requires known { (known : Known) × HasKnown keys.now outcome.now key known }
    ensures known { IfOk result (λ input. (known : Known) → HasKnown keys.now outcome.now key known
        → IsInputOf P.IsOf known outcome.now input) }
    ensures held { IfOk result (λ input. All
        (λ reference. Contains (pictures_held key_slots.now) reference.picture) input.references) }
{
    // A key that is due is live, and that of a valid unit.
    let (Outcome::Plan(plan), Some(node)) = (outcome, keys.node(key)) else {
        return Err(AllocError);
    };
    let requests = plan.requests.as_slice();
    let units = units_named(alloc, requests)?;
    let frames = frames_of(alloc, requests)?;
    let references = references_of(alloc, key_slots, &frames, &units, node.entries())?;
    Ok(Input::new(copies(alloc, requests)?, references))
}

/// The same requests.
fn copies(alloc: Global, requests: &[Request]) -> Result<Vec<Request>, AllocError>
    ensures { IfOk result (λ copies. copies.items ≡ requests.now) }
{
    let mut copies = Vec::with_capacity(alloc, requests.len())?;
    for request in requests {
        copies.push(request.copy()?)?;
    }
    Ok(copies)
}
