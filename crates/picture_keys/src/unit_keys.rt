//! The keys of a stream's units, found one after the other.

ghost use Rattle.std.specs.Prelude.{◌≡◌, ℕ, ◌==◌, List, [], ◌∷◌, ◌++◌, Some, IfOk, OnErr, OnOk, if◌then◌else◌};
ghost use Rattle.h264_controls.specs.declared.request.RequestBody.{RequestBody};
ghost use Rattle.unit_outcomes.specs.declared.outcome.Outcome.{Outcome as Becomes};
ghost use Rattle.decode_jobs.specs.KeyMaps.{AreLive, Extends, IsKeyMap, KeyMap, tree_at, tree_of};
ghost use Rattle.picture_keys.specs.Digests.{bytes_of};
ghost use Rattle.picture_keys.specs.SliceBytes.{slices_digest};
ghost use Rattle.picture_keys.specs.Known.{Known};
ghost use Rattle.picture_keys.specs.Numbered.{AreNumbered, number_at, numbers_named};
ghost use Rattle.picture_keys.specs.Following.{AreNumberedSome, Follow, HasNumber};
ghost use Rattle.picture_keys.specs.Adding.{AddsAtMost, AddsAtMostKey, node_over};

use crate::nodes::node_of;
use crate::numbers::KeyNumbers;
use crate::request_bodies::RequestBodies;
use crate::{HashedOutcome, SlicesDigest};
use decode_jobs::dep_keys::{Fingerprint, KeyId, Keys};
use h264_types::pictures::AuId;
use std::alloc::{AllocError, Global};
use std::marker::Model;
use std::ops::Deref;
use unit_outcomes::{Outcome, Requests};

/// The numbers of the keys of a stream's units, so far as these were gone over.
#[derive(Debug)]
pub struct UnitKeys<'a> {
    numbers: KeyNumbers<'a>,
    found: Vec<Option<KeyId>>,
}

// By hand, so that whoever drops one is proved over one call.
impl<'a> Drop for UnitKeys<'a> {
    fn drop(self) {
        let UnitKeys {
            numbers: _,
            found: _,
        } = self;
    }
}

impl<'a> Model for UnitKeys<'a> {
    ghost use Rattle.picture_keys.specs.Following.{UnitNumbers};

    ghost Value = { UnitNumbers };

    ghost view = { λ keys. record { numbers = keys.numbers; found = keys.found.items } };
}

impl<'a> UnitKeys<'a> {
    /// After units whose keys have these numbers.
    pub fn after(alloc: Global, numbers: KeyNumbers<'a>) -> UnitKeys<'a>
        ensures { result ≡ record { numbers = numbers.entry; found = [] } }
    {
        UnitKeys {
            numbers,
            found: Vec::new(alloc),
        }
    }

    /// Goes over one unit more. The key of a valid one is interned. Where memory runs out, the unit
    /// wasn't gone over, and may be again; its key may have been added, which then no unit has.
    pub fn add<F: Fingerprint<RequestBodies>>(
        &mut self,
        alloc: Global,
        keys: &mut Keys<RequestBodies, F>,
        id: AuId,
        outcome: &HashedOutcome,
    ) -> Result<(), AllocError>
        requires { AreNumberedSome keys.old self.old.numbers }
        ensures stay { Extends keys.old keys.new }
        ensures one { IsKeyMap keys.old → IsKeyMap keys.new }
        ensures few { AddsAtMost keys.old self.old.numbers outcome.now keys.new }
        ensures ok { OnOk result ((known : Known) (units : List (ℕ × Becomes))
            → Follow keys.old known units self.old
            → Follow keys.new known (units ++ (id, outcome.now) ∷ []) self.new) }
        ensures some { OnOk result (AreNumberedSome keys.new self.new.numbers) }
        ensures err { OnErr result (self.new ≡ self.old) }
    {
        self.found.reserve(1)?;
        let number = number_of(alloc, &mut self.numbers, keys, id, outcome)?;
        self.found.push_reserved(number);
        Ok(())
    }

    /// The number of the key of the unit that has the id, of one before the first unit too.
    pub fn number_at(&mut self, id: AuId) -> Result<Option<KeyId>, AllocError>
        ensures ok { IfOk result (λ number. number ≡ number_at self.old.numbers id) }
        ensures same { self.new ≡ self.old }
    {
        self.numbers.get(id)
    }

    /// The number of each unit's key, in the order of the units, nothing for a unit that isn't
    /// valid.
    pub fn into_found(self) -> Vec<Option<KeyId>>
        ensures { result.items ≡ self.entry.found }
    {
        let UnitKeys { numbers: _, found } = self;
        found
    }
}

/// Interns the key of a unit and gives the unit its number, or nothing where it isn't valid. Where
/// memory runs out, no unit is given one.
fn number_of<F: Fingerprint<RequestBodies>>(
    alloc: Global,
    numbers: &mut KeyNumbers<'_>,
    keys: &mut Keys<RequestBodies, F>,
    id: AuId,
    outcome: &HashedOutcome,
) -> Result<Option<KeyId>, AllocError>
    requires { AreNumberedSome keys.old numbers.old }
    ensures stay { Extends keys.old keys.new }
    ensures one { IsKeyMap keys.old → IsKeyMap keys.new }
    ensures few { AddsAtMost keys.old numbers.old outcome.now keys.new }
    ensures ok { IfOk result (λ number. (known : Known) → AreNumbered keys.old numbers.old known
        → HasNumber keys.new numbers.new known id outcome.now number) }
    ensures err { OnErr result (numbers.new ≡ numbers.old) }
{
    let digest = outcome.digest();
    match outcome.deref() {
        Outcome::Plan(plan) => Ok(Some(intern(alloc, numbers, keys, id, &plan.requests, digest)?)),
        Outcome::Fault(_) | Outcome::Empty => Ok(None),
    }
}

/// Interns the key of a unit's requests, and gives the unit its number. Where memory runs out, no
/// unit is given one.
fn intern<F: Fingerprint<RequestBodies>>(
    alloc: Global,
    numbers: &mut KeyNumbers<'_>,
    keys: &mut Keys<RequestBodies, F>,
    id: AuId,
    requests: &Requests,
    digest: SlicesDigest,
) -> Result<KeyId, AllocError>
    requires hashed { digest.bytes ≡ slices_digest (bytes_of requests.now) }
    requires live { AreLive keys.old (numbers_named numbers.old requests.now) }
    ensures stay { Extends keys.old keys.new }
    ensures one { IsKeyMap keys.old → IsKeyMap keys.new }
    ensures few { AddsAtMostKey keys.old (tree_of keys.old
        (node_over numbers.old requests.now)) keys.new }
    ensures there { IfOk result (λ key. tree_at keys.new key
        ≡ Some (tree_of keys.old (node_over numbers.old requests.now))) }
    ensures put { IfOk result (λ key. (other : ℕ) → number_at numbers.new other
        ≡ (if id == other then Some key else number_at numbers.old other)) }
    ensures err { OnErr result (numbers.new ≡ numbers.old) }
{
    let node = node_of(alloc, numbers, requests, digest)?;
    let key = keys.intern(node)?;
    numbers.put(id, key)?;
    Ok(key)
}
