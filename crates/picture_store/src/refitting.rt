//! The keys of a changed stream.

ghost use Rattle.std.specs.Prelude.{◌≡◌, ◌↔◌, ℕ, ◌+◌, ◌*◌, ◌<◌, ◌≤◌, List, [], ◌++◌, ◌⊎◌, All, drop, length, take, vec_len, IfOk, OnOk, IsTrue, Contains, Some};
ghost use Rattle.std.specs.Vec.{vec_capacity};
ghost use Rattle.std.specs.List.{zip};
ghost use Rattle.decode_jobs.specs.KeyMaps.{Extends, IsKeyMap};
ghost use Rattle.unit_outcomes.specs.declared.outcome.Outcome.{Outcome as Becomes};
ghost use Rattle.picture_keys.specs.Known.{Known, keys_after, keys_of, known_after};
ghost use Rattle.picture_keys.specs.Numbered.{AllStandFor, number_at, numbers_over};
ghost use Rattle.picture_keys.specs.Following.{AreNumberedSome, Follow};
ghost use Rattle.held_pictures.specs.Counting.{times, times_in};
ghost use Rattle.picture_store.specs.Stored.{AreSwept, numbers_out, IsStored, KeepsMarked, KeepsStored};
ghost use Rattle.picture_store.specs.Marks.{numbers_marked};
ghost use Rattle.picture_store.specs.Needs.{AgreeAt, TellNeeds, between};
ghost use Rattle.picture_store.specs.Splices.{IsSplice, ids_with, outcomes_with};

use crate::changing::UnitSplice;
use crate::job_out::JobOut;
use crate::mark::{Mark, add_marked};
use checkpoints::Checkpoints;
use decode_jobs::Decoded;
use decode_jobs::dep_keys::{Fingerprint, KeyId, Keys};
use h264_types::base::{Shared, replace_range};
use h264_types::pictures::{AuId, Frame};
use held_pictures::picture_cache::PictureCache;
use picture_keys::{HashedOutcome, KeyNumbers, RequestBodies, UnitKeys};
use request_core::State;
use std::alloc::{AllocError, Global};

/// The numbers of the keys of units, nothing for one that isn't valid. Keys that have a number keep
/// it.
pub fn numbers_of<F: Fingerprint<RequestBodies>>(
    alloc: Global,
    keys: &mut Keys<RequestBodies, F>,
    ids: &[AuId],
    outcomes: &[Shared<HashedOutcome>],
) -> Result<Vec<Option<KeyId>>, AllocError>
    requires same { length ids.now ≡ length outcomes.now }
    ensures stay { Extends keys.old keys.new }
    ensures one { IsKeyMap keys.old → IsKeyMap keys.new }
    ensures ok { IfOk result (λ numbers. AllStandFor keys.new numbers.items
        (keys_of (zip ids.now outcomes.now))) }
{
    let mut units = UnitKeys::after(alloc, KeyNumbers::new(alloc));
    go_over(alloc, keys, &mut units, ids, outcomes)?;
    Ok(units.into_found())
}

/// Goes over units more.
fn go_over<F: Fingerprint<RequestBodies>>(
    alloc: Global,
    keys: &mut Keys<RequestBodies, F>,
    units: &mut UnitKeys<'_>,
    ids: &[AuId],
    outcomes: &[Shared<HashedOutcome>],
) -> Result<(), AllocError>
    requires same { length ids.now ≡ length outcomes.now }
    requires some { AreNumberedSome keys.old units.old.numbers }
    ensures stay { Extends keys.old keys.new }
    ensures one { IsKeyMap keys.old → IsKeyMap keys.new }
    ensures some { OnOk result (AreNumberedSome keys.new units.new.numbers) }
    ensures ok { OnOk result ((known : Known) (before : List (ℕ × Becomes))
        → Follow keys.old known before units.old
        → Follow keys.new known (before ++ zip ids.now outcomes.now) units.new) }
{
    for at in 0..ids.len() {
        units.add(alloc, keys, ids[at], &outcomes[at])?;
    }
    Ok(())
}

/// What is kept of the units of a stream, column by column: their ids, their outcomes, and the
/// numbers of their keys.
#[derive(Clone, Copy, Debug)]
struct Columns<'a> {
    ids: &'a [AuId],
    outcomes: &'a [Shared<HashedOutcome>],
    numbers: &'a [Option<KeyId>],
}

impl<'a> Columns<'a> {
    /// The numbers of the keys of so many units, from the first on.
    fn numbers_up_to(&self, alloc: Global, count: usize) -> KeyNumbers<'a>
        requires ids { count ≤ length self.now.ids.now }
        requires numbers { count ≤ length self.now.numbers.now }
        ensures { result
            ≡ numbers_over [] (take count self.now.ids.now) (take count self.now.numbers.now) }
    {
        KeyNumbers::over(alloc, &self.ids[..count], &self.numbers[..count])
    }
}

/// The numbers of the keys of a splice's units and of as many after it as may have others than
/// before, and the place past these, from which on all keys stay.
pub(crate) fn keys_from<F: Fingerprint<RequestBodies>>(
    alloc: Global,
    keys: &mut Keys<RequestBodies, F>,
    ids: &[AuId],
    outcomes: &[Shared<HashedOutcome>],
    numbers: &[Option<KeyId>],
    states: &Checkpoints<State>,
    splice: &UnitSplice,
) -> Result<(usize, Vec<Option<KeyId>>), AllocError>
    requires splice { IsSplice splice.now ids.now }
    requires same { length ids.now ≡ length outcomes.now }
    requires stand { AllStandFor keys.old numbers.now (keys_of (zip ids.now outcomes.now)) }
    requires told { TellNeeds states.now.states ids.now outcomes.now }
    ensures stay { Extends keys.old keys.new }
    ensures one { IsKeyMap keys.old → IsKeyMap keys.new }
    ensures behind { IfOk result (λ made. (splice.now.to ≤ made.0) × (made.0 ≤ length ids.now)) }
    ensures stand { IfOk result (λ made. AllStandFor keys.new
        (made.1.items ++ drop made.0 numbers.now)
        (keys_after (known_after []
        (zip (take splice.now.from ids.now) (take splice.now.from outcomes.now)))
        (zip splice.now.ids.items splice.now.outcomes.items
        ++ zip (drop splice.now.to ids.now) (drop splice.now.to outcomes.now)))) }
{
    let units = Columns {
        ids,
        outcomes,
        numbers,
    };
    let mut after = UnitKeys::after(alloc, units.numbers_up_to(alloc, splice.from));
    go_over(alloc, keys, &mut after, &splice.ids, &splice.outcomes)?;
    let past = go_on(alloc, keys, &mut after, &units, states, splice.to)?;
    Ok((past, after.into_found()))
}

/// Goes over the units from a place on up to where the keys of those after it stay, and gives that
/// place.
fn go_on<F: Fingerprint<RequestBodies>>(
    alloc: Global,
    keys: &mut Keys<RequestBodies, F>,
    after: &mut UnitKeys<'_>,
    units: &Columns<'_>,
    states: &Checkpoints<State>,
    to: usize,
) -> Result<usize, AllocError>
    requires within { to ≤ length units.now.ids.now }
    requires outcomes { length units.now.ids.now ≡ length units.now.outcomes.now }
    requires numbers { length units.now.ids.now ≡ length units.now.numbers.now }
    requires some { AreNumberedSome keys.old after.old.numbers }
    ensures stay { Extends keys.old keys.new }
    ensures one { IsKeyMap keys.old → IsKeyMap keys.new }
    ensures behind { IfOk result (λ past. (to ≤ past) × (past ≤ length units.now.ids.now)) }
    ensures ok { IfOk result (λ past. (known : Known) (before : List (ℕ × Becomes))
        → Follow keys.old known before after.old
        → Follow keys.new known
        (before ++ between to past units.now.ids.now units.now.outcomes.now) after.new) }
    ensures agree { IfOk result (λ past. (past ≡ length units.now.ids.now)
        ⊎ AgreeAt states.now.states past
        (numbers_over [] (take past units.now.ids.now) (take past units.now.numbers.now))
        after.new.numbers) }
{
    let mut before = units.numbers_up_to(alloc, to);
    for at in to..units.ids.len() {
        if agree_at(states, at, &mut before, after)? {
            return Ok(at);
        }
        before.note(units.ids[at], units.numbers[at])?;
        after.add(alloc, keys, units.ids[at], &units.outcomes[at])?;
    }
    Ok(units.ids.len())
}

/// Whether a state is stored at a place, and the keys of all frames that are marked there have the
/// numbers that they had.
fn agree_at(
    states: &Checkpoints<State>,
    at: usize,
    before: &mut KeyNumbers<'_>,
    after: &mut UnitKeys<'_>,
) -> Result<bool, AllocError>
    ensures ok { IfOk result (λ agree. IsTrue agree
        ↔ AgreeAt states.now.states at before.old after.old.numbers) }
    ensures before { before.new ≡ before.old }
    ensures after { after.new ≡ after.old }
{
    match states.get(at) {
        Some(state) => agree_on(state.frames(), before, after),
        None => Ok(false),
    }
}

/// Whether the keys of frames have the same numbers in both.
fn agree_on(
    frames: &[Frame],
    before: &mut KeyNumbers<'_>,
    after: &mut UnitKeys<'_>,
) -> Result<bool, AllocError>
    ensures ok { IfOk result (λ agree. IsTrue agree
        ↔ All (λ frame. number_at before.old frame.id ≡ number_at after.old.numbers frame.id)
        frames.now) }
    ensures before { before.new ≡ before.old }
    ensures after { after.new ≡ after.old }
{
    for frame in frames {
        if before.get(frame.id)? != after.number_at(frame.id)? {
            return Ok(false);
        }
    }
    Ok(true)
}

/// Makes room for so many units more.
pub(crate) fn reserve(
    ids: &mut Vec<AuId>,
    outcomes: &mut Vec<Shared<HashedOutcome>>,
    count: usize,
) -> Result<(), AllocError>
    ensures ids { ids.new.items ≡ ids.old.items }
    ensures outcomes { outcomes.new.items ≡ outcomes.old.items }
    ensures ids_capacity { OnOk result (vec_len ids.new + count ≤ vec_capacity ids.new) }
    ensures outcomes_capacity { OnOk result (vec_len outcomes.new + count ≤ vec_capacity outcomes.new) }
{
    ids.reserve(count)?;
    outcomes.reserve(count)
}

/// Puts the units of a splice, for which there is room, in the place of those that go.
pub(crate) fn put_splice(
    ids: &mut Vec<AuId>,
    outcomes: &mut Vec<Shared<HashedOutcome>>,
    splice: UnitSplice,
)
    requires splice { IsSplice splice ids.old.items }
    requires same { length ids.old.items ≡ length outcomes.old.items }
    requires ids_capacity { vec_len ids.old + length splice.ids.items ≤ vec_capacity ids.old }
    requires outcomes_capacity { vec_len outcomes.old + length splice.outcomes.items
        ≤ vec_capacity outcomes.old }
    ensures ids { ids.new.items ≡ ids_with splice ids.old.items }
    ensures outcomes { outcomes.new.items ≡ outcomes_with splice outcomes.old.items }
{
    let UnitSplice {
        from,
        to,
        ids: other_ids,
        outcomes: other_outcomes,
    } = splice;
    replace_range(ids, from, to, other_ids);
    replace_range(outcomes, from, to, other_outcomes);
}

/// Forgets the keys that are neither stored, nor marked, nor below one that is.
pub(crate) fn sweep<F: Fingerprint<RequestBodies>, P: Decoded>(
    alloc: Global,
    keys: &mut Keys<RequestBodies, F>,
    numbers: &[Option<KeyId>],
    mark: &Option<Mark>,
    cache: &PictureCache<KeyId, P>,
    out: &[JobOut<P>],
) -> Result<(), AllocError>
    ensures stay { KeepsStored numbers.now cache.now.pairs out.now keys.old keys.new }
    ensures marks { KeepsMarked (numbers_marked mark.now) keys.old keys.new }
    ensures one { IsKeyMap keys.old → IsKeyMap keys.new }
    ensures swept { OnOk result (AreSwept numbers.now (numbers_marked mark.now) cache.now.pairs
        out.now keys.old keys.new) }
{
    let roots = roots(alloc, numbers, mark, cache, out)?;
    keys.sweep(&roots)
}

/// Forgets those keys, where there are so many that it is time to, and says how many will be enough
/// the next time: twice as many as are left, and some more.
pub(crate) fn sweep_at<F: Fingerprint<RequestBodies>, P: Decoded>(
    alloc: Global,
    sweep_threshold: usize,
    keys: &mut Keys<RequestBodies, F>,
    numbers: &[Option<KeyId>],
    mark: &Option<Mark>,
    cache: &PictureCache<KeyId, P>,
    out: &[JobOut<P>],
) -> Result<usize, AllocError>
    ensures stay { KeepsStored numbers.now cache.now.pairs out.now keys.old keys.new }
    ensures marks { KeepsMarked (numbers_marked mark.now) keys.old keys.new }
    ensures one { IsKeyMap keys.old → IsKeyMap keys.new }
    ensures few { IfOk result (λ next. (length keys.new < sweep_threshold)
        ⊎ AreSwept numbers.now (numbers_marked mark.now) cache.now.pairs out.now keys.old
        keys.new) }
    ensures next { IfOk result (λ next. (next ≡ sweep_threshold)
        ⊎ (next ≤ 2 * length keys.new + 64)) }
{
    if keys.len() < sweep_threshold {
        return Ok(sweep_threshold);
    }
    sweep(alloc, keys, numbers, mark, cache, out)?;
    Ok(keys.len().saturating_mul(2).saturating_add(64))
}

/// The keys that are stored or marked.
fn roots<P: Decoded>(
    alloc: Global,
    numbers: &[Option<KeyId>],
    mark: &Option<Mark>,
    cache: &PictureCache<KeyId, P>,
    out: &[JobOut<P>],
) -> Result<Vec<KeyId>, AllocError>
    ensures { IfOk result (λ roots. (number : ℕ) → Contains roots.items number
        ↔ (Contains (numbers_marked mark.now) number
        ⊎ IsStored numbers.now cache.now.pairs out.now number)) }
{
    let mut roots = cache.keys(alloc)?;
    add_numbers(&mut roots, numbers)?;
    add_out(&mut roots, out)?;
    add_marked(&mut roots, mark)?;
    Ok(roots)
}

/// Adds the keys of units.
pub(crate) fn add_numbers(
    roots: &mut Vec<KeyId>,
    numbers: &[Option<KeyId>],
) -> Result<(), AllocError>
    ensures old { OnOk result ((number : ℕ) → Contains roots.old.items number
        → Contains roots.new.items number) }
    ensures added { OnOk result ((number : ℕ) → Contains numbers.now (Some number)
        → Contains roots.new.items number) }
    ensures counted { OnOk result ((number : ℕ) → times_in number roots.new.items
        ≡ times_in number roots.old.items + times number numbers.now) }
{
    for key in numbers {
        if let Some(key) = key {
            roots.push(*key)?;
        }
    }
    Ok(())
}

/// Adds the keys of jobs.
fn add_out<P: Decoded>(roots: &mut Vec<KeyId>, out: &[JobOut<P>]) -> Result<(), AllocError>
    ensures { OnOk result (roots.new.items ≡ roots.old.items ++ numbers_out out.now) }
{
    for job in out {
        roots.push(job.key)?;
    }
    Ok(())
}
