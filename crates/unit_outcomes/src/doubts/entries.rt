//! The units that the lists of a picture name.

ghost use Rattle.std.specs.Prelude.{◌≡◌};
ghost use Rattle.std.specs.List.{list_all};
ghost use Rattle.unit_outcomes.specs.Entries.{named_unit};
ghost use Rattle.unit_outcomes.specs.Sets.{has};
ghost use Rattle.unit_outcomes.specs.Walks.{is_sound, list_is_sound, names_sound, slice_is_sound};

use crate::Outcome;
use crate::doubts::id_set::IdSet;
use h264_controls::{References, Request};

/// Whether all entries of a unit's lists name units of these ids.
pub(crate) fn names_sound(outcome: &Outcome, sound: &IdSet) -> bool
    ensures { result ≡ names_sound (has sound.now) outcome.now }
{
    match outcome {
        Outcome::Plan(plan) => slices_are_sound(plan.requests.as_slice(), sound),
        Outcome::Fault(_) => true,
        Outcome::Empty => true,
    }
}

/// Whether all entries of the lists of slices do.
fn slices_are_sound(requests: &[Request], sound: &IdSet) -> bool
    ensures { result ≡ list_all (slice_is_sound (has sound.now)) requests.now }
{
    requests
        .iter()
        .all(|request| slice_is_sound(request, sound))
}

/// Whether all entries of the lists of a slice do.
fn slice_is_sound(request: &Request, sound: &IdSet) -> bool
    ensures { result ≡ slice_is_sound (has sound.now) request.now }
{
    let params = &request.controls().slice_params;
    list_is_sound(&request.references, params.ref_pic_list0.entries(), sound)
        && list_is_sound(&request.references, params.ref_pic_list1.entries(), sound)
}

/// Whether all entries of a list do.
fn list_is_sound(references: &References, entries: &[Option<u8>], sound: &IdSet) -> bool
    ensures { result ≡ list_is_sound (has sound.now) references.now entries.now }
{
    entries
        .iter()
        .all(|entry| is_sound(references, *entry, sound))
}

/// Whether an entry does.
fn is_sound(references: &References, entry: Option<u8>, sound: &IdSet) -> bool
    ensures { result ≡ is_sound (has sound.now) (named_unit references.now entry) }
{
    match entry {
        Some(index) => match references.get(index) {
            Some(id) => sound.has(id),
            None => false,
        },
        None => false,
    }
}
