//! The pictures of the units that requests name.

ghost use Rattle.std.specs.Prelude.{◌≡◌, ◌++◌, ◌∷◌, [], ◌≤◌, ℕ, List, All, None, Some, false, length, map, slice_get, IfOk, IfSome, OnOk};
ghost use Rattle.std.specs.List.{list_any};
ghost use Rattle.h264_controls.specs.References.{timestamp};
ghost use Rattle.picture_store.specs.Naming.{AreCovered, IsShown, picture_in};
ghost use Rattle.picture_store.specs.Referenced.{added, each_once, frames_named, frames_of, names, times_of};

use decode_jobs::dep_keys::KeyId;
use decode_jobs::{Decoded, Reference};
use h264_controls::Request;
use h264_types::pictures::AuId;
use held_pictures::key_slots::KeySlots;
use std::alloc::{AllocError, Global};

/// The frames in the decoded picture buffers that requests carry, each once, in their order.
pub(crate) fn frames_of(alloc: Global, requests: &[Request]) -> Result<Vec<AuId>, AllocError>
    ensures { IfOk result (λ frames. frames.items ≡ frames_of requests.now) }
{
    let mut frames = Vec::new(alloc);
    for request in requests {
        add_frames(&mut frames, request.references.as_slice())?;
    }
    Ok(frames)
}

/// Adds those frames that aren't there.
fn add_frames(frames: &mut Vec<AuId>, more: &[AuId]) -> Result<(), AllocError>
    ensures { OnOk result ((front : List ℕ) → frames.old.items ≡ each_once front
        → frames.new.items ≡ each_once (front ++ more.now)) }
{
    for frame in more {
        add_frame(frames, *frame)?;
    }
    Ok(())
}

/// Adds a frame, unless it is there.
fn add_frame(frames: &mut Vec<AuId>, frame: AuId) -> Result<(), AllocError>
    ensures { OnOk result (frames.new.items ≡ frames.old.items ++ added frame frames.old.items) }
{
    if !frames.contains(&frame) {
        frames.push(frame)?;
    }
    Ok(())
}

/// The pictures of those of the frames that are named, in their order, by the numbers of the keys
/// that stand at the same entries as the units that are named.
pub(crate) fn references_of<P: Decoded>(
    alloc: Global,
    key_slots: &KeySlots<P>,
    frames: &[AuId],
    units: &[Option<AuId>],
    entries: &[Option<KeyId>],
) -> Result<Vec<Reference<P>>, AllocError>
    requires covered { AreCovered key_slots.now units.now entries.now }
    requires least { length units.now ≤ length entries.now }
    ensures shown { IfOk result (λ references.
        All (IsShown key_slots.now units.now entries.now) references.items) }
    ensures times { IfOk result (λ references.
        times_of references.items ≡ map timestamp (frames_named frames.now units.now)) }
{
    let mut references = Vec::new(alloc);
    for frame in frames {
        add_named(&mut references, key_slots, *frame, units, entries)?;
    }
    Ok(references)
}

/// Adds the picture of a frame where it is named.
fn add_named<P: Decoded>(
    references: &mut Vec<Reference<P>>,
    key_slots: &KeySlots<P>,
    frame: AuId,
    units: &[Option<AuId>],
    entries: &[Option<KeyId>],
) -> Result<(), AllocError>
    requires covered { AreCovered key_slots.now units.now entries.now }
    requires least { length units.now ≤ length entries.now }
    ensures shown { OnOk result (All (IsShown key_slots.now units.now entries.now) references.old.items
        → All (IsShown key_slots.now units.now entries.now) references.new.items) }
    ensures times { OnOk result (times_of references.new.items ≡ times_of references.old.items
        ++ map timestamp (frames_named (frame ∷ []) units.now)) }
{
    let Some(at) = entry_of(units, frame) else {
        return Ok(());
    };
    let entry = entries[at];
    if let Some(picture) = picture_in(key_slots, entry) {
        let timestamp = frame.timestamp();
        references.push(Reference { timestamp, picture })?;
    }
    Ok(())
}

/// The first entry that names the frame.
fn entry_of(units: &[Option<AuId>], frame: AuId) -> Option<usize>
    ensures named { IfSome result (λ at. slice_get units.now at ≡ Some (Some frame)) }
    ensures unnamed { result ≡ None → list_any (names frame) units.now ≡ false }
{
    for (at, unit) in units.iter().enumerate() {
        if *unit == Some(frame) {
            return Some(at);
        }
    }
    None
}

/// The picture of an entry, where it is held.
fn picture_in<P: Decoded>(key_slots: &KeySlots<P>, entry: Option<KeyId>) -> Option<P>
    ensures { result ≡ picture_in key_slots.now entry }
{
    key_slots.get(entry?)?
}
