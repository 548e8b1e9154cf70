//! A change of a stream, and of its pictures.

ghost use Rattle.std.specs.Prelude.{◌≡◌, ◌+◌, length, true, IfOk, IsPermutation, OnErr, OnOk};
ghost use Rattle.request_core.specs.Fold.{outcomes_of};
ghost use Rattle.picture_store.specs.Pictures.{all_of};
ghost use Rattle.stream_edits.specs.Changes.{IsInside, stream_after};
ghost use Rattle.stream_edits.specs.Streams.{ids_of};
ghost use Rattle.stream_session.specs.Stored.{CanStand};
ghost use Rattle.stream_session.specs.Moves.{MovesPictures};

use crate::splices::splice_of;
use decode_jobs::Decoded;
use picture_store::PictureStore;
use std::alloc::{AllocError, Global};
use stream_edits::{Change, Changed};
use stream_fold::OrderedFold;

/// What a change came to: how many steps of the fold it made, how many pictures are lost, as their
/// keys went out of use and no memory was found to cache them, and which units changed.
#[derive(Clone, Copy, Debug)]
pub(crate) struct ChangeCosts {
    pub(crate) steps: u64,
    pub(crate) lost_pictures: u64,
    pub(crate) changed: Changed,
}

/// Makes a change of the stream, and has the store take what it brings. On an error both stay.
pub(crate) fn change_stream<P: Decoded>(
    alloc: Global,
    ordered: &mut OrderedFold,
    store: &mut PictureStore<P>,
    change: Change,
) -> Result<ChangeCosts, AllocError>
    requires inside { IsInside change ordered.old.folded.stream }
    requires identified { store.old.ids ≡ ids_of ordered.old.folded.stream }
    requires folded { store.old.outcomes ≡ outcomes_of ordered.old.folded.stream }
    requires before { CanStand ordered.old.folded.stream }
    requires after { CanStand (stream_after change ordered.old.folded.stream) }
    ensures moves { IfOk result (λ costs. MovesPictures store.old ordered.old.folded.stream change
        costs.steps costs.lost_pictures costs.changed store.new) }
    ensures stream { OnOk result
        (ordered.new.folded.stream ≡ stream_after change ordered.old.folded.stream) }
    ensures pictures { IfOk result (λ _. P.GoesBack ≡ true
        → IsPermutation (all_of store.old.pictures) (all_of store.new.pictures)) }
    ensures stays { OnErr result (ordered.new.folded.stream ≡ ordered.old.folded.stream) }
    ensures err { OnErr result (store.new ≡ store.old) }
{
    let prepared = ordered.prepare(alloc, change, store.outcomes())?;
    let splice = splice_of(alloc, ordered, &prepared)?;
    let steps = prepared.refolded().steps();
    let taken = store.refit(splice, ordered.states())?;
    ordered.commit(prepared);
    Ok(ChangeCosts {
        steps,
        lost_pictures: taken.lost as u64,
        changed: taken.changed,
    })
}
