//! The splice of units that a prepared change makes.

ghost use Rattle.std.specs.Prelude.{◌≡◌, ◌≤◌, ◌++◌, length, IfOk, OnOk};
ghost use Rattle.stream_fold.specs.OrderedChange.{IsPrepared};
ghost use Rattle.stream_edits.specs.Changes.{rest_from};
ghost use Rattle.stream_edits.specs.Streams.{ids_of};
ghost use Rattle.stream_fold.specs.Prepared.{IsAnew, change_in};
ghost use Rattle.stream_session.specs.Splices.{IsSpliceOf, ids_anew};

use h264_types::base::Shared;
use h264_types::pictures::AuId;
use picture_keys::HashedUnit;
use picture_store::UnitSplice;
use std::alloc::{AllocError, Global};
use stream_edits::Change;
use stream_fold::{OrderedFold, PreparedChange, shares_of};

/// The units that a prepared change brings, and those behind it that it makes anew, in place of
/// those that were there. The units in front of it are folded anew too, but keep their outcomes.
pub(crate) fn splice_of(
    alloc: Global,
    ordered: &OrderedFold,
    prepared: &PreparedChange,
) -> Result<UnitSplice, AllocError>
    requires ready { IsPrepared ordered.now prepared.now }
    requires anew { IsAnew prepared.now.refolded ordered.now.folded.stream }
    ensures { IfOk result
        (IsSpliceOf (change_in prepared.now.refolded) ordered.now.folded.stream) }
{
    let refolded = prepared.refolded();
    let change = refolded.change();
    let (from, to) = (change.at(), ordered.end_of(prepared));
    let in_front = from - refolded.begin();
    Ok(UnitSplice {
        from,
        to,
        ids: ids_anew(alloc, ordered.units(), change, to)?,
        outcomes: shares_of(alloc, &refolded.outcomes()[in_front..])?,
    })
}

/// The ids of the units that a change brings, and of those behind it up to a place.
fn ids_anew(
    alloc: Global,
    units: &[(AuId, Shared<HashedUnit>)],
    change: &Change,
    to: usize,
) -> Result<Vec<AuId>, AllocError>
    requires behind { rest_from change.now ≤ to }
    requires within { to ≤ length units.now }
    ensures { IfOk result (λ ids. ids.items ≡ ids_anew change.now units.now to) }
{
    let mut ids = Vec::new(alloc);
    add_ids(&mut ids, change.units())?;
    add_ids(&mut ids, &units[change.rest_from()..to])?;
    Ok(ids)
}

/// Adds the ids of units.
fn add_ids(ids: &mut Vec<AuId>, units: &[(AuId, Shared<HashedUnit>)]) -> Result<(), AllocError>
    ensures { OnOk result (ids.new.items ≡ ids.old.items ++ ids_of units.now) }
{
    for unit in units {
        ids.push(unit.0)?;
    }
    Ok(())
}
