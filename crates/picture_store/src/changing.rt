//! The units that a splice changed.

ghost use Rattle.std.specs.Prelude.{◌≡◌, ◌+◌, ◌≤◌, length};
ghost use Rattle.picture_keys.specs.Ranges.{IsLeast};
ghost use Rattle.picture_keys.specs.Units.{AreDifferent, compared_units};
ghost use Rattle.picture_store.specs.Splices.{IsSplice, ids_with, outcomes_with, replaced};

use decode_jobs::dep_keys::KeyId;
use h264_types::base::Shared;
use h264_types::pictures::AuId;
use picture_keys::HashedOutcome;
use picture_keys::changed_units::{Changed, UnitColumns, widen};

/// Units that stand in the place of those from one place of a stream on and below another: their
/// ids, and what becomes of each.
#[derive(Debug, Drop)]
pub struct UnitSplice {
    pub from: usize,
    pub to: usize,
    pub ids: Vec<AuId>,
    pub outcomes: Vec<Shared<HashedOutcome>>,
}

/// The least range of places that has all units that are changed where a splice stands in the
/// place of another one: of its own units and of those behind it up to the place past which the
/// numbers of all keys stay. These are the later numbers.
pub(crate) fn changed_by(
    ids: &[AuId],
    outcomes: &[Shared<HashedOutcome>],
    numbers: &[Option<KeyId>],
    splice: &UnitSplice,
    past: usize,
    later: &[Option<KeyId>],
) -> Changed
    requires splice { IsSplice splice.now ids.now }
    requires outcomes { length outcomes.now ≡ length ids.now }
    requires numbers { length numbers.now ≡ length ids.now }
    requires behind { splice.now.to ≤ past }
    requires within { past ≤ length ids.now }
    requires later { length later.now + splice.now.to ≡ length splice.now.ids.items + past }
    requires different { AreDifferent ids.now }
    requires apart { AreDifferent (ids_with splice.now ids.now) }
    ensures { IsLeast (compared_units ids.now outcomes.now numbers.now)
        (compared_units (ids_with splice.now ids.now) (outcomes_with splice.now outcomes.now)
        (replaced splice.now.from past later.now numbers.now)) result }
{
    let (from, to) = (splice.from, splice.to);
    let before = UnitColumns {
        ids: &ids[from..past],
        outcomes: &outcomes[from..past],
        numbers: &numbers[from..past],
    };
    let count = splice.ids.len();
    let made = UnitColumns {
        ids: &splice.ids,
        outcomes: &splice.outcomes,
        numbers: &later[..count],
    };
    let behind = UnitColumns {
        ids: &ids[to..past],
        outcomes: &outcomes[to..past],
        numbers: &later[count..],
    };
    let changed = widen(Changed::none(), &before, &made, from);
    widen(changed, &before, &behind, from + count)
}
