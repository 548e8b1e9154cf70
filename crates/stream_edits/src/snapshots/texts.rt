//! The texts of a snapshot's units.

ghost use Rattle.std.specs.Prelude.{◌≡◌, IfErr, IfOk};
ghost use Rattle.access_unit.specs.Answers.{IsAccepted};
ghost use Rattle.stream_edits.specs.SnapshotsRefusals.{AreTextsRefused, IsTextRefused};
ghost use Rattle.stream_edits.specs.Snapshots.{AreReadAs};

use crate::snapshots::read_snapshot::SnapshotRefused;
use access_unit::read_shared;
use bytes::Bytes;
use h264_types::base::Shared;
use h264_types::pictures::AuId;
use picture_keys::HashedUnit;
use std::alloc::Global;

/// The units that these texts are read as, under their ids.
pub(crate) fn read_texts(
    alloc: Global,
    texts: &[(AuId, Bytes)],
) -> Result<Vec<(AuId, Shared<HashedUnit>)>, SnapshotRefused>
    ensures ok { IfOk result (λ units. AreReadAs texts.now units.items) }
    ensures err { IfErr result (AreTextsRefused texts.now) }
{
    let mut units = Vec::with_capacity(alloc, texts.len())?;
    for text in texts {
        units.push((text.0, read_text(alloc, &text.1)?))?;
    }
    Ok(units)
}

/// The unit of a text. Its slices' bytes are hashed here, once.
fn read_text(alloc: Global, text: &Bytes) -> Result<Shared<HashedUnit>, SnapshotRefused>
    ensures ok { IfOk result (IsAccepted text.now) }
    ensures err { IfErr result (IsTextRefused text.now) }
{
    let unit = read_shared(alloc, text)?;
    Ok(Shared::new(alloc, HashedUnit::of(unit))?)
}
