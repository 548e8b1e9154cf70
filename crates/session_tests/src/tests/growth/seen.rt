//! What a session shows of itself without taking memory.

use super::streams::{Planned, planned};
use h264_types::pictures::AuId;
use stand_in_session::{KeyId, Last, NoSuchUnit, Session, Shown};

/// What a session says of a unit: what is shown of it, its plan, its position and the number of its
/// key, which stands for all that its picture is made of.
type SeenUnit = (
    Shown,
    Option<Planned>,
    Result<Option<usize>, NoSuchUnit>,
    Result<Option<KeyId>, NoSuchUnit>,
);

/// What a session says of the end of its stream, how many edits its journal has, and what it says
/// of four units.
pub(super) type Seen = (Last, usize, [SeenUnit; 4]);

/// What the session says of the unit of the id.
fn seen_unit(session: &Session, id: u32) -> SeenUnit {
    let id = AuId::new(id);
    let plan = match session.outcome(id) {
        Ok(outcome) => planned(outcome),
        Err(NoSuchUnit) => None,
    };
    (
        session.show(id),
        plan,
        session.position(id),
        session.key(id),
    )
}

/// What the session says of its stream, its journal and the units of the first four ids.
pub(super) fn seen(session: &Session) -> Seen {
    let units = [
        seen_unit(session, 1),
        seen_unit(session, 2),
        seen_unit(session, 3),
        seen_unit(session, 4),
    ];
    (session.last(), session.journal().len(), units)
}
