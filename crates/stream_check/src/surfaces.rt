//! How many surfaces a decoder needs that shows pictures in output order (C.4).

use h264_types::pictures::AuId;
use std::alloc::{AllocError, Global};
use unit_outcomes::{Outcome, Plan};

/// The pictures so far: those that are decoded, by their positions, and how many of these are shown,
/// since all before them in output order are decoded too.
#[derive(Drop)]
struct Progress {
    is_decoded: Vec<bool>,
    decoded: usize,
    shown: usize,
}

/// How many surfaces are in use at most: a picture's own, those of frames that it may refer to, and
/// those of pictures that are decoded and not yet shown. A picture is shown once all before it in
/// output order are decoded.
pub(crate) fn surfaces(
    alloc: Global,
    outcomes: &[Outcome],
    positions: &[Option<usize>],
) -> Result<usize, AllocError> {
    let mut progress = Progress {
        is_decoded: vec![in alloc; false; outcomes.len()]?,
        decoded: 0,
        shown: 0,
    };
    let mut most = 0;
    for (outcome, position) in outcomes.iter().zip(positions) {
        if let (Outcome::Plan(plan), Some(position)) = (outcome, *position) {
            most = most.max(progress.surfaces_at(plan, positions));
            progress.add(position);
        }
    }
    Ok(most)
}

impl Progress {
    /// How many surfaces are in use while the picture is decoded.
    fn surfaces_at(&self, plan: &Plan, positions: &[Option<usize>]) -> usize {
        let waiting = self.decoded.saturating_sub(self.shown);
        let held = match plan.requests.as_slice() {
            [request, ..] => self.shown_among(request.references.as_slice(), positions),
            [] => 0,
        };
        held.saturating_add(waiting).saturating_add(1)
    }

    /// How many of the frames were shown.
    fn shown_among(&self, frames: &[AuId], positions: &[Option<usize>]) -> usize {
        let shown = self.shown;
        frames
            .iter()
            .filter(|id| is_before(positions, **id, shown))
            .count()
    }

    /// Adds a picture that is decoded.
    fn add(&mut self, position: usize) {
        if let Some(is_decoded) = self.is_decoded.get_mut(position) {
            *is_decoded = true;
        }
        self.decoded = self.decoded.saturating_add(1);
        self.shown = first_missing(&self.is_decoded, self.shown);
    }
}

/// Whether the unit's picture stands before this position in output order.
fn is_before(positions: &[Option<usize>], id: AuId, shown: usize) -> bool {
    let place = (id.number() as usize).saturating_sub(1);
    match positions.get(place) {
        Some(Some(position)) => *position < shown,
        _ => false,
    }
}

/// The first position from this one on whose picture isn't decoded.
fn first_missing(is_decoded: &[bool], from: usize) -> usize {
    for position in from..is_decoded.len() {
        if !is_decoded[position] {
            return position;
        }
    }
    is_decoded.len()
}
