//! Questions to a session, and their answers.

ghost use Rattle.std.specs.Prelude.{◌≡◌, ◌≢◌, ◌+◌, ◌≤◌, ◌↔◌, ℕ, AllPairs, IfOk, IsTrue, MatchOption, drop, filter_map, length, take};
ghost use Rattle.std.specs.List.{zip};
ghost use Rattle.unit_outcomes.specs.InDoubt.{AreDoubts};
ghost use Rattle.stream_session.specs.Altered.{IsAltered};
ghost use Rattle.stream_session.specs.Doubting.{seen_in};
ghost use Rattle.serve_calls.specs.Answering.{AreToldFrom, AreUnitsIn, HasPosition, Introduces, IsAt, IsFound, IsNoneAmong, TellsFound, TellsShown, TellsStats, TellsUnits, stats_of, unit_in};

use crate::backend::Backend;
use crate::lists::push_some;
use crate::server::Server;
use crate::sums::Sums;
use crate::unmade::OUT_OF_MEMORY;
use edit_script::id_of_number;
use h264_types::pictures::AuId;
use serve_answers::{Answer, FoundUnit, Introduction, Stats, UnitAnswer, UnitFlags, of_show};
use serve_requests::{Failure, Listed};
use stand_in_session::{Doubt, NoSuchUnit, Session};
use std::alloc::{AllocError, Global};

/// How far a unit may stand before the place of its position, where it is looked for first.
const MOST_REORDERED: usize = 64;

impl<B: Backend, S> Server<B, S> {
    /// What the server is, and what it takes.
    pub(crate) fn introduce(&self) -> Result<Answer, Failure>
        ensures { Introduces (B.offers self.now.backend) result }
    {
        let (has_jobs, has_journal) = (self.backend.has_jobs(), self.backend.has_journal());
        match Introduction::of(self.alloc, has_jobs, has_journal) {
            Ok(introduction) => Ok(Answer::Initialized(introduction)),
            Err(_) => Err(OUT_OF_MEMORY),
        }
    }

    /// What becomes of so many units from a place on, with their controls or without.
    pub(crate) fn units(&self, from: u64, count: u64, controls: bool) -> Result<Answer, Failure>
        ensures { TellsUnits (B.is_session self.now.backend) from count controls result }
    {
        let alloc = self.alloc;
        let told = self
            .backend
            .look(|session| units(alloc, session, from, count, controls));
        match told {
            Ok(answers) => Ok(Answer::Units(answers)),
            Err(_) => Err(OUT_OF_MEMORY),
        }
    }

    /// The unit at an output position.
    pub(crate) fn find(&self, position: u64) -> Result<Answer, Failure>
        ensures { TellsFound (B.is_session self.now.backend) position result }
    {
        let found = self.backend.look(|session| found(session, position));
        Ok(Answer::FoundUnit(found))
    }

    /// What is shown of the unit of a number.
    pub(crate) fn show(&self, number: u64) -> Result<Answer, Failure>
        ensures { TellsShown (B.is_session self.now.backend) number result }
    {
        let shown = self
            .backend
            .look(|session| session.show(id_of_number(number)));
        match of_show(self.alloc, shown) {
            Ok(answer) => answer,
            Err(_) => Err(OUT_OF_MEMORY),
        }
    }

    /// How much there is of what the server keeps.
    pub(crate) fn stats(&self) -> Result<Answer, Failure>
        ensures { TellsStats (B.is_session self.now.backend) self.now.sums result }
    {
        let sums = self.sums;
        let stats = self.backend.look(|session| stats(session, sums));
        Ok(Answer::Stats(stats))
    }
}

/// What becomes of so many units from a place on, with their controls or without. What is told of
/// their doubt takes one walk over the units from the last valid IDR picture before them on.
fn units(
    alloc: Global,
    session: &Session,
    from: u64,
    count: u64,
    controls: bool,
) -> Result<Listed<UnitAnswer>, AllocError>
    ensures { IfOk result (AreUnitsIn session.now from count controls) }
{
    let (first, ids) = page(session.ids(), from, count);
    let doubts = session.doubts(first, ids.len())?;
    let told = flags_of_all(alloc, session, ids, &doubts)?;
    let answers = answers(alloc, session, ids, told.as_slice(), controls)?;
    Ok(Listed::new(answers))
}

/// The ids of so many units from a place on, and the place of the first of them.
fn page(ids: &[AuId], from: u64, count: u64) -> (usize, &[AuId])
    ensures page { result.1.now ≡ take count (drop from ids.now) }
    ensures within { result.0 + length result.1.now ≤ length ids.now }
    ensures first { from ≤ length ids.now → result.0 ≡ from }
{
    let from = (from as usize).min(ids.len());
    let (_, rest) = ids.split_at(from);
    let count = (count as usize).min(rest.len());
    let (page, _) = rest.split_at(count);
    (from, page)
}

/// What is told of the units of these ids beside their outcomes.
fn flags_of_all(
    alloc: Global,
    session: &Session,
    ids: &[AuId],
    doubts: &[Doubt],
) -> Result<Vec<UnitFlags>, AllocError>
    requires { length doubts.now ≡ length ids.now }
    ensures { IfOk result (λ told. (from : ℕ)
        → AreDoubts (seen_in session.now.register.stream) from (length ids.now) doubts.now
        → AreToldFrom session.now from (length ids.now) ids.now told.items) }
{
    let mut told = Vec::with_capacity(alloc, ids.len())?;
    for at in 0..ids.len() {
        told.push(UnitFlags {
            doubt: doubts[at],
            altered: is_altered(session, ids[at]),
        })?;
    }
    Ok(told)
}

/// Whether the unit of the id is altered.
fn is_altered(session: &Session, id: AuId) -> bool
    ensures { IsTrue result ↔ IsAltered session.now id }
{
    match session.is_altered(id) {
        Some(altered) => altered,
        None => false,
    }
}

/// The outcomes of the units of these ids, of which this is told.
fn answers(
    alloc: Global,
    session: &Session,
    ids: &[AuId],
    told: &[UnitFlags],
    controls: bool,
) -> Result<Vec<UnitAnswer>, AllocError>
    requires { length told.now ≡ length ids.now }
    ensures { IfOk result (λ answers. answers.items
        ≡ filter_map (unit_in session.now.register.stream controls) (zip ids.now told.now)) }
{
    let mut answers = Vec::with_capacity(alloc, ids.len())?;
    for at in 0..ids.len() {
        let answer = answer_of(alloc, session, ids[at], told[at], controls)?;
        push_some(&mut answers, answer)?;
    }
    Ok(answers)
}

/// The outcome of the unit of the id, of which this is told.
fn answer_of(
    alloc: Global,
    session: &Session,
    id: AuId,
    told: UnitFlags,
    controls: bool,
) -> Result<Option<UnitAnswer>, AllocError>
    ensures { IfOk result (λ answer. answer
        ≡ unit_in session.now.register.stream controls (id, told)) }
{
    match (session.outcome(id), session.position(id)) {
        (Ok(outcome), Ok(position)) => {
            let answer = UnitAnswer::of(alloc, id, position, outcome, told, controls)?;
            Ok(Some(answer))
        }
        _ => Ok(None),
    }
}

/// The unit at an output position. It is looked for a little before the place of the same number
/// and after it, and then further before it.
fn found(session: &Session, position: u64) -> Option<FoundUnit>
    ensures { IsFound session.now.register.stream position result }
{
    let units = session.ids().len();
    let near = (position as usize)
        .saturating_sub(MOST_REORDERED)
        .min(units);
    match found_among(session, near, units, position) {
        Some(found) => Some(found),
        None => found_among(session, 0, near, position),
    }
}

/// The first unit at a position, from a place on up to another.
fn found_among(session: &Session, from: usize, to: usize, position: u64) -> Option<FoundUnit>
    requires { to ≤ length session.now.register.stream }
    ensures { MatchOption result
        (IsNoneAmong session.now.register.stream position from to)
        (IsAt session.now.register.stream position) }
{
    for at in from..to {
        let id = session.ids()[at];
        if has_position(session, id, position) {
            return Some(FoundUnit {
                id: id.number(),
                place: at,
            });
        }
    }
    None
}

/// Whether the unit of the id has the position.
fn has_position(session: &Session, id: AuId, position: u64) -> bool
    ensures { IsTrue result ↔ HasPosition session.now.register.stream position id }
{
    match session.position(id) {
        Ok(Some(found)) => found as u64 == position,
        Ok(None) | Err(NoSuchUnit) => false,
    }
}

/// How much there is of what the session keeps, and what edits added up to.
fn stats(session: &Session, sums: Sums) -> Stats
    ensures value { result ≡ stats_of session.now sums }
    ensures once { AllPairs ◌≢◌ session.now.held }
{
    Stats {
        units: session.last().units,
        edits: session.journal().len(),
        held: session.held_keys(),
        cached: session.cached_keys(),
        jobs_out: session.jobs_out(),
        steps: sums.steps,
        bytes: sums.bytes,
    }
}
