//! The units that have no valid picture, and why.

ghost use Rattle.std.specs.Prelude.{◌≡◌, ◌++◌, [], IfOk, OnOk};
ghost use Rattle.access_unit.specs.Sets.{sets_of};
ghost use Rattle.slice_reading.specs.ParameterSets.{no_sets, put_all};
ghost use Rattle.stream_check.specs.Spans.{place_of};
ghost use Rattle.stream_check.specs.Problems.{gap_before, is_gap, last_after, last_after_plan, problem_at, reason_in};

use crate::spans::UnitSpan;
use access_unit::Unit;
use h264_types::base::Shared;
use h264_types::pictures::AuId;
use slice_reading::{Slice, Tables, Unplanned, read_slices, tables_with};
use std::alloc::{AllocError, Global};
use stream_reasons::Reason;
use unit_outcomes::{Outcome, Plan, ValidityFault};

/// A unit that has no valid picture.
#[derive(Clone, Copy)]
pub struct Problem {
    /// The unit's id: its place in the stream, from 1.
    pub unit: AuId,
    pub fault: ValidityFault,
    pub reason: Reason,
}

impl Problem {
    /// Where the unit stands, of a stream whose units stand at these places; byte 0 and no bytes
    /// where it has none of them.
    pub fn span_in(&self, spans: &[UnitSpan]) -> UnitSpan
        ensures { result ≡ place_of self.now.unit spans.now }
    {
        let at = (self.unit.number() as usize).saturating_sub(1);
        match spans.get(at) {
            Some(place) => *place,
            None => UnitSpan { byte: 0, bytes: 0 },
        }
    }
}

/// The units with a fault of those that were folded, and what frame_num of the next one is compared
/// with (7.4.3).
#[derive(Drop)]
pub(crate) struct Problems {
    pub(crate) found: Vec<Problem>,
    /// The parameter sets that were sent.
    tables: Shared<Tables>,
    /// PrevRefFrameNum.
    last: u16,
}

impl Problems {
    /// Those of no units.
    pub(crate) fn new(alloc: Global) -> Result<Problems, AllocError>
        ensures none { IfOk result (λ problems. problems.found.items ≡ []) }
        ensures tables { IfOk result (λ problems. problems.tables ≡ no_sets) }
        ensures last { IfOk result (λ problems. problems.last ≡ 0) }
    {
        Ok(Problems {
            found: Vec::new(alloc),
            tables: Shared::new(alloc, Tables::new(alloc)?)?,
            last: 0,
        })
    }

    /// Adds what one unit more leads to.
    pub(crate) fn add(
        &mut self,
        alloc: Global,
        id: AuId,
        unit: &Unit,
        outcome: &Outcome,
    ) -> Result<(), AllocError>
        ensures tables { OnOk result
            (self.new.tables ≡ put_all self.old.tables (sets_of unit.now)) }
        ensures last { OnOk result (self.new.last ≡ last_after self.old.last outcome.now) }
        ensures found { OnOk result (self.new.found.items ≡ self.old.found.items
            ++ problem_at id (reason_in self.new.tables self.old.last unit.now) outcome.now) }
    {
        self.tables = tables_with(alloc, &self.tables, unit.sets())?;
        if let Outcome::Fault(fault) = outcome {
            let reason = self.reason_of(alloc, unit, *fault)?;
            self.found.push(Problem {
                unit: id,
                fault: *fault,
                reason,
            })?;
        }
        self.last = last_after(self.last, outcome);
        Ok(())
    }

    /// Why the unit isn't valid that has this fault, and whose parameter sets are put.
    fn reason_of(
        &self,
        alloc: Global,
        unit: &Unit,
        fault: ValidityFault,
    ) -> Result<Reason, AllocError>
        ensures { IfOk result (λ reason.
            reason ≡ reason_in self.now.tables self.now.last unit.now fault) }
    {
        if !is_gap(fault) {
            return Ok(Reason::Fault(fault));
        }
        match read_slices(alloc, &self.tables, unit.slices()) {
            Ok(slices) => Ok(gap_before(self.last, fault, &slices)),
            Err(Unplanned::Fault(_)) => Ok(Reason::Fault(fault)),
            Err(Unplanned::Memory) => Err(AllocError),
        }
    }
}

/// Whether pictures are missing before the unit.
fn is_gap(fault: ValidityFault) -> bool
    ensures { result ≡ is_gap fault }
{
    fault.number() == ValidityFault::FrameNumGap.number()
}

/// frame_num of the first slice, and which was expected after this PrevRefFrameNum (7.4.3).
fn gap_before(last: u16, fault: ValidityFault, slices: &[Slice]) -> Reason
    ensures { result ≡ gap_before last fault slices.now }
{
    match slices {
        [first, ..] => Reason::FrameNumGap {
            frame_num: first.header().frame_num,
            last,
            next: ((u32::from(last) + 1) % first.sps().max_frame_num()) as u16,
        },
        [] => Reason::Fault(fault),
    }
}

/// PrevRefFrameNum after the unit.
fn last_after(before: u16, outcome: &Outcome) -> u16
    ensures { result ≡ last_after before outcome.now }
{
    match outcome {
        Outcome::Plan(plan) => last_after_plan(before, plan),
        Outcome::Fault(_) => before,
        Outcome::Empty => before,
    }
}

/// The same after a valid unit. frame_num counts as 0 where output order begins anew (7.4.3).
fn last_after_plan(before: u16, plan: &Plan) -> u16
    ensures { result ≡ last_after_plan before plan.now }
{
    match plan.requests.as_slice() {
        [] => before,
        [request, ..] => {
            let params = &request.controls().decode_params;
            match (params.nal_ref_idc, plan.begins_period) {
                (0, _) => before,
                (_, true) => 0,
                (_, false) => params.frame_num,
            }
        }
    }
}
