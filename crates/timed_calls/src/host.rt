//! A session whose calls are made.

ghost use Rattle.std.specs.Prelude.{◌≡◌, ◌≤◌, ◌<◌, ◌%◌, length, slice_get, IfOk};
ghost use Rattle.stream_edits.specs.Streams.{ids_of};

use crate::asked::Call;
use crate::controls::fills_first;
use anyhow::{Result, bail};
use bytes::Bytes;
use h264_types::pictures::AuId;
use stand_in_device::{Device, Undone};
use stand_in_session::{Config, Edit, InsertionPoint, Landing, Session, Shown};
use std::alloc::Global;
use unit_outcomes::Outcome;

/// For how many pictures out of use there is room.
const CACHE: u16 = 64;

/// How many pictures stand between two IDR pictures of the streams that are timed.
const PERIOD: usize = 250;

/// A session over units, with a device that decodes its jobs.
#[derive(Drop)]
pub(crate) struct Host<'a> {
    alloc: Global,
    session: Session,
    device: Device,
    units: &'a [&'a [u8]],
}

impl<'a> Host<'a> {
    /// A session into which these units were inserted one after the other.
    pub(crate) fn new(alloc: Global, units: &'a [&'a [u8]]) -> Result<Host<'a>> {
        let mut session = Session::new(alloc, Config { cache: CACHE })?;
        let mut place = InsertionPoint::First;
        for unit in units {
            let receipt = session.edit(Edit::Insert(place, Bytes::copy_from_slice(alloc, unit)?))?;
            place = InsertionPoint::After(receipt.id);
        }
        Ok(Host {
            alloc,
            session,
            device: Device::new(alloc),
            units,
        })
    }

    /// Makes a call up to so many times, after all pictures but for jobs; how many were answered as
    /// they have to be.
    pub(crate) fn make(&mut self, call: Call, turns: u64) -> Result<u64>
        ensures { IfOk result (λ count. count ≤ turns) }
    {
        if call != Call::Job {
            self.jobs(u64::MAX)?;
        }
        match call {
            Call::Job => self.jobs(turns),
            Call::Show => Ok(self.shows(turns)),
            Call::UnitRequest => Ok(self.unit_requests(turns)),
            Call::Edit => self.edits(turns),
            Call::JobRequest => self.job_requests(turns),
        }
    }

    /// Takes and lands up to so many jobs; how many there were.
    fn jobs(&mut self, most: u64) -> Result<u64>
        ensures { IfOk result (λ count. count ≤ most) }
    {
        for count in 0..most {
            if !self.job()? {
                return Ok(count);
            }
        }
        Ok(most)
    }

    /// Takes, decodes and lands the job that is due; whether there was one, and its picture is
    /// held.
    fn job(&mut self) -> Result<bool> {
        let Some(job) = self.session.take()? else {
            return Ok(false);
        };
        match self.device.decode(self.alloc, job) {
            Ok(finished) => Ok(self.session.land(finished) == Landing::Taken),
            Err(Undone { job, cause }) => {
                self.session.give_back(job);
                Err(cause)?
            }
        }
    }

    /// Asks for the picture of one unit after the other; how often it is ready.
    fn shows(&self, turns: u64) -> u64
        ensures { result ≤ turns }
    {
        let mut ready = 0;
        for turn in 0..turns {
            let shown = self.unit(turn).map(|id| self.session.show(id));
            ready += u64::from(matches!(shown, Some(Shown::Ready(_))));
        }
        ready
    }

    /// Fills the kernel's structs from the first request of one unit after the other; how often
    /// there is one.
    fn unit_requests(&self, turns: u64) -> u64
        ensures { result ≤ turns }
    {
        let mut filled = 0;
        for turn in 0..turns {
            filled += u64::from(self.unit(turn).is_some_and(|id| self.fills(id)));
        }
        filled
    }

    /// Whether the unit of the id has a request, from which the kernel's structs are filled.
    fn fills(&self, id: AuId) -> bool {
        match self.session.outcome(id) {
            Ok(Outcome::Plan(plan)) => fills_first(plan.requests.as_slice()),
            _ => false,
        }
    }

    /// The unit of a turn: one after the other, and the first again after the last.
    fn unit(&self, turn: u64) -> Option<AuId>
        ensures { result ≡ slice_get (ids_of self.now.session.register.stream)
            (turn % length self.now.session.register.stream) }
    {
        let ids = self.session.ids();
        let at = turn.checked_rem(ids.len() as u64)?;
        ids.get(at as usize).copied()
    }

    /// Replaces the unit in the middle of a period so many times, each time by another; how often
    /// that is accepted.
    fn edits(&mut self, turns: u64) -> Result<u64>
        ensures { IfOk result (λ count. count ≤ turns) }
    {
        let place = edited_place(self.units.len());
        let (Some(unit), Some(id)) = (self.units.get(place), self.session.ids().get(place)) else {
            bail!("there is no unit to replace");
        };
        let (mut text, id) = (Vec::from_slice(self.alloc, unit)?, *id);
        let mut accepted = 0;
        for turn in 0..turns {
            change(&mut text, turn);
            let edit = Edit::Replace(id, Bytes::copy_from_slice(self.alloc, &text)?);
            accepted += u64::from(self.session.edit(edit).is_ok());
        }
        Ok(accepted)
    }

    /// Fills the kernel's structs so many times from the first request of a job that is out; how
    /// often there is one.
    fn job_requests(&mut self, turns: u64) -> Result<u64>
        ensures { IfOk result (λ count. count ≤ turns) }
    {
        self.edits(1)?;
        let Some(job) = self.session.take()? else {
            bail!("no picture is due");
        };
        let mut filled = 0;
        // For proofs.
        'turns: for _ in 0..turns {
            filled += u64::from(fills_first(job.input().requests()));
        }
        self.session.give_back(job);
        Ok(filled)
    }
}

/// The place of the unit that is replaced, of so many: in the middle of a period in the middle, or
/// of all where there is none.
fn edited_place(units: usize) -> usize
    ensures { 0 < units → result < units }
{
    let place = units / 2 / PERIOD * PERIOD + PERIOD / 2;
    if place < units { place } else { units / 2 }
}

/// Changes a byte near the end of a text, in each of 200 turns to another.
fn change(text: &mut [u8], turn: u64) {
    let at = text.len().saturating_sub(20);
    if let Some(byte) = text.get_mut(at) {
        *byte = 16 + (turn % 200) as u8;
    }
}
