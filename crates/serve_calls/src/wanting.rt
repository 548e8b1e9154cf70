//! `want`: which units are wanted, and what is told of them at once.

ghost use Rattle.std.specs.Prelude.{◌≡◌, IfOk, MatchResult, OnOk, [], map};
ghost use Rattle.edit_script.specs.Words.{id_of};
ghost use Rattle.serve_calls.specs.Failing.{out_of_memory};
ghost use Rattle.serve_calls.specs.Recording.{KeepsRecords};
ghost use Rattle.serve_calls.specs.Sessions.{Asks};
ghost use Rattle.serve_calls.specs.Wanting.{IsTold, TellsOf, TellsOne, WantsAs, not_now_of, picked, picture_of, ready_of, wanted_after};

use crate::backend::Backend;
use crate::lists::push_some;
use crate::server::Server;
use crate::unmade::OUT_OF_MEMORY;
use crate::wanted_units::{WantedUnit, wanted_units};
use edit_script::id_of_number;
use h264_types::pictures::AuId;
use serve_answers::{Answer, Digits, Picked};
use serve_requests::{CallRefusal, Failure, Listed};
use stand_in_session::{Picture, Session, Shown};
use std::alloc::{AllocError, Global};

/// How many units are wanted at once at most.
const MOST_WANTED: usize = 64;

/// What is told of wanted units at once.
#[derive(Debug, Drop)]
pub(crate) struct WantedNow {
    /// Those whose pictures are there.
    pub(crate) ready: Vec<Picked>,
    /// The numbers of those that there are none of or that aren't valid.
    pub(crate) not_now: Vec<u64>,
    /// All of them, each with the picture that is told of it.
    pub(crate) units: Vec<WantedUnit>,
}

impl WantedNow {
    /// Nothing is told.
    fn nothing(alloc: Global) -> WantedNow
        ensures { IsTold [] result }
    {
        WantedNow {
            ready: Vec::new(alloc),
            not_now: Vec::new(alloc),
            units: Vec::new(alloc),
        }
    }

    /// Tells of a unit more, of which this is shown.
    fn add(&mut self, alloc: Global, number: u64, shown: Shown) -> Result<(), AllocError>
        ensures { OnOk result (TellsOne self.old (number, shown) self.new) }
    {
        push_some(&mut self.ready, picked_if_ready(alloc, number, shown)?)?;
        push_some(&mut self.not_now, number_if_not_now(number, shown))?;
        self.units.push(WantedUnit {
            number,
            told: picture_of(shown),
            seen: Some(shown),
        })?;
        Ok(())
    }
}

impl<B: Backend, S> Server<B, S> {
    /// Has units looked at first. The pictures that are told by the answer count as told, if there
    /// is one.
    pub(crate) fn want(
        &mut self,
        wanted: &mut Vec<WantedUnit>,
        ids: Listed<u64>,
        rest: bool,
        is_answered: bool,
    ) -> Result<Answer, Failure>
        ensures answers { WantsAs B.is_session self.old wanted.old.items ids is_answered result
            self.new wanted.new.items }
        ensures recorded { KeepsRecords (B.records self.old.backend) (B.records self.new.backend) }
    {
        let numbers = ids.into_items();
        self.want_all(wanted, numbers.as_slice(), rest, is_answered)
    }

    /// Has the units of these numbers looked at first.
    fn want_all(
        &mut self,
        wanted: &mut Vec<WantedUnit>,
        numbers: &[u64],
        rest: bool,
        is_answered: bool,
    ) -> Result<Answer, Failure>
        ensures answers { WantsAs B.is_session self.old wanted.old.items numbers.now is_answered
            result self.new wanted.new.items }
        ensures recorded { KeepsRecords (B.records self.old.backend) (B.records self.new.backend) }
    {
        if numbers.len() > MOST_WANTED {
            return Err(Failure::Refused(CallRefusal::TooManyWanted));
        }
        let Ok(ids) = ids_of(self.alloc, numbers) else {
            return Err(OUT_OF_MEMORY);
        };
        let Ok(units) = wanted_units(self.alloc, numbers) else {
            return Err(OUT_OF_MEMORY);
        };
        let told = self.tell_now(units.as_slice())?;
        self.backend.want(ids.as_slice(), rest);
        let WantedNow {
            ready,
            not_now,
            units: told,
        } = told;
        *wanted = wanted_after(is_answered, units, told);
        Ok(Answer::Wanted {
            ready: Listed::new(ready),
            not_now: Listed::new(not_now),
        })
    }

    /// What is told of the units as the session is now.
    fn tell_now(&self, units: &[WantedUnit]) -> Result<WantedNow, Failure>
        ensures { MatchResult result
            (λ told. Asks (B.is_session self.now.backend)
            (λ machine. TellsOf machine units.now told))
            (λ failure. failure ≡ out_of_memory) }
    {
        let alloc = self.alloc;
        let told = self
            .backend
            .look(|session| wanted_now(alloc, session, units));
        match told {
            Ok(told) => Ok(told),
            Err(_) => Err(OUT_OF_MEMORY),
        }
    }
}

/// The units that are wanted after an answer: with what is told by the answer, if there is one.
fn wanted_after(is_answered: bool, units: Vec<WantedUnit>, told: Vec<WantedUnit>) -> Vec<WantedUnit>
    ensures { result.items ≡ wanted_after is_answered units.items told.items }
{
    if is_answered { told } else { units }
}

/// The ids of numbers.
fn ids_of(alloc: Global, numbers: &[u64]) -> Result<Vec<AuId>, AllocError>
    ensures { IfOk result (λ ids. ids.items ≡ map id_of numbers.now) }
{
    let mut ids = Vec::with_capacity(alloc, numbers.len())?;
    for number in numbers {
        ids.push(id_of_number(*number))?;
    }
    Ok(ids)
}

/// What is told of the units as the session is now.
fn wanted_now(
    alloc: Global,
    session: &Session,
    units: &[WantedUnit],
) -> Result<WantedNow, AllocError>
    ensures { IfOk result (TellsOf session.now units.now) }
{
    let mut told = WantedNow::nothing(alloc);
    for unit in units {
        let shown = session.show(id_of_number(unit.number));
        told.add(alloc, unit.number, shown)?;
    }
    Ok(told)
}

/// The picture that is shown, if one is.
fn picture_of(shown: Shown) -> Option<Picture>
    ensures { result ≡ picture_of shown }
{
    match shown {
        Shown::Ready(picture) => Some(picture),
        _ => None,
    }
}

/// What is told of a unit, if its picture is there.
fn picked_if_ready(alloc: Global, number: u64, shown: Shown) -> Result<Option<Picked>, AllocError>
    ensures { IfOk result (λ told. told ≡ ready_of (number, shown)) }
{
    match shown {
        Shown::Ready(picture) => Ok(Some(picked(alloc, number, picture)?)),
        _ => Ok(None),
    }
}

/// The number of a unit that there is none of or that isn't valid.
fn number_if_not_now(number: u64, shown: Shown) -> Option<u64>
    ensures { result ≡ not_now_of (number, shown) }
{
    match shown {
        Shown::Ready(_) | Shown::Pending => None,
        Shown::Fault(_) | Shown::Empty | Shown::NoSuchUnit => Some(number),
    }
}

/// What is told of a unit that is ready.
pub fn picked(alloc: Global, number: u64, picture: Picture) -> Result<Picked, AllocError>
    ensures { IfOk result (λ told. told ≡ picked number picture) }
{
    Ok(Picked {
        id: number,
        picture: Digits::of_picture(alloc, picture)?,
    })
}
