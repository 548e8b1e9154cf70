//! The parameter sets that a stream has sent (7.4.1.2.1).

ghost use Rattle.std.specs.Prelude.{◌≡◌, ◌<◌, ◌↔◌, None, Some, IfOk, IfSome, IsTrue, OnOk, length, option_map, replicate, set};
ghost use Rattle.slice_reading.specs.ParameterSets.{no_sets, put, put_all, sps_under, pps_under};

use crate::entries::{PpsEntry, SetEntry, SpsEntry};
use crate::sets::Sets;
use access_unit::ParameterSet;
use h264_types::base::Shared;
use h264_types::param_sets::{Pps, Sps};
use std::alloc::{AllocError, Global};
use std::marker::Model;

/// How many ids sequence parameter sets have.
const MOST_SPS: usize = 32;

/// How many ids picture parameter sets have.
const MOST_PPS: usize = 256;

/// The set that was sent last under each id, with the controls that it decides: 32 sequence
/// parameter sets and 256 picture parameter sets, each of them shared.
#[derive(Debug)]
pub struct Tables {
    sps: Vec<Option<Shared<SpsEntry>>>,
    pps: Vec<Option<Shared<PpsEntry>>>,
}

// By hand, so that whoever drops one is proved over one call.
impl Drop for Tables {
    fn drop(self) {
        let Tables { sps: _, pps: _ } = self;
    }
}

impl Model for Tables {
    ghost use Rattle.std.specs.Prelude.{◌≡◌, length};
    ghost use Rattle.slice_reading.specs.ParameterSets.{ParameterSets};

    ghost Value = { ParameterSets };

    ghost view = { λ tables. record { sps = tables.sps.items; pps = tables.pps.items } };

    ghost invariant = { λ tables. (length tables.sps.items ≡ 32)
        × (length tables.pps.items ≡ 256) };
}

impl Tables {
    /// The tables before the first unit.
    pub fn new(alloc: Global) -> Result<Tables, AllocError>
        ensures { IfOk result (λ tables. tables ≡ no_sets) }
    {
        Ok(Tables {
            sps: empty_entries(alloc, MOST_SPS)?,
            pps: empty_entries(alloc, MOST_PPS)?,
        })
    }

    /// The same sets, shared.
    pub(crate) fn copy(&self, alloc: Global) -> Result<Tables, AllocError>
        ensures { IfOk result (λ tables. tables ≡ self.now) }
    {
        Ok(Tables {
            sps: copied(alloc, &self.sps)?,
            pps: copied(alloc, &self.pps)?,
        })
    }

    /// Puts a set into the place of its id. A place that has the same set already stays as it is.
    #[tactic(auto, unfolding(crate::specs::ParameterSets::put))]
    pub(crate) fn put(&mut self, alloc: Global, set: &ParameterSet) -> Result<(), AllocError>
        ensures { OnOk result (self.new ≡ put self.old set.now) }
    {
        match set {
            ParameterSet::Sps(sps) => {
                let id = sps.seq_parameter_set_id.get();
                if !has_sps(self.sps(id), sps) {
                    let entry = Shared::new(alloc, SpsEntry::new(alloc, sps)?)?;
                    put_in(&mut self.sps, usize::from(id), entry);
                }
            }
            ParameterSet::Pps(pps) => {
                let id = pps.pic_parameter_set_id;
                if !has_pps(self.pps(id), pps) {
                    let entry = Shared::new(alloc, PpsEntry::new(pps)?)?;
                    put_in(&mut self.pps, usize::from(id), entry);
                }
            }
        }
        Ok(())
    }

    /// Pairs a picture parameter set that was put to the sequence parameter set that it names,
    /// where that was sent.
    pub(crate) fn pair(&mut self, alloc: Global, set: &ParameterSet) -> Result<(), AllocError>
        ensures { OnOk result (self.new ≡ self.old) }
    {
        let ParameterSet::Pps(set) = set else {
            return Ok(());
        };
        let id = set.pic_parameter_set_id;
        if let Some(entry) = self.pairing(alloc, id)? {
            put_in(&mut self.pps, usize::from(id), entry);
        }
        Ok(())
    }

    /// The place of the picture parameter set under an id as it is to be, where its set has to be
    /// paired anew.
    fn pairing(&self, alloc: Global, id: u8) -> Result<Option<Shared<PpsEntry>>, AllocError>
        ensures { IfOk result (λ paired. IfSome paired (λ entry.
            pps_under self.now id ≡ Some entry)) }
    {
        let Some(pps) = self.pps(id) else {
            return Ok(None);
        };
        let Some(sps) = self.sps(pps.set().seq_parameter_set_id.get()) else {
            return Ok(None);
        };
        if are_sets(pps.sets(), sps, pps.set()) {
            return Ok(None);
        }
        let entry = PpsEntry::paired(alloc, pps.set(), sps)?;
        Ok(Some(Shared::new(alloc, entry)?))
    }

    /// Whether both have the same sets under the same ids, by their contents.
    pub fn is_same(&self, other: &Tables) -> bool
        ensures { IsTrue result ↔ (self.now ≡ other.now) }
    {
        same_entries(&self.sps, &other.sps) && same_entries(&self.pps, &other.pps)
    }

    /// The sequence parameter set under an id.
    pub(crate) fn sps(&self, id: u8) -> Option<&Shared<SpsEntry>>
        requires { id < 32 }
        ensures { option_map (λ set. set.now) result ≡ sps_under self.now id }
    {
        self.sps[usize::from(id)].as_ref()
    }

    /// The picture parameter set under an id.
    pub(crate) fn pps(&self, id: u8) -> Option<&Shared<PpsEntry>>
        ensures { option_map (λ set. set.now) result ≡ pps_under self.now id }
    {
        self.pps[usize::from(id)].as_ref()
    }
}

/// Whether the place has this set.
fn has_sps(entry: Option<&Shared<SpsEntry>>, set: &Sps) -> bool
    ensures { IsTrue result ↔ (option_map (λ entry. entry.now) entry.entry ≡ Some set.now) }
{
    match entry {
        Some(entry) => entry.set().is_same(set),
        None => false,
    }
}

/// Whether the place has this set.
fn has_pps(entry: Option<&Shared<PpsEntry>>, set: &Pps) -> bool
    ensures { IsTrue result ↔ (option_map (λ entry. entry.now) entry.entry ≡ Some set.now) }
{
    match entry {
        Some(entry) => entry.set().is_same(set),
        None => false,
    }
}

/// Whether there are sets, and they are these two.
fn are_sets(sets: &Option<Sets>, sps: &SpsEntry, pps: &Pps) -> bool
    ensures { IsTrue result ↔ (sets.now ≡ Some (record { sps = sps.now; pps = pps.now })) }
{
    match sets {
        Some(sets) => sets.are(sps, pps),
        None => false,
    }
}

/// Whether as many places have the same sets.
fn same_entries<T: SetEntry>(a: &[Option<Shared<T>>], b: &[Option<Shared<T>>]) -> bool
    ensures { IsTrue result ↔ (a.now ≡ b.now) }
{
    if a.len() != b.len() {
        return false;
    }
    for (entry, other) in a.iter().zip(b) {
        if !same_entry(entry, other) {
            return false;
        }
    }
    true
}

/// Whether both places have the same set, or none.
fn same_entry<T: SetEntry>(a: &Option<Shared<T>>, b: &Option<Shared<T>>) -> bool
    ensures { IsTrue result ↔ (a.now ≡ b.now) }
{
    match (a, b) {
        (Some(a), Some(b)) => a.is_same(b),
        (None, None) => true,
        _ => false,
    }
}

/// Puts a set into a place.
fn put_in<T: Drop>(entries: &mut Vec<Option<Shared<T>>>, id: usize, value: Shared<T>)
    requires { id < length entries.old.items }
    ensures { entries.new.items ≡ set entries.old.items id (Some value) }
{
    entries[id] = Some(value);
}

/// This many places with no set.
fn empty_entries<T>(alloc: Global, count: usize) -> Result<Vec<Option<T>>, AllocError>
where
    T: Drop,
    ensures { IfOk result (λ entries. entries.items ≡ replicate count None) }
{
    let mut entries = Vec::with_capacity(alloc, count)?;
    for _ in 0..count {
        entries.push(None)?;
    }
    Ok(entries)
}

/// The same places, their sets shared.
fn copied<T: Drop>(
    alloc: Global,
    entries: &[Option<Shared<T>>],
) -> Result<Vec<Option<Shared<T>>>, AllocError>
    ensures { IfOk result (λ copy. copy.items ≡ entries.now) }
{
    let mut copy = Vec::with_capacity(alloc, entries.len())?;
    for entry in entries {
        copy.push(shared(entry)?)?;
    }
    Ok(copy)
}

/// The same set with one owner more.
fn shared<T: Drop>(entry: &Option<Shared<T>>) -> Result<Option<Shared<T>>, AllocError>
    ensures { IfOk result (λ copy. copy ≡ entry.now) }
{
    match entry {
        Some(set) => Ok(Some(set.clone()?)),
        None => Ok(None),
    }
}
