//! The slices of a unit, each with its header and the sets that it names.

ghost use Rattle.std.specs.Prelude.{◌≡◌, ◌≢◌, ◌∷◌, ◌++◌, map, Ok, Err, IfOk, OnOk, option_map};
ghost use Rattle.annexb.specs.ByteStream.{start_code};
ghost use Rattle.param_set_controls.specs.SetControls.{set_controls};
ghost use Rattle.slice_header.specs.declared.fault.HeaderFault.TheVariants.{Memory};
ghost use Rattle.slice_reading.specs.Numbers.{gathered};
ghost use Rattle.slice_reading.specs.Gathering.{gathered_after};
ghost use Rattle.slice_reading.specs.Slices.{slice_at, header_fault};
ghost use Rattle.slice_reading.specs.Answers.{AnswersAs};

use crate::gathered::Gathered;
use crate::sets::Sets;
use crate::tables::Tables;
use crate::unplanned::Unplanned;
use access_unit::SharedNal;
use bytes::Bytes;
use h264_types::base::Shared;
use h264_types::param_sets::Sps;
use h264_types::slice_headers::SliceHeader;
use param_set_controls::SetControls;
use slice_header::{HeaderFault, Start, peek_start, read_from};
use std::alloc::{AllocError, Global};
use std::marker::Model;
use unit_outcomes::ValidityFault;

/// A slice: its NAL unit, the parameter sets that it names, with the controls that these decide,
/// and its header.
#[derive(Debug)]
pub struct Slice {
    nal: SharedNal,
    sets: Sets,
    pub(crate) header: SliceHeader,
}

// By hand, so that whoever drops one is proved over one call.
impl Drop for Slice {
    fn drop(self) {
        let Slice {
            nal: _,
            sets: _,
            header: _,
        } = self;
    }
}

impl Model for Slice {
    ghost use Rattle.slice_reading.specs.Slices.{SliceRead};

    ghost Value = { SliceRead };

    ghost view = { λ slice. record {
      nal = slice.nal;
      sps = slice.sets.sps;
      pps = slice.sets.pps;
      header = slice.header;
    } };
}

impl Slice {
    /// Its header.
    pub fn header(&self) -> &SliceHeader
        ensures { result.now ≡ self.now.header }
    {
        &self.header
    }

    /// The sequence parameter set that it names.
    pub fn sps(&self) -> &Shared<Sps>
        ensures { result.now ≡ self.now.sps }
    {
        &self.sets.sps
    }

    /// The controls that the parameter sets decide that it names, with one owner more.
    pub fn controls(&self) -> Result<Shared<SetControls>, AllocError>
        ensures { IfOk result (λ controls. controls ≡ set_controls self.now.sps self.now.pps) }
    {
        self.sets.controls()
    }

    /// The bytes 00 00 01 and its NAL unit, with one owner more.
    pub fn coded(&self) -> Result<Bytes, AllocError>
        ensures { IfOk result (λ bytes. bytes ≡ start_code ++ self.now.nal) }
    {
        self.nal.coded()
    }
}

/// The slices of these NAL units, each read against the tables, or the fault of the lowest number
/// that any shows.
///
/// A slice shares its sets and their controls with the tables, or with the slice before it, where
/// those have the same.
pub fn read_slices(
    alloc: Global,
    tables: &Tables,
    nals: &[SharedNal],
) -> Result<Vec<Slice>, Unplanned>
    ensures { AnswersAs (λ slices. slices.items) result
        (gathered (map (slice_at tables.now) nals.now)) }
{
    let mut slices = Gathered::with_capacity(alloc, nals.len())?;
    for nal in nals {
        add_slice(alloc, tables, nal, &mut slices)?;
    }
    slices.finish()
}

/// Adds the slice of a NAL unit, or the fault that it shows. It shares the sets of the last slice
/// that was read where those are the same. The front of the unit is unescaped once, and the slice
/// is made where it is added, since it is large.
#[tactic(auto, unfolding(crate::specs::Slices::slice_at))]
fn add_slice(
    alloc: Global,
    tables: &Tables,
    nal: &SharedNal,
    slices: &mut Gathered<Slice>,
) -> Result<(), AllocError>
    ensures { OnOk result
        (slices.new ≡ gathered_after slices.old (slice_at tables.now nal.now)) }
{
    let unit = nal.nal();
    let start = Start::of(&unit);
    let front = match peek_start(&start) {
        Ok(front) => front,
        Err(fault) => return add_header_fault(slices, fault),
    };
    let Some(pps) = tables.pps(front.pic_parameter_set_id) else {
        slices.add_fault(ValidityFault::MissingPps);
        return Ok(());
    };
    let Some(sps) = tables.sps(pps.set().seq_parameter_set_id.get()) else {
        slices.add_fault(ValidityFault::MissingSps);
        return Ok(());
    };
    let sets = Sets::of(alloc, last_sets(slices.last()), sps, pps)?;
    let nal = nal.clone()?;
    match read_from(alloc, &start, sps.set(), pps.set()) {
        Ok(header) => slices.push(Slice { nal, sets, header }),
        Err(fault) => add_header_fault(slices, fault),
    }
}

/// The sets that the last slice names, if there was one.
fn last_sets(last: Option<&Slice>) -> Option<&Sets>
    ensures { option_map (λ sets. sets.now) result
        ≡ option_map (λ slice. record { sps = slice.now.sps; pps = slice.now.pps }) last.entry }
{
    match last {
        Some(slice) => Some(&slice.sets),
        None => None,
    }
}

/// Adds a header's fault as the fault of its unit, unless memory ran out.
fn add_header_fault(slices: &mut Gathered<Slice>, fault: HeaderFault) -> Result<(), AllocError>
    ensures { OnOk result ((slices.new ≡ gathered_after slices.old (Err (header_fault fault)))
        × (fault ≢ Memory)) }
{
    match fault {
        HeaderFault::Cut => slices.add_fault(ValidityFault::HeaderCut),
        HeaderFault::Value => slices.add_fault(ValidityFault::HeaderValue),
        HeaderFault::Memory => return Err(AllocError),
    }
    Ok(())
}
