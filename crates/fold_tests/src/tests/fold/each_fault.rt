//! Each fault by one stream, and beside the next one that the same unit can show.

use super::picture_faults::PICTURE_FAULTS;
use super::slice_faults::SLICE_FAULTS;
use super::writer::{Nal, Order, Slice, Writer};
use super::{fault_of, row_holds, unit};
use Nal::{Bytes, Pps};
use Order::Zero;
use access_unit::Unit;
use h264_types::pictures::AuId;
use request_core::scratch;
use std::process::Abort;
use std::test::Fail;
use unit_outcomes::{Outcome, ValidityFault};

/// The units of a stream whose last one alone has a fault, and that fault.
pub(super) type Stream = (&'static [&'static [Nal]], ValidityFault);

/// Count type 0 and two reference frames.
pub(super) const SPS: Nal = Nal::Sps(0, Zero(0, 0), 2);

pub(super) const PPS: Nal = Pps(0, 0);

/// The slice of an IDR picture.
pub(super) const I: Slice = Slice {
    first: 0x65,
    first_mb: 0,
    slice_type: 7,
    pps: 0,
    frame_num: 0,
    order: Zero(0, 0),
    redundant: 0,
    command: None,
    operations: None,
    long_term: 0,
};

/// A P slice after it.
pub(super) const P: Slice = Slice {
    first: 0x41,
    slice_type: 0,
    frame_num: 1,
    order: Zero(2, 0),
    ..I
};

/// A B slice of no reference after both.
pub(super) const B: Slice = Slice {
    first: 0x01,
    slice_type: 1,
    frame_num: 2,
    order: Zero(1, 0),
    ..I
};

/// The first unit of most streams.
pub(super) const FIRST: &[Nal] = &[SPS, PPS, Nal::Slice(I)];

/// A slice that isn't the first and ends in its slice_type.
pub(super) const CUT: Nal = Bytes(&[0x41, 0x42]);

/// A slice past the last macroblock.
pub(super) const PAST: Nal = Nal::Slice(Slice { first_mb: 16, ..P });

/// Two frames with one count.
pub(super) const SAME_COUNT: &[Nal] = &[Nal::Slice(Slice {
    order: Zero(0, 0),
    ..P
})];

/// The greatest offset of the bottom field, and so a bottom count past its range.
pub(super) const FAR: Order = Zero(7, i32::MAX);

/// The unit of these NAL units.
pub(super) fn written(rt: &(impl Abort + AllocGlobal), nals: &[Nal]) -> Result<Unit, Fail> {
    let mut writer = Writer::new(rt.alloc());
    for nal in nals {
        writer.put(nal)?;
    }
    Ok(unit(rt, writer.text())?)
}

/// The outcomes of the units under the ids 1, 2 and so on.
pub(super) fn outcomes(
    rt: &(impl Abort + AllocGlobal),
    units: &[&[Nal]],
) -> Result<Vec<Outcome>, Fail> {
    let mut stream = Vec::new(rt.alloc());
    let mut id = 0u32;
    for nals in units {
        id = id.saturating_add(1);
        stream.push((AuId::new(id), written(rt, *nals)?))?;
    }
    Ok(scratch(rt.alloc(), &stream)?)
}

/// The last unit alone has a fault, and this one.
fn ends_in(outcomes: &[Outcome], fault: ValidityFault) -> bool {
    match outcomes.split_last() {
        Some((last, before)) => {
            fault_of(last) == Some(fault)
                && before.iter().all(|outcome| fault_of(outcome).is_none())
        }
        None => false,
    }
}

#[test]
fn faults_of_slices(rt: HostRuntime) -> Result<(), Fail> {
    for (row, (units, fault)) in SLICE_FAULTS.iter().enumerate() {
        row_holds(&rt, row, ends_in(&outcomes(&rt, units)?, *fault));
    }
    Ok(())
}

#[test]
fn faults_of_pictures(rt: HostRuntime) -> Result<(), Fail> {
    for (row, (units, fault)) in PICTURE_FAULTS.iter().enumerate() {
        row_holds(&rt, row, ends_in(&outcomes(&rt, units)?, *fault));
    }
    Ok(())
}
