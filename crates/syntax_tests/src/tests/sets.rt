mod faults;
mod pps;
mod ranges;
mod scaling_lists;
mod sps;
mod writer;

use super::row_holds;
use h264_types::param_sets::{
    ChromaFormat, PicOrderCntType, Pps, ScalingLists, Sps, WeightedBipred,
};
use param_sets::{SetFault, SetField, read_pps, read_sps, resolve_matrix};
use std::alloc::{AllocError, AllocGlobal, Global};
use std::process::Abort;
use std::test::Fail;
use test_builders::BitWriter;

/// Why a payload is no sequence parameter set.
fn sps_fault(alloc: Global, payload: &[u8]) -> Option<SetFault> {
    read_sps(alloc, payload).err()
}

/// Why a payload is no picture parameter set.
fn pps_fault(alloc: Global, payload: &[u8]) -> Option<SetFault> {
    read_pps(alloc, payload).err()
}
