//! The sequence parameter sets of a stream, in words.

use crate::set_words::SetWords;
use access_unit::Unit;
use annexb::{Nal, payload};
use param_sets::cropping::cropped_size;
use param_sets::{SetFault, read_sps};
use std::alloc::{AllocError, Global};

/// nal_unit_type of a sequence parameter set (table 7-1).
const SPS_TYPE: u8 = 7;

/// What the sequence parameter sets of the units say, each thing once, in the order in which they
/// stand.
pub(crate) fn sets_in_words(alloc: Global, units: &[Unit]) -> Result<Vec<SetWords>, AllocError> {
    let mut words = Vec::new(alloc);
    for unit in units {
        add_sets(alloc, &mut words, unit)?;
    }
    Ok(words)
}

/// Adds what the sets of a unit say that is new.
fn add_sets(alloc: Global, words: &mut Vec<SetWords>, unit: &Unit) -> Result<(), AllocError> {
    for nal in unit.nals() {
        let nal = nal.nal();
        if nal.nal_unit_type() == SPS_TYPE {
            add_set(alloc, words, &nal)?;
        }
    }
    Ok(())
}

/// Adds what the set of a NAL unit says, unless it was said.
fn add_set(alloc: Global, words: &mut Vec<SetWords>, nal: &Nal<'_>) -> Result<(), AllocError> {
    let payload = payload(alloc, nal)?;
    match read_sps(alloc, &payload) {
        Ok(sps) => add_new(
            words,
            SetWords::of(&sps, cropped_size(alloc, &payload, &sps)?),
        ),
        Err(SetFault::Memory) => Err(AllocError),
        Err(_) => Ok(()),
    }
}

/// Adds what a set says, unless it was said.
fn add_new(words: &mut Vec<SetWords>, said: SetWords) -> Result<(), AllocError> {
    if !words.contains(&said) {
        words.push(said)?;
    }
    Ok(())
}
