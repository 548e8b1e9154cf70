//! Texts that are split and read. Where memory runs out, each call is made again, and has its
//! answer then.

use super::row_holds;
use super::streams::{STREAMS, Stream, text_of};
use access_unit::{Refused, StreamRefused, Unit, read_shared, read_stream, read_unit};
use annexb::{Nal, SplitFault, split};
use bytes::Bytes;
use std::alloc::{AllocGlobal, Global};
use std::thread::Threads;

/// Splits a text.
fn split_again<'a>(alloc: Global, text: &'a [u8]) -> Result<Vec<Nal<'a>>, SplitFault> {
    match split(alloc, text) {
        Err(SplitFault::Memory) => split(alloc, text),
        answer => answer,
    }
}

/// The NAL units have these first bytes and lengths.
fn are_nals(nals: &[Nal<'_>], wanted: &[(u8, usize)]) -> bool {
    for (nal, (first, length)) in nals.iter().zip(wanted) {
        if nal.bytes().len() != *length || nal.bytes().first() != Some(first) {
            return false;
        }
    }
    nals.len() == wanted.len()
}

/// The stream's text, for which there may be no memory, splits into its NAL units.
fn splits(alloc: Global, stream: &Stream) -> bool {
    let Ok(text) = text_of(alloc, stream) else {
        return true;
    };
    match split_again(alloc, text.as_slice()) {
        Ok(nals) => are_nals(&nals, stream.nals),
        Err(_) => false,
    }
}

#[test]
fn refused_growth_of_split(rt: HostRuntime) {
    for (row, stream) in STREAMS.iter().enumerate() {
        row_holds(&rt, row, splits(rt.alloc(), stream));
    }
}

/// Reads a unit.
fn read_again(alloc: Global, text: &[u8]) -> Result<Unit, Refused> {
    match read_unit(alloc, text) {
        Err(Refused::Memory) => read_unit(alloc, text),
        answer => answer,
    }
}

/// Reads a unit that shares its text.
fn read_shared_again(alloc: Global, text: &Bytes) -> Result<Unit, Refused> {
    match read_shared(alloc, text) {
        Err(Refused::Memory) => read_shared(alloc, text),
        answer => answer,
    }
}

/// The unit was read, and has so many NAL units, parameter sets and slices.
fn has_parts(read: &Result<Unit, Refused>, wanted: (usize, usize, usize)) -> bool {
    match read {
        Ok(unit) => parts_of(unit) == wanted,
        Err(_) => false,
    }
}

/// How many NAL units, parameter sets and slices the unit has.
fn parts_of(unit: &Unit) -> (usize, usize, usize) {
    (unit.nals().len(), unit.sets().len(), unit.slices().len())
}

/// Each unit of the stream is read, by its text and by a share of it.
fn reads_units(alloc: Global, stream: &Stream) -> bool {
    for (text, parts) in stream.texts.iter().zip(stream.parts) {
        let shared = Bytes::from_static(*text);
        if !has_parts(&read_again(alloc, *text), *parts)
            || !has_parts(&read_shared_again(alloc, &shared), *parts)
        {
            return false;
        }
    }
    true
}

#[test]
fn refused_growth_of_read_unit(rt: HostRuntime) {
    for (row, stream) in STREAMS.iter().enumerate() {
        row_holds(&rt, row, reads_units(rt.alloc(), stream));
    }
}

/// Reads a stream.
fn read_stream_again(
    rt: &(impl Threads + Sync),
    alloc: Global,
    text: &[u8],
) -> Result<Vec<Unit>, StreamRefused> {
    match read_stream(rt, alloc, text) {
        Err(StreamRefused::Memory) => read_stream(rt, alloc, text),
        answer => answer,
    }
}

/// The units have so many NAL units, parameter sets and slices.
fn have_parts(units: &[Unit], wanted: &[(usize, usize, usize)]) -> bool {
    for (unit, parts) in units.iter().zip(wanted) {
        if parts_of(unit) != *parts {
            return false;
        }
    }
    units.len() == wanted.len()
}

/// The stream's text, for which there may be no memory, is read into its units.
fn reads_stream(rt: &(impl AllocGlobal + Threads + Sync), stream: &Stream) -> bool {
    let Ok(text) = text_of(rt.alloc(), stream) else {
        return true;
    };
    match read_stream_again(rt, rt.alloc(), text.as_slice()) {
        Ok(units) => have_parts(&units, stream.parts),
        Err(_) => false,
    }
}

#[test]
fn refused_growth_of_read_stream(rt: HostRuntime) {
    for (row, stream) in STREAMS.iter().enumerate() {
        row_holds(&rt, row, reads_stream(&rt, stream));
    }
}
