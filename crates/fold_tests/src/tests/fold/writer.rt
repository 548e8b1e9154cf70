//! A writer of streams that no encoder makes.

use std::alloc::{AllocError, Global};
use test_builders::BitWriter;

/// pic_order_cnt_type, with what a header has of it: pic_order_cnt_lsb of four bits and
/// delta_pic_order_cnt_bottom; both values of delta_pic_order_cnt; nothing.
#[derive(Clone, Copy, Debug)]
pub(super) enum Order {
    Zero(u64, i32),
    One(i32, i32),
    Two,
}

/// A slice; its numbers have their names in the standard.
#[derive(Clone, Copy, Debug)]
pub(super) struct Slice {
    /// The unit's first byte.
    pub(super) first: u8,
    pub(super) first_mb: u32,
    pub(super) slice_type: u32,
    pub(super) pps: u32,
    pub(super) frame_num: u64,
    pub(super) order: Order,
    pub(super) redundant: u32,
    /// A command of list 0.
    pub(super) command: Option<(u32, u32)>,
    /// The operations with their operands.
    pub(super) operations: Option<&'static [&'static [u32]]>,
    /// long_term_reference_flag.
    pub(super) long_term: u64,
}

/// A NAL unit.
#[derive(Clone, Copy, Debug)]
pub(super) enum Nal {
    /// A sequence parameter set of this id for 16 macroblocks, frame numbers below 16, with this
    /// count type and max_num_ref_frames. Count type 1 has the offsets 2 and 4, -1 for a picture
    /// that is no reference and 1 for the bottom field.
    Sps(u32, Order, u32),
    /// A picture parameter set of this id for a set of this id.
    Pps(u32, u32),
    Slice(Slice),
    /// These bytes.
    Bytes(&'static [u8]),
}

/// The bytes of NAL units.
#[derive(Drop)]
pub(super) struct Writer {
    alloc: Global,
    text: Vec<u8>,
}

impl Writer {
    pub(super) fn new(alloc: Global) -> Writer {
        Writer {
            alloc,
            text: Vec::new(alloc),
        }
    }

    /// What was written.
    pub(super) fn text(&self) -> &[u8] {
        self.text.as_slice()
    }

    /// One NAL unit more, after a start code.
    pub(super) fn put(&mut self, nal: &Nal) -> Result<(), AllocError> {
        let mut bits = BitWriter::new(self.alloc);
        match nal {
            Nal::Sps(id, order, frames) => {
                put_sps(&mut bits, *id, *order, *frames)?;
                self.end(0x67, bits)
            }
            Nal::Pps(id, sps) => {
                put_pps(&mut bits, *id, *sps)?;
                self.end(0x68, bits)
            }
            Nal::Slice(slice) => {
                put_slice(&mut bits, slice)?;
                self.end(slice.first, bits)
            }
            Nal::Bytes(bytes) => {
                self.text.extend_from_slice(&[0, 0, 1])?;
                self.text.extend_from_slice(*bytes)
            }
        }
    }

    /// The unit with this first byte and these bits after it.
    fn end(&mut self, first: u8, bits: BitWriter) -> Result<(), AllocError> {
        let mut bits = bits;
        bits.stop()?;
        let unit = bits.unit(self.alloc, first, bits.count())?;
        self.text.extend_from_slice(&unit)
    }
}

fn put_sps(bits: &mut BitWriter, id: u32, order: Order, frames: u32) -> Result<(), AllocError> {
    for byte in [77, 0, 10] {
        bits.u(8, byte)?;
    }
    bits.ue(u64::from(id))?;
    bits.ue(0)?;
    put_count_type(bits, order)?;
    bits.ue(u64::from(frames))?;
    bits.u(1, 0)?;
    bits.ue(3)?;
    bits.ue(3)?;
    bits.u(3, 0b110)
}

fn put_count_type(bits: &mut BitWriter, order: Order) -> Result<(), AllocError> {
    match order {
        Order::Zero(_, _) => {
            bits.ue(0)?;
            bits.ue(0)
        }
        Order::One(_, _) => {
            bits.ue(1)?;
            bits.u(1, 0)?;
            bits.se(-1)?;
            bits.se(1)?;
            bits.ue(2)?;
            bits.se(2)?;
            bits.se(4)
        }
        Order::Two => bits.ue(2),
    }
}

/// With delta_pic_order_cnt_bottom and redundant_pic_cnt.
fn put_pps(bits: &mut BitWriter, id: u32, sps: u32) -> Result<(), AllocError> {
    bits.ue(u64::from(id))?;
    bits.ue(u64::from(sps))?;
    bits.u(2, 0b01)?;
    for _ in 0..3 {
        bits.ue(0)?;
    }
    bits.u(3, 0)?;
    for _ in 0..3 {
        bits.se(0)?;
    }
    bits.u(3, 0b001)
}

fn put_slice(bits: &mut BitWriter, slice: &Slice) -> Result<(), AllocError> {
    bits.ue(u64::from(slice.first_mb))?;
    bits.ue(u64::from(slice.slice_type))?;
    bits.ue(u64::from(slice.pps))?;
    bits.u(4, slice.frame_num)?;
    let is_idr = slice.first % 32 == 5;
    if is_idr {
        bits.ue(0)?;
    }
    put_order(bits, slice.order)?;
    bits.ue(u64::from(slice.redundant))?;
    put_lists(bits, slice)?;
    if slice.first >= 32 {
        if is_idr {
            bits.u(2, slice.long_term)?;
        } else {
            put_operations(bits, slice.operations)?;
        }
    }
    bits.se(0)
}

fn put_order(bits: &mut BitWriter, order: Order) -> Result<(), AllocError> {
    match order {
        Order::Zero(lsb, bottom) => {
            bits.u(4, lsb)?;
            bits.se(bottom)
        }
        Order::One(delta_0, delta_1) => {
            bits.se(delta_0)?;
            bits.se(delta_1)
        }
        Order::Two => Ok(()),
    }
}

/// One entry in each list, and no command in list 1.
fn put_lists(bits: &mut BitWriter, slice: &Slice) -> Result<(), AllocError> {
    match slice.slice_type % 5 {
        0 => bits.u(1, 0)?,
        1 => bits.u(2, 0)?,
        _ => return Ok(()),
    }
    match slice.command {
        Some((code, operand)) => {
            bits.u(1, 1)?;
            bits.ue(u64::from(code))?;
            bits.ue(u64::from(operand))?;
            bits.ue(3)?;
        }
        None => bits.u(1, 0)?,
    }
    if slice.slice_type % 5 == 1 {
        bits.u(1, 0)?;
    }
    Ok(())
}

fn put_operations(bits: &mut BitWriter, operations: Option<&[&[u32]]>) -> Result<(), AllocError> {
    let Some(operations) = operations else {
        return bits.u(1, 0);
    };
    bits.u(1, 1)?;
    for operation in operations {
        for code in *operation {
            bits.ue(u64::from(*code))?;
        }
    }
    bits.ue(0)
}
