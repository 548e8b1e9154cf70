//! Codes of headers that no encoder writes.

use h264_types::param_sets::Sps;
use std::alloc::AllocError;
use test_builders::BitWriter;

/// A code of a header.
#[derive(Clone, Copy, Debug)]
pub(super) enum Code {
    /// u(n): the number of bits, and the value.
    U(u32, u64),
    Ue(u32),
    Se(i32),
    /// 32 zeros before the one.
    TooLong,
    /// frame_num, whose bits are all this one.
    FrameNum(bool),
    /// pic_order_cnt_lsb, whose bits are all this one.
    Lsb(bool),
    /// ue(v) of the last number below MaxFrameNum.
    LastFrameNum,
    /// ue(v) of MaxFrameNum.
    MaxFrameNum,
    /// 64 operations 5.
    Operations,
}

/// Writes one code more, with the widths of this set.
pub(super) fn put(writer: &mut BitWriter, sps: &Sps, code: Code) -> Result<(), AllocError> {
    let frame_num = u32::from(sps.log2_max_frame_num_minus4.get()).saturating_add(4);
    let lsb = u32::from(sps.log2_max_pic_order_cnt_lsb_minus4.get()).saturating_add(4);
    let max_frame_num = u64::from(sps.max_frame_num());
    match code {
        Code::U(n, value) => writer.u(n, value),
        Code::Ue(value) => writer.ue(u64::from(value)),
        Code::Se(value) => writer.se(value),
        Code::TooLong => writer.u(33, 1),
        Code::FrameNum(bit) => writer.u(frame_num, repeated(bit)),
        Code::Lsb(bit) => writer.u(lsb, repeated(bit)),
        Code::LastFrameNum => writer.ue(max_frame_num.saturating_sub(1)),
        Code::MaxFrameNum => writer.ue(max_frame_num),
        Code::Operations => operations(writer),
    }
}

fn operations(writer: &mut BitWriter) -> Result<(), AllocError> {
    for _ in 0..64 {
        writer.ue(5)?;
    }
    Ok(())
}

fn repeated(bit: bool) -> u64 {
    if bit { u64::MAX } else { 0 }
}
