//! Sizes after cropping, of sets that were coded by hand from 7.3.2.1.1 and 9.1.

use super::row_holds;
use param_sets::cropping::{Size, cropped_size};
use param_sets::{SetFault, read_sps};
use std::alloc::Global;
use std::test::Fail;

/// A NAL unit's payload, and the width and height after cropping.
type Cropped = (&'static [u8], u32, u32);

const SETS: [Cropped; 7] = [
    // One macroblock, not cropped.
    (&[0x67, 0x42, 0x00, 0x0A, 0xDA, 0x79], 16, 16),
    // The same in 4:2:0 with offsets 1, 0, 2 and 0.
    (&[0x67, 0x42, 0x00, 0x0A, 0xDA, 0x7D, 0x5D], 14, 12),
    // 120 times 68 macroblocks, pic_order_cnt_type 0, with offsets 0, 0, 0 and 4.
    (
        &[
            0x67, 0x42, 0x00, 0x0A, 0xED, 0x00, 0xF0, 0x04, 0x4F, 0xCA, 0x80,
        ],
        1920,
        1080,
    ),
    // 2 times 2 in 4:2:2, with lists of 1, 16 and 2 deltas, pic_order_cnt_type 1 with a cycle of 2,
    // and offsets 1, 2, 3 and 4.
    (
        &[
            0x67, 0x7A, 0x00, 0x0A, 0xB6, 0xD8, 0x46, 0x92, 0x49, 0x24, 0x92, 0x49, 0x22, 0x02,
            0x60, 0xBD, 0x19, 0x19, 0x84, 0xA2, 0x5D, 0x32, 0x15,
        ],
        26,
        25,
    ),
    // 2 times 2, monochrome, with the same offsets.
    (
        &[0x67, 0x64, 0x00, 0x0A, 0xF2, 0xD1, 0x2E, 0x99, 0x0A, 0x80],
        29,
        25,
    ),
    // Offsets that are more than the frame.
    (&[0x67, 0x42, 0x00, 0x0A, 0xDA, 0x7C, 0x56, 0x29], 0, 0),
    // The second set without its last byte, which ends within an offset.
    (&[0x67, 0x42, 0x00, 0x0A, 0xDA, 0x7D], 16, 16),
];

/// Whether the row's set has its size after cropping.
fn size_holds(alloc: Global, row: &Cropped) -> Result<bool, SetFault> {
    let sps = read_sps(alloc, row.0)?;
    let Ok(size) = cropped_size(alloc, row.0, &sps) else {
        return Err(SetFault::Memory);
    };
    Ok(
        size == Size {
            width: row.1,
            height: row.2,
        },
    )
}

#[test]
fn sizes_are_cropped(rt: HostRuntime) -> Result<(), Fail> {
    for (row, set) in SETS.iter().enumerate() {
        row_holds(&rt, row, size_holds(rt.alloc(), set) == Ok(true));
    }
    Ok(())
}
