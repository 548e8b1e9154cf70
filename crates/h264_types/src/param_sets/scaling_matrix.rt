//! The scaling lists of a picture (7.4.2.1.1, 7.4.2.2), in raster order (8.5.6).

ghost use Rattle.std.specs.Prelude.{◌≡◌, true, map, nat_lt, slice_index};
ghost use Rattle.std.specs.List.{list_all, range_with_len};
ghost use Rattle.h264_types.specs.InverseScan.{raster};
ghost use Rattle.h264_types.specs.ScalingMatrix.{scaling_matrix};

use crate::param_sets::fall_back::{Prediction, picture_lists};
use crate::param_sets::{Pps, Sps};

/// The scaling lists of a picture, each a block in raster order: its rows, from left to right.
///
/// Formats other than 4:4:4 have no lists for 8x8 blocks of chroma.
#[derive(Clone, Copy, Debug, PartialEq, Eq, Drop)]
pub struct ScalingMatrix {
    /// Intra Y, Cb and Cr, then inter Y, Cb and Cr.
    pub lists_4x4: [[u8; 16]; 6],
    /// Intra Y and inter Y.
    pub lists_8x8: [[u8; 64]; 2],
}

/// The number of the entry at each place of a 4x4 block, by the zig-zag scan.
const ENTRY_NUMBERS_4X4: [u8; 16] = [0, 1, 5, 6, 2, 4, 7, 12, 3, 8, 11, 13, 9, 10, 14, 15];

/// The number of the entry at each place of an 8x8 block.
const ENTRY_NUMBERS_8X8: [u8; 64] = [
    0, 1, 5, 6, 14, 15, 27, 28, //
    2, 4, 7, 13, 16, 26, 29, 42, //
    3, 8, 12, 17, 25, 30, 41, 43, //
    9, 11, 18, 24, 31, 40, 44, 53, //
    10, 19, 23, 32, 39, 45, 52, 54, //
    20, 22, 33, 38, 46, 51, 55, 60, //
    21, 34, 37, 47, 50, 56, 59, 61, //
    35, 36, 48, 49, 57, 58, 62, 63,
];

/// The scaling lists that a picture with these sets uses.
///
/// Flat_4x4_16 and Flat_8x8_16 where neither set has lists. Lists of 8x8 blocks that a picture
/// parameter set doesn't send are those of the sequence parameter set.
pub fn resolve_matrix(sps: &Sps, pps: &Pps) -> ScalingMatrix
    ensures { result ≡ scaling_matrix sps.now pps.now }
{
    let intra = picture_lists(sps, pps, Prediction::Intra);
    let inter = picture_lists(sps, pps, Prediction::Inter);
    ScalingMatrix {
        lists_4x4: [
            block_4x4(&intra.y),
            block_4x4(&intra.cb),
            block_4x4(&intra.cr),
            block_4x4(&inter.y),
            block_4x4(&inter.cb),
            block_4x4(&inter.cr),
        ],
        lists_8x8: [block_8x8(&intra.y_8x8), block_8x8(&inter.y_8x8)],
    }
}

/// A list as a 4x4 block in raster order.
fn block_4x4(list: &[u8; 16]) -> [u8; 16]
    ensures { result ≡ raster 4 list.now }
{
    in_raster_order(list, &ENTRY_NUMBERS_4X4)
}

/// A list as an 8x8 block in raster order.
fn block_8x8(list: &[u8; 64]) -> [u8; 64]
    ensures { result ≡ raster 8 list.now }
{
    in_raster_order(list, &ENTRY_NUMBERS_8X8)
}

/// A list as a block, by the number of the entry at each place.
fn in_raster_order<const N: usize>(list: &[u8; N], entry_numbers: &[u8; N]) -> [u8; N]
    requires { list_all (λ number. nat_lt number N) entry_numbers.now ≡ true }
    ensures { result
        ≡ map (λ place. slice_index list.now (slice_index entry_numbers.now place))
        (range_with_len 0 N) }
{
    let mut block = [0; N];
    for (place, number) in entry_numbers.iter().enumerate() {
        block[place] = list[usize::from(*number)];
    }
    block
}
