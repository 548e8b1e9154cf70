//! What lists that weren't sent fall back to (7.4.2.1.1, Table 7-2).

ghost use Rattle.std.specs.Prelude.{◌≡◌, ℕ, ◌+◌, List, slice_get};
ghost use Rattle.h264_types.specs.DefaultScalingLists.{default_list};
ghost use Rattle.h264_types.specs.ScalingMatrix.{flat_list, list_sent, list_in, sequence_list, picture_list};
ghost use Rattle.h264_types.specs.FallBack.{first_4x4, number_8x8, lists_of};

use crate::param_sets::scaling_entries::{entries, use_default};
use crate::param_sets::{Pps, ScalingLists, Sps};

/// Of which macroblocks a list is.
#[derive(Clone, Copy)]
pub enum Prediction {
    Intra,
    Inter,
}

/// The lists of one kind of macroblocks, each in the order of its entries.
#[derive(Clone, Copy)]
pub struct Lists {
    pub y: [u8; 16],
    pub cb: [u8; 16],
    pub cr: [u8; 16],
    pub y_8x8: [u8; 64],
}

/// Flat_4x4_16 and Flat_8x8_16.
const FLAT: Lists = Lists {
    y: [16; 16],
    cb: [16; 16],
    cr: [16; 16],
    y_8x8: [16; 64],
};

/// Default_4x4_Intra (Table 7-3).
const DEFAULT_4X4_INTRA: [u8; 16] = [
    6, 13, 13, 20, 20, 20, 28, 28, 28, 28, 32, 32, 32, 37, 37, 42,
];

/// Default_4x4_Inter (Table 7-3).
const DEFAULT_4X4_INTER: [u8; 16] = [
    10, 14, 14, 20, 20, 20, 24, 24, 24, 24, 27, 27, 27, 30, 30, 34,
];

/// Default_8x8_Intra (Table 7-4).
const DEFAULT_8X8_INTRA: [u8; 64] = [
    6, 10, 10, 13, 11, 13, 16, 16, 16, 16, 18, 18, 18, 18, 18, 23, //
    23, 23, 23, 23, 23, 25, 25, 25, 25, 25, 25, 25, 27, 27, 27, 27, //
    27, 27, 27, 27, 29, 29, 29, 29, 29, 29, 29, 31, 31, 31, 31, 31, //
    31, 33, 33, 33, 33, 33, 36, 36, 36, 36, 38, 38, 38, 40, 40, 42,
];

/// Default_8x8_Inter (Table 7-4).
const DEFAULT_8X8_INTER: [u8; 64] = [
    9, 13, 13, 15, 13, 15, 17, 17, 17, 17, 19, 19, 19, 19, 19, 21, //
    21, 21, 21, 21, 21, 22, 22, 22, 22, 22, 22, 22, 24, 24, 24, 24, //
    24, 24, 24, 24, 25, 25, 25, 25, 25, 25, 25, 27, 27, 27, 27, 27, //
    27, 28, 28, 28, 28, 28, 30, 30, 30, 30, 32, 32, 32, 33, 33, 35,
];

/// The default lists of intra macroblocks.
const DEFAULT_INTRA: Lists = Lists {
    y: DEFAULT_4X4_INTRA,
    cb: DEFAULT_4X4_INTRA,
    cr: DEFAULT_4X4_INTRA,
    y_8x8: DEFAULT_8X8_INTRA,
};

/// The default lists of inter macroblocks.
const DEFAULT_INTER: Lists = Lists {
    y: DEFAULT_4X4_INTER,
    cb: DEFAULT_4X4_INTER,
    cr: DEFAULT_4X4_INTER,
    y_8x8: DEFAULT_8X8_INTER,
};

impl Prediction {
    // The number of the first 4x4 list.
    fn first_4x4(self) -> usize
        ensures { result ≡ first_4x4 self }
    {
        match self {
            Prediction::Intra => 0,
            Prediction::Inter => 3,
        }
    }

    // The number of the 8x8 list.
    fn number_8x8(self) -> usize
        ensures { result ≡ number_8x8 self }
    {
        match self {
            Prediction::Intra => 6,
            Prediction::Inter => 7,
        }
    }

    // The default lists.
    fn default_lists(self) -> Lists
        ensures { result ≡ lists_of default_list self }
    {
        match self {
            Prediction::Intra => DEFAULT_INTRA,
            Prediction::Inter => DEFAULT_INTER,
        }
    }
}

/// The lists of a picture parameter set over a sequence parameter set.
pub fn picture_lists(sps: &Sps, pps: &Pps, prediction: Prediction) -> Lists
    ensures { result ≡ lists_of (picture_list sps.now pps.now) prediction }
{
    let sequence = sequence_lists(sps, prediction);
    if !pps.pic_scaling_matrix_present_flag {
        return sequence;
    }
    let rule = if sps.seq_scaling_matrix_present_flag {
        sequence
    } else {
        prediction.default_lists()
    };
    lists_in(&pps.scaling_lists, prediction, &rule, &sequence)
}

// The lists of a sequence parameter set.
fn sequence_lists(sps: &Sps, prediction: Prediction) -> Lists
    ensures { result ≡ lists_of (sequence_list sps.now) prediction }
{
    if sps.seq_scaling_matrix_present_flag {
        let rule = prediction.default_lists();
        lists_in(&sps.scaling_lists, prediction, &rule, &FLAT)
    } else {
        FLAT
    }
}

// The lists of a set that has some, by what the rule says and by what stands for lists that it
// doesn't send.
fn lists_in(lists: &ScalingLists, prediction: Prediction, rule: &Lists, unsent: &Lists) -> Lists
    ensures { (r u : ℕ → List ℕ) → rule.now ≡ lists_of r prediction
        → unsent.now ≡ lists_of u prediction
        → result ≡ lists_of (list_in r u lists.now) prediction }
{
    let default = prediction.default_lists();
    let first = prediction.first_4x4();
    let y = list_sent(lists, first, &default.y, &rule.y, &unsent.y);
    let cb = list_sent(lists, first + 1, &default.cb, &y, &unsent.cb);
    let cr = list_sent(lists, first + 2, &default.cr, &cb, &unsent.cr);
    let number = prediction.number_8x8();
    let y_8x8 = list_sent(lists, number, &default.y_8x8, &rule.y_8x8, &unsent.y_8x8);
    Lists { y, cb, cr, y_8x8 }
}

// List number j of a set that has some.
fn list_sent<const N: usize>(
    lists: &ScalingLists,
    j: usize,
    default: &[u8; N],
    fallback: &[u8; N],
    unsent: &[u8; N],
) -> [u8; N]
    ensures { result ≡ list_sent N default.now fallback.now unsent.now (slice_get lists.now j) }
{
    match lists.as_slice().get(j) {
        None => *unsent,
        Some(None) => *fallback,
        Some(Some(list)) if use_default(list.deltas()) => *default,
        Some(Some(list)) => entries(list.deltas()),
    }
}
