//! Weights of explicit weighted prediction (7.3.3.2, 7.4.3.2).

ghost use Rattle.std.specs.Prelude.{◌≡◌, List, [], ◌∷◌, ◌++◌, OnOk, OnErr};
ghost use Rattle.h264_types.specs.declared.slice_headers.pred_weight_table.PredWeight.{PredWeight};

use smallvec::SmallVec;
use std::alloc::{AllocError, Global};
use std::marker::Model;

/// The weights and offsets of one entry of a list. An absent weight is 2 to the power of its
/// denominator, an absent offset 0.
#[derive(Clone, Copy, Debug, PartialEq, Eq, Hash, Default, Drop)]
pub struct PredWeight {
    pub luma_weight: i16,
    pub luma_offset: i8,
    pub cb_weight: i16,
    pub cb_offset: i8,
    pub cr_weight: i16,
    pub cr_offset: i8,
}

/// The weights of a list, one for each active entry; none where there is no such list.
#[derive(Debug, Drop)]
pub struct PredWeights {
    weights: SmallVec<PredWeight, 2>,
}

impl Model for PredWeights {
    ghost Value = { List PredWeight };

    ghost view = { λ list. list.weights.items };
}

impl PredWeights {
    /// No weights.
    pub fn new(alloc: Global) -> PredWeights
        ensures { result ≡ [] }
    {
        PredWeights {
            weights: SmallVec::new(alloc),
        }
    }

    /// One entry more, after the others.
    pub fn push(&mut self, weight: PredWeight) -> Result<(), AllocError>
        ensures ok { OnOk result (self.new ≡ self.old ++ weight ∷ []) }
        ensures err { OnErr result (self.new ≡ self.old) }
    {
        self.weights.push(weight)?;
        Ok(())
    }

    /// The weights, in the order of the list.
    pub fn as_slice(&self) -> &[PredWeight]
        ensures { result.now ≡ self.now }
    {
        self.weights.as_slice()
    }
}

/// The table of weights: the denominators as powers of 2, and the weights of both lists.
#[derive(Debug)]
pub struct PredWeightTable {
    pub luma_log2_weight_denom: u8,
    /// 0 where there is no chroma.
    pub chroma_log2_weight_denom: u8,
    pub weights_l0: PredWeights,
    pub weights_l1: PredWeights,
}

// By hand, so that whoever drops one is proved over one call.
impl Drop for PredWeightTable {
    fn drop(self) {
        let PredWeightTable {
            luma_log2_weight_denom: _,
            chroma_log2_weight_denom: _,
            weights_l0: _,
            weights_l1: _,
        } = self;
    }
}
