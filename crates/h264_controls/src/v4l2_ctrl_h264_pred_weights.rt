//! V4L2_CID_STATELESS_H264_PRED_WEIGHTS.

ghost use Rattle.std.specs.Prelude.{◌≡◌, ◌↔◌, ◌+◌, ◌*◌, ◌≤◌, ◌++◌, length, vec_len, IsTrue, ◌<◌};
ghost use Rattle.std.specs.Vec.{vec_capacity};
ghost use Rattle.std.specs.List.{flat_map};
ghost use Rattle.h264_controls.specs.PredWeightsForm.{pairs_form, weight_factors_form, pred_weights_form};
ghost use Rattle.h264_controls.specs.PredWeightsControl.{has_chroma, pred_weights_control, weight_at, weight_factors, with_weight};

use h264_types::param_sets::{ChromaFormat, Sps};
use h264_types::slice_headers::{PredWeight, PredWeightTable};
use param_set_controls::words::{put_s16s, put_u16};

/// struct v4l2_ctrl_h264_pred_weights: the weight table of the slice.
#[derive(Debug, Drop)]
pub struct V4l2CtrlH264PredWeights {
    pub luma_log2_weight_denom: u16,
    /// 0 where there is no chroma.
    pub chroma_log2_weight_denom: u16,
    /// List 0 and list 1.
    pub weight_factors: [V4l2H264WeightFactors; 2],
}

/// struct v4l2_h264_weight_factors: the weights and offsets of a list.
///
/// All is 0 past the active entries, and where there is no such list; chroma where there is none.
#[derive(Debug, PartialEq, Eq, Drop)]
pub struct V4l2H264WeightFactors {
    pub luma_weight: [i16; 32],
    pub luma_offset: [i16; 32],
    /// Cb and Cr of each entry.
    pub chroma_weight: [[i16; 2]; 32],
    pub chroma_offset: [[i16; 2]; 32],
}

impl V4l2CtrlH264PredWeights {
    /// Whether all members are the same.
    pub fn is_same(&self, other: &V4l2CtrlH264PredWeights) -> bool
        ensures { IsTrue result ↔ (self.now ≡ other.now) }
    {
        self.luma_log2_weight_denom == other.luma_log2_weight_denom
            && self.chroma_log2_weight_denom == other.chroma_log2_weight_denom
            && same_factors(&self.weight_factors, &other.weight_factors)
    }

    /// Its digest form goes after the form.
    #[tactic(auto, unfolding(crate::specs::PredWeightsForm::pred_weights_form))]
    pub(crate) fn put(&self, form: &mut Vec<u8>)
        requires { vec_len form.old + 772 ≤ vec_capacity form.old }
        ensures items { form.new.items ≡ form.old.items ++ pred_weights_form self.now }
        ensures len { vec_len form.new ≡ vec_len form.old + 772 }
        ensures capacity { vec_capacity form.old ≤ vec_capacity form.new }
    {
        put_u16(form, self.luma_log2_weight_denom);
        put_u16(form, self.chroma_log2_weight_denom);
        put_lists(form, &self.weight_factors);
    }
}

impl V4l2H264WeightFactors {
    /// Its digest form goes after the form.
    #[tactic(auto, unfolding(crate::specs::PredWeightsForm::weight_factors_form))]
    fn put(&self, form: &mut Vec<u8>)
        requires { vec_len form.old + 384 ≤ vec_capacity form.old }
        ensures items { form.new.items ≡ form.old.items ++ weight_factors_form self.now }
        ensures len { vec_len form.new ≡ vec_len form.old + 384 }
        ensures capacity { vec_capacity form.old ≤ vec_capacity form.new }
    {
        put_s16s(form, &self.luma_weight);
        put_s16s(form, &self.luma_offset);
        put_pairs(form, &self.chroma_weight);
        put_pairs(form, &self.chroma_offset);
    }
}

fn same_factors(a: &[V4l2H264WeightFactors; 2], b: &[V4l2H264WeightFactors; 2]) -> bool
    ensures { IsTrue result ↔ (a.now ≡ b.now) }
{
    a == b
}

fn put_lists(form: &mut Vec<u8>, lists: &[V4l2H264WeightFactors])
    requires { vec_len form.old + 384 * length lists.now ≤ vec_capacity form.old }
    ensures items { form.new.items ≡ form.old.items ++ flat_map weight_factors_form lists.now }
    ensures len { vec_len form.new ≡ vec_len form.old + 384 * length lists.now }
    ensures capacity { vec_capacity form.old ≤ vec_capacity form.new }
{
    for list in lists {
        list.put(form);
    }
}

fn put_pairs(form: &mut Vec<u8>, pairs: &[[i16; 2]])
    requires { vec_len form.old + 4 * length pairs.now ≤ vec_capacity form.old }
    ensures items { form.new.items ≡ form.old.items ++ pairs_form pairs.now }
    ensures len { vec_len form.new ≡ vec_len form.old + 4 * length pairs.now }
    ensures capacity { vec_capacity form.old ≤ vec_capacity form.new }
{
    for pair in pairs {
        put_s16s(form, pair);
    }
}

impl V4l2CtrlH264PredWeights {
    /// The control of this table, of a slice that uses the set.
    pub fn of(sps: &Sps, table: &PredWeightTable) -> V4l2CtrlH264PredWeights
        ensures { result ≡ pred_weights_control sps.now table.now }
    {
        let has_chroma = has_chroma(sps);
        V4l2CtrlH264PredWeights {
            luma_log2_weight_denom: u16::from(table.luma_log2_weight_denom),
            chroma_log2_weight_denom: u16::from(table.chroma_log2_weight_denom),
            weight_factors: [
                weight_factors(has_chroma, table.weights_l0.as_slice()),
                weight_factors(has_chroma, table.weights_l1.as_slice()),
            ],
        }
    }
}

/// Whether pictures have chroma.
fn has_chroma(sps: &Sps) -> bool
    ensures { result ≡ has_chroma sps.now.chroma_format_idc }
{
    sps.chroma_format_idc != ChromaFormat::Monochrome
}

/// The weights of a list.
fn weight_factors(has_chroma: bool, weights: &[PredWeight]) -> V4l2H264WeightFactors
    ensures { result ≡ weight_factors has_chroma weights.now }
{
    let mut factors = V4l2H264WeightFactors {
        luma_weight: [0; 32],
        luma_offset: [0; 32],
        chroma_weight: [[0; 2]; 32],
        chroma_offset: [[0; 2]; 32],
    };
    for place in 0..32 {
        put(&mut factors, place, weight_at(has_chroma, weights, place));
    }
    factors
}

/// Puts the weights of an entry into its place.
fn put(factors: &mut V4l2H264WeightFactors, place: usize, weight: PredWeight)
    requires { place < 32 }
    ensures { factors.new ≡ with_weight place weight factors.old }
{
    factors.luma_weight[place] = weight.luma_weight;
    factors.luma_offset[place] = i16::from(weight.luma_offset);
    factors.chroma_weight[place] = [weight.cb_weight, weight.cr_weight];
    factors.chroma_offset[place] = [i16::from(weight.cb_offset), i16::from(weight.cr_offset)];
}

/// The weights of the entry at a place; zeros past the active entries, and for chroma where there
/// is none.
fn weight_at(has_chroma: bool, weights: &[PredWeight], place: usize) -> PredWeight
    ensures { result ≡ weight_at has_chroma weights.now place }
{
    match weights.get(place) {
        Some(weight) if has_chroma => *weight,
        Some(weight) => PredWeight {
            luma_weight: weight.luma_weight,
            luma_offset: weight.luma_offset,
            ..PredWeight::default()
        },
        None => PredWeight::default(),
    }
}
