//! V4L2_CID_STATELESS_H264_SCALING_MATRIX.

ghost use Rattle.std.specs.Prelude.{◌≡◌, ◌↔◌, ◌+◌, ◌*◌, ◌≤◌, ◌++◌, length, vec_len, IsTrue};
ghost use Rattle.std.specs.Vec.{vec_capacity};
ghost use Rattle.param_set_controls.specs.ScalingMatrixForm.{lists_form, scaling_matrix_form};
ghost use Rattle.param_set_controls.specs.ScalingMatrixControl.{scaling_matrix_control};

use crate::words::put;
use h264_types::param_sets::{Pps, Sps, resolve_matrix};

/// struct v4l2_ctrl_h264_scaling_matrix: the scaling lists of the picture, each a block in raster
/// order.
///
/// It belongs to each request, flat lists included.
#[derive(Debug, Drop)]
pub struct V4l2CtrlH264ScalingMatrix {
    /// Intra Y, Cb and Cr, then inter Y, Cb and Cr.
    pub scaling_list_4x4: [[u8; 16]; 6],
    /// Intra Y, inter Y, intra Cb, inter Cb, intra Cr and inter Cr; those of chroma are flat.
    pub scaling_list_8x8: [[u8; 64]; 6],
}

impl V4l2CtrlH264ScalingMatrix {
    /// Whether all lists are the same.
    pub fn is_same(&self, other: &V4l2CtrlH264ScalingMatrix) -> bool
        ensures { IsTrue result ↔ (self.now ≡ other.now) }
    {
        same_lists_4x4(&self.scaling_list_4x4, &other.scaling_list_4x4)
            && same_lists_8x8(&self.scaling_list_8x8, &other.scaling_list_8x8)
    }

    /// Its digest form goes after the form.
    #[tactic(auto, unfolding(crate::specs::ScalingMatrixForm::scaling_matrix_form))]
    pub(crate) fn put(&self, form: &mut Vec<u8>)
        requires { vec_len form.old + 480 ≤ vec_capacity form.old }
        ensures items { form.new.items ≡ form.old.items ++ scaling_matrix_form self.now }
        ensures len { vec_len form.new ≡ vec_len form.old + 480 }
        ensures capacity { vec_capacity form.old ≤ vec_capacity form.new }
    {
        put_lists_4x4(form, &self.scaling_list_4x4);
        put_lists_8x8(form, &self.scaling_list_8x8);
    }
}

fn same_lists_4x4(a: &[[u8; 16]; 6], b: &[[u8; 16]; 6]) -> bool
    ensures { IsTrue result ↔ (a.now ≡ b.now) }
{
    a == b
}

fn same_lists_8x8(a: &[[u8; 64]; 6], b: &[[u8; 64]; 6]) -> bool
    ensures { IsTrue result ↔ (a.now ≡ b.now) }
{
    a == b
}

fn put_lists_4x4(form: &mut Vec<u8>, lists: &[[u8; 16]])
    requires { vec_len form.old + 16 * length lists.now ≤ vec_capacity form.old }
    ensures items { form.new.items ≡ form.old.items ++ lists_form lists.now }
    ensures len { vec_len form.new ≡ vec_len form.old + 16 * length lists.now }
    ensures capacity { vec_capacity form.old ≤ vec_capacity form.new }
{
    for list in lists {
        put(form, list);
    }
}

fn put_lists_8x8(form: &mut Vec<u8>, lists: &[[u8; 64]])
    requires { vec_len form.old + 64 * length lists.now ≤ vec_capacity form.old }
    ensures items { form.new.items ≡ form.old.items ++ lists_form lists.now }
    ensures len { vec_len form.new ≡ vec_len form.old + 64 * length lists.now }
    ensures capacity { vec_capacity form.old ≤ vec_capacity form.new }
{
    for list in lists {
        put(form, list);
    }
}

/// Flat_8x8_16.
const FLAT_8X8_16: [u8; 64] = [16; 64];

impl V4l2CtrlH264ScalingMatrix {
    /// The control of the lists that a picture with these sets uses.
    pub fn of(sps: &Sps, pps: &Pps) -> V4l2CtrlH264ScalingMatrix
        ensures { result ≡ scaling_matrix_control sps.now pps.now }
    {
        let matrix = resolve_matrix(sps, pps);
        let [intra_y, inter_y] = matrix.lists_8x8;
        V4l2CtrlH264ScalingMatrix {
            scaling_list_4x4: matrix.lists_4x4,
            scaling_list_8x8: [
                intra_y,
                inter_y,
                FLAT_8X8_16,
                FLAT_8X8_16,
                FLAT_8X8_16,
                FLAT_8X8_16,
            ],
        }
    }
}
