//! The controls of a stateless H.264 decoder, as the media documentation of the Linux kernel has
//! them.
//!
//! A control is a struct under its Linux name, with the members that Linux gives it and a function
//! `of` that fills it from the parsed sets, the slice header, the lists and the state before the
//! picture's marking. A `RequestBody` has the six controls of a slice and the slice's bytes; a `Request`
//! shares it, and says when it stands and which units its references are. `digest_form` writes
//! controls as the bytes of which a picture's digest is made.
#![tactic(auto)]

mod controls;
mod digest;
mod dpb;
mod few;
mod ref_pic_list;
mod references;
mod request;
mod v4l2_ctrl_h264_decode_params;
mod v4l2_ctrl_h264_pred_weights;
mod v4l2_ctrl_h264_slice_params;

pub use controls::Controls;
pub use digest::{digest_form, digest_in_two_parts, slice_form};
pub use dpb::Dpb;
pub use param_set_controls::{
    PpsFlags, SetControls, SpsFlags, V4l2CtrlH264Pps, V4l2CtrlH264ScalingMatrix, V4l2CtrlH264Sps,
    sets_form,
};
pub use ref_pic_list::RefPicList;
pub use references::References;
pub use request::{Request, RequestBody};
pub use v4l2_ctrl_h264_decode_params::{
    DecodeFlags, DpbEntryFlags, V4l2CtrlH264DecodeParams, V4l2H264DpbEntry, V4l2H264FieldReference,
};
pub use v4l2_ctrl_h264_pred_weights::{V4l2CtrlH264PredWeights, V4l2H264WeightFactors};
pub use v4l2_ctrl_h264_slice_params::{SliceFlags, V4l2CtrlH264SliceParams};
