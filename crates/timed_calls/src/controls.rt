//! The kernel's structs of a request.

use frame_requests::layouts::{
    DecodeParamsLayout, PpsLayout, ScalingMatrixLayout, SliceParamsLayout, SpsLayout,
};
use h264_controls::Request;

/// The controls of a request as the kernel's structs, but for the weights.
#[derive(Clone, Copy)]
struct KernelControls {
    pps: PpsLayout,
    sps: SpsLayout,
    scaling_matrix: ScalingMatrixLayout,
    slice_params: SliceParamsLayout,
    decode_params: DecodeParamsLayout,
}

impl KernelControls {
    /// Those of a request. It is inlined nowhere, as a call through C isn't, so that all of them
    /// are filled.
    #[inline(never)]
    fn of(request: &Request) -> KernelControls {
        let controls = request.controls();
        KernelControls {
            pps: PpsLayout::of(&controls.sets.pps),
            sps: SpsLayout::of(&controls.sets.sps),
            scaling_matrix: ScalingMatrixLayout::of(&controls.sets.scaling_matrix),
            slice_params: SliceParamsLayout::of(&controls.slice_params),
            decode_params: DecodeParamsLayout::of(&controls.decode_params, &request.references),
        }
    }
}

/// Fills the structs from the first of these requests; whether there is one, whose header has bits.
pub(crate) fn fills_first(requests: &[Request]) -> bool {
    match requests.first() {
        Some(request) => KernelControls::of(request).slice_params.header_bit_size > 0,
        None => false,
    }
}
