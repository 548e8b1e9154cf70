//! The request of a whole picture, for decoders that take pictures and not slices
//! (V4L2_STATELESS_H264_DECODE_MODE_FRAME_BASED).
//!
//! It is made of the requests of the picture's slices: `FrameRequest` shares what the first of them
//! has, with the flags of all, and `frame_bytes` joins their bytes. `layouts` has the kernel's
//! structs of all controls. Below is h264_controls; above are c_calls and unit_printing.
#![tactic(auto)]

mod flags;
mod joining;
pub mod layouts;
mod request;

pub use flags::FrameFlags;
pub use joining::{StartCode, frame_bytes, frame_size};
pub use request::FrameRequest;
