//! Surfaces of a host whose decoder nothing is known of, by their handles.

mod surface;

pub use surface::Surface;
