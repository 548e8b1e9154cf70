//! The steps by which the scales of a list follow from its deltas (7.3.2.1.1.1).

ghost use Rattle.std.specs.Prelude.{◌≡◌};
ghost use Rattle.h264_types.specs.ScaleSteps.{scale_after};

/// nextScale after a delta.
pub fn scale_after(last: u8, delta: i8) -> u8
    ensures { result ≡ scale_after last delta }
{
    (i32::from(last) + i32::from(delta)).rem_euclid(256) as u8
}
