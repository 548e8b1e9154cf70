//! The work that is done on a slice, and what a run answers.

ghost use Rattle.std.specs.Prelude.{OnOk};
ghost use Rattle.stand_in_device.specs.Given.{Given, given};

use std::alloc::AllocError;

/// Where a slice goes.
#[derive(Clone, Copy, Debug, PartialEq, Eq)]
pub struct Target {
    /// Which CAPTURE buffer it is.
    pub capture: usize,
    /// Whether the buffer's frame begins with this slice.
    pub begins: bool,
}

/// What a run did.
#[derive(Clone, Copy, Debug, PartialEq, Eq)]
pub enum RunOne {
    /// A slice was worked on.
    Ran,
    /// A CAPTURE buffer that was held for another frame is done now, and no other is queued.
    Released,
}

/// What decodes on slices.
pub trait SliceDecoder<C> {
    /// How the work on a slice that is given changes what does it.
    ghost decodes: { Self → Given C → Self → Type 0 };

    /// Works on a slice of the frame with this timestamp in nanoseconds.
    fn slice(
        &mut self,
        controls: &C,
        bytes: &[u8],
        timestamp: u64,
        target: Target,
    ) -> Result<(), AllocError>
        ensures { OnOk result
            (decodes self.old (given controls.now bytes.now timestamp target) self.new) };
}
