//! The pictures of a decoder.

ghost use Rattle.std.specs.Prelude.{◌≡◌};
ghost use Rattle.std.specs.Bool.{Decides};

/// A decoder's pictures: digests, handles of surfaces. A picture is copied freely.
pub trait Decoded: Copy + Drop {
    ghost use Rattle.decode_jobs.specs.Inputs.{InputValue};
    ghost use Rattle.decode_jobs.specs.Keys.{Key};
    ghost use Rattle.decode_jobs.specs.Made.{IsClosed};
    ghost use Rattle.std.specs.Prelude.{Bool};

    // The decoder made the picture of the input.
    ghost IsDecoded: { InputValue Self → Self → Type 0 };

    // The picture is one of the key.
    ghost IsOf: { Key → Self → Type 0 };

    // The host has each picture back that it landed.
    ghost GoesBack: { Bool };

    /// Whether the host has each picture back that it landed, as it has surfaces for few. Else one
    /// that isn't needed any more is forgotten.
    fn goes_back() -> bool
        ensures { result ≡ GoesBack };

    /// Whether both are the same picture.
    fn is_same(&self, other: &Self) -> bool
        ensures { Decides result (self.now ≡ other.now) };

    // What the decoder makes of pictures of the keys at a key's entries is a picture of the key.
    ghost closed: { IsClosed IsDecoded IsOf };
}
