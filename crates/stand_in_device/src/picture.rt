//! Pictures.

use decode_jobs::Decoded;

/// The picture of the stand-in device: a SHA-256 (FIPS 180-4) of 32 bytes.
#[derive(Clone, Copy, Debug, PartialEq, Eq, Hash, Drop)]
pub struct Picture {
    pub digest: [u8; 32],
}

impl Decoded for Picture {
    ghost use Rattle.std.specs.Prelude.{false};
    ghost use Rattle.stand_in_device.specs.KeyPictures.{IsMade, IsPicture};
    ghost use Rattle.stand_in_device.specs.Pictured.{picture_closed};

    ghost IsDecoded = { IsMade };

    ghost IsOf = { IsPicture };

    ghost closed = { picture_closed };

    ghost GoesBack = { false };

    fn goes_back() -> bool {
        false
    }

    fn is_same(&self, other: &Picture) -> bool {
        self.digest == other.digest
    }
}
