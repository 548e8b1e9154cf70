//! NAL units that own their bytes (7.3.1, B.1.1).
ghost use Rattle.std.specs.Prelude.{◌≡◌, ◌++◌, drop, IfOk};
ghost use Rattle.annexb.specs.ByteStream.{start_code};
ghost use Rattle.access_unit.specs.Coded.{IsCoded};

use annexb::Nal;
use bytes::Bytes;
use std::alloc::AllocError;
use std::marker::Model;

/// A NAL unit and the start code before it, in bytes that several owners share. Clauses see the
/// bytes of the NAL unit.
#[derive(Debug, Drop)]
pub struct SharedNal {
    coded: Bytes,
}

impl Model for SharedNal {
    ghost use Rattle.std.specs.Prelude.{ℕ, List, drop};
    ghost use Rattle.access_unit.specs.Coded.{IsCoded};

    ghost Value = { List ℕ };

    ghost view = { λ nal. drop 3 nal.coded };

    ghost invariant = { λ nal. IsCoded nal.coded };
}

impl SharedNal {
    /// The NAL unit after the start code that these bytes begin with.
    pub(crate) fn new(coded: Bytes) -> SharedNal
        requires { IsCoded coded }
        ensures { result ≡ drop 3 coded }
    {
        SharedNal { coded }
    }

    /// The NAL unit.
    pub fn nal(&self) -> Nal<'_>
        ensures { result ≡ self.now }
    {
        Nal::new(self.coded.as_slice().split_at(3).1)
    }

    /// The bytes 00 00 01 and the NAL unit, with one owner more.
    pub fn coded(&self) -> Result<Bytes, AllocError>
        ensures { IfOk result (λ bytes. bytes ≡ start_code ++ self.now) }
    {
        self.coded.clone()
    }
}

impl Clone for SharedNal {
    ghost is_clone = { λ nal copy. copy ≡ nal };

    /// One owner more.
    fn clone(&self) -> Result<SharedNal, AllocError> {
        Ok(SharedNal {
            coded: self.coded.clone()?,
        })
    }
}
