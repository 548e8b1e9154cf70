//! Why a text is not read as an access unit.
ghost use Rattle.std.specs.Prelude.{◌≡◌};
ghost use Rattle.access_unit.specs.declared.refused.Refused.TheVariants.{Memory};
ghost use Rattle.access_unit.specs.Names.{name_of};
ghost use Rattle.access_unit.specs.Numbers.{number_of};

use std::alloc::{AllocError, AllocFailed};
use thiserror::Error;

/// Why a text is not an access unit. The first NAL unit that shows a refusal decides, and there the
/// one of least number; TooLarge for the length and Split come before all.
#[derive(Clone, Copy, Debug, PartialEq, Eq, Hash, Error)]
pub enum Refused {
    /// The text doesn't split into NAL units.
    #[error("the text doesn't split into units")]
    Split,
    /// nal_unit_type is 2 to 4, 13 to 15 or 19 to 21.
    #[error("a unit's type isn't read")]
    UnitType,
    /// forbidden_zero_bit is 1.
    #[error("a unit's forbidden_zero_bit is 1")]
    ForbiddenBit,
    /// A sequence parameter set can't be read.
    #[error("a sequence parameter set can't be read")]
    Sps,
    /// A picture parameter set can't be read.
    #[error("a picture parameter set can't be read")]
    Pps,
    /// slice_type can be read and is SP or SI.
    #[error("a slice is of type SP or SI")]
    Switching,
    /// A slice is of an IDR picture and the first one isn't, or the reverse.
    #[error("slices of IDR pictures and of others are mixed")]
    MixedIdr,
    /// A slice of an IDR picture has a slice_type that can be read and is P or B.
    #[error("a slice of an IDR picture isn't intra")]
    IdrNotIntra,
    /// A slice of an IDR picture has nal_ref_idc 0.
    #[error("an IDR picture isn't a reference")]
    IdrNotReference,
    /// nal_ref_idc is 0 in a slice and not in the first one, or the reverse.
    #[error("slices of references and of others are mixed")]
    MixedReference,
    /// A unit of type 6 to 9 or 14 to 18 stands after a slice.
    #[error("a unit stands behind a slice that belongs before it")]
    UnitOrder,
    /// A slice after the first begins at macroblock 0.
    #[error("a second picture begins")]
    TwoPictures,
    /// The text has more than 4,194,304 bytes, or there is a 257th slice.
    #[error("the unit is too large")]
    TooLarge,
    /// A growth was refused.
    #[error("out of memory")]
    Memory,
}

impl Refused {
    /// The refusal's number, rising in the order above from 1 on; 12 is none's.
    pub fn number(self) -> u8
        ensures { result ≡ number_of self }
    {
        match self {
            Refused::Split => 1,
            Refused::UnitType => 2,
            Refused::ForbiddenBit => 3,
            Refused::Sps => 4,
            Refused::Pps => 5,
            Refused::Switching => 6,
            Refused::MixedIdr => 7,
            Refused::IdrNotIntra => 8,
            Refused::IdrNotReference => 9,
            Refused::MixedReference => 10,
            Refused::UnitOrder => 11,
            Refused::TwoPictures => 13,
            Refused::TooLarge => 14,
            Refused::Memory => 15,
        }
    }

    /// The refusal's name, as it is printed.
    pub fn name(self) -> &'static str
        ensures { result.now ≡ name_of self }
    {
        match self {
            Refused::Split => "Split",
            Refused::UnitType => "UnitType",
            Refused::ForbiddenBit => "ForbiddenBit",
            Refused::Sps => "Sps",
            Refused::Pps => "Pps",
            Refused::Switching => "Switching",
            Refused::MixedIdr => "MixedIdr",
            Refused::IdrNotIntra => "IdrNotIntra",
            Refused::IdrNotReference => "IdrNotReference",
            Refused::MixedReference => "MixedReference",
            Refused::UnitOrder => "UnitOrder",
            Refused::TwoPictures => "TwoPictures",
            Refused::TooLarge => "TooLarge",
            Refused::Memory => "Memory",
        }
    }
}

impl From<AllocError> for Refused {
    ghost from_gives = { λ _ e. e ≡ Memory };

    fn from(_e: AllocError) -> Refused {
        Refused::Memory
    }
}

impl<T: Drop> From<AllocFailed<T>> for Refused {
    ghost from_gives = { λ _ e. e ≡ Memory };

    fn from(_e: AllocFailed<T>) -> Refused {
        Refused::Memory
    }
}
