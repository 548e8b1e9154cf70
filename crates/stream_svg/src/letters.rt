//! The letters of slice types.

ghost use Rattle.std.specs.Prelude.{◌≡◌, ◌≤◌, length};
ghost use Rattle.stream_svg.specs.Letters.{class_of, first_class, letters_by, letters_of, sign_of};

use crate::{SliceTypes, UnitKind};

/// A slice type, or what stands in its place.
#[derive(Clone, Copy, Debug)]
pub(crate) enum Letter {
    I,
    P,
    B,
    Fault,
    Nothing,
}

impl Letter {
    /// Its class in the style sheet.
    pub(crate) fn class(self) -> &'static str
        ensures { result.now ≡ class_of self }
    {
        match self {
            Letter::I => "i",
            Letter::P => "p",
            Letter::B => "b",
            Letter::Fault => "f",
            Letter::Nothing => "n",
        }
    }

    /// The letter, or the mark in its place.
    pub(crate) fn sign(self) -> &'static str
        ensures { result.now ≡ sign_of self }
    {
        match self {
            Letter::I => "I",
            Letter::P => "P",
            Letter::B => "B",
            Letter::Fault => "!",
            Letter::Nothing => "-",
        }
    }
}

/// The letters of a unit's box, of which there is one at least.
pub(crate) fn letters_of(kind: UnitKind) -> &'static [Letter]
    ensures letters { result.now ≡ letters_of kind }
    ensures few { length result.now ≤ 3 }
{
    match kind {
        UnitKind::Picture(picture) => letters_of_types(picture.types),
        UnitKind::Fault(_) => &[Letter::Fault],
        UnitKind::Empty => &[Letter::Nothing],
    }
}

/// The letters of slice types.
fn letters_of_types(types: SliceTypes) -> &'static [Letter]
    ensures letters { result.now
        ≡ letters_by types.intra types.predicted types.bipredicted }
    ensures few { length result.now ≤ 3 }
{
    match (types.intra, types.predicted, types.bipredicted) {
        (true, false, false) => &[Letter::I],
        (false, true, false) => &[Letter::P],
        (false, false, true) => &[Letter::B],
        (true, true, false) => &[Letter::I, Letter::P],
        (true, false, true) => &[Letter::I, Letter::B],
        (false, true, true) => &[Letter::P, Letter::B],
        (true, true, true) => &[Letter::I, Letter::P, Letter::B],
        (false, false, false) => &[Letter::Nothing],
    }
}

/// The class of what is written over a unit's box.
pub(crate) fn class_over(kind: UnitKind) -> &'static str
    ensures { result.now ≡ first_class (letters_of kind) }
{
    match letters_of(kind) {
        [letter, ..] => letter.class(),
        [] => "n",
    }
}
