//! The NAL units of an access unit, as they are stored.

ghost use Rattle.std.specs.Prelude.{◌≡◌, ◌≤◌, [], length, vec_len, IfOk, IfSome, MatchOption, None, Some, ◌∷◌, IfErr, IsTrue};
ghost use Rattle.annexb.specs.ByteStream.{joined};
ghost use Rattle.access_unit.specs.UnitContents.{IsContentOf, first_place, nals_in, sets_in, slices_in, text_in};
ghost use Rattle.access_unit.specs.Stored.{IsOfUnit, IsShown};
ghost use Rattle.annexb.specs.NalUnit.{is_slice};
ghost use Rattle.access_unit.specs.Answers.{IsShortText};
ghost use Rattle.access_unit.specs.Refusals.{refusal_of};

use crate::checks::{check_header, check_order};
use crate::cuts::cut_next;
use crate::parameter_sets::ParameterSet;
use crate::parts::Parts;
use crate::placed::{Slices, placed};
use crate::refused::Refused;
use crate::shared_nal::SharedNal;
use annexb::Nal;
use bytes::Bytes;
use std::alloc::{AllocError, Global};

/// The NAL units of an access unit, as they are stored.
#[derive(Debug, Drop)]
pub(crate) enum UnitContent {
    /// One NAL unit, which is a slice: most take no memory beside their bytes.
    OneSlice([SharedNal; 1]),
    /// Any other NAL units, apart, so that a unit of one slice takes no room for them.
    Several(Box<Several>),
}

/// NAL units that aren't one slice.
#[derive(Debug, Drop)]
pub(crate) struct Several {
    nals: Vec<SharedNal>,
    slices: Slices,
    sets: Vec<ParameterSet>,
    /// Their text, joined, where they were read from one that has it in one piece.
    text: Option<Bytes>,
}

impl UnitContent {
    /// The NAL units, in order.
    pub(crate) fn nals(&self) -> &[SharedNal]
        ensures { result.now ≡ nals_in self.now }
    {
        match self {
            UnitContent::OneSlice(nals) => nals.as_slice(),
            UnitContent::Several(several) => several.nals.as_slice(),
        }
    }

    /// The slices among them, in order.
    pub(crate) fn slices(&self) -> &[SharedNal]
        requires { first_place self.now ≤ length (nals_in self.now) }
        ensures { result.now ≡ slices_in self.now }
    {
        match self {
            UnitContent::OneSlice(nals) => nals.as_slice(),
            UnitContent::Several(several) => several.slices.among(&several.nals),
        }
    }

    /// The parameter sets among them, in order.
    pub(crate) fn sets(&self) -> &[ParameterSet]
        ensures { result.now ≡ sets_in self.now }
    {
        match self {
            UnitContent::OneSlice(_) => &[],
            UnitContent::Several(several) => several.sets.as_slice(),
        }
    }

    /// The text of the NAL units joined, where it is stored.
    pub(crate) fn text(&self) -> Option<&Bytes>
        ensures { MatchOption result (text_in self.now ≡ None)
            (λ text. text_in self.now ≡ Some text.now) }
    {
        match self {
            UnitContent::OneSlice(_) => None,
            UnitContent::Several(several) => several.text.as_ref(),
        }
    }
}

/// The content of these parts, which are those of an access unit, and of their text, if there is
/// one in one piece.
pub(crate) fn content_of(
    alloc: Global,
    parts: Parts,
    text: Option<Bytes>,
) -> Result<UnitContent, AllocError>
    requires parts { IsOfUnit parts }
    requires text { IfSome text (λ text. text ≡ joined parts.nals.items) }
    ensures { IfOk result (IsContentOf parts.nals.items) }
{
    let Parts { nals, slices, sets } = parts;
    if nals.len() == 1 && slices.len() == 1 && sets.is_empty() {
        return Ok(only_slice(nals));
    }
    let slices = placed(alloc, &nals, slices)?;
    let several = Several {
        nals,
        slices,
        sets,
        text,
    };
    Ok(UnitContent::Several(Box::new(alloc, several)?))
}

/// The only one of these NAL units.
fn only_slice(mut nals: Vec<SharedNal>) -> UnitContent
    requires { vec_len nals ≡ 1 }
    ensures nals { nals_in result ≡ nals.items }
    ensures slices { slices_in result ≡ nals.items }
    ensures sets { sets_in result ≡ [] }
    ensures first { first_place result ≡ 0 }
    ensures text { text_in result ≡ None }
{
    match nals.pop() {
        Some(nal) => UnitContent::OneSlice([nal]),
        None => unreachable!(),
    }
}

/// The content of one NAL unit, which is a slice, or its refusal. Most access units of
/// a stream are such, and nothing is allocated for them.
pub(crate) fn content_of_slice(mut text: Bytes, nal: &Nal<'_>) -> Result<UnitContent, Refused>
    requires short { IsShortText text (nal.now ∷ []) }
    requires slice { IsTrue (is_slice nal.now) }
    ensures ok { IfOk result (λ content. IsContentOf (nal.now ∷ []) content
        × (refusal_of (nal.now ∷ []) ≡ None)) }
    ensures err { IfErr result (IsShown (refusal_of (nal.now ∷ []))) }
{
    check_header(nal)?;
    check_order(&[], nal)?;
    Ok(UnitContent::OneSlice([cut_next(&mut text, nal)?]))
}
