//! Access units (7.4.1.2.3).
ghost use Rattle.std.specs.Prelude.{◌≡◌, ◌⊎◌, ℕ, ◌≤◌, List, length, None, IfOk, IfErr, IfSome, IsErrOf, IsOkUnless};
ghost use Rattle.std.specs.List.{filter};
ghost use Rattle.annexb.specs.NalUnit.{is_slice};
ghost use Rattle.annexb.specs.ByteStream.{HasUnits, joined};
ghost use Rattle.access_unit.specs.Sets.{sets_of};
ghost use Rattle.access_unit.specs.Refusals.{refusal_of, most_bytes};
ghost use Rattle.access_unit.specs.Answers.{IsSplit, IsShortText, IsAccepted, IsRefused, IsReadAs};
ghost use Rattle.access_unit.specs.declared.refused.Refused.TheVariants.{Memory};
ghost use Rattle.access_unit.specs.Stored.{IsShown, units_in};

use crate::content::{UnitContent, content_of, content_of_slice};
use crate::cuts::cut_next;
use crate::parameter_sets::ParameterSet;
use crate::parts::Parts;
use crate::refused::Refused;
use crate::shared_nal::SharedNal;
use annexb::{Nal, SplitFault, split};
use bytes::Bytes;
use std::alloc::{AllocError, Global};
use std::marker::Model;

/// How many bytes the text of an access unit has at most.
pub const MOST_BYTES: usize = 4_194_304;

/// An access unit that shows no refusal: its NAL units, with the slices and the parameter sets
/// among them. It owns their bytes once. Clauses see the bytes of the NAL units.
#[derive(Debug)]
pub struct Unit {
    content: UnitContent,
}

// By hand, so that whoever drops one is proved over one call.
impl Drop for Unit {
    fn drop(self) {
        let Unit { content: _ } = self;
    }
}

impl Model for Unit {
    ghost use Rattle.std.specs.Prelude.{ℕ, List};
    ghost use Rattle.access_unit.specs.UnitContents.{IsContentOf, nals_in};

    ghost Value = { List (List ℕ) };

    ghost view = { λ unit. nals_in unit.content };

    ghost invariant = { λ unit. IsContentOf (nals_in unit.content) unit.content };
}

impl Unit {
    /// The NAL units, in order.
    pub fn nals(&self) -> &[SharedNal]
        ensures value { result.now ≡ self.now }
        // Joined, they are a text that is read as this access unit.
        ensures accepted { IsAccepted (joined self.now) self.now }
    {
        self.content.nals()
    }

    /// The text of the NAL units joined, which is read as this access unit. It shares the bytes of
    /// a lone one, and those of several that stand joined in the stream which they were read from;
    /// those of others are copied.
    pub fn text(&self, alloc: Global) -> Result<Bytes, AllocError>
        ensures value { IfOk result (λ text. text ≡ joined self.now) }
        ensures accepted { IsAccepted (joined self.now) self.now }
    {
        match (self.content.text(), self.nals()) {
            (Some(text), _) => text.clone(),
            (None, [nal]) => nal.coded(),
            (None, nals) => join_shared(alloc, nals),
        }
    }

    /// The slices among the NAL units, in order; where there are none, the unit has no picture.
    pub fn slices(&self) -> &[SharedNal]
        ensures { result.now ≡ filter is_slice self.now }
    {
        self.content.slices()
    }

    /// The parameter sets among the NAL units, in order.
    pub fn sets(&self) -> &[ParameterSet]
        ensures { result.now ≡ sets_of self.now }
    {
        self.content.sets()
    }
}

/// The access unit of a text, or the text's refusal. Memory is the answer only for a text of NAL
/// units that isn't too long. The text is copied once, and the unit's NAL units share the copy.
pub fn read_unit(alloc: Global, text: &[u8]) -> Result<Unit, Refused>
    ensures read { IsReadAs text.now result }
    // A text of an access unit is refused only when memory runs out.
    ensures only { (units : List (List ℕ)) → IsAccepted text.now units
        → IfOk result (λ unit. unit ≡ units) × IsOkUnless result Refused.Memory }
    ensures memory { IsErrOf result Refused.Memory
        → (length text.now ≤ most_bytes) × (units : List (List ℕ)) × HasUnits text.now units }
{
    let nals = nals_of(alloc, text)?;
    unit_of(alloc, Bytes::copy_from_slice(alloc, text)?, &nals)
}

/// What `read_unit` answers for the text. No byte is copied: the unit's NAL units share the text.
pub fn read_shared(alloc: Global, text: &Bytes) -> Result<Unit, Refused>
    ensures read { IsReadAs text.now result }
    // A text of an access unit is refused only when memory runs out.
    ensures only { (units : List (List ℕ)) → IsAccepted text.now units
        → IfOk result (λ unit. unit ≡ units) × IsOkUnless result Refused.Memory }
    ensures memory { IsErrOf result Refused.Memory
        → (length text.now ≤ most_bytes) × (units : List (List ℕ)) × HasUnits text.now units }
{
    let nals = nals_of(alloc, text.as_slice())?;
    unit_of(alloc, text.clone()?, &nals)
}

/// The NAL units of a text that isn't too long, or the text's refusal.
fn nals_of(alloc: Global, text: &[u8]) -> Result<Vec<Nal<'_>>, Refused>
    ensures ok { IfOk result (λ nals. IsShortText text.now nals.items) }
    ensures err { IfErr result (λ refused. (refused ≡ Memory) ⊎ IsRefused text.now refused) }
    ensures memory { IsErrOf result Refused.Memory → (units : List (List ℕ))
        × IsShortText text.now units }
{
    if text.len() > MOST_BYTES {
        return Err(Refused::TooLarge);
    }
    match split_units(alloc, text)? {
        Some(nals) => Ok(nals),
        None => Err(Refused::Split),
    }
}

/// The NAL units of the text, or nothing where it doesn't split.
pub(crate) fn split_units(alloc: Global, text: &[u8]) -> Result<Option<Vec<Nal<'_>>>, AllocError>
    ensures ok { IfOk result (λ split. IsSplit text.now (units_in split)) }
    ensures err { IfErr result (λ _. (units : List (List ℕ)) × HasUnits text.now units) }
{
    match split(alloc, text) {
        Ok(nals) => Ok(Some(nals)),
        Err(fault) => match fault {
            SplitFault::Memory => Err(AllocError),
            _ => Ok(None),
        },
    }
}

/// The access unit of the NAL units of the text, which share it, or their refusal.
pub(crate) fn unit_of(alloc: Global, text: Bytes, nals: &[Nal<'_>]) -> Result<Unit, Refused>
    requires { IsShortText text nals.now }
    ensures ok { IfOk result (λ unit. (unit ≡ nals.now) × (refusal_of nals.now ≡ None)) }
    ensures err { IfErr result (IsShown (refusal_of nals.now)) }
{
    match nals {
        [nal] if nal.is_slice() => Ok(Unit {
            content: content_of_slice(text, nal)?,
        }),
        _ => unit_of_parts(alloc, text, nals),
    }
}

/// The access unit of any NAL units of the text, or their refusal.
fn unit_of_parts(alloc: Global, mut text: Bytes, nals: &[Nal<'_>]) -> Result<Unit, Refused>
    requires { IsShortText text nals.now }
    ensures ok { IfOk result (λ unit. (unit ≡ nals.now) × (refusal_of nals.now ≡ None)) }
    ensures err { IfErr result (IsShown (refusal_of nals.now)) }
{
    let mut parts = Parts::with_capacity(alloc, nals.len())?;
    for nal in nals {
        let coded = cut_next(&mut text, nal)?;
        parts.add(alloc, coded)?;
    }
    Ok(Unit {
        content: content_of(alloc, parts, None)?,
    })
}

/// The access unit of these NAL units and of their text, if it is there in one piece, which it
/// shares, or their refusal.
pub(crate) fn unit_with(
    alloc: Global,
    nals: &[SharedNal],
    text: Option<Bytes>,
) -> Result<Unit, Refused>
    requires short { IsShortText (joined nals.now) nals.now }
    requires text { IfSome text (λ text. text ≡ joined nals.now) }
    ensures ok { IfOk result (λ unit. (unit ≡ nals.now) × (refusal_of nals.now ≡ None)) }
    ensures err { IfErr result (IsShown (refusal_of nals.now)) }
{
    let mut parts = Parts::with_capacity(alloc, nals.len())?;
    for nal in nals {
        parts.add(alloc, nal.clone()?)?;
    }
    Ok(Unit {
        content: content_of(alloc, parts, text)?,
    })
}

/// The text of the NAL units, joined.
fn join_shared(alloc: Global, nals: &[SharedNal]) -> Result<Bytes, AllocError>
    ensures { IfOk result (λ text. text ≡ joined nals.now) }
{
    let mut text = Vec::new(alloc);
    for nal in nals {
        text.extend_from_slice(nal.coded()?.as_slice())?;
    }
    Ok(Bytes::from_vec(text)?)
}
