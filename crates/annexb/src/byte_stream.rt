//! Texts split into units, and units joined to a text (B.1).
ghost use Rattle.std.specs.Prelude.{◌≡◌, ◌↔◌, ℕ, List, Some, IfOk, IfErr, IsErrOf, IsOkUnless, IsTrue};
ghost use Rattle.annexb.specs.ByteStream.{HasUnits, joined};
ghost use Rattle.annexb.specs.Faults.{begins_with_start_code, IsFirstForbidden, IsFirstEmpty};
ghost use Rattle.annexb.specs.SplitFault.{IsFaultOf};
ghost use Rattle.annexb.specs.Search.{IsFirstUnit};

use crate::fault::SplitFault;
use crate::nal_unit::Nal;
use crate::search::{first_unit, unit_at};
use std::alloc::{AllocError, Global};

/// What stands before each unit.
pub const START_CODE: [u8; 3] = [0, 0, 1];

/// The units of the text, or its first fault. Memory is the answer only for a text that has units:
/// where a growth is refused, the rest of the text is still looked through.
pub fn split(alloc: Global, text: &[u8]) -> Result<Vec<Nal<'_>>, SplitFault>
    ensures found { IfOk result (λ units. HasUnits text.now units.items) }
    // A text that has units has no others, and is refused only when memory runs out.
    ensures only { (units : List (List ℕ)) → HasUnits text.now units
        → IfOk result (λ found. found.items ≡ units) × IsOkUnless result SplitFault.Memory }
    ensures memory { IsErrOf result SplitFault.Memory
        → (units : List (List ℕ)) × HasUnits text.now units }

    // Any other text is refused by its first fault.
    ensures no_start_code { IsErrOf result SplitFault.NoStartCode
        ↔ (¬ IsTrue (begins_with_start_code text.now)) }
    ensures forbidden { (at : ℕ) → (IsErrOf result (SplitFault.ForbiddenBytes at)
        ↔ IsFirstForbidden text.now at) }
    ensures empty { (at : ℕ) → (IsErrOf result (SplitFault.EmptyUnit at)
        ↔ IsFirstEmpty text.now at) }
{
    match first_unit(text) {
        Some(at) => units_from(alloc, text, at),
        None => Err(SplitFault::NoStartCode),
    }
}

/// The units from the first one on, which begins after the first start code.
fn units_from(alloc: Global, text: &[u8], first: usize) -> Result<Vec<Nal<'_>>, SplitFault>
    requires { IsFirstUnit text.now (Some first) }
    ensures ok { IfOk result (λ units. HasUnits text.now units.items) }
    ensures err { IfErr result (IsFaultOf text.now) }
{
    let mut units = Vec::new(alloc);
    let mut is_stored = true;
    let mut next = Some(first);
    while let Some(at) = next {
        let found = unit_at(text, at)?;
        is_stored &= units.push(found.nal).is_ok();
        next = found.next;
    }
    if is_stored {
        Ok(units)
    } else {
        Err(SplitFault::Memory)
    }
}

/// The units one after the other, each with the start code 00 00 01 before it.
pub fn join(alloc: Global, nals: &[Nal<'_>]) -> Result<Vec<u8>, AllocError>
    ensures { IfOk result (λ text. text.items ≡ joined nals.now) }
{
    let mut text = Vec::new(alloc);
    for nal in nals {
        text.extend_from_slice(&START_CODE)?;
        text.extend_from_slice(nal.bytes())?;
    }
    Ok(text)
}
