//! The frames that the lists of a unit name.

ghost use Rattle.std.specs.Prelude.{◌≡◌, ◌++◌, [], ◌∷◌, Contains, List, IfOk, OnOk};
ghost use Rattle.std.specs.Bool.{Decides};
ghost use Rattle.std.specs.List.{cons_option, flat_map};
ghost use Rattle.draw_run.specs.Lists.{AreEachOnce, is_long_term, named_by, named_of, reference_at};
ghost use Rattle.stream_svg.specs.declared.unit.DrawnReference.{DrawnReference as ReferenceValue};

use h264_controls::Request;
use std::alloc::{AllocError, Global};
use stream_svg::{DrawnReference, RefList};

/// The frames that the lists of slices name, each once for each list.
pub(crate) fn references_of(
    alloc: Global,
    requests: &[Request],
) -> Result<Vec<DrawnReference>, AllocError>
    ensures { IfOk result (λ references.
        AreEachOnce (flat_map named_of requests.now) references.items) }
{
    let mut references = Vec::new(alloc);
    for request in requests {
        add_slice(&mut references, request)?;
    }
    Ok(references)
}

/// Adds those that the lists of a slice name.
fn add_slice(references: &mut Vec<DrawnReference>, request: &Request) -> Result<(), AllocError>
    ensures { OnOk result ((before : List ReferenceValue)
        → AreEachOnce before references.old.items
        → AreEachOnce (before ++ named_of request.now) references.new.items) }
{
    let params = &request.controls().slice_params;
    add_list(
        references,
        request,
        RefList::Zero,
        params.ref_pic_list0.entries(),
    )?;
    add_list(
        references,
        request,
        RefList::One,
        params.ref_pic_list1.entries(),
    )?;
    Ok(())
}

/// Adds those that a list of a slice names.
fn add_list(
    references: &mut Vec<DrawnReference>,
    request: &Request,
    list: RefList,
    entries: &[Option<u8>],
) -> Result<(), AllocError>
    ensures { OnOk result ((before : List ReferenceValue)
        → AreEachOnce before references.old.items
        → AreEachOnce (before ++ named_by request.now list entries.now) references.new.items) }
{
    for entry in entries {
        add_entry(references, request, list, *entry)?;
    }
    Ok(())
}

/// Adds the one that an entry names, if it names one.
fn add_entry(
    references: &mut Vec<DrawnReference>,
    request: &Request,
    list: RefList,
    entry: Option<u8>,
) -> Result<(), AllocError>
    ensures { OnOk result ((before : List ReferenceValue)
        → AreEachOnce before references.old.items
        → AreEachOnce (before ++ cons_option (reference_at request.now list entry) [])
        references.new.items) }
{
    match reference_at(request, list, entry) {
        Some(reference) => add(references, reference),
        None => Ok(()),
    }
}

/// Adds one, where it isn't there.
fn add(references: &mut Vec<DrawnReference>, reference: DrawnReference) -> Result<(), AllocError>
    ensures { OnOk result ((before : List ReferenceValue)
        → AreEachOnce before references.old.items
        → AreEachOnce (before ++ reference ∷ []) references.new.items) }
{
    if is_among(references, &reference) {
        return Ok(());
    }
    references.push(reference)?;
    Ok(())
}

/// Whether it is among these.
fn is_among(references: &[DrawnReference], reference: &DrawnReference) -> bool
    ensures { Decides result (Contains references.now reference.now) }
{
    references.contains(reference)
}

/// The one that an entry of a list names.
fn reference_at(request: &Request, list: RefList, entry: Option<u8>) -> Option<DrawnReference>
    ensures { result ≡ reference_at request.now list entry }
{
    let index = entry?;
    let frame = request.reference(index)?;
    Some(DrawnReference {
        list,
        frame,
        long_term: is_long_term(request, index),
    })
}

/// Whether the frame at an index of the decoded picture buffer is a long-term one.
fn is_long_term(request: &Request, index: u8) -> bool
    ensures { result ≡ is_long_term request.now index }
{
    match request
        .controls()
        .decode_params
        .dpb
        .as_slice()
        .get(usize::from(index))
    {
        Some(entry) => entry.flags.long_term,
        None => false,
    }
}
