//! The units that requests name.

ghost use Rattle.std.specs.Prelude.{◌≡◌, ◌++◌, IfOk, OnOk, map};
ghost use Rattle.decode_jobs.specs.Keys.{named_by, named_by_all, unit_named};

use h264_controls::{References, Request};
use h264_types::pictures::AuId;
use std::alloc::{AllocError, Global};

/// The units that requests name, entry by entry: at each entry of their lists, slice by slice and
/// list 0 first, the unit whose picture is named, or nothing where the entry is missing.
pub fn units_named(alloc: Global, requests: &[Request]) -> Result<Vec<Option<AuId>>, AllocError>
    ensures { IfOk result (λ units. units.items ≡ named_by_all requests.now) }
{
    let mut units = Vec::new(alloc);
    for request in requests {
        add_named(request, &mut units)?;
    }
    Ok(units)
}

/// Adds the units that a request names.
fn add_named(request: &Request, units: &mut Vec<Option<AuId>>) -> Result<(), AllocError>
    ensures { OnOk result (units.new.items ≡ units.old.items ++ named_by request.now) }
{
    let params = &request.controls().slice_params;
    add_list(&request.references, params.ref_pic_list0.entries(), units)?;
    add_list(&request.references, params.ref_pic_list1.entries(), units)
}

/// Adds the units that a list names.
fn add_list(
    references: &References,
    list: &[Option<u8>],
    units: &mut Vec<Option<AuId>>,
) -> Result<(), AllocError>
    ensures { OnOk result (units.new.items
        ≡ units.old.items ++ map (unit_named references.now) list.now) }
{
    for entry in list {
        units.push(unit_of(references, *entry))?;
    }
    Ok(())
}

/// The unit that an entry names, if it names one.
fn unit_of(references: &References, entry: Option<u8>) -> Option<AuId>
    ensures { result ≡ unit_named references.now entry }
{
    references.get(entry?)
}
