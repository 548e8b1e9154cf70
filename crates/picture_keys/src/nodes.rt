//! The node of a unit's key.

ghost use Rattle.std.specs.Prelude.{◌≡◌, IfOk};
ghost use Rattle.picture_keys.specs.Digests.{bytes_of};
ghost use Rattle.picture_keys.specs.SliceBytes.{slices_digest};
ghost use Rattle.decode_jobs.specs.Keys.{bodies_of};
ghost use Rattle.picture_keys.specs.Numbered.{number_named, numbers_named};

use crate::SlicesDigest;
use crate::named::units_named;
use crate::numbers::KeyNumbers;
use crate::request_bodies::RequestBodies;
use decode_jobs::dep_keys::{KeyId, Node};
use h264_controls::Request;
use h264_types::pictures::AuId;
use std::alloc::{AllocError, Global};
use unit_outcomes::Requests;

/// The node of the key of these requests, of whose slices this is the digest, with the numbers of
/// the keys of earlier units.
pub fn node_of(
    alloc: Global,
    numbers: &mut KeyNumbers<'_>,
    requests: &Requests,
    digest: SlicesDigest,
) -> Result<Node<RequestBodies>, AllocError>
    requires { digest.bytes ≡ slices_digest (bytes_of requests.now) }
    ensures ok { IfOk result (λ node. node
        ≡ record {
          content = bodies_of requests.now;
          entries = numbers_named numbers.old requests.now;
        }) }
    ensures same { numbers.new ≡ numbers.old }
{
    let bodies = RequestBodies::of(alloc, requests, digest)?;
    let entries = entries_of(alloc, numbers, requests.as_slice())?;
    Ok(Node::new(bodies, entries))
}

/// The numbers at the entries of the requests' lists.
fn entries_of(
    alloc: Global,
    numbers: &mut KeyNumbers<'_>,
    requests: &[Request],
) -> Result<Vec<Option<KeyId>>, AllocError>
    ensures ok { IfOk result (λ entries. entries.items ≡ numbers_named numbers.old requests.now) }
    ensures same { numbers.new ≡ numbers.old }
{
    let units = units_named(alloc, requests)?;
    let mut entries = Vec::with_capacity(alloc, units.len())?;
    for unit in &units {
        entries.push(number_of(numbers, *unit)?)?;
    }
    Ok(entries)
}

/// The number of the key of a unit that is named, if one is.
fn number_of(numbers: &mut KeyNumbers<'_>, unit: Option<AuId>) -> Result<Option<KeyId>, AllocError>
    ensures ok { IfOk result (λ number. number ≡ number_named numbers.old unit) }
    ensures same { numbers.new ≡ numbers.old }
{
    match unit {
        Some(id) => numbers.get(id),
        None => Ok(None),
    }
}
