//! The types of a unit's slices.

ghost use Rattle.std.specs.Prelude.{◌≡◌};
ghost use Rattle.std.specs.List.{list_any};
ghost use Rattle.draw_run.specs.Kinds.{is_bipredicted, is_intra, is_predicted, type_of, types_of};

use h264_controls::Request;
use h264_types::slice_headers::SliceType;
use stream_svg::SliceTypes;

/// Which types the slices of these requests have.
pub(crate) fn types_of(requests: &[Request]) -> SliceTypes
    ensures { result ≡ types_of requests.now }
{
    SliceTypes {
        intra: has_intra(requests),
        predicted: has_predicted(requests),
        bipredicted: has_bipredicted(requests),
    }
}

/// Whether one of the slices has no list.
fn has_intra(requests: &[Request]) -> bool
    ensures { result ≡ list_any (λ request. is_intra (type_of request)) requests.now }
{
    requests.iter().any(|request| is_intra(type_of(request)))
}

/// Whether one has list 0 alone.
fn has_predicted(requests: &[Request]) -> bool
    ensures { result ≡ list_any (λ request. is_predicted (type_of request)) requests.now }
{
    requests
        .iter()
        .any(|request| is_predicted(type_of(request)))
}

/// Whether one has both lists.
fn has_bipredicted(requests: &[Request]) -> bool
    ensures { result ≡ list_any (λ request. is_bipredicted (type_of request)) requests.now }
{
    requests
        .iter()
        .any(|request| is_bipredicted(type_of(request)))
}

/// The type of a request's slice.
fn type_of(request: &Request) -> SliceType
    ensures { result ≡ type_of request.now }
{
    request.controls().slice_params.slice_type
}

/// Whether slices of a type have no reference (7.4.3).
fn is_intra(slice_type: SliceType) -> bool
    ensures { result ≡ is_intra slice_type }
{
    matches!(slice_type, SliceType::I | SliceType::Si)
}

/// Whether they have list 0 alone.
fn is_predicted(slice_type: SliceType) -> bool
    ensures { result ≡ is_predicted slice_type }
{
    matches!(slice_type, SliceType::P | SliceType::Sp)
}

/// Whether they have both lists.
fn is_bipredicted(slice_type: SliceType) -> bool
    ensures { result ≡ is_bipredicted slice_type }
{
    matches!(slice_type, SliceType::B)
}
