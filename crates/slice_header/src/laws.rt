//! Laws of the definitions, each the contract of a function that does nothing.

ghost use Rattle.std.specs.Prelude.{◌≡◌, ◌↔◌, ℕ, List, Ok, Err};
ghost use Rattle.h264_types.specs.declared.slice_headers.slice_headers.SliceHeader.{SliceHeader};
ghost use Rattle.h264_types.specs.declared.param_sets.pps.Pps.{Pps};
ghost use Rattle.h264_types.specs.declared.param_sets.sps.Sps.{Sps};
ghost use Rattle.slice_header.specs.declared.fault.HeaderFault.{HeaderFault};
ghost use Rattle.slice_header.specs.SliceHeaders.{HeaderHasFault, IsSliceHeader, header_at};

/// A unit has a slice header over two parameter sets exactly where reading its syntax in order
/// gives that header, and shows a fault first exactly where reading ends with it.
pub fn one_header()
    ensures header { (unit : List ℕ) (sps : Sps) (pps : Pps) (header : SliceHeader)
        → (IsSliceHeader unit sps pps header ↔ (header_at unit sps pps ≡ Ok header)) }
    ensures fault { (unit : List ℕ) (sps : Sps) (pps : Pps) (fault : HeaderFault)
        → (HeaderHasFault unit sps pps fault ↔ (header_at unit sps pps ≡ Err fault)) }
{}
