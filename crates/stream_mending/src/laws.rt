//! Laws of what is written, each the contract of a function that does nothing.

ghost use Rattle.std.specs.Prelude.{◌≡◌, ◌<◌, ◌≤◌, ◌*◌, [], ℕ, List, length};
ghost use Rattle.annexb.specs.ByteStream.{HasUnits};
ghost use Rattle.access_unit.specs.StreamUnits.{IsStream};
ghost use Rattle.stream_mending.specs.StayingUnits.{IsDrawnFrom, units_at};
ghost use Rattle.stream_mending.specs.Mended.{mended, told};
ghost use Rattle.stream_mending.specs.Segments.{segments_of};

/// A stream that isn't refused, but for how many access units it has, is written as it is.
pub fn a_stream_stays()
    ensures written { (text : List ℕ) (parts : List (List (List ℕ)))
        → IsStream text parts → mended text ≡ text }
    ensures told { (text : List ℕ) (parts : List (List (List ℕ)))
        → IsStream text parts → told text ≡ [] }
{}

/// What is written, unless it is empty, is a stream that isn't refused but for how many access units
/// it has.
pub fn mended_is_a_stream()
    ensures { (text : List ℕ) → 0 < length (mended text)
        → (parts : List (List (List ℕ))) × IsStream (mended text) parts }
{}

/// Mending what was mended changes nothing.
pub fn mended_stays()
    ensures written { (text : List ℕ) → mended (mended text) ≡ mended text }
    ensures told { (text : List ℕ) → told (mended text) ≡ [] }
{}

/// What is written has at most 9 bytes for each 4 that were given: a delimiter has 5, and is put
/// before a NAL unit that has at least 4 with its start code.
pub fn mended_is_short()
    ensures { (text : List ℕ) → 4 * length (mended text) ≤ 9 * length text }
{}

/// The NAL units that are written are some of those that were given, in their order, and delimiters.
pub fn kept_in_order()
    ensures { (text : List ℕ) (units : List (List ℕ)) → HasUnits (mended text) units
        → IsDrawnFrom (units_at (segments_of text)) units }
{}
