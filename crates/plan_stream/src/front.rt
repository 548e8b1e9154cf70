//! The search for the end of an access unit's text (7.4.1.2.3).

ghost use Rattle.std.specs.Prelude.{◌≡◌, ◌≤◌, ◌&&◌, ◌++◌, ℕ, List, [], None, length, true, false, IfSome, IsTrue, ◌<◌, ◌∷◌};
ghost use Rattle.annexb.specs.AccessUnits.{begins_access_unit};
ghost use Rattle.plan_stream.specs.Fronts.{front_len, IsFront};
ghost use Rattle.plan_stream.specs.Seen.{IsSeen};
ghost use Rattle.annexb.specs.ByteStream.{HasUnits};
ghost use Rattle.access_unit.specs.Streams.{HasAccessUnits};
ghost use Rattle.plan_stream.specs.Readings.{IsReadTo};

use annexb::{START_CODE, begins_access_unit, is_slice};
use memchr::memmem;

/// How many bytes the access unit at the front has, where that is certain: whatever follows, or
/// where nothing does.
pub(crate) fn front_len(bytes: &[u8], is_over: bool) -> Option<usize>
    ensures within { IfSome result (λ len. len ≤ length bytes.now) }
    ensures found { IfSome result (λ len. (more : List ℕ) → (is_over ≡ true → more ≡ [])
        → front_len false (bytes.now ++ more) ≡ len) }
    ensures more { result ≡ None → is_over ≡ false }
{
    let mut at = 0;
    let mut has_slice = false;
    while let Some(ahead) = memmem::find(bytes.split_at(at).1, &START_CODE) {
        let nal = bytes.split_at(at + ahead + 3).1;
        if !is_seen(nal, is_over) {
            return None;
        }
        if has_boundary(has_slice, nal) {
            return Some(at + ahead);
        }
        has_slice |= is_slice(nal);
        at += ahead + 3;
    }
    is_over.then_some(bytes.len())
}

/// Whether what the bytes begin with is seen, whatever follows, or where nothing does.
pub(crate) fn is_seen(nal: &[u8], is_over: bool) -> bool
    ensures seen { IsTrue result → (more : List ℕ) → (is_over ≡ true → more ≡ [])
        → IsSeen nal.now more }
    ensures more { result ≡ false → is_over ≡ false }
{
    is_over || nal.len() >= 2
}

/// Whether a boundary stands before what the bytes begin with, where a slice stands before them or
/// none does.
pub(crate) fn has_boundary(has_slice: bool, nal: &[u8]) -> bool
    ensures { result ≡ (has_slice && begins_access_unit nal.now) }
{
    has_slice && begins_access_unit(nal)
}

/// The access units of a text are the NAL units of its fronts, one after the other; where the
/// prefix of what is left has none, the text has none.
pub fn fronts()
    ensures none { (text : List ℕ) → IsReadTo text [] text }
    ensures more { (text left front rest : List ℕ) (done : List (List (List ℕ)))
        (part : List (List ℕ)) → IsReadTo text done left → IsFront left front rest
        → HasUnits front part → IsReadTo text (done ++ part ∷ []) rest }
    ensures all { (text : List ℕ) (done : List (List (List ℕ))) → IsReadTo text done []
        → 0 < length done → HasAccessUnits text done }
    ensures unsplit { (text left front rest : List ℕ) (done : List (List (List ℕ)))
        → IsReadTo text done left → 0 < length left → IsFront left front rest
        → ((part : List (List ℕ)) → ¬ HasUnits front part)
        → (units : List (List ℕ)) → ¬ HasUnits text units }
{}
