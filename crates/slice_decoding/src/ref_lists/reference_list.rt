//! A reference picture list in the making: cut to its active entries, and one frame moved to the
//! next entry.

ghost use Rattle.std.specs.Prelude.{◌≡◌, ◌<◌, ◌≤◌, length, drop, count_by, position};
ghost use Rattle.slice_decoding.specs.InitialLists.{cut};
ghost use Rattle.slice_decoding.specs.Modification.{is_entry_of, put};

use arrayvec::ArrayVec;
use h264_types::pictures::List;

/// The first `active` places, and missing entries where there are no more.
pub(crate) fn cut(places: &[u8], active: usize) -> List
    requires { active ≤ 32 }
    ensures { result ≡ cut active places.now }
{
    let mut entries = ArrayVec::new();
    for index in 0..active {
        entries.push(places.get(index).copied());
    }
    List { entries }
}

/// The frame at the place goes to the index, and out where it stands after it. Where it doesn't,
/// the last entry goes.
pub(crate) fn put(list: &mut List, index: usize, place: u8)
    requires inside { index < length list.old }
    requires once { count_by (is_entry_of place) (drop index list.old) ≤ 1 }
    ensures { list.new ≡ put index place list.old }
{
    let out = match index_of(place, &list.entries[index..]) {
        Some(offset) => index + offset,
        None => list.entries.len() - 1,
    };
    list.entries.remove(out);
    list.entries.insert(index, Some(place));
}

// Where the frame at the place stands among the entries.
fn index_of(place: u8, entries: &[Option<u8>]) -> Option<usize>
    ensures { result ≡ position (is_entry_of place) entries.now }
{
    entries.iter().position(|entry| *entry == Some(place))
}
