//! The entries of scaling lists (7.3.2.1.1.1).

ghost use Rattle.std.specs.Prelude.{◌≡◌, ℤ, List, [], ◌∷◌};
ghost use Rattle.h264_types.specs.ScaleSteps.{scale_after};
ghost use Rattle.h264_types.specs.ScalingMatrix.{before_end, entries, use_default};

use crate::param_sets::scale_after;

/// The entries of a list with these deltas.
pub fn entries<const N: usize>(deltas: &[i8]) -> [u8; N]
    ensures { result ≡ entries N deltas.now }
{
    let mut entries = [0; N];
    let mut last = 8;
    let mut rest = deltas;
    for entry in entries.iter_mut() {
        (last, rest) = next_entry(last, rest);
        *entry = last;
    }
    entries
}

/// useDefaultScalingMatrixFlag: whether the first delta ends the list.
pub fn use_default(deltas: &[i8]) -> bool
    ensures { result ≡ use_default deltas.now }
{
    match deltas {
        [delta, ..] => scale_after(8, *delta) == 0,
        [] => false,
    }
}

// The entry after another one, and the deltas that are left: none once the list has ended.
fn next_entry(last: u8, deltas: &[i8]) -> (u8, &[i8])
    ensures ended { before_end last deltas.now ≡ [] → result.0 ≡ last }
    ensures same { before_end last deltas.now ≡ [] → before_end result.0 result.1.now ≡ [] }
    ensures next { (delta : ℤ) (more : List ℤ) → before_end last deltas.now ≡ delta ∷ more
        → result.0 ≡ scale_after last delta }
    ensures rest { (delta : ℤ) (more : List ℤ) → before_end last deltas.now ≡ delta ∷ more
        → before_end result.0 result.1.now ≡ more }
{
    match deltas {
        [delta, more @ ..] => match scale_after(last, *delta) {
            0 => (last, &[]),
            next => (next, more),
        },
        [] => (last, &[]),
    }
}
