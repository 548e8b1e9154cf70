//! Laws of the definitions, each the contract of a function that does nothing.

ghost use Rattle.std.specs.Prelude.{◌≡◌, ◌↔◌, ◌⊎◌, ℕ, ◌+◌, ◌^◌, ◌<◌, ◌≤◌, List, All, Contains, Some, None, nat_eq, if◌then◌else◌};
ghost use Rattle.std.specs.Map.{keys_of, lookup};
ghost use Rattle.std.specs.Ordering.{nat_cmp};
ghost use Rattle.std.specs.BTreeMap.{insert_entry};
ghost use Rattle.checkpoints.specs.declared.shifting.LengthChange.{LengthChange as Change};
ghost use Rattle.checkpoints.specs.declared.shifting.LengthChange.TheVariants.{Longer, Shorter};
ghost use Rattle.checkpoints.specs.Places.{StartsAtZero, AreRising};
ghost use Rattle.checkpoints.specs.Stored.{IsInOrder, IsStoredAt, IsBefore, IsLast};
ghost use Rattle.checkpoints.specs.Changes.{CanShift, changed, moved, shifted, is_kept, cut};
ghost use Rattle.checkpoints.specs.Spacing.{AreSpaced, HasNear};

/// Places up to the end of a stream are spaced exactly where each place before the end has one of
/// them near.
pub fn spaced_where_near()
    ensures { (n end : ℕ) (places : List ℕ) → StartsAtZero places → AreRising places
        → All (λ p. p ≤ end) places
        → (AreSpaced n places end ↔ ((k : ℕ) → k < end → HasNear n places k)) }
{}

/// One state at most is stored at the greatest place not above a place.
pub fn one_before<S>()
    ensures place { (states : List (ℕ × S)) (place p q : ℕ) (s t : S)
        → IsBefore states place p s → IsBefore states place q t → p ≡ q }
    ensures state { (states : List (ℕ × S)) (place p q : ℕ) (s t : S)
        → IsBefore states place p s → IsBefore states place q t → s ≡ t }
{}

/// After a put the state is stored at its place, and each other one as before.
pub fn stored_after_put<S>()
    ensures { (states : List (ℕ × S)) (place : ℕ) (state : S) (q : ℕ)
        → lookup (nat_eq q) (insert_entry nat_cmp states place state)
        ≡ (if nat_eq q place then Some state else lookup (nat_eq q) states) }
{}

/// After a cut the states are stored that are kept, each as before.
pub fn stored_after_cut<S>()
    ensures { (states : List (ℕ × S)) (low high q : ℕ)
        → lookup (nat_eq q) (cut low high states)
        ≡ (if is_kept low high q then lookup (nat_eq q) states else None) }
{}

/// After a shift just the same states are stored, each at its moved place.
pub fn stored_after_shift<S>()
    ensures only { (from : ℕ) (change : Change) (states : List (ℕ × S)) (q : ℕ) (state : S)
        → IsStoredAt (shifted from change states) q state
        → (place : ℕ) × IsStoredAt states place state × (moved from change place ≡ q) }
    ensures each { (from : ℕ) (change : Change) (states : List (ℕ × S)) (place : ℕ) (state : S)
        → 0 < from
        → IsInOrder states → CanShift from change (keys_of states) → IsStoredAt states place state
        → IsStoredAt (shifted from change states) (moved from change place) state }
{}

/// With one more state, each place has a place near that had one, and those from the new one on.
pub fn near_after_put<S>()
    ensures had { (states : List (ℕ × S)) (place : ℕ) (state : S) (n k : ℕ)
        → HasNear n (keys_of states) k
        → HasNear n (keys_of (insert_entry nat_cmp states place state)) k }
    ensures new { (states : List (ℕ × S)) (place : ℕ) (state : S) (n k : ℕ) → place ≤ k
        → k < place + n
        → HasNear n (keys_of (insert_entry nat_cmp states place state)) k }
{}

/// A place that isn't dropped is still near.
pub fn near_after_cut<S>()
    ensures { (states : List (ℕ × S)) (low high near n k : ℕ) → Contains (keys_of states) near
        → (near ≤ low) ⊎ (high ≤ near) → near ≤ k → k < near + n
        → HasNear n (keys_of (cut low high states)) k }
{}

/// What is near stays so where both move, and where none does.
pub fn near_after_shift<S>()
    ensures below { (from : ℕ) (change : Change) (states : List (ℕ × S)) (n k : ℕ) → k < from
        → HasNear n (keys_of states) k → HasNear n (keys_of (shifted from change states)) k }
    ensures moved { (from : ℕ) (change : Change) (states : List (ℕ × S)) (near n k : ℕ) → 0 < from
        → IsInOrder states → CanShift from change (keys_of states)
        → Contains (keys_of states) near → from ≤ near → near ≤ k → k < near + n
        → HasNear n (keys_of (shifted from change states)) (changed change k) }
{}

/// Where the states above `low` and below `high` are dropped, those from `high` on may come down as
/// far as past `low`.
pub fn can_shift_after_cut<S>()
    ensures { (states : List (ℕ × S)) (low high by : ℕ) → low + by < high
        → CanShift high (Shorter by) (keys_of (cut low high states)) }
{}

/// States may go up as far as the last one has a place to go to.
pub fn can_shift_up<S>()
    ensures { (states : List (ℕ × S)) (from by last : ℕ) (state : S) → IsLast states last state
        → last + by < 2 ^ 64
        → CanShift from (Longer by) (keys_of states) }
{}
