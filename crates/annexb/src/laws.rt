//! Laws of the definitions, each the contract of a function that does nothing.
ghost use Rattle.std.specs.Prelude.{◌≡◌, ◌↔◌, ℕ, ◌<◌, List, length, All};
ghost use Rattle.annexb.specs.NalUnit.{IsUnit};
ghost use Rattle.annexb.specs.EmulationPrevention.{escape, payload_of};
ghost use Rattle.annexb.specs.ByteStream.{HasUnits, joined};
ghost use Rattle.annexb.specs.AccessUnits.{IsCut};

/// One unit or more, joined, have just these units.
pub fn units_of_joined()
    ensures there { (units : List (List ℕ)) → 0 < length units → All IsUnit units
        → HasUnits (joined units) units }
    ensures only { (units others : List (List ℕ)) → 0 < length units → All IsUnit units
        → HasUnits (joined units) others → others ≡ units }
{}

/// A unit is the escape of its payload, and of nothing else.
pub fn one_payload()
    ensures { (unit payload : List ℕ) → IsUnit unit
        → ((escape payload ≡ unit) ↔ (payload ≡ payload_of unit)) }
{}

/// A text has at most one list of units.
pub fn one_reading()
    ensures { (text : List ℕ) (units others : List (List ℕ))
        → HasUnits text units → HasUnits text others → units ≡ others }
{}

/// Units have at most one cut into access units.
pub fn one_cut()
    ensures { (units : List (List ℕ)) (parts others : List (List (List ℕ)))
        → IsCut units parts → IsCut units others → parts ≡ others }
{}
