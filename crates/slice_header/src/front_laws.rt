//! Laws of the definitions, each the contract of a function that does nothing.

ghost use Rattle.std.specs.Prelude.{◌≡◌, ◌↔◌, ℕ, List, Ok, Err};
ghost use Rattle.slice_header.specs.Fronts.{FrontHasFault, IsFront, front_at};
ghost use Rattle.slice_header.specs.declared.fault.HeaderFault.{HeaderFault};
ghost use Rattle.slice_header.specs.declared.front.HeaderFront.{HeaderFront};

/// A unit's slice header begins with these fields exactly where reading them in order gives them,
/// and shows a fault first exactly where reading ends with it.
pub fn one_front()
    ensures front { (unit : List ℕ) (front : HeaderFront)
        → (IsFront unit front ↔ (front_at unit ≡ Ok front)) }
    ensures fault { (unit : List ℕ) (fault : HeaderFault)
        → (FrontHasFault unit fault ↔ (front_at unit ≡ Err fault)) }
{}
