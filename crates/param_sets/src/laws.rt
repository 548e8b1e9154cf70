//! Laws of the definitions, each the contract of a function that does nothing.

ghost use Rattle.std.specs.Prelude.{◌≡◌, ◌↔◌, ℕ, List, Ok, Err};
ghost use Rattle.param_sets.specs.Sets.{IsPps, IsSps, PpsHasFault, SpsHasFault, pps_at, sps_at};
ghost use Rattle.param_sets.specs.declared.fault.SetFault.{SetFault};
ghost use Rattle.h264_types.specs.declared.param_sets.pps.Pps.{Pps};
ghost use Rattle.h264_types.specs.declared.param_sets.sps.Sps.{Sps};

/// A payload has a sequence parameter set exactly where reading its syntax in order gives that set,
/// and shows a fault first exactly where reading ends with it.
pub fn one_sps()
    ensures set { (payload : List ℕ) (set : Sps) → (IsSps payload set ↔ (sps_at payload ≡ Ok set)) }
    ensures fault { (payload : List ℕ) (fault : SetFault)
        → (SpsHasFault payload fault ↔ (sps_at payload ≡ Err fault)) }
{}

/// The same of picture parameter sets.
pub fn one_pps()
    ensures set { (payload : List ℕ) (set : Pps) → (IsPps payload set ↔ (pps_at payload ≡ Ok set)) }
    ensures fault { (payload : List ℕ) (fault : SetFault)
        → (PpsHasFault payload fault ↔ (pps_at payload ≡ Err fault)) }
{}
