//! Laws of the definitions, each the contract of a function that does nothing.

ghost use Rattle.std.specs.Prelude.{◌≡◌, ℕ, List, [], All, None, map, drop, take};
ghost use Rattle.std.specs.List.{zip};
ghost use Rattle.access_unit.specs.Refusals.{refusal_of};
ghost use Rattle.picture_keys.specs.Decodable.{AllCanDecode};
ghost use Rattle.request_core.specs.Fold.{outcomes_of};
ghost use Rattle.request_core.specs.Agreement.{Stream, state_from};
ghost use Rattle.request_core.specs.States.{marked_ids, no_units};
ghost use Rattle.picture_keys.specs.Depending.{DependOn};
ghost use Rattle.stream_fold.specs.Agreement.{becoming, Agree, GoOnAlike};

/// In a stream of access units that aren't refused, the outcome of each can be decoded once those
/// before it are: the requests of a plan are those of one picture, and the entries of their lists
/// name earlier valid units.
pub fn outcomes_can_be_decoded()
    ensures { (stream : List (ℕ × List (List ℕ))) → All (λ unit. refusal_of unit.1 ≡ None) stream
        → AllCanDecode [] (zip (map (λ unit. unit.0) stream) (outcomes_of stream)) }
{}

/// The keys of the units from a place on depend on those before it by the keys of the frames alone
/// that are marked there.
pub fn keys_depend_on_marked_frames()
    ensures { (stream : Stream) (place : ℕ)
        → DependOn (marked_ids (state_from no_units (take place stream)))
        (drop place (becoming stream)) }
{}

/// Where the folds over two streams agree in state and in the keys of the marked frames, all that
/// follows is alike over the same further units: the outcome of each, its key, and what the folds
/// come to.
pub fn folds_that_agree_go_on_alike()
    ensures { (first second further : Stream) → Agree first second
        → GoOnAlike first second further }
{}
