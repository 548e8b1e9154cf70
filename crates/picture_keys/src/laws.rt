//! Laws of the definitions, each the contract of a function that does nothing.

ghost use Rattle.std.specs.Prelude.{◌≡◌, List};
ghost use Rattle.h264_controls.specs.declared.request.Request.{Request};
ghost use Rattle.h264_controls.specs.declared.request.RequestBody.{RequestBody};
ghost use Rattle.decode_jobs.specs.KeyMaps.{AreLive, KeyMap, tree_of};
ghost use Rattle.decode_jobs.specs.Inputs.{InputValue};
ghost use Rattle.decode_jobs.specs.Keys.{bodies_of};
ghost use Rattle.picture_keys.specs.Known.{Known, key_of};
ghost use Rattle.picture_keys.specs.Numbered.{AreNumbered, Numbers, numbers_named};
ghost use Rattle.picture_keys.specs.Referred.{ShowsKnown};

use decode_jobs::Decoded;

/// Where the pictures that an input refers to are of the keys that are known, what the decoder makes
/// of it is a picture of its key.
pub fn picture_is_of_its_key<P: Decoded>()
    ensures { (known : Known) (input : InputValue P) (picture : P) → ShowsKnown P.IsOf known input
        → P.IsDecoded input picture → P.IsOf (key_of known input.requests) picture }
{}

/// Where numbers stand for the keys that are known, the node that is made over them names live keys
/// alone, and its tree is the key.
pub fn node_is_that_of_its_key()
    ensures tree { (keys : KeyMap (List RequestBody)) (numbers : Numbers) (known : Known)
        (requests : List Request)
        → AreNumbered keys numbers known
        → tree_of keys
        (record { content = bodies_of requests; entries = numbers_named numbers requests })
        ≡ key_of known requests }
    ensures live { (keys : KeyMap (List RequestBody)) (numbers : Numbers) (known : Known)
        (requests : List Request)
        → AreNumbered keys numbers known → AreLive keys (numbers_named numbers requests) }
{}
