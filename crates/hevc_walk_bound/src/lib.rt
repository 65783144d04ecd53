//! In a clean stream the buffer has room for each picture, and no rule sees that latency counts
//! stop.
#![tactic(auto)]

ghost use Rattle.std.specs.Prelude.{◌≡◌, Bool, List, length, map, None, Ok};
ghost use Rattle.hevc_walk.specs.Meanings.{Limits, Meaning};
ghost use Rattle.hevc_walk.specs.Pictures.{Head, stream, pictures};
ghost use Rattle.hevc_walk.specs.Buffer.{Buffer, bumping, needs_additional_bumping, needs_bumping};
ghost use Rattle.hevc_walk.specs.Buffer.{with_stored};
ghost use Rattle.hevc_walk.specs.Results.{full, verdict};
ghost use Rattle.hevc_walk.specs.Clean.{IsClean};
ghost use Rattle.hevc_walk.specs.Premises.{IsLimits};
ghost use Rattle.hevc_walk_bound.specs.Stores.{StoresFew};
ghost use Rattle.hevc_walk_bound.specs.Capped.{capped, capped_bumped, with_stored_uncapped};

/// Whenever a clean stream stores a picture, no more are in the buffer than the sets of that
/// picture declare.
pub fn few_are_stored()
    ensures { (us : List Meaning) → IsClean us → StoresFew (stream us).first_set (pictures us) }
{}

/// In a clean stream no store is full, and the verdict is the number of pictures.
pub fn never_full()
    ensures full { (us : List Meaning) → IsClean us → full us ≡ None }
    ensures verdict { (us : List Meaning) → IsClean us → verdict us ≡ Ok (length (pictures us)) }
{}

/// A latency count stops at 2 ^ 31 - 1. Where limits are bytes no rule can tell it from one that
/// goes on, so the same pictures are output, and the same are left.
pub fn cap_is_unseen()
    ensures stored { (p : Head) (es : Buffer)
        → with_stored p (map capped es) ≡ map capped (with_stored_uncapped p es) }
    ensures additional { (limits : Limits) (es : Buffer) → IsLimits limits
        → needs_additional_bumping limits (map capped es) ≡ needs_additional_bumping limits es }
    ensures before_decoding { (limits : Limits) (es : Buffer) → IsLimits limits
        → needs_bumping limits (map capped es) ≡ needs_bumping limits es }
    ensures bumped { (rule : Buffer → Bool) (es : Buffer)
        → ((fs : Buffer) → rule (map capped fs) ≡ rule fs)
        → bumping rule (map capped es) ≡ capped_bumped (bumping rule es) }
{}
