//! What is told of the ends of pictures is so, and all of them are told.
ghost use Rattle.std.specs.Prelude.{◌≡◌, ℕ, All, None, Some, true};
ghost use Rattle.hevc_pull.specs.declared.counted.Counted.{Counted};
ghost use Rattle.hevc_pull.specs.declared.pulled.Pulled.TheVariants.{Dropped, Output, Skipped};
ghost use Rattle.hevc_bumping.specs.declared.frame.Frame.{Frame};
ghost use Rattle.hevc_pull.specs.Ends.{IsOver, IsToldOnce};
ghost use Rattle.hevc_pull.specs.Pulling.{PullsNext, Telling};
ghost use Rattle.hevc_walk_frames.specs.Coming.{is_coming};

/// Where no event is left, each picture that was counted, and whose end wasn't told, is still to
/// come: its slices come, or it is stored and needed for output.
pub fn all_ends_are_told()
    ensures { (before now : Telling) → PullsNext None before now
        → All (λ c. is_coming before.view.standing c.number ≡ true) now.counted }
{}

/// A picture that is dropped, or skipped, was counted, its end wasn't told before, and it isn't to
/// come. Its end isn't told again, nor is that of one that is output.
pub fn told_ends_are_so()
    ensures dropped { (c : Counted) (before now : Telling)
        → PullsNext (Some (Dropped c)) before now → IsOver c before now }
    ensures skipped { (c : Counted) (before now : Telling)
        → PullsNext (Some (Skipped c)) before now → IsOver c before now }
    ensures output { (frame : Frame ℕ) (c : Counted) (before now : Telling)
        → PullsNext (Some (Output frame c)) before now → IsToldOnce frame.number now }
{}
