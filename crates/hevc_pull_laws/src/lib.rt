//! Over a whole run of a decoder that calls nobody, the end of each picture is told once.
#![tactic(auto)]

ghost use Rattle.std.specs.Prelude.{◌≡◌, ◌≤◌, ℕ, List, None, Ok, Result, false, nat_lt};
ghost use Rattle.hevc_driver.specs.declared.decode_error.DecodeError.{DecodeError};
ghost use Rattle.hevc_pull.specs.Calls.{IsFlushed};
ghost use Rattle.hevc_pull.specs.Pulling.{PullsNext, nothing_to_tell, telling};
ghost use Rattle.hevc_pull.specs.Views.{view_in};
ghost use Rattle.hevc_pull.specs.declared.decoder.PullDecoder.{PullDecoder};
ghost use Rattle.hevc_pull_laws.specs.Runs.{Runs, Step, times_told};
ghost use Rattle.hevc_walk.specs.Fates.{one};
ghost use Rattle.hevc_walk_frames.specs.Coming.{is_coming};

/// From the beginning of a stream on, whatever calls are made and whatever they answer, the end of
/// a picture is told at most once, and of no picture that wasn't counted. Where nothing is left to
/// take, that of each picture that isn't to come was told. After the end of a stream none is.
pub fn each_end_is_told_once()
    ensures once { (steps : List Step) (first now : PullDecoder)
        → telling first ≡ nothing_to_tell → Runs steps first now
        → (n : ℕ) → times_told n steps ≤ one (nat_lt n (view_in now).standing.next.number) }
    ensures all { (steps : List Step) (first now : PullDecoder)
        → telling first ≡ nothing_to_tell → Runs steps first now
        → PullsNext None (telling now) (telling now)
        → (n : ℕ) → is_coming (view_in now).standing n ≡ false
        → times_told n steps ≡ one (nat_lt n (view_in now).standing.next.number) }
    ensures end { (before now : PullDecoder) (value : Unit) → IsFlushed (Ok value) before now
        → (n : ℕ) → is_coming (view_in now).standing n ≡ false }
{}
