//! Each picture has one end, and how many frames are kept until then.
#![tactic(auto)]

ghost use Rattle.std.specs.Prelude.{◌≡◌, ◌+◌, ◌<◌, ℕ, List, None, false, length, nat_lt};
ghost use Rattle.hevc_walk.specs.Clean.{IsClean};
ghost use Rattle.hevc_walk.specs.Fates.{discarded_numbers, one, output_numbers, times};
ghost use Rattle.hevc_walk.specs.Meanings.{Meaning};
ghost use Rattle.hevc_walk.specs.Pictures.{pictures, stream};
ghost use Rattle.hevc_walk.specs.Refusals.{stop};
ghost use Rattle.hevc_walk_frames.specs.Coming.{NeverComes, is_coming};
ghost use Rattle.hevc_walk_frames.specs.Ends.{is_hidden, is_skipped, numbers_where};
ghost use Rattle.hevc_walk_frames.specs.Frames.{KeepsFew};
ghost use Rattle.hevc_walk_units.specs.Units.{Standing, closing_part, unit_part};

/// Where no unit is refused, each picture is once among those that are skipped, those that aren't
/// to be output, those that are discarded, and those that are output.
pub fn one_end_each()
    ensures { (us : List Meaning) → stop us ≡ None → (n : ℕ)
        → times n (numbers_where is_skipped (pictures us))
        + times n (numbers_where is_hidden (pictures us))
        + times n (discarded_numbers us)
        + times n (output_numbers us)
        ≡ one (nat_lt n (length (pictures us))) }
{}

/// Whichever unit comes: a picture that was counted, that isn't open, and that isn't needed for
/// output isn't output by it, and never will be.
pub fn what_has_ended_never_comes()
    ensures unit { (u : Meaning) (s : Standing) (n : ℕ) → n < s.next.number
        → is_coming s n ≡ false → NeverComes n (unit_part u s) }
    ensures end { (s : Standing) (n : ℕ) → n < s.next.number
        → is_coming s n ≡ false → NeverComes n (closing_part s) }
{}

/// In a clean stream, whichever picture is the latest, at most max_num_pics frames are kept: its
/// own, those that its reference picture set names, and those that wait for output. So with one
/// more there is one for the next picture.
pub fn few_frames_are_kept()
    ensures { (us : List Meaning) → IsClean us → KeepsFew (stream us).first_set (pictures us) }
{}
