//! Each picture has one fate, and those for output are output once.
#![tactic(auto)]

ghost use Rattle.std.specs.Prelude.{◌≡◌, ◌≤◌, ℕ, List, None};
ghost use Rattle.hevc_walk.specs.Meanings.{Meaning};
ghost use Rattle.hevc_walk.specs.Pictures.{pictures};
ghost use Rattle.hevc_walk.specs.Refusals.{stop};
ghost use Rattle.hevc_walk.specs.Fates.{times, output_numbers, numbers_for_output};
ghost use Rattle.hevc_walk.specs.Fates.{discarded_numbers};
ghost use Rattle.hevc_walk_fates.specs.Submissions.{submitted_numbers};

/// No picture is output twice.
pub fn output_once()
    ensures { (us : List Meaning) (n : ℕ) → times n (output_numbers us) ≤ 1 }
{}

/// Where no unit is refused, the pictures that are output are those whose fate it is.
pub fn outputs_by_fate()
    ensures { (us : List Meaning) → stop us ≡ None → (n : ℕ)
        → times n (output_numbers us)
        ≡ times n (numbers_for_output (discarded_numbers us) (pictures us)) }
{}

/// No picture is submitted twice.
pub fn submitted_once()
    ensures { (us : List Meaning) (n : ℕ) → times n (submitted_numbers us) ≤ 1 }
{}

/// Every picture that is output was submitted.
pub fn outputs_are_submitted()
    ensures { (us : List Meaning) (n : ℕ)
        → times n (output_numbers us) ≤ times n (submitted_numbers us) }
{}
