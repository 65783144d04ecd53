//! Calls and outputs that break what decoding promises: each part of the promise refuses some.
#![tactic(auto)]

mod for_c;
mod parts;

ghost use Rattle.std.specs.Prelude.{[], ◌∷◌};
ghost use Rattle.hevc_walk_examples.specs.Streams.{plain};
ghost use Rattle.hevc_walk_examples.specs.Corners.{without_prior};
ghost use Rattle.hevc_decoder.specs.Headline.{AllSubmitted, SubmittedOnce, ComeOutOnce};
ghost use Rattle.hevc_decoder.specs.Headline.{AreForOutput, NeverStoreMore};
ghost use Rattle.hevc_decoder_examples.specs.Broken.{submitted, shown, overstored};

pub use for_c::{decoded, filled, pulled, read};
pub use parts::{answers, counts, cuts, frames, positions, what_comes};

/// A picture that is discarded and output, and one that is to be output and isn't; one that is
/// output twice.
pub fn wrong_outputs()
    ensures discarded { AreForOutput without_prior (shown 0 7 ∷ shown 1 8 ∷ shown 2 9 ∷ []) → ⊥ }
    ensures missing { AreForOutput plain (shown 0 7 ∷ shown 1 8 ∷ []) → ⊥ }
    ensures twice { ComeOutOnce (shown 0 7 ∷ shown 1 8 ∷ shown 0 7 ∷ []) → ⊥ }
{}

/// A picture that is output with the handle of another, and one that is submitted twice.
pub fn wrong_handles()
    ensures exchanged { AllSubmitted (submitted 0 7 ∷ submitted 1 8 ∷ []) (shown 0 8 ∷ []) → ⊥ }
    ensures twice { SubmittedOnce (submitted 0 7 ∷ submitted 1 8 ∷ submitted 0 9 ∷ []) → ⊥ }
{}

/// Two pictures are in the buffer as one is stored that declares one.
pub fn wrong_stores()
    ensures { NeverStoreMore overstored → ⊥ }
{}
