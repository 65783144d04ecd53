//! Parts of what decoding promises: each holds of one answer, and refuses another.
ghost use Rattle.std.specs.Prelude.{◌≡◌, [], ◌∷◌, Ok, None, take};
ghost use Rattle.std.specs.List.{AllByRecursion};
ghost use Rattle.hevc_walk.specs.Results.{calls};
ghost use Rattle.hevc_walk_examples.specs.Streams.{plain};
ghost use Rattle.hevc_backend.specs.Trait.{counts_of};
ghost use Rattle.hevc_driver.specs.declared.decode_error.DecodeError.TheVariants.{Backend, DpbFull};
ghost use Rattle.hevc_driver.specs.declared.decode_error.DecodeError.TheVariants.{NoMemory};
ghost use Rattle.hevc_driver.specs.declared.decode_error.DecodeError.TheVariants.{NotEnoughOutputBuffers};
ghost use Rattle.hevc_driver.specs.Answers.{CountsErrors};
ghost use Rattle.hevc_driver.specs.Calls.{IsTimed};
ghost use Rattle.hevc_driver.specs.Given.{AreOneToOne};
ghost use Rattle.hevc_stateless_laws.specs.Segments.{handed_over};
ghost use Rattle.hevc_decoder.specs.Answers.{FindsRoom, IsOkOrNoMemory, without_unit};
ghost use Rattle.hevc_decoder.specs.Cut.{IsCut};
ghost use Rattle.hevc_decoder.specs.Headline.{NeverStoreMore, WantsFrame};
ghost use Rattle.hevc_decoder.specs.Promise.{CountsNone};
ghost use Rattle.hevc_decoder.specs.Stepping.{StaysUnlessTaken};
ghost use Rattle.hevc_decoder_examples.specs.Broken.{submitted};
ghost use Rattle.hevc_decoder_examples.specs.Parts.{announced, begun_at, next_refused_by, no_calls};
ghost use Rattle.hevc_decoder_examples.specs.Parts.{no_outputs, one_picture, refused_by};

/// One cut of all events: nothing of an empty stream; and not nothing of one that is decoded whole.
pub fn cuts()
    ensures empty { IsCut (Ok 0) [] no_calls no_calls no_outputs no_outputs }
    ensures early { IsCut (Ok 3) plain no_calls no_calls no_outputs no_outputs → ⊥ }
{}

/// What comes with calls: a picture with the call that begins it, and not nothing.
pub fn what_comes()
    ensures handed { handed_over plain [] (take 2 (calls plain)) ≡ announced }
    ensures unhanded { [] ≡ handed_over plain [] (take 2 (calls plain)) → ⊥ }
    ensures one_to_one { AreOneToOne announced one_picture }
    ensures none_to_one { AreOneToOne [] one_picture → ⊥ }
    ensures timed { AllByRecursion (IsTimed 0) (begun_at 0 ∷ submitted 0 7 ∷ []) }
    ensures late { AllByRecursion (IsTimed 0) (begun_at 1 ∷ submitted 0 7 ∷ []) → ⊥ }
{}

/// A frame is wanted at the unit of a picture, and not at one before it.
pub fn frames()
    ensures wanted { WantsFrame (NotEnoughOutputBuffers 1) 2 plain }
    ensures early { WantsFrame (NotEnoughOutputBuffers 1) 1 plain → ⊥ }
{}

/// What is answered to a stream without a refusal, and to one that is clean.
pub fn answers()
    ensures whole { IsOkOrNoMemory (Ok 3) }
    ensures starved { IsOkOrNoMemory (refused_by NoMemory) }
    ensures failed { IsOkOrNoMemory (refused_by Backend) → ⊥ }
    ensures found { FindsRoom (refused_by Backend) }
    ensures full { FindsRoom (refused_by DpbFull) → ⊥ }
    ensures few { NeverStoreMore plain }
{}

/// A fault of the backend is counted; a backend that counts none can be.
pub fn counts()
    ensures counted { CountsErrors (counts_of 0 0) (counts_of 1 0) (without_unit (refused_by Backend)) }
    ensures uncounted { CountsErrors (counts_of 0 0) (counts_of 0 0) (without_unit (refused_by Backend)) → ⊥ }
    ensures none { CountsNone (counts_of 0 0) (counts_of 0 0) }
    ensures one { CountsNone (counts_of 0 0) (counts_of 1 0) → ⊥ }
{}

/// A position stays after a refusal.
pub fn positions()
    ensures stays { StaysUnlessTaken (next_refused_by DpbFull) 5 5 }
    ensures moves { StaysUnlessTaken (next_refused_by DpbFull) 5 6 → ⊥ }
{}
