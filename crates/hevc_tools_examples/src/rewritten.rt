//! Streams whose parameter sets are written anew.

ghost use Rattle.std.specs.Prelude.{[], ◌∷◌};
ghost use Rattle.hevc_stream.specs.Kept.{none_kept};
ghost use Rattle.hevc_stream_examples.specs.Worked.{idr_stream, longer_idr_stream, ended_stream, ended_twice_stream, truncated_stream};
ghost use Rattle.hevc_write.specs.Rewriting.{DecodesTheSame, IsRewriting, IsRewritten, IsWrittenAnew};

/// No unit, and an end of sequence whose second byte is 0.
pub fn right_rewritings()
    ensures nothing { IsRewriting [] [] }
    ensures copied { IsRewritten none_kept (72 ∷ 0 ∷ []) (72 ∷ 0 ∷ 128 ∷ []) }
{}

/// A byte more, a unit more, and a unit less; a stream that isn't refused.
pub fn wrong_rewritings()
    ensures byte { IsRewriting [] (0 ∷ []) → ⊥ }
    ensures unit { IsRewriting [] (0 ∷ 0 ∷ 1 ∷ 2 ∷ []) → ⊥ }
    ensures dropped { IsRewriting (0 ∷ 0 ∷ 1 ∷ 2 ∷ []) [] → ⊥ }
    ensures decodes { IsRewriting truncated_stream [] → ⊥ }
{}

/// A slice of other bytes; an output at another unit; a stream that isn't refused.
pub fn wrong_decodings()
    ensures calls { DecodesTheSame idr_stream longer_idr_stream → ⊥ }
    ensures outputs { DecodesTheSame ended_stream ended_twice_stream → ⊥ }
    ensures verdict { DecodesTheSame truncated_stream [] → ⊥ }
{}

/// Another header, a first bit of 1, what is no set, and what means something else; a unit that isn't copied.
pub fn wrong_units()
    ensures header { IsWrittenAnew none_kept (66 ∷ 1 ∷ []) (68 ∷ 1 ∷ []) → ⊥ }
    ensures first_bit { IsWrittenAnew none_kept (66 ∷ 1 ∷ []) (194 ∷ 1 ∷ []) → ⊥ }
    ensures no_set { IsWrittenAnew none_kept (72 ∷ 1 ∷ []) (72 ∷ 1 ∷ []) → ⊥ }
    ensures meant { IsWrittenAnew none_kept (72 ∷ 1 ∷ []) (72 ∷ 0 ∷ []) → ⊥ }
    ensures copied { IsRewritten none_kept (72 ∷ 1 ∷ []) [] → ⊥ }
{}
