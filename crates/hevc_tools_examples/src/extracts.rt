//! What is extracted of worked streams.

ghost use Rattle.std.specs.Prelude.{[], ◌∷◌, Option};
ghost use Rattle.std.specs.declared.option.Option.TheVariants.{None};
ghost use Rattle.hevc_stream_examples.specs.Worked.{idr_stream, longer_idr_stream, ended_stream, ended_twice_stream, truncated_stream};
ghost use Rattle.hevc_extract.specs.Alike.{DecodesAlike, HoldsKept};
ghost use Rattle.hevc_extract.specs.Extracting.{TellsRefusal};
ghost use Rattle.hevc_tools_examples.specs.Extracts.{keeps, refuses, refused_first};

/// All of a stream is kept; the second unit is refused.
pub fn right_extracts()
    ensures holds { HoldsKept 6 63 idr_stream idr_stream }
    ensures alike { DecodesAlike 6 63 idr_stream idr_stream }
    ensures refused { TellsRefusal (refuses 1) (refused_first 1) }
    ensures kept { TellsRefusal (keeps 3 1) None }
{}

/// A unit more, a unit at another place, and no unit.
pub fn wrong_units()
    ensures more { HoldsKept 6 63 ended_stream ended_twice_stream → ⊥ }
    ensures place { HoldsKept 6 63 (0 ∷ 0 ∷ 1 ∷ 72 ∷ 1 ∷ []) (0 ∷ 0 ∷ 0 ∷ 1 ∷ 72 ∷ 1 ∷ []) → ⊥ }
    ensures meant { HoldsKept 6 63 idr_stream [] → ⊥ }
{}

/// A slice of other bytes; an output at another unit; a stream that isn't refused.
pub fn wrong_decodings()
    ensures calls { DecodesAlike 6 63 idr_stream longer_idr_stream → ⊥ }
    ensures outputs { DecodesAlike 6 63 ended_stream ended_twice_stream → ⊥ }
    ensures verdict { DecodesAlike 6 63 truncated_stream [] → ⊥ }
{}

/// Another unit is refused, none where one is, and one where none is.
pub fn wrong_refusals()
    ensures unit { TellsRefusal (refuses 1) (refused_first 2) → ⊥ }
    ensures kept { TellsRefusal (keeps 3 1) (refused_first 2) → ⊥ }
    ensures refused { TellsRefusal (refuses 1) None → ⊥ }
{}
