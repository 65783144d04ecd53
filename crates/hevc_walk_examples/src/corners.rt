//! Streams that each turn on one rule.

ghost use Rattle.std.specs.Prelude.{◌≡◌, ℤ, pos, negsuc, true, false, ◌^◌, List, [], ◌∷◌, Some};
ghost use Rattle.std.specs.Prelude.{None, Ok, Err};
ghost use Rattle.hevc_walk.specs.Meanings.{OutOfBits};
ghost use Rattle.hevc_walk.specs.ReferenceSets.{no_references};
ghost use Rattle.hevc_walk.specs.ReferenceLists.{DpbEntry, CurrentPicture};
ghost use Rattle.hevc_walk.specs.Walk.{NewSequence, NewPicture, BeginPicture, DecodeSlice};
ghost use Rattle.hevc_walk.specs.Walk.{SubmitPicture};
ghost use Rattle.hevc_walk.specs.Refusals.{UnitRefused, NoIndependentSlice, PocOutOfRange};
ghost use Rattle.hevc_walk.specs.Results.{calls, verdict};
ghost use Rattle.hevc_walk.specs.Fates.{Skipped, Hidden, Discarded, ForOutput};
ghost use Rattle.hevc_walk_examples.specs.Streams.{plain_format, deep_format, told_outputs};
ghost use Rattle.hevc_walk_examples.specs.Streams.{slice_lists, new_pictures, idr_bytes, p4_bytes};
ghost use Rattle.hevc_walk_examples.specs.Corners.{long_terms, screen, latent, roomless, unneeded};
ghost use Rattle.hevc_walk_examples.specs.Corners.{without_prior, with_prior, rasl_first, tid0};
ghost use Rattle.hevc_walk_examples.specs.Corners.{broken_link, open_gop, handled_cra};
ghost use Rattle.hevc_walk_examples.specs.Corners.{handled_rasl, dependent_p, other_set};
ghost use Rattle.hevc_walk_examples.specs.Corners.{fewer_sets, far_count, refused_slice};
ghost use Rattle.hevc_walk_examples.specs.Corners.{set_of_sps, reference_sets, fates};

/// Long-term pictures are found before short-term ones, by their low bits or by their whole order
/// count, and what no list names isn't used for reference any more.
pub fn long_term_pictures()
    ensures sets { reference_sets long_terms ≡ (0, no_references)
        ∷ (1, record no_references { st_curr_before = Some 0 ∷ [] })
        ∷ (2, record no_references { st_curr_before = Some 1 ∷ Some 0 ∷ [] })
        ∷ (
          3,
          record no_references {
            st_curr_before = None ∷ Some 1 ∷ [];
            lt_curr = Some 0 ∷ Some 2 ∷ [];
          },
        )
        ∷ (
          4,
          record no_references {
            st_curr_before = None ∷ [];
            st_foll = Some 1 ∷ [];
            lt_curr = Some 0 ∷ [];
            lt_foll = Some 2 ∷ [];
          },
        )
        ∷ (
          5,
          record no_references {
            st_curr_before = None ∷ Some 1 ∷ [];
            lt_curr = Some 2 ∷ [];
          },
        )
        ∷ [] }
    ensures lists { slice_lists long_terms
        ≡ (0, [], []) ∷ (1, Some (DpbEntry 0) ∷ [], []) ∷
        (2, Some (DpbEntry 1) ∷ Some (DpbEntry 0) ∷ [], [])
        ∷ (3, None ∷ Some (DpbEntry 1) ∷ Some (DpbEntry 0) ∷ Some (DpbEntry 2) ∷ None ∷ [], [])
        ∷ (4, Some (DpbEntry 0) ∷ Some (DpbEntry 0) ∷ None ∷ [], [])
        ∷ (5, None ∷ Some (DpbEntry 1) ∷ Some (DpbEntry 2) ∷ None ∷ Some (DpbEntry 1) ∷ [], [])
        ∷ [] }
{}

/// The current picture is last in the bases, and takes the last place of a list 0 that has no place
/// for it.
pub fn current_picture()
    ensures { slice_lists screen
        ≡ (0, [], []) ∷ (1, Some CurrentPicture ∷ [], []) ∷
        (1, Some (DpbEntry 0) ∷ Some CurrentPicture ∷ Some (DpbEntry 0) ∷ [], [])
        ∷ (1, Some (DpbEntry 0) ∷ [], [])
        ∷ (1, Some CurrentPicture ∷ [], Some (DpbEntry 0) ∷ Some CurrentPicture ∷ []) ∷ [] }
{}

/// A picture is output once as many were stored after it as SpsMaxLatencyPictures says, hidden ones
/// too.
pub fn latency()
    ensures outputs { told_outputs latent ≡ (0, pos 0, 6) ∷ [] }
    ensures fates { fates latent ≡ Hidden ∷ Hidden ∷ Hidden ∷ Hidden ∷ ForOutput ∷ [] }
{}

/// Pictures are output before one is decoded, until the buffer has room; those that aren't needed
/// leave first.
pub fn room()
    ensures bumped { told_outputs roomless ≡ (0, pos 0, 4) ∷ (2, pos 2, 5) ∷ (1, pos 4, 5) ∷ [] }
    ensures left { told_outputs unneeded ≡ (0, pos 0, 5) ∷ (2, pos 2, 5) ∷ [] }
{}

/// An IDR picture discards what is needed for output where its flag says so.
pub fn prior_pictures()
    ensures without { told_outputs without_prior ≡ (0, pos 0, 4) ∷ (2, pos 0, 5) ∷ [] }
    ensures without_fates { fates without_prior ≡ ForOutput ∷ Discarded ∷ ForOutput ∷ [] }
    ensures with_them { told_outputs with_prior ≡ (0, pos 0, 4) ∷ (1, pos 4, 4) ∷ (2, pos 0, 5) ∷ [] }
{}

/// RASL pictures before any IRAP picture are decoded; the first one isn't output.
pub fn leading_alone()
    ensures pictures { new_pictures rasl_first ≡ (0, 9, pos 6, false) ∷ (1, 9, pos 4, true) ∷ [] }
    ensures outputs { told_outputs rasl_first ≡ (1, pos 4, 4) ∷ [] }
{}

/// Order counts are taken from the latest picture of temporal id 0 that is no leading and no
/// sub-layer non-reference one.
pub fn earlier_pictures()
    ensures { new_pictures tid0
        ≡ (0, 19, pos 0, true) ∷ (1, 0, pos 7, true) ∷ (2, 1, pos 8, true) ∷ (3, 7, pos 5, true) ∷
        (4, 1, negsuc 6, true) ∷ [] }
{}

/// At a BLA picture what is needed for output is output, and its RASL pictures are skipped; those
/// of a CRA picture within a sequence aren't.
pub fn random_access()
    ensures broken_link { told_outputs broken_link ≡ (0, pos 0, 4) ∷ (1, pos 4, 4) ∷ (2, pos 8, 6) ∷ [] }
    ensures skipped { fates broken_link ≡ Skipped ∷ ForOutput ∷ ForOutput ∷ ForOutput ∷ [] }
    ensures open_gop { new_pictures open_gop
        ≡ (0, 19, pos 0, true) ∷ (1, 21, pos 8, true) ∷ (2, 9, pos 6, true) ∷ [] }
    ensures within { told_outputs open_gop
        ≡ (0, pos 0, 4) ∷ (2, pos 6, 5) ∷ (1, pos 8, 5) ∷ [] }
{}

/// A CRA picture within a sequence that is handled as a BLA picture discards what is needed for
/// output, and its RASL pictures are skipped; at other pictures the flag says nothing.
pub fn handled_as_bla()
    ensures pictures { new_pictures handled_cra ≡ (0, 19, pos 0, true) ∷ (1, 21, pos 8, true) ∷ [] }
    ensures fates { fates handled_cra ≡ Skipped ∷ ForOutput ∷ Discarded ∷ [] }
    ensures cra_alone { new_pictures handled_rasl
        ≡ (0, 19, pos 0, true) ∷ (1, 21, pos 8, true) ∷ (2, 9, pos 6, true) ∷ [] }
{}

/// What a dependent slice takes from the independent one before it, and when it is refused.
pub fn dependent_headers()
    ensures taken { calls dependent_p ≡ (0, NewSequence plain_format)
        ∷ (2, NewPicture 0 19 (pos 0) true 0) ∷ (2, BeginPicture 0 no_references)
        ∷ (2, DecodeSlice 0 0 idr_bytes [] [])
        ∷ (3, SubmitPicture 0)
        ∷ (3, NewPicture 1 1 (pos 4) true 0)
        ∷ (3, BeginPicture 1 (record no_references { st_curr_before = Some 0 ∷ [] }))
        ∷ (3, DecodeSlice 1 0 p4_bytes (Some (DpbEntry 0) ∷ []) [])
        ∷ (4, DecodeSlice 1 3 (2 ∷ 1 ∷ []) (Some (DpbEntry 0) ∷ []) [])
        ∷ (5, SubmitPicture 1) ∷ [] }
    ensures other_set { verdict other_set ≡ Err (record { unit = 3; cause = NoIndependentSlice }) }
    ensures fewer_sets { verdict fewer_sets
        ≡ Err (record { unit = 3; cause = NoIndependentSlice }) }
{}

/// A picture whose order count is out of range still ends the one before it, and negotiates its
/// format.
pub fn far_counts()
    ensures calls { calls far_count ≡ (0, NewSequence plain_format)
        ∷ (2, NewPicture 0 19 (pos 0) true 0) ∷ (2, BeginPicture 0 no_references)
        ∷ (2, DecodeSlice 0 0 idr_bytes [] [])
        ∷ (3, SubmitPicture 0) ∷ (3, NewSequence deep_format) ∷ [] }
    ensures outputs { told_outputs far_count ≡ (0, pos 0, 3) ∷ [] }
    ensures verdict { verdict far_count ≡ Err (record { unit = 3; cause = PocOutOfRange }) }
{}

/// A refused unit ends nothing that is open.
pub fn refused_units()
    ensures calls { calls refused_slice
        ≡ (0, NewSequence plain_format) ∷ (2, NewPicture 0 19 (pos 0) true 0) ∷
        (2, BeginPicture 0 no_references) ∷ (2, DecodeSlice 0 0 idr_bytes [] []) ∷ [] }
    ensures outputs { told_outputs refused_slice ≡ [] }
    ensures verdict { verdict refused_slice
        ≡ Err (record { unit = 3; cause = UnitRefused OutOfBits }) }
{}

/// The short-term set may be one of the sequence set's.
pub fn sets_of_sequence()
    ensures { slice_lists set_of_sps ≡ (0, [], []) ∷ (1, Some (DpbEntry 0) ∷ [], []) ∷ [] }
{}
