//! Streams that each turn on what a picture may refer to.

ghost use Rattle.std.specs.Prelude.{◌≡◌, pos, negsuc, true, List, [], ◌∷◌, Some, None, Ok, Err};
ghost use Rattle.hevc_walk.specs.ReferenceSets.{no_references};
ghost use Rattle.hevc_walk.specs.ReferenceLists.{CurrentPicture, DpbEntry};
ghost use Rattle.hevc_walk.specs.Refusals.{PocOutOfRange};
ghost use Rattle.hevc_walk.specs.Results.{verdict};
ghost use Rattle.hevc_walk_examples.specs.Streams.{slice_lists, new_pictures};
ghost use Rattle.hevc_walk_examples.specs.Corners.{reference_sets};
ghost use Rattle.hevc_walk_examples.specs.References.{between, kept_for_later, kept_on_both_sides};
ghost use Rattle.hevc_walk_examples.specs.References.{unmarked_waits, idr_under_set};
ghost use Rattle.hevc_walk_examples.specs.References.{broken_link_set, screen_pair, rasl_tid0};
ghost use Rattle.hevc_walk_examples.specs.References.{counted_anew, ended_within, far_step};
ghost use Rattle.hevc_walk_examples.specs.References.{far_msb, dependent_of_1, dependent_twice};

/// Both lists of a B picture have the pictures before it, those after it and the long-term ones,
/// and go round them.
pub fn lists_of_both()
    ensures { slice_lists between
        ≡ (0, [], []) ∷ (1, Some (DpbEntry 0) ∷ [], []) ∷ (2, Some (DpbEntry 1) ∷ [], [])
        ∷ (
          3,
          Some (DpbEntry 0) ∷ Some (DpbEntry 2) ∷ Some (DpbEntry 1) ∷ Some (DpbEntry 0) ∷ [],
          Some (DpbEntry 2) ∷ Some (DpbEntry 0) ∷ Some (DpbEntry 1) ∷ Some (DpbEntry 2) ∷ [],
        )
        ∷ [] }
{}

/// A picture that is named for later pictures alone stays, before and after the current one in
/// output order, and of two such ones the one before it is named first; what is only kept for
/// output, and what is stored as a sequence begins, is no reference picture.
pub fn kept_references()
    ensures later { reference_sets kept_for_later ≡ (0, no_references)
        ∷ (1, record no_references { st_curr_before = Some 0 ∷ [] })
        ∷ (2, record no_references { st_curr_before = Some 0 ∷ []; st_foll = Some 1 ∷ [] })
        ∷ (3, record no_references { st_curr_before = Some 2 ∷ []; st_curr_after = Some 1 ∷ [] })
        ∷ (4, record no_references { st_curr_before = Some 3 ∷ []; st_curr_after = Some 1 ∷ [] })
        ∷ [] }
    ensures both { reference_sets kept_on_both_sides ≡ (0, no_references)
        ∷ (1, record no_references { st_curr_before = Some 0 ∷ [] })
        ∷ (2, record no_references { st_foll = Some 0 ∷ Some 1 ∷ [] }) ∷ [] }
    ensures unmarked { reference_sets unmarked_waits ≡ (0, no_references) ∷ (1, no_references)
        ∷ (2, record no_references { st_curr_before = None ∷ []; lt_curr = None ∷ [] }) ∷ [] }
    ensures idr { reference_sets idr_under_set ≡ (0, no_references) ∷ [] }
    ensures begun { reference_sets broken_link_set ≡ (0, no_references)
        ∷ (1, record no_references { st_curr_before = None ∷ []; lt_curr = None ∷ [] }) ∷ [] }
{}

/// The current picture takes the last place of a list 0 that has none for it, and the others stay.
pub fn current_picture_last()
    ensures { slice_lists screen_pair
        ≡ (0, [], []) ∷ (1, Some (DpbEntry 0) ∷ [], []) ∷
        (2, Some (DpbEntry 1) ∷ Some CurrentPicture ∷ [], []) ∷ [] }
{}

/// Order counts aren't taken from a RASL picture, begin anew with a BLA picture, and go on after an
/// end of sequence without an IRAP picture.
pub fn counts_go_on()
    ensures rasl { new_pictures rasl_tid0
        ≡ (0, 19, pos 0, true) ∷ (1, 21, pos 8, true) ∷ (2, 9, pos 1, true) ∷ (3, 1, pos 16, true)
        ∷ [] }
    ensures anew { new_pictures counted_anew
        ≡ (0, 19, pos 0, true) ∷ (1, 1, pos 8, true) ∷ (2, 1, pos 16, true) ∷ (3, 18, pos 8, true)
        ∷ [] }
    ensures within { new_pictures ended_within
        ≡ (0, 19, pos 0, true) ∷ (1, 1, pos 4, true) ∷ (2, 1, negsuc 1, true) ∷ [] }
{}

/// An order count is looked at with those of all pictures before it, and so are its most
/// significant bits.
pub fn far_order_counts()
    ensures step { verdict far_step ≡ Err (record { unit = 4; cause = PocOutOfRange }) }
    ensures msb { verdict far_msb ≡ Err (record { unit = 3; cause = PocOutOfRange }) }
{}

/// Each of two dependent slices has the header of the independent one before both, and any of a
/// picture names its set.
pub fn two_dependent_slices()
    ensures named { verdict dependent_of_1 ≡ Ok 1 }
    ensures lists { slice_lists dependent_twice
        ≡ (0, [], []) ∷ (1, Some (DpbEntry 0) ∷ [], []) ∷ (1, Some (DpbEntry 0) ∷ [], [])
        ∷ (1, Some (DpbEntry 0) ∷ [], []) ∷ [] }
{}
