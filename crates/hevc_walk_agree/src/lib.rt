//! Going unit by unit asks for what the pictures ask.
#![tactic(auto)]

ghost use Rattle.std.specs.Prelude.{◌≡◌, ℕ, ◌+◌, List, ◌++◌, ◌∷◌, map, length, [], Some, None};
ghost use Rattle.hevc_walk.specs.Meanings.{Meaning, Other};
ghost use Rattle.hevc_walk.specs.Pictures.{Stream, stream};
ghost use Rattle.hevc_walk.specs.Walk.{at_unit};
ghost use Rattle.hevc_walk.specs.Refusals.{refusal, first_refusal, stop};
ghost use Rattle.hevc_walk.specs.Results.{calls, outputs, verdict, full, walk_events, calls_in};
ghost use Rattle.hevc_walk.specs.Results.{outputs_in, calls_below, calls_of_unit, calls_above};
ghost use Rattle.hevc_walk.specs.Results.{outputs_of_unit, outputs_above, so_far, full_or};
ghost use Rattle.hevc_walk_units.specs.Units.{calls_by_units, outputs_by_units, verdict_by_units};
ghost use Rattle.hevc_walk_units.specs.Units.{unit_part, refusal_at, is_full_at, events_from};
ghost use Rattle.hevc_walk_units.specs.Units.{verdict_from};
ghost use Rattle.hevc_walk_agree.specs.Standings.{standing, full_by, Takes};
ghost use Rattle.hevc_walk_agree.specs.Submissions.{SubmitsFirst};
ghost use Rattle.hevc_walk_agree.specs.Raised.{raised_call, raised_output, raised_verdict};

/// Going unit by unit makes the calls of the pictures.
pub fn same_calls()
    ensures { (us : List Meaning) → calls_by_units us ≡ calls us }
{}

/// Going unit by unit gives the outputs of the pictures.
pub fn same_outputs()
    ensures { (us : List Meaning) → outputs_by_units us ≡ outputs us }
{}

/// Going unit by unit ends with the verdict on the pictures.
pub fn same_verdict()
    ensures { (us : List Meaning) → verdict_by_units us ≡ verdict us }
{}

/// One more unit that isn't refused does what the standing after the units before it asks, and
/// leads to the standing after all of them.
pub fn next_moment()
    ensures { (us : List Meaning) (x : Meaning) → refusal (stream us) x ≡ None
        → Takes (length us) (stream us) (unit_part x (standing (stream us)))
        (is_full_at x (standing (stream us))) (stream (us ++ x ∷ [])) }
{}

/// Before a unit, what the units before it ask is done: nothing of it depends on what comes.
pub fn done_before()
    ensures calls { (front back : List Meaning) → stop front ≡ None
        → calls_below (length front) (calls (front ++ back))
        ≡ calls_in (walk_events (stream front)) }
    ensures outputs { (front back : List Meaning) → stop front ≡ None
        → so_far (length front) (front ++ back) ≡ outputs_in (walk_events (stream front)) }
{}

/// At a unit, what its part asks is done, whether it is refused or not.
pub fn done_at()
    ensures calls { (front : List Meaning) (x : Meaning) (back : List Meaning) → stop front ≡ None
        → calls_of_unit (length front) (calls (front ++ x ∷ back))
        ≡ calls_in (at_unit (length front) (unit_part x (standing (stream front))).events) }
    ensures outputs { (front : List Meaning) (x : Meaning) (back : List Meaning) → stop front ≡ None
        → outputs_of_unit (length front) (outputs (front ++ x ∷ back))
        ≡ outputs_in (at_unit (length front) (unit_part x (standing (stream front))).events) }
{}

/// What a list of units asks is what those in front ask, then what is asked from the next one on;
/// so is the verdict.
pub fn done_from()
    ensures calls { (front back : List Meaning) → stop front ≡ None
        → calls (front ++ back)
        ≡ calls_in (walk_events (stream front))
        ++ calls_in (events_from (standing (stream front)) (length front) back) }
    ensures outputs { (front back : List Meaning) → stop front ≡ None
        → outputs (front ++ back)
        ≡ outputs_in (walk_events (stream front))
        ++ outputs_in (events_from (standing (stream front)) (length front) back) }
    ensures verdict { (front back : List Meaning) → stop front ≡ None
        → verdict (front ++ back)
        ≡ full_or (full_by (stream front))
        (verdict_from (standing (stream front)) (length front) back) }
{}

/// Calls and outputs are in the order of their units: those below a unit, those at it, and those
/// above.
pub fn in_unit_order()
    ensures calls { (us : List Meaning) (k : ℕ)
        → calls us ≡ calls_below k (calls us) ++ calls_of_unit k (calls us)
        ++ calls_above k (calls us) }
    ensures outputs { (us : List Meaning) (k : ℕ)
        → outputs us ≡ so_far k us ++ outputs_of_unit k (outputs us)
        ++ outputs_above k (outputs us) }
{}

/// A unit that means nothing may be taken out: the units after it come one place earlier.
pub fn dropped_unit()
    ensures calls { (front back : List Meaning)
        → calls (front ++ Other ∷ back) ≡ map (raised_call (length front)) (calls (front ++ back)) }
    ensures outputs { (front back : List Meaning)
        → outputs (front ++ Other ∷ back)
        ≡ map (raised_output (length front)) (outputs (front ++ back)) }
    ensures verdict { (front back : List Meaning)
        → verdict (front ++ Other ∷ back)
        ≡ raised_verdict (length front) (verdict (front ++ back)) }
{}

/// Where a picture is first to be stored into a full buffer, its submission is the first call of
/// that unit.
pub fn full_submits()
    ensures { (us : List Meaning) (k : ℕ) → full us ≡ Some k → SubmitsFirst k (calls us) }
{}

/// Both forms refuse the same units, and a further unit stops a list exactly where it is refused.
pub fn next_stop()
    ensures same { (v : Stream) (x : Meaning) → refusal_at x (standing v) ≡ refusal v x }
    ensures last { (us : List Meaning) (x : Meaning) → stop us ≡ None
        → stop (us ++ x ∷ []) ≡ first_refusal (length us) (refusal (stream us) x) None }
{}

/// Nothing is asked or output after the end of the stream, whose place is the number of units.
pub fn done_by_the_end()
    ensures calls { (us : List Meaning) → calls_below (length us + 1) (calls us) ≡ calls us }
    ensures outputs { (us : List Meaning) → so_far (length us + 1) us ≡ outputs us }
{}
