//! At which picture of a stream a bound doesn't hold that is enough for output in order (7.4.3.2.1,
//! C.5.2), and that all hold exactly where each coded video sequence keeps `KeepsBounds`, or
//! `KeepsOrder`.
#![tactic(auto)]

pub mod rows;

ghost use Rattle.std.specs.Prelude.{◌≡◌, ℕ, Bool, List, length, All, Some, None, Ok};
ghost use Rattle.hevc_walk.specs.Meanings.{Meaning};
ghost use Rattle.hevc_walk.specs.Pictures.{Picture, pictures};
ghost use Rattle.hevc_walk.specs.Results.{outputs, verdict};
ghost use Rattle.hevc_walk_order.specs.Sequences.{Sequence, IsSequence, sequences, pictures_for_output, outputs_of};
ghost use Rattle.hevc_walk_order.specs.DisplayOrder.{KeepsOrder, AreInOrder};
ghost use Rattle.hevc_walk_order.specs.Bounds.{KeepsBounds};
ghost use Rattle.hevc_check_laws.specs.Breaches.{Breach};
ghost use Rattle.hevc_check_laws.specs.Checks.{BrokenAt, lowest_broken, BreaksNothing, IsLowest, NoneBreaksBounds, NoneBreaksOrder, Yes, checked_bounds, checked_order};

/// No picture breaks the plainer bounds exactly where every coded video sequence keeps them. In a
/// stream that isn't refused the outputs of each sequence then are exactly its pictures that are to
/// be output, in strictly rising order count (C.5.2).
pub fn bounds_checked()
    ensures kept { (us : List Meaning) → NoneBreaksBounds us
        → (q : Sequence) → IsSequence us q → KeepsBounds us q }
    ensures unbroken { (us : List Meaning) → All (KeepsBounds us) (sequences us)
        → NoneBreaksBounds us }
    ensures yes { (us : List Meaning) (m n : ℕ) → checked_bounds us ≡ Yes m n
        → All (KeepsBounds us) (sequences us) }
    ensures counts { (us : List Meaning) → All (KeepsBounds us) (sequences us)
        → checked_bounds us ≡ Yes (length (sequences us)) (length (pictures us)) }
    ensures outputs { (us : List Meaning) (k m n : ℕ) → verdict us ≡ Ok k
        → checked_bounds us ≡ Yes m n → (q : Sequence) → IsSequence us q
        → AreInOrder (pictures_for_output q) (outputs_of q (outputs us)) }
{}

/// No picture breaks display order exactly where every coded video sequence keeps the order that it
/// declares. In a stream that isn't refused the outputs of each sequence then are exactly its
/// pictures that are to be output, in strictly rising order count (C.5.2). It is so where the
/// plainer bounds are kept.
pub fn order_checked()
    ensures kept { (us : List Meaning) → NoneBreaksOrder us
        → (q : Sequence) → IsSequence us q → KeepsOrder us q }
    ensures unbroken { (us : List Meaning) → All (KeepsOrder us) (sequences us)
        → NoneBreaksOrder us }
    ensures yes { (us : List Meaning) (m n : ℕ) → checked_order us ≡ Yes m n
        → All (KeepsOrder us) (sequences us) }
    ensures counts { (us : List Meaning) → All (KeepsOrder us) (sequences us)
        → checked_order us ≡ Yes (length (sequences us)) (length (pictures us)) }
    ensures outputs { (us : List Meaning) (k m n : ℕ) → verdict us ≡ Ok k
        → checked_order us ≡ Yes m n → (q : Sequence) → IsSequence us q
        → AreInOrder (pictures_for_output q) (outputs_of q (outputs us)) }
    ensures bounds { (us : List Meaning) (m n : ℕ) → checked_bounds us ≡ Yes m n
        → checked_order us ≡ Yes m n }
{}

/// By either table, what is named is the lowest numbered picture that breaks something, with the
/// first of what it breaks, exactly where there is one.
pub fn lowest_named()
    ensures none { (breaks : Picture → List Picture → Breach → Bool) (ps : List Picture)
        → lowest_broken breaks ps ≡ None → BreaksNothing breaks ps }
    ensures nothing { (breaks : Picture → List Picture → Breach → Bool) (ps : List Picture)
        → BreaksNothing breaks ps → lowest_broken breaks ps ≡ None }
    ensures lowest { (breaks : Picture → List Picture → Breach → Bool) (ps : List Picture)
        (broken : BrokenAt) → lowest_broken breaks ps ≡ Some broken → IsLowest breaks ps broken }
    ensures named { (breaks : Picture → List Picture → Breach → Bool) (ps : List Picture)
        (broken : BrokenAt) → IsLowest breaks ps broken → lowest_broken breaks ps ≡ Some broken }
{}
