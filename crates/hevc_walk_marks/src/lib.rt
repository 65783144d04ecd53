//! Which pictures reference picture sets and lists name, and which are marked (8.3.2, 8.3.4).
#![tactic(auto)]

ghost use Rattle.std.specs.Prelude.{◌≡◌, ℕ, true, false, All};
ghost use Rattle.hevc_walk.specs.Meanings.{Slice};
ghost use Rattle.hevc_walk.specs.Pictures.{Head};
ghost use Rattle.hevc_walk.specs.Buffer.{Buffer, is_reference};
ghost use Rattle.hevc_walk.specs.ReferenceSets.{names, all_members, reference_set, with_marks};
ghost use Rattle.hevc_walk.specs.ReferenceSets.{RefPicSet};
ghost use Rattle.hevc_walk.specs.ReferenceLists.{ref_pic_list0, ref_pic_list1};
ghost use Rattle.hevc_walk_marks.specs.Listed.{lists};
ghost use Rattle.hevc_walk_bumps.specs.Steps.{Distinct};
ghost use Rattle.hevc_walk_marks.specs.Marked.{has_reference, short_term_members};
ghost use Rattle.hevc_walk_marks.specs.Marked.{long_term_members};

/// After a picture's reference picture set each picture that a list names is used for reference,
/// and what no list names isn't. No picture is a short-term and a long-term member.
pub fn marked_are_named()
    ensures each { (p : Head) (first : Slice) (es : Buffer) (n : ℕ)
        → names n (all_members (reference_set p first es)) ≡ true
        → has_reference n (with_marks p first es) ≡ true }
    ensures exactly { (p : Head) (first : Slice) (es : Buffer) → Distinct es
        → All (λ e. is_reference e.mark ≡ names e.number (all_members (reference_set p first es)))
        (with_marks p first es) }
    ensures apart { (p : Head) (first : Slice) (es : Buffer) (n : ℕ)
        → names n (short_term_members (reference_set p first es)) ≡ true
        → names n (long_term_members (reference_set p first es)) ≡ false }
{}

/// Each stored picture at a place of a reference picture list is one that the reference picture set
/// names.
pub fn listed_are_named()
    ensures list0 { (set : RefPicSet) (s : Slice) (n : ℕ) → lists n (ref_pic_list0 set s) ≡ true
        → names n (all_members set) ≡ true }
    ensures list1 { (set : RefPicSet) (s : Slice) (n : ℕ) → lists n (ref_pic_list1 set s) ≡ true
        → names n (all_members set) ≡ true }
{}
