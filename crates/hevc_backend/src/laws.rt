//! What is marked as used for reference can be handed to a backend.
ghost use Rattle.std.specs.Prelude.{◌≡◌, ℕ, true, List};
ghost use Rattle.hevc_walk.specs.Meanings.{Slice};
ghost use Rattle.hevc_walk.specs.ReferenceSets.{names, all_members};
ghost use Rattle.hevc_walk.specs.ReferenceLists.{ref_pic_list0, ref_pic_list1};
ghost use Rattle.hevc_walk_marks.specs.Marked.{has_reference};
ghost use Rattle.hevc_dpb.specs.declared.entry.DpbEntry.{DpbEntry};
ghost use Rattle.hevc_dpb.specs.Entries.{numbers, reference_numbers};
ghost use Rattle.hevc_dpb.specs.Plain.{plain_entries};
ghost use Rattle.hevc_refs.specs.declared.ref_pic_set.RefPicSet.{RefPicSet};
ghost use Rattle.hevc_refs.specs.declared.ref_pic_list.RefPicList.{RefPicList};
ghost use Rattle.hevc_refs.specs.Sets.{plain_set};
ghost use Rattle.hevc_refs.specs.Lists.{places_of, plain_places};
ghost use Rattle.hevc_backend.specs.Named.{SetNamesAmong, ListNamesAmong};

/// A reference picture set whose members are used for reference names references alone, these are
/// stored, and the lists that are built from it name no others (8.3.2, 8.3.4).
pub fn references_are_stored<T: Copy>()
    ensures set { (set : RefPicSet) (es : List (DpbEntry T))
        → ((n : ℕ) → names n (all_members (plain_set set)) ≡ true
        → has_reference n (plain_entries es) ≡ true)
        → SetNamesAmong (reference_numbers es) set }
    ensures stored { (set : RefPicSet) (es : List (DpbEntry T))
        → SetNamesAmong (reference_numbers es) set → SetNamesAmong (numbers es) set }
    ensures list0 { (ns : List ℕ) (set : RefPicSet) (s : Slice) (list : RefPicList)
        → plain_places (places_of list) ≡ ref_pic_list0 (plain_set set) s
        → SetNamesAmong ns set → ListNamesAmong ns list }
    ensures list1 { (ns : List ℕ) (set : RefPicSet) (s : Slice) (list : RefPicList)
        → plain_places (places_of list) ≡ ref_pic_list1 (plain_set set) s
        → SetNamesAmong ns set → ListNamesAmong ns list }
{}
