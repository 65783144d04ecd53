//! Building the reference picture lists of a slice (8.3.4).
ghost use Rattle.std.specs.Prelude.{◌≡◌, ◌≤◌, ◌<◌, ◌-◌, ◌%◌, ◌++◌, ◌∷◌, [], ℕ, true, length, map};
ghost use Rattle.std.specs.Prelude.{take, slice_index_or, Some, None, if◌then◌else◌, option_map};
ghost use Rattle.arrayvec.specs.ArrayVec.{array_vec_len};
ghost use Rattle.hevc_walk.specs.Meanings.{Slice};
ghost use Rattle.hevc_walk.specs.ReferenceLists.{entry_of_number, entry_index, list_places};
ghost use Rattle.hevc_walk.specs.ReferenceLists.{with_current, base0, base1, ref_pic_list0};
ghost use Rattle.hevc_walk.specs.ReferenceLists.{ref_pic_list1};
ghost use Rattle.hevc_walk.specs.ReferenceLists as walk;
ghost use Rattle.hevc_refs.specs.Sets.{plain_set};
ghost use Rattle.hevc_refs.specs.Lists.{base_places, plain_place, plain_places, places_of};
ghost use Rattle.hevc_refs.specs.Lists.{HasHeader};

use crate::ref_pic_list::{RefPicList, RefPicListEntry, ReferencePicLists};
use crate::ref_pic_set::RefPicSet;
use arrayvec::ArrayVec;
use hevc_picture_slice::SliceHeader;
use hevc_set_parts::SliceType;

/// A stored picture, by its number.
fn place_of(number: Option<u64>) -> Option<RefPicListEntry>
    ensures { option_map plain_place result ≡ entry_of_number number }
{
    match number {
        None => None,
        Some(number) => Some(RefPicListEntry::DpbEntry(number)),
    }
}

/// What a list is taken from: RefPicListTemp0 (8-8) or RefPicListTemp1 (8-10), gone through once.
/// It has the members of three lists and, where it may be referred to, the current picture.
#[derive(Drop)]
struct Base<'a> {
    first: &'a [Option<u64>],
    second: &'a [Option<u64>],
    long_term: &'a [Option<u64>],
    has_current: bool,
    ghost few_first: { length first.now ≤ 16 },
    ghost few_second: { length second.now ≤ 16 },
    ghost few_long_term: { length long_term.now ≤ 16 },
}

impl<'a> Base<'a> {
    ghost use Rattle.hevc_refs.specs.Lists.{base_places, plain_place};

    fn len(&self) -> usize
        ensures { result ≡ length (base_places
            self.now.first.now self.now.second.now self.now.long_term.now self.now.has_current) }
    {
        self.first.len() + self.second.len() + self.long_term.len() + usize::from(self.has_current)
    }

    /// The place at an index below its length.
    fn at(&self, index: usize) -> Option<RefPicListEntry>
        requires { index < length (base_places
            self.now.first.now self.now.second.now self.now.long_term.now self.now.has_current) }
        ensures { option_map plain_place result ≡ slice_index_or (base_places
            self.now.first.now self.now.second.now self.now.long_term.now self.now.has_current)
            index None }
    {
        let second = self.first.len();
        let long_term = second + self.second.len();
        let current = long_term + self.long_term.len();
        if index < second {
            place_of(self.first[index])
        } else if index < long_term {
            place_of(self.second[index - second])
        } else if index < current {
            place_of(self.long_term[index - long_term])
        } else {
            Some(RefPicListEntry::CurrentPicture)
        }
    }

    /// The place at which going round it comes to an index.
    fn around(&self, index: usize) -> Option<RefPicListEntry>
        ensures { option_map plain_place result ≡ slice_index_or (base_places
            self.now.first.now self.now.second.now self.now.long_term.now self.now.has_current)
            (index % length (base_places self.now.first.now self.now.second.now
            self.now.long_term.now self.now.has_current)) None }
    {
        let len = self.len();
        if len == 0 {
            return None;
        }
        self.at(index % len)
    }
}

/// list_entry, or the place itself where the list isn't changed.
fn entry_index(is_changed: bool, list_entry: &[u32], i: usize) -> usize
    requires { is_changed ≡ true → i < length list_entry.now }
    ensures { result ≡ entry_index (if is_changed then Some list_entry.now else None) i }
{
    if is_changed {
        list_entry[i] as usize
    } else {
        i
    }
}

/// As many places as are active (8-9, 8-11), into a list that is empty.
fn push_places(
    places: &mut ArrayVec<Option<RefPicListEntry>, 16>,
    base: &Base<'_>,
    active: usize,
    is_changed: bool,
    list_entry: &[u32],
)
    requires empty { places.old.items ≡ [] }
    requires few { active ≤ 16 }
    requires entries { is_changed ≡ true → length list_entry.now ≡ active }
    ensures places { plain_places places.new.items ≡ list_places
        (record {
          num_ref_idx_active = active;
          list_entry = if is_changed then Some list_entry.now else None;
        }) (base_places base.now.first.now base.now.second.now base.now.long_term.now
        base.now.has_current) }
    ensures whole { array_vec_len places.new ≡ active }
{
    for i in 0..active {
        places.push(base.around(entry_index(is_changed, list_entry, i)));
    }
}

/// The last place is the current picture.
fn put_current_last(places: &mut ArrayVec<Option<RefPicListEntry>, 16>)
    requires some { 1 ≤ array_vec_len places.old }
    requires few { array_vec_len places.old ≤ 16 }
    ensures { plain_places places.new.items
        ≡ take (array_vec_len places.old - 1) (plain_places places.old.items)
        ++ Some walk.CurrentPicture ∷ [] }
{
    places.pop();
    places.push(Some(RefPicListEntry::CurrentPicture));
}

/// RefPicList0 of a slice that isn't an I slice (8-9), into a list that is empty.
fn push_inter_list0(
    list: &mut RefPicList,
    header: &SliceHeader,
    sets: &RefPicSet,
    curr_pic_ref_enabled: bool,
)
    requires { places_of list.old ≡ [] }
    ensures { (s : Slice) → HasHeader s header.now curr_pic_ref_enabled
        → plain_places (places_of list.new)
        ≡ with_current s (list_places s.list0 (base0 (plain_set sets.now) s)) }
{
    let modification = &header.ref_pic_list_modification;
    let is_changed = modification.ref_pic_list_modification_flag_l0;
    let active = header.num_ref_idx_l0_active_minus1 as usize + 1;
    let base = Base {
        first: sets.st_curr_before(),
        second: sets.st_curr_after(),
        long_term: sets.lt_curr(),
        has_current: curr_pic_ref_enabled,
    };
    let entries = modification.list_entry_l0();
    push_places(&mut list.entries, &base, active, is_changed, entries);
    if curr_pic_ref_enabled && !is_changed && active < header.num_pic_total_curr as usize {
        put_current_last(&mut list.entries);
    }
}

/// RefPicList1 of a B slice (8-11), into a list that is empty.
fn push_bi_list1(
    list: &mut RefPicList,
    header: &SliceHeader,
    sets: &RefPicSet,
    curr_pic_ref_enabled: bool,
)
    requires { places_of list.old ≡ [] }
    ensures { (s : Slice) → HasHeader s header.now curr_pic_ref_enabled
        → plain_places (places_of list.new)
        ≡ list_places s.list1 (base1 (plain_set sets.now) s) }
{
    let modification = &header.ref_pic_list_modification;
    let is_changed = modification.ref_pic_list_modification_flag_l1;
    let active = header.num_ref_idx_l1_active_minus1 as usize + 1;
    let base = Base {
        first: sets.st_curr_after(),
        second: sets.st_curr_before(),
        long_term: sets.lt_curr(),
        has_current: curr_pic_ref_enabled,
    };
    let entries = modification.list_entry_l1();
    push_places(&mut list.entries, &base, active, is_changed, entries);
}

impl ReferencePicLists {
    /// Makes these the reference picture lists of a slice (8.3.4). List 0 is empty for I slices,
    /// list 1 but for B slices. No memory is moved, so lists that are used again for each slice
    /// cost least.
    pub fn build(&mut self, header: &SliceHeader, sets: &RefPicSet, curr_pic_ref_enabled: bool)
        ensures list0 { (s : Slice) → HasHeader s header.now curr_pic_ref_enabled
            → plain_places (places_of self.new.ref_pic_list0)
            ≡ ref_pic_list0 (plain_set sets.now) s }
        ensures list1 { (s : Slice) → HasHeader s header.now curr_pic_ref_enabled
            → plain_places (places_of self.new.ref_pic_list1)
            ≡ ref_pic_list1 (plain_set sets.now) s }
    {
        self.ref_pic_list0.entries.clear();
        self.ref_pic_list1.entries.clear();
        match header.type_ {
            SliceType::I => {}
            SliceType::P => {
                push_inter_list0(&mut self.ref_pic_list0, header, sets, curr_pic_ref_enabled);
            }
            SliceType::B => {
                push_inter_list0(&mut self.ref_pic_list0, header, sets, curr_pic_ref_enabled);
                push_bi_list1(&mut self.ref_pic_list1, header, sets, curr_pic_ref_enabled);
            }
        }
    }
}

/// The reference picture lists of a slice (8.3.4), as `ReferencePicLists::build` makes them.
pub fn build_ref_pic_lists(
    header: &SliceHeader,
    sets: &RefPicSet,
    curr_pic_ref_enabled: bool,
) -> ReferencePicLists
    ensures list0 { (s : Slice) → HasHeader s header.now curr_pic_ref_enabled
        → plain_places (places_of result.ref_pic_list0) ≡ ref_pic_list0 (plain_set sets.now) s }
    ensures list1 { (s : Slice) → HasHeader s header.now curr_pic_ref_enabled
        → plain_places (places_of result.ref_pic_list1) ≡ ref_pic_list1 (plain_set sets.now) s }
{
    let mut lists = ReferencePicLists::new();
    lists.build(header, sets, curr_pic_ref_enabled);
    lists
}
