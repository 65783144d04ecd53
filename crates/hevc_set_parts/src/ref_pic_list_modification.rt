//! Modifications of the reference picture lists of a slice.
ghost use Rattle.std.specs.Prelude.{◌≡◌, ◌≤◌, length};

use arrayvec::ArrayVec;

/// How a slice orders its reference picture lists (H.265 7.3.6.2, 7.4.7.2).
///
/// An entry is an index into the initial list (8.3.4).
#[derive(Drop, PartialEq, Eq)]
pub struct RefPicListModification {
    /// The entries of list 0, one for each active place: 0 to NumPicTotalCurr less 1.
    pub list_entry_l0: ArrayVec<u32, 15>,
    /// The entries of list 1, one for each active place: 0 to NumPicTotalCurr less 1.
    pub list_entry_l1: ArrayVec<u32, 15>,
    /// Whether the entries of list 0 are given.
    pub ref_pic_list_modification_flag_l0: bool,
    /// Whether the entries of list 1 are given.
    pub ref_pic_list_modification_flag_l1: bool,
}

impl RefPicListModification {
    ghost use Rattle.hevc_records.specs.RefPicListModification.{default_ref_pic_list_modification};
    ghost use Rattle.hevc_set_parts.specs.RefPicListModification.{plain_ref_pic_list_modification};

    /// No modification.
    pub fn new() -> RefPicListModification
        ensures { plain_ref_pic_list_modification result ≡ default_ref_pic_list_modification }
    {
        RefPicListModification {
            list_entry_l0: ArrayVec::new(),
            list_entry_l1: ArrayVec::new(),
            ref_pic_list_modification_flag_l0: false,
            ref_pic_list_modification_flag_l1: false,
        }
    }

    /// Whether the entries of list 0 are given.
    pub fn ref_pic_list_modification_flag_l0(&self) -> bool
        ensures { result ≡ self.now.ref_pic_list_modification_flag_l0 }
    {
        self.ref_pic_list_modification_flag_l0
    }

    /// The entries of list 0, one for each active place.
    pub fn list_entry_l0(&self) -> &[u32]
        ensures value { result.now ≡ self.now.list_entry_l0.items }
        ensures fits { length result.now ≤ 15 }
    {
        self.list_entry_l0.as_slice()
    }

    /// Whether the entries of list 1 are given.
    pub fn ref_pic_list_modification_flag_l1(&self) -> bool
        ensures { result ≡ self.now.ref_pic_list_modification_flag_l1 }
    {
        self.ref_pic_list_modification_flag_l1
    }

    /// The entries of list 1, one for each active place.
    pub fn list_entry_l1(&self) -> &[u32]
        ensures value { result.now ≡ self.now.list_entry_l1.items }
        ensures fits { length result.now ≤ 15 }
    {
        self.list_entry_l1.as_slice()
    }
}
