//! The reference picture lists of a slice.
ghost use Rattle.std.specs.Prelude.{◌≡◌, ◌≤◌, [], length};

use arrayvec::ArrayVec;

/// A place of a reference picture list: the picture itself, or a stored one by its number.
#[derive(Clone, Copy, PartialEq, Eq)]
pub enum RefPicListEntry {
    /// The picture itself.
    CurrentPicture,
    /// The stored picture of this number.
    DpbEntry(u64),
}

/// A reference picture list (8.3.4), at most 16 places. A place is None where there is no such
/// picture.
#[derive(Drop)]
pub struct RefPicList {
    pub(crate) entries: ArrayVec<Option<RefPicListEntry>, 16>,
}

impl RefPicList {
    ghost use Rattle.hevc_refs.specs.Lists.{places_of};

    /// The places of the list.
    pub fn as_slice(&self) -> &[Option<RefPicListEntry>]
        ensures value { result.now ≡ places_of self.now }
        ensures few { length result.now ≤ 16 }
    {
        self.entries.as_slice()
    }
}

/// The two reference picture lists of a slice (8.3.4).
#[derive(Drop)]
pub struct ReferencePicLists {
    /// RefPicList0.
    pub ref_pic_list0: RefPicList,
    /// RefPicList1.
    pub ref_pic_list1: RefPicList,
}

impl ReferencePicLists {
    ghost use Rattle.hevc_refs.specs.Lists.{places_of};

    /// Two empty lists.
    pub fn new() -> ReferencePicLists
        ensures list0 { places_of result.ref_pic_list0 ≡ [] }
        ensures list1 { places_of result.ref_pic_list1 ≡ [] }
    {
        ReferencePicLists {
            ref_pic_list0: RefPicList {
                entries: ArrayVec::new(),
            },
            ref_pic_list1: RefPicList {
                entries: ArrayVec::new(),
            },
        }
    }
}
