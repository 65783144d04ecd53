//! Copies of the modifications of reference lists.
ghost use Rattle.std.specs.Prelude.{◌≡◌};

use arrayvec::ArrayVec;
use hevc_set_parts::RefPicListModification;

/// The same modification.
pub(crate) fn modification_copy(modification: &RefPicListModification) -> RefPicListModification
    ensures { result ≡ modification.now }
{
    let mut copy = RefPicListModification::new();
    copy_modification(&mut copy, modification);
    copy
}

/// Makes a modification the same as another one.
pub(crate) fn copy_modification(to: &mut RefPicListModification, from: &RefPicListModification)
    ensures { to.new ≡ from.now }
{
    to.ref_pic_list_modification_flag_l0 = from.ref_pic_list_modification_flag_l0;
    copy_list(&mut to.list_entry_l0, &from.list_entry_l0);
    to.ref_pic_list_modification_flag_l1 = from.ref_pic_list_modification_flag_l1;
    copy_list(&mut to.list_entry_l1, &from.list_entry_l1);
}

/// Makes a list the same as another one.
fn copy_list(to: &mut ArrayVec<u32, 15>, from: &ArrayVec<u32, 15>)
    ensures { to.new ≡ from.now }
{
    to.clear();
    for entry in from.as_slice() {
        to.push(*entry);
    }
}
