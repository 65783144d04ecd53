//! Deriving the reference picture set of a picture (8.3.2).
ghost use Rattle.std.specs.Prelude.{◌≡◌};
ghost use Rattle.hevc_spec.specs.UnitTypes.{is_idr};
ghost use Rattle.hevc_walk.specs.Pictures.{Head};
ghost use Rattle.hevc_walk.specs.ReferenceSets.{references_before};
ghost use Rattle.hevc_pictures.specs.OrderCounts.{IsMaxPicOrderCntLsb};
ghost use Rattle.hevc_dpb.specs.Views.{buffer_of};
ghost use Rattle.hevc_refs.specs.Sets.{plain_set};
ghost use Rattle.hevc_refs.specs.Marking.{RefersAs, OfPicture, FindsMembers, DerivesSet, Derives};
ghost use Rattle.hevc_refs.specs.Marking.{KeepsAllButMarks};

use crate::long_term::find_long_term;
use crate::marking::{mark_long_term, unmark_others};
use crate::ref_pic_set::RefPicSet;
use crate::short_term::find_short_term;
use hevc_dpb::{Dpb, PictureData};
use hevc_picture_slice::SliceHeader;
use hevc_set_parts::ShortTermRefPicSet;

/// Whether it is an IDR picture.
fn is_idr(pic: &PictureData) -> bool
    ensures { (p : Head) → RefersAs p pic.now → result ≡ is_idr p.nal_unit_type }
{
    pic.nalu_type.is_idr()
}

/// An IRAP picture with NoRaslOutputFlag refers to nothing that is stored.
fn unmark_before_sequence<T: Copy>(dpb: &mut Dpb<T>, pic: &PictureData)
    ensures buffer { (p : Head) → RefersAs p pic.now
        → buffer_of dpb.new ≡ references_before p (buffer_of dpb.old) }
    ensures kept { KeepsAllButMarks dpb.old dpb.new }
{
    if pic.starts_sequence() {
        dpb.mark_all_as_unused_for_ref();
    }
}

/// The members of a picture's set among what is stored, and the marks that they leave.
fn derive_members<T: Copy>(
    dpb: &mut Dpb<T>,
    pic: &PictureData,
    header: &SliceHeader,
    set: &ShortTermRefPicSet,
    max_pic_order_cnt_lsb: i32,
    out: &mut RefPicSet,
)
    requires { IsMaxPicOrderCntLsb max_pic_order_cnt_lsb }
    ensures finds { OfPicture pic.now header.now set.now max_pic_order_cnt_lsb (λ p first.
        FindsMembers p first (plain_set out.new) (buffer_of dpb.old) (buffer_of dpb.new)) }
    ensures kept { KeepsAllButMarks dpb.old dpb.new }
{
    let order_count = pic.pic_order_cnt_val;
    find_long_term(dpb, order_count, header, max_pic_order_cnt_lsb, out);
    mark_long_term(dpb, out.lt_curr(), out.lt_foll());
    find_short_term(dpb, order_count, set, out);
    unmark_others(dpb, out);
}

/// The set, and the marks, of a picture of any type.
fn derive<T: Copy>(
    dpb: &mut Dpb<T>,
    pic: &PictureData,
    header: &SliceHeader,
    set: &ShortTermRefPicSet,
    max_pic_order_cnt_lsb: i32,
    out: &mut RefPicSet,
)
    requires { IsMaxPicOrderCntLsb max_pic_order_cnt_lsb }
    ensures derives { OfPicture pic.now header.now set.now max_pic_order_cnt_lsb (λ p first.
        DerivesSet p first (plain_set out.new) (buffer_of dpb.old) (buffer_of dpb.new)) }
    ensures kept { KeepsAllButMarks dpb.old dpb.new }
{
    unmark_before_sequence(dpb, pic);
    if is_idr(pic) {
        dpb.mark_all_as_unused_for_ref();
        out.clear();
        return;
    }
    derive_members(dpb, pic, header, set, max_pic_order_cnt_lsb, out);
}

/// Makes `out` the reference picture set of a picture, as `derive_and_mark` gives it, and marks
/// what is stored by it (8.3.2). So a set that is kept in one place isn't moved.
///
/// `header` is that of the picture's first slice, `set` the short-term set that it means, and
/// `max_pic_order_cnt_lsb` MaxPicOrderCntLsb of its sequence set.
pub fn derive_into<T: Copy>(
    dpb: &mut Dpb<T>,
    pic: &PictureData,
    header: &SliceHeader,
    set: &ShortTermRefPicSet,
    max_pic_order_cnt_lsb: i32,
    out: &mut RefPicSet,
)
    requires { IsMaxPicOrderCntLsb max_pic_order_cnt_lsb }
    ensures derives { OfPicture pic.now header.now set.now max_pic_order_cnt_lsb (λ p first.
        Derives p first (plain_set out.new) (buffer_of dpb.old) (buffer_of dpb.new)) }
    ensures kept { KeepsAllButMarks dpb.old dpb.new }
{
    derive(dpb, pic, header, set, max_pic_order_cnt_lsb, out);
}

/// The reference picture set of a picture over what is stored (8.3.2). What is stored is marked by
/// it: long-term members as used for long-term reference, and what no list names as unused for
/// reference.
///
/// `header` is that of the picture's first slice, `set` the short-term set that it means, and
/// `max_pic_order_cnt_lsb` MaxPicOrderCntLsb of its sequence set.
pub fn derive_and_mark<T: Copy>(
    dpb: &mut Dpb<T>,
    pic: &PictureData,
    header: &SliceHeader,
    set: &ShortTermRefPicSet,
    max_pic_order_cnt_lsb: i32,
) -> RefPicSet
    requires { IsMaxPicOrderCntLsb max_pic_order_cnt_lsb }
    ensures derives { OfPicture pic.now header.now set.now max_pic_order_cnt_lsb (λ p first.
        Derives p first (plain_set result) (buffer_of dpb.old) (buffer_of dpb.new)) }
    ensures kept { KeepsAllButMarks dpb.old dpb.new }
{
    let mut out = RefPicSet::new();
    derive_into(dpb, pic, header, set, max_pic_order_cnt_lsb, &mut out);
    out
}
