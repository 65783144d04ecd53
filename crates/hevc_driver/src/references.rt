//! The reference pictures of a picture and of its slices (8.3.2, 8.3.4).
ghost use Rattle.std.specs.Prelude.{◌≡◌, ℕ, true, false, get_or};
ghost use Rattle.hevc_sequence_set.specs.Sps.{plain_sps};
ghost use Rattle.hevc_picture_slice.specs.SliceHeader.{plain_slice_header};
ghost use Rattle.hevc_set_parts.specs.ShortTermRefPicSet.{plain_short_term_ref_pic_set};
ghost use Rattle.hevc_sequence_set.specs.declared.sps.Sps as code_sps;
ghost use Rattle.hevc_picture_slice.specs.declared.pps.Pps as code_pps;
ghost use Rattle.hevc_walk.specs.ReferenceSets.{reference_set, with_marks, names, all_members};
ghost use Rattle.hevc_walk.specs.ReferenceLists.{ref_pic_list0, ref_pic_list1};
ghost use Rattle.hevc_walk_marks.specs.Marked.{has_reference};
ghost use Rattle.hevc_dpb.specs.Views.{buffer_of};
ghost use Rattle.hevc_refs.specs.Sets.{plain_set};
ghost use Rattle.hevc_refs.specs.Lists.{places_of, plain_places};
ghost use Rattle.hevc_refs.specs.Marking.{KeepsAllButMarks};
ghost use Rattle.hevc_options.specs.declared.Options.{Options};
ghost use Rattle.hevc_driver.specs.Heads.{head_of};
ghost use Rattle.hevc_driver.specs.Slices.{slice_of};

use crate::beginning::max_pic_order_cnt_lsb;
use crate::head::Head;
use hevc_dpb::Dpb;
use hevc_picture_slice::{Pps, Slice, SliceHeader};
use hevc_refs::{RefPicSet, ReferencePicLists, derive_into};
use hevc_sequence_set::Sps;
use hevc_set_parts::ShortTermRefPicSet;

/// The short-term set of a slice: that of the sequence set, or after those the header's own
/// (7.4.7.1).
fn short_term_set<'a>(header: &'a SliceHeader, sps: &'a Sps) -> &'a ShortTermRefPicSet
    ensures { plain_short_term_ref_pic_set result.now
        ≡ get_or (plain_sps sps.now).short_term_ref_pic_set header.now.curr_rps_idx
        (plain_slice_header header.now).short_term_ref_pic_set }
{
    let sets = sps.short_term_ref_pic_set.as_slice();
    match sets.get(header.curr_rps_idx as usize) {
        Some(set) => set,
        None => &header.short_term_ref_pic_set,
    }
}

/// Makes `out` the reference picture set of a picture over what is stored, which is marked by it
/// (8.3.2).
pub fn reference_set<H: Copy>(
    dpb: &mut Dpb<H>,
    head: &Head,
    slice: &Slice<'_>,
    sps: &Sps,
    out: &mut RefPicSet,
)
    ensures set { (o : Options) (pps : code_pps.Pps) → plain_set out.new
        ≡ reference_set (head_of head.now) (slice_of o slice.now sps.now pps)
        (buffer_of dpb.old) }
    ensures marks { (o : Options) (pps : code_pps.Pps) → buffer_of dpb.new
        ≡ with_marks (head_of head.now) (slice_of o slice.now sps.now pps) (buffer_of dpb.old) }
    // What it names is used for reference, and a picture that begins a sequence names nothing.
    ensures named { (n : ℕ) → names n (all_members (plain_set out.new)) ≡ true
        → has_reference n (buffer_of dpb.new) ≡ true }
    ensures nothing { (n : ℕ) → (head_of head.now).starts_sequence ≡ true
        → names n (all_members (plain_set out.new)) ≡ false }
    ensures kept { KeepsAllButMarks dpb.old dpb.new }
{
    let header = slice.header();
    let set = short_term_set(header, sps);
    derive_into(
        dpb,
        &head.picture,
        header,
        set,
        max_pic_order_cnt_lsb(sps),
        out,
    );
}

/// Makes `lists` the two reference picture lists of a slice (8.3.4).
pub(crate) fn build_lists(
    lists: &mut ReferencePicLists,
    slice: &Slice<'_>,
    pps: &Pps,
    set: &RefPicSet,
)
    ensures list0 { (o : Options) (sps : code_sps.Sps)
        → plain_places (places_of lists.new.ref_pic_list0)
        ≡ ref_pic_list0 (plain_set set.now) (slice_of o slice.now sps pps.now) }
    ensures list1 { (o : Options) (sps : code_sps.Sps)
        → plain_places (places_of lists.new.ref_pic_list1)
        ≡ ref_pic_list1 (plain_set set.now) (slice_of o slice.now sps pps.now) }
{
    lists.build(
        slice.header(),
        set,
        pps.scc_extension().curr_pic_ref_enabled_flag,
    );
}
