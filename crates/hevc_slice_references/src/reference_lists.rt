//! The reference picture lists (7.3.6.1, rows 24 to 27 of table 14).
ghost use Rattle.std.specs.Prelude.{◌≡◌, ◌≤◌};
ghost use Rattle.hevc_elements.specs.Words.{Fills};
ghost use Rattle.hevc_records.specs.RefPicListModification.{default_ref_pic_list_modification};
ghost use Rattle.hevc_tables.specs.SliceHeaderTable as table;
ghost use Rattle.hevc_set_parts.specs.RefPicListModification.{plain_ref_pic_list_modification};
ghost use Rattle.hevc_sequence_set.specs.Sps.{plain_sps};
ghost use Rattle.hevc_picture_slice.specs.Pps.{plain_pps};
ghost use Rattle.hevc_picture_slice.specs.SliceHeader.{plain_slice_header};
ghost use Rattle.hevc_slice_references.specs.Unordered.{IsUnordered};

use crate::active_counts::{is_b, read_active_counts};
use crate::pictures::num_pic_total_curr;
use hevc_elements::{ElementReader, ParseError};
use hevc_picture_slice::{Pps, SliceHeader};
use hevc_sequence_set::Sps;
use hevc_set_parts::RefPicListModification;
use hevc_slice_parts::read_ref_pic_list_modification;

/// Fills in rows 24 to 27 of table 14 (7.3.6.1) of a P or B slice: the active places of its lists,
/// the number of pictures that it may refer to (7-55), and how its lists are ordered.
///
/// Errors: `OutOfBits` where the payload ends within an element, and `OutOfRange` with table and
/// row of the first element that isn't allowed. The reader then is where that element begins.
#[tactic(auto, unfolding(hevc_tables::specs::SliceHeaderTable::reference_lists, hevc_spec::specs::Rows::when))]
pub fn read_reference_lists(
    r: &mut ElementReader<'_>,
    sps: &Sps,
    pps: &Pps,
    h: &mut SliceHeader,
) -> Result<(), ParseError>
    ensures { Fills plain_slice_header
        (table.reference_lists (plain_sps sps.now)
        (plain_pps pps.now)) result h.old h.new r.old r.new }
{
    set_pictures(sps, pps, h);
    read_active_counts(r, pps, h)?;
    if pps.lists_modification_present_flag && h.num_pic_total_curr > 1 {
        read_list_modification(r, h)?;
    }
    Ok(())
}

/// The number of pictures, and lists whose order isn't told.
#[tactic(auto, unfolding(hevc_tables::specs::SliceHeaderTable::with_pictures))]
fn set_pictures(sps: &Sps, pps: &Pps, h: &mut SliceHeader)
    ensures set { plain_slice_header h.new
        ≡ table.with_pictures (plain_sps sps.now) (plain_pps pps.now) (plain_slice_header h.old) }
    ensures unordered { IsUnordered h.new.ref_pic_list_modification }
    ensures few { h.new.num_pic_total_curr ≤ 33 }
{
    h.num_pic_total_curr = num_pic_total_curr(sps, pps, h);
    clear(&mut h.ref_pic_list_modification);
}

/// No modification of lists.
fn clear(modification: &mut RefPicListModification)
    ensures none { plain_ref_pic_list_modification modification.new
        ≡ default_ref_pic_list_modification }
    ensures unordered { IsUnordered modification.new }
{
    modification.ref_pic_list_modification_flag_l0 = false;
    modification.list_entry_l0.clear();
    modification.ref_pic_list_modification_flag_l1 = false;
    modification.list_entry_l1.clear();
}

/// Row 27 of table 14.
#[tactic(auto, unfolding(hevc_tables::specs::SliceHeaderTable::list_modification))]
fn read_list_modification(r: &mut ElementReader<'_>, h: &mut SliceHeader) -> Result<(), ParseError>
    requires { (1 ≤ h.old.num_pic_total_curr) × (h.old.num_pic_total_curr ≤ 33) }
    ensures { Fills plain_slice_header table.list_modification result h.old h.new r.old r.new }
{
    let modification = read_ref_pic_list_modification(
        r,
        is_b(h),
        h.num_pic_total_curr,
        h.num_ref_idx_l0_active_minus1,
        h.num_ref_idx_l1_active_minus1,
    )?;
    h.ref_pic_list_modification = modification;
    Ok(())
}
