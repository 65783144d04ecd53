//! The active places of the lists (7.3.6.1, rows 24 to 26 of table 14).
ghost use Rattle.std.specs.Prelude.{◌≡◌};
ghost use Rattle.hevc_elements.specs.Words.{Fills};
ghost use Rattle.hevc_tables.specs.SliceHeaderTable as table;
ghost use Rattle.hevc_tables.specs.SliceTypes.{is_b as is_b_type};
ghost use Rattle.hevc_picture_slice.specs.Pps.{plain_pps};
ghost use Rattle.hevc_picture_slice.specs.SliceHeader.{plain_slice_header};
ghost use Rattle.hevc_slice_references.specs.Unordered.{IsUnordered};

use hevc_elements::rows::{flag, ue_if, ue_u8};
use hevc_elements::{ElementReader, ParseError};
use hevc_picture_slice::{Pps, SliceHeader};
use hevc_spec::Row;

/// Rows 24 to 26 of table 14.
#[tactic(auto, unfolding(hevc_tables::specs::SliceHeaderTable::active_counts, hevc_spec::specs::Rows::either))]
pub(crate) fn read_active_counts(
    r: &mut ElementReader<'_>,
    pps: &Pps,
    h: &mut SliceHeader,
) -> Result<(), ParseError>
    requires { IsUnordered h.old.ref_pic_list_modification }
    ensures fills { Fills plain_slice_header
        (table.active_counts (plain_pps pps.now)) result h.old h.new r.old r.new }
    ensures same { h.new.num_pic_total_curr ≡ h.old.num_pic_total_curr }
{
    let told = flag(r, Row(14, 24))?;
    h.num_ref_idx_active_override_flag = told;
    if told {
        read_own(r, h)
    } else {
        set_defaults(pps, h);
        Ok(())
    }
}

/// Rows 25 and 26 of table 14.
#[tactic(auto, unfolding(hevc_tables::specs::SliceHeaderTable::own_active_counts))]
fn read_own(r: &mut ElementReader<'_>, h: &mut SliceHeader) -> Result<(), ParseError>
    requires { IsUnordered h.old.ref_pic_list_modification }
    ensures fills { Fills plain_slice_header table.own_active_counts result
        h.old h.new r.old r.new }
    ensures same { h.new.num_pic_total_curr ≡ h.old.num_pic_total_curr }
{
    let l0 = ue_u8(r, Row(14, 25), 0, 14)?;
    let l1 = ue_if(r, is_b(h), Row(14, 26), 0, 14)? as u8;
    h.num_ref_idx_l0_active_minus1 = l0;
    h.num_ref_idx_l1_active_minus1 = l1;
    Ok(())
}

/// Whether the slice is a B slice (Table 7-7), which has a list 1.
pub fn is_b(h: &SliceHeader) -> bool
    ensures { result ≡ is_b_type (plain_slice_header h.now).type_ }
{
    h.type_.number() == 0
}

/// The counts of the picture set.
#[tactic(auto, unfolding(hevc_tables::specs::SliceHeaderTable::with_default_active_counts))]
fn set_defaults(pps: &Pps, h: &mut SliceHeader)
    requires { IsUnordered h.old.ref_pic_list_modification }
    ensures set { plain_slice_header h.new
        ≡ table.with_default_active_counts (plain_pps pps.now) (plain_slice_header h.old) }
    ensures same { h.new.num_pic_total_curr ≡ h.old.num_pic_total_curr }
{
    h.num_ref_idx_l0_active_minus1 = pps.num_ref_idx_l0_default_active_minus1;
    h.num_ref_idx_l1_active_minus1 = pps.num_ref_idx_l1_default_active_minus1;
}
