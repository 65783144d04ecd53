//! How a P or B slice is predicted (7.3.6.1, rows 24 to 34 of table 14).
ghost use Rattle.std.specs.Prelude.{◌≡◌, OnErr};
ghost use Rattle.hevc_elements.specs.Words.{Reads, Fills, ReadsTable};
ghost use Rattle.hevc_tables.specs.SliceHeaderTable as table;
ghost use Rattle.hevc_tables.specs.SliceTypes.{is_i as is_i_type};
ghost use Rattle.hevc_slice_header.specs.Weights.{weights_of, weights_if_weighted};
ghost use Rattle.hevc_video_set.specs.PredWeightTable.{plain_pred_weight_table};
ghost use Rattle.hevc_sequence_set.specs.Sps.{plain_sps};
ghost use Rattle.hevc_picture_slice.specs.Pps.{plain_pps};
ghost use Rattle.hevc_picture_slice.specs.SliceHeader.{plain_slice_header};

use hevc_elements::rows::{flag_if, flag_or, ue_u8, ue_u8_if};
use hevc_elements::{ElementReader, ParseError};
use hevc_picture_slice::{Pps, SliceHeader};
use hevc_sequence_set::Sps;
use hevc_slice_parts::read_pred_weight_table;
use hevc_slice_references::{is_b, read_reference_lists};
use hevc_spec::Row;
use hevc_video_set::PredWeightTable;

/// Rows 24 to 34 of table 14.
#[tactic(auto, unfolding(hevc_tables::specs::SliceHeaderTable::prediction))]
pub(crate) fn read_prediction(
    r: &mut ElementReader<'_>,
    sps: &Sps,
    pps: &Pps,
    h: &mut SliceHeader,
) -> Result<(), ParseError>
    ensures { Fills plain_slice_header
        (table.prediction (plain_sps sps.now) (plain_pps pps.now)) result h.old h.new r.old r.new }
{
    read_reference_lists(r, sps, pps, h)?;
    read_motion(r, pps, h)?;
    read_weights(r, sps, pps, h)
}

/// Rows 28 to 31 of table 14.
#[tactic(auto, unfolding(hevc_tables::specs::SliceHeaderTable::motion))]
fn read_motion(r: &mut ElementReader<'_>, pps: &Pps, h: &mut SliceHeader) -> Result<(), ParseError>
    ensures { Fills plain_slice_header
        (table.motion (plain_pps pps.now)) result h.old h.new r.old r.new }
{
    let has_list_1 = is_b(h);
    let from_other = h.temporal_mvp_enabled_flag;
    h.mvd_l1_zero_flag = flag_if(r, has_list_1, Row(14, 28))?;
    h.cabac_init_flag = flag_if(r, pps.cabac_init_present_flag, Row(14, 29))?;
    h.collocated_from_l0_flag = flag_or(r, from_other && has_list_1, true, Row(14, 30))?;
    let last = last_collocated(h);
    h.collocated_ref_idx = ue_u8_if(r, from_other && last != 0, Row(14, 31), 0, last)?;
    Ok(())
}

/// Whether the slice is an I slice.
pub(crate) fn is_i(h: &SliceHeader) -> bool
    ensures { result ≡ is_i_type (plain_slice_header h.now).type_ }
{
    h.type_.number() == 2
}

/// The last active place of the list that has the collocated picture.
fn last_collocated(h: &SliceHeader) -> u8
    ensures { result ≡ table.last_collocated (plain_slice_header h.now) }
{
    if h.collocated_from_l0_flag {
        h.num_ref_idx_l0_active_minus1
    } else {
        h.num_ref_idx_l1_active_minus1
    }
}

/// Rows 32 to 34 of table 14.
#[tactic(auto, unfolding(hevc_tables::specs::SliceHeaderTable::weights, hevc_spec::specs::Rows::when))]
fn read_weights(
    r: &mut ElementReader<'_>,
    sps: &Sps,
    pps: &Pps,
    h: &mut SliceHeader,
) -> Result<(), ParseError>
    ensures { Fills plain_slice_header
        (table.weights (plain_sps sps.now) (plain_pps pps.now)) result h.old h.new r.old r.new }
{
    read_weight_table(r, sps, pps, h)?;
    h.five_minus_max_num_merge_cand = ue_u8(r, Row(14, 33), 0, 255)?;
    let told = sps.scc_extension.motion_vector_resolution_control_idc == 2;
    h.use_integer_mv_flag = flag_or(r, told, h.use_integer_mv_flag, Row(14, 34))?;
    Ok(())
}

/// Whether predictions are weighted.
fn is_weighted(pps: &Pps, h: &SliceHeader) -> bool
    ensures { result ≡ table.is_weighted (plain_pps pps.now) (plain_slice_header h.now).type_ }
{
    let number = h.type_.number();
    (pps.weighted_pred_flag && number == 1) || (pps.weighted_bipred_flag && number == 0)
}

/// Row 32 of table 14.
fn read_table(
    r: &mut ElementReader<'_>,
    sps: &Sps,
    h: &SliceHeader,
) -> Result<PredWeightTable, ParseError>
    ensures read { Reads plain_pred_weight_table
        (weights_of (plain_sps sps.now) (plain_slice_header h.now)) result r.old r.new }
{
    read_pred_weight_table(
        r,
        sps,
        is_b(h),
        h.num_ref_idx_l0_active_minus1,
        h.num_ref_idx_l1_active_minus1,
    )
}

/// Reads the weights of predictions into the header of a P or B slice, by table 16 (7.3.6.3), with
/// the sequence set of its picture. All else of the header stays.
///
/// Errors: `OutOfBits` where the payload ends within an element, and `OutOfRange` with table and
/// row of the first element that isn't allowed. The header is then as before, and the reader is
/// where that element begins.
#[tactic(auto, using(hevc_elements::proofs::Meaning::meanings))]
pub fn parse_pred_weight_table(
    hdr: &mut SliceHeader,
    r: &mut ElementReader<'_>,
    sps: &Sps,
) -> Result<(), ParseError>
    ensures rows { ReadsTable (λ _. plain_pred_weight_table hdr.new.pred_weight_table) (weights_of
        (plain_sps sps.now) (plain_slice_header hdr.old)) result r.old r.new }
    ensures same { plain_slice_header hdr.new ≡ record (plain_slice_header hdr.old) {
      pred_weight_table = plain_pred_weight_table hdr.new.pred_weight_table;
    } }
    ensures refused { OnErr result (hdr.new ≡ hdr.old) }
{
    read_into(hdr, r, sps)
}

/// Row 32 of table 14: table 16 where the slice is weighted, else its default weights.
#[tactic(auto, unfolding(hevc_spec::specs::Rows::when))]
fn read_weight_table(
    r: &mut ElementReader<'_>,
    sps: &Sps,
    pps: &Pps,
    h: &mut SliceHeader,
) -> Result<(), ParseError>
    ensures read { Reads (λ _. plain_pred_weight_table h.new.pred_weight_table)
        (weights_if_weighted (plain_sps sps.now) (plain_pps pps.now) (plain_slice_header h.old))
        result r.old r.new }
    ensures same { plain_slice_header h.new ≡ record (plain_slice_header h.old) {
      pred_weight_table = plain_pred_weight_table h.new.pred_weight_table;
    } }
{
    if is_weighted(pps, h) {
        return read_into(h, r, sps);
    }
    h.pred_weight_table = PredWeightTable::new();
    Ok(())
}

/// Table 16, into a header that stays where it is refused.
fn read_into(hdr: &mut SliceHeader, r: &mut ElementReader<'_>, sps: &Sps) -> Result<(), ParseError>
    ensures read { Reads (λ _. plain_pred_weight_table hdr.new.pred_weight_table)
        (weights_of (plain_sps sps.now) (plain_slice_header hdr.old)) result r.old r.new }
    ensures same { plain_slice_header hdr.new ≡ record (plain_slice_header hdr.old) {
      pred_weight_table = plain_pred_weight_table hdr.new.pred_weight_table;
    } }
    ensures refused { OnErr result (hdr.new ≡ hdr.old) }
{
    let weights = read_table(r, sps, hdr)?;
    hdr.pred_weight_table = weights;
    Ok(())
}
