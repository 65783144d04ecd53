//! What slice headers have, the quantiser, and tools (7.3.2.3.1, rows 3 to 13 of table 11).
ghost use Rattle.std.specs.Prelude.{◌≡◌, ◌+◌, ◌≤◌, ◌≤ℤ◌, pos, neg_ℤ, IfOk};
ghost use Rattle.hevc_spec.specs.Rows.{row, ue_row};
ghost use Rattle.hevc_elements.specs.Words.{Fills};
ghost use Rattle.hevc_tables.specs.PpsTable as table;
ghost use Rattle.hevc_sequence_set.specs.Sps.{plain_sps};
ghost use Rattle.hevc_picture_slice.specs.Pps.{plain_pps};

use hevc_elements::rows::{bits_u8, flag, se_i8, ue_u8, ue_u8_if};
use hevc_elements::{ElementReader, ParseError};
use hevc_picture_slice::Pps;
use hevc_sequence_set::Sps;
use hevc_spec::Row;

/// Rows 3 to 7 of table 11.
#[tactic(auto, unfolding(hevc_tables::specs::PpsTable::presence))]
pub(crate) fn read_presence(r: &mut ElementReader<'_>, pps: &mut Pps) -> Result<(), ParseError>
    ensures fills { Fills plain_pps table.presence result pps.old pps.new r.old r.new }
    ensures same_sps { pps.new.seq_parameter_set_id ≡ pps.old.seq_parameter_set_id }
{
    let dependent = flag(r, Row(11, 3))?;
    let output = flag(r, Row(11, 3))?;
    let extra_bits = bits_u8(r, Row(11, 4), 3, 0, 7)?;
    let sign_hiding = flag(r, Row(11, 5))?;
    let cabac_init = flag(r, Row(11, 5))?;
    let active_l0_minus1 = ue_u8(r, Row(11, 6), 0, 14)?;
    let active_l1_minus1 = ue_u8(r, Row(11, 7), 0, 14)?;
    set_header_elements(pps, dependent, output, extra_bits);
    set_hiding_and_start(pps, sign_hiding, cabac_init);
    set_active_counts(pps, active_l0_minus1, active_l1_minus1);
    Ok(())
}

/// Fills in rows 3 and 4.
fn set_header_elements(pps: &mut Pps, dependent: bool, output: bool, extra_bits: u8)
    ensures { plain_pps pps.new ≡ record (plain_pps pps.old) {
      dependent_slice_segments_enabled_flag = dependent;
      output_flag_present_flag = output;
      num_extra_slice_header_bits = extra_bits;
    } }
{
    pps.dependent_slice_segments_enabled_flag = dependent;
    pps.output_flag_present_flag = output;
    pps.num_extra_slice_header_bits = extra_bits;
}

/// Fills in row 5.
fn set_hiding_and_start(pps: &mut Pps, sign_hiding: bool, cabac_init: bool)
    ensures { plain_pps pps.new ≡ record (plain_pps pps.old) {
      sign_data_hiding_enabled_flag = sign_hiding;
      cabac_init_present_flag = cabac_init;
    } }
{
    pps.sign_data_hiding_enabled_flag = sign_hiding;
    pps.cabac_init_present_flag = cabac_init;
}

/// Fills in rows 6 and 7.
fn set_active_counts(pps: &mut Pps, l0_minus1: u8, l1_minus1: u8)
    requires l0 { l0_minus1 ≤ 14 }
    requires l1 { l1_minus1 ≤ 14 }
    ensures { plain_pps pps.new ≡ record (plain_pps pps.old) {
      num_ref_idx_l0_default_active_minus1 = l0_minus1;
      num_ref_idx_l1_default_active_minus1 = l1_minus1;
    } }
{
    pps.num_ref_idx_l0_default_active_minus1 = l0_minus1;
    pps.num_ref_idx_l1_default_active_minus1 = l1_minus1;
}

/// Rows 8 to 12 of table 11.
#[tactic(auto, unfolding(hevc_tables::specs::PpsTable::quantiser))]
pub(crate) fn read_quantiser(
    r: &mut ElementReader<'_>,
    sps: &Sps,
    pps: &mut Pps,
) -> Result<(), ParseError>
    ensures fills { Fills plain_pps
        (table.quantiser (plain_sps sps.now)) result pps.old pps.new r.old r.new }
    ensures same_sps { pps.new.seq_parameter_set_id ≡ pps.old.seq_parameter_set_id }
{
    let offset = qp_bd_offset(sps);
    let init_qp = se_i8(r, Row(11, 8), least_init_qp(offset), 25)?;
    let constrained_intra = flag(r, Row(11, 9))?;
    let transform_skip = flag(r, Row(11, 9))?;
    let changes = flag(r, Row(11, 9))?;
    let most_depth = sps.log2_diff_max_min_luma_coding_block_size;
    let depth = ue_u8_if(r, changes, Row(11, 10), 0, most_depth)?;
    let cb = se_i8(r, Row(11, 11), -12, 12)?;
    let cr = se_i8(r, Row(11, 12), -12, 12)?;
    let quantiser = Quantiser {
        offset,
        init_qp,
        constrained_intra,
        transform_skip,
        changes,
        depth,
        cb,
        cr,
    };
    set_quantiser(pps, quantiser);
    Ok(())
}

/// What rows 8 to 12 have, and QpBdOffsetY.
#[derive(Clone, Copy)]
struct Quantiser {
    offset: u32,
    init_qp: i8,
    constrained_intra: bool,
    transform_skip: bool,
    changes: bool,
    depth: u8,
    cb: i8,
    cr: i8,
}

/// Fills in rows 8 to 12.
fn set_quantiser(pps: &mut Pps, quantiser: Quantiser)
    requires offset { quantiser.offset ≤ 36 }
    requires least { neg_ℤ (pos (26 + quantiser.offset)) ≤ℤ quantiser.init_qp }
    requires most { quantiser.init_qp ≤ℤ pos 25 }
    requires cb_least { neg_ℤ (pos 12) ≤ℤ quantiser.cb }
    requires cb_most { quantiser.cb ≤ℤ pos 12 }
    requires cr_least { neg_ℤ (pos 12) ≤ℤ quantiser.cr }
    requires cr_most { quantiser.cr ≤ℤ pos 12 }
    ensures { plain_pps pps.new ≡ record (plain_pps pps.old) {
      qp_bd_offset_y = quantiser.offset;
      init_qp_minus26 = quantiser.init_qp;
      constrained_intra_pred_flag = quantiser.constrained_intra;
      transform_skip_enabled_flag = quantiser.transform_skip;
      cu_qp_delta_enabled_flag = quantiser.changes;
      diff_cu_qp_delta_depth = quantiser.depth;
      cb_qp_offset = quantiser.cb;
      cr_qp_offset = quantiser.cr;
    } }
{
    pps.qp_bd_offset_y = quantiser.offset;
    pps.init_qp_minus26 = quantiser.init_qp;
    pps.constrained_intra_pred_flag = quantiser.constrained_intra;
    pps.transform_skip_enabled_flag = quantiser.transform_skip;
    pps.cu_qp_delta_enabled_flag = quantiser.changes;
    pps.diff_cu_qp_delta_depth = quantiser.depth;
    pps.cb_qp_offset = quantiser.cb;
    pps.cr_qp_offset = quantiser.cr;
}

/// QpBdOffsetY (7-5).
fn qp_bd_offset(sps: &Sps) -> u32
    ensures value { result ≡ table.qp_bd_offset_y (plain_sps sps.now) }
    ensures small { result ≤ 36 }
{
    6 * u32::from(sps.bit_depth_luma_minus8)
}

/// The least `init_qp_minus26`: -(26 + QpBdOffsetY).
fn least_init_qp(qp_bd_offset_y: u32) -> i8
    requires { qp_bd_offset_y ≤ 36 }
    ensures { result ≡ neg_ℤ (pos (26 + qp_bd_offset_y)) }
{
    -((26 + qp_bd_offset_y) as i8)
}

/// Row 13 of table 11.
#[tactic(auto, unfolding(hevc_tables::specs::PpsTable::tools))]
pub(crate) fn read_tools(r: &mut ElementReader<'_>, pps: &mut Pps) -> Result<(), ParseError>
    ensures fills { Fills plain_pps table.tools result pps.old pps.new r.old r.new }
    ensures same_sps { pps.new.seq_parameter_set_id ≡ pps.old.seq_parameter_set_id }
{
    let tools = Tools {
        chroma_offsets: flag(r, Row(11, 13))?,
        weighted: flag(r, Row(11, 13))?,
        weighted_both: flag(r, Row(11, 13))?,
        bypass: flag(r, Row(11, 13))?,
        tiles: flag(r, Row(11, 13))?,
        wavefronts: flag(r, Row(11, 13))?,
    };
    set_tools(pps, tools);
    Ok(())
}

/// The flags of row 13.
#[derive(Clone, Copy)]
struct Tools {
    chroma_offsets: bool,
    weighted: bool,
    weighted_both: bool,
    bypass: bool,
    tiles: bool,
    wavefronts: bool,
}

/// Fills in row 13.
fn set_tools(pps: &mut Pps, tools: Tools)
    ensures { plain_pps pps.new ≡ record (plain_pps pps.old) {
      slice_chroma_qp_offsets_present_flag = tools.chroma_offsets;
      weighted_pred_flag = tools.weighted;
      weighted_bipred_flag = tools.weighted_both;
      transquant_bypass_enabled_flag = tools.bypass;
      tiles_enabled_flag = tools.tiles;
      entropy_coding_sync_enabled_flag = tools.wavefronts;
    } }
{
    pps.slice_chroma_qp_offsets_present_flag = tools.chroma_offsets;
    pps.weighted_pred_flag = tools.weighted;
    pps.weighted_bipred_flag = tools.weighted_both;
    pps.transquant_bypass_enabled_flag = tools.bypass;
    pps.tiles_enabled_flag = tools.tiles;
    pps.entropy_coding_sync_enabled_flag = tools.wavefronts;
}
