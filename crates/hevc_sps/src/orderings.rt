//! The numbers of buffering, reordering and latency (7.3.2.2.1, rows 16 to 19 of table 5).
ghost use Rattle.std.specs.Prelude.{◌≡◌, ◌≤◌, ◌<◌, slice_set};
ghost use Rattle.hevc_elements.specs.Words.{Fills};
ghost use Rattle.hevc_tables.specs.SpsTable as table;
ghost use Rattle.hevc_tables.specs.VpsTable.{up_to_highest as up_to_highest_sub_layer};
ghost use Rattle.hevc_sequence_set.specs.Sps.{plain_sps};

use hevc_elements::rows::{flag, ue_u8};
use hevc_elements::{ElementReader, ParseError};
use hevc_sequence_set::Sps;
use hevc_spec::Row;

/// Rows 16 to 19 of table 5.
#[tactic(auto, unfolding(hevc_tables::specs::SpsTable::orderings, hevc_spec::specs::Rows::either))]
pub(crate) fn read_orderings(r: &mut ElementReader<'_>, sps: &mut Sps) -> Result<(), ParseError>
    ensures { Fills plain_sps table.orderings result sps.old sps.new r.old r.new }
{
    let own = flag(r, Row(5, 16))?;
    set_ordering_info_present(sps, own);
    if own {
        read_own_orderings(r, sps)
    } else {
        read_common_ordering(r, sps)
    }
}

/// Fills in row 16.
fn set_ordering_info_present(sps: &mut Sps, own: bool)
    ensures { plain_sps sps.new ≡ record (plain_sps sps.old) {
      sub_layer_ordering_info_present_flag = own;
    } }
{
    sps.sub_layer_ordering_info_present_flag = own;
}

/// Rows 17 to 19 of table 5, for each sub-layer.
#[tactic(auto, using(hevc_elements::proofs::Loops::loops), unfolding(hevc_tables::specs::SpsTable::own_orderings))]
fn read_own_orderings(r: &mut ElementReader<'_>, sps: &mut Sps) -> Result<(), ParseError>
    ensures { Fills plain_sps table.own_orderings result sps.old sps.new r.old r.new }
{
    let count = usize::from(sps.max_sub_layers_minus1) + 1;
    for i in 0..count {
        read_own_ordering(r, i, sps)?;
    }
    Ok(())
}

/// Rows 17 to 19 of table 5, for one sub-layer.
#[tactic(auto, unfolding(hevc_tables::specs::SpsTable::own_ordering))]
fn read_own_ordering(r: &mut ElementReader<'_>, i: usize, sps: &mut Sps) -> Result<(), ParseError>
    requires { i < 7 }
    ensures { Fills plain_sps (table.own_ordering i) result sps.old sps.new r.old r.new }
{
    let buffering = ue_u8(r, Row(5, 17), 0, 16)?;
    let reordering = ue_u8(r, Row(5, 18), 0, buffering)?;
    let latency = ue_u8(r, Row(5, 19), 0, 255)?;
    set_own_ordering(sps, i, buffering, reordering, latency);
    Ok(())
}

/// Fills in rows 17 to 19 of one sub-layer.
#[tactic(auto, using(crate::proofs::Places::places))]
fn set_own_ordering(sps: &mut Sps, i: usize, buffering: u8, reordering: u8, latency: u8)
    requires there { i < 7 }
    requires room { buffering ≤ 16 }
    requires within { reordering ≤ buffering }
    ensures { plain_sps sps.new ≡ record (plain_sps sps.old) {
      max_dec_pic_buffering_minus1 = slice_set sps.old.max_dec_pic_buffering_minus1 i buffering;
      max_num_reorder_pics = slice_set sps.old.max_num_reorder_pics i reordering;
      max_latency_increase_plus1 = slice_set sps.old.max_latency_increase_plus1 i latency;
    } }
{
    sps.max_dec_pic_buffering_minus1[i] = buffering;
    sps.max_num_reorder_pics[i] = reordering;
    sps.max_latency_increase_plus1[i] = latency;
}

/// Rows 17 to 19 of table 5, for all sub-layers.
#[tactic(auto, unfolding(hevc_tables::specs::SpsTable::common_ordering))]
fn read_common_ordering(r: &mut ElementReader<'_>, sps: &mut Sps) -> Result<(), ParseError>
    ensures { Fills plain_sps table.common_ordering result sps.old sps.new r.old r.new }
{
    let buffering = ue_u8(r, Row(5, 17), 0, 16)?;
    let most_reordering = ue_u8(r, Row(5, 18), 0, buffering)?;
    let latency = ue_u8(r, Row(5, 19), 0, 255)?;
    set_common_ordering(sps, buffering, most_reordering, latency);
    Ok(())
}

/// Fills in rows 17 to 19 of all sub-layers.
#[tactic(auto, using(crate::proofs::Places::common))]
fn set_common_ordering(sps: &mut Sps, buffering: u8, reordering: u8, latency: u8)
    requires room { buffering ≤ 16 }
    requires within { reordering ≤ buffering }
    ensures { plain_sps sps.new ≡ record (plain_sps sps.old) {
      max_dec_pic_buffering_minus1 =
          up_to_highest_sub_layer sps.old.max_sub_layers_minus1 buffering;
      max_num_reorder_pics =
          up_to_highest_sub_layer sps.old.max_sub_layers_minus1 reordering;
      max_latency_increase_plus1 =
          up_to_highest_sub_layer sps.old.max_sub_layers_minus1 latency;
    } }
{
    let top = sps.max_sub_layers_minus1;
    let max_dec_pic_buffering_minus1 = up_to_highest(top, buffering);
    let max_num_reorder_pics = up_to_highest(top, reordering);
    let max_latency_increase_plus1 = up_to_highest(top, latency);
    sps.max_dec_pic_buffering_minus1 = max_dec_pic_buffering_minus1;
    sps.max_num_reorder_pics = max_num_reorder_pics;
    sps.max_latency_increase_plus1 = max_latency_increase_plus1;
}

/// A number for each sub-layer up to the highest, and 0 above it.
fn up_to_highest(max_sub_layers_minus1: u8, n: u8) -> [u8; 7]
    requires { max_sub_layers_minus1 ≤ 6 }
    ensures { result ≡ up_to_highest_sub_layer max_sub_layers_minus1 n }
{
    match max_sub_layers_minus1 {
        0 => [n, 0, 0, 0, 0, 0, 0],
        1 => [n, n, 0, 0, 0, 0, 0],
        2 => [n, n, n, 0, 0, 0, 0],
        3 => [n, n, n, n, 0, 0, 0],
        4 => [n, n, n, n, n, 0, 0],
        5 => [n, n, n, n, n, n, 0],
        _ => [n; 7],
    }
}
