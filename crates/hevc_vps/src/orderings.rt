//! The numbers of buffering, reordering and latency (7.3.2.1, rows 8 to 13 of table 1).
ghost use Rattle.std.specs.Prelude.{◌==◌, not};
ghost use Rattle.hevc_spec.specs.Rows.{check_row};
ghost use Rattle.std.specs.Prelude.{◌≡◌, ◌≤◌, ◌<◌};
ghost use Rattle.hevc_elements.specs.Words.{when, Reads, Fills};
ghost use Rattle.hevc_tables.specs.VpsTable as table;
ghost use Rattle.hevc_video_set.specs.Vps.{plain_vps};

use hevc_elements::rows::{check, flag, ue};
use hevc_elements::{ElementReader, ParseError};
use hevc_spec::Row;
use hevc_video_set::Vps;

/// Rows 8 to 13 of table 1.
#[tactic(auto, unfolding(hevc_tables::specs::VpsTable::orderings, hevc_spec::specs::Rows::either))]
pub(crate) fn read_orderings(r: &mut ElementReader<'_>, vps: &mut Vps) -> Result<(), ParseError>
    ensures { Fills plain_vps table.orderings result vps.old vps.new r.old r.new }
{
    vps.sub_layer_ordering_info_present_flag = flag(r, Row(1, 8))?;
    if vps.sub_layer_ordering_info_present_flag {
        read_own_orderings(r, vps)
    } else {
        read_common_ordering(r, vps)
    }
}

/// Rows 9 to 13 of table 1, for each sub-layer.
#[tactic(auto, using(hevc_elements::proofs::Loops::loops), unfolding(hevc_tables::specs::VpsTable::own_orderings))]
fn read_own_orderings(r: &mut ElementReader<'_>, vps: &mut Vps) -> Result<(), ParseError>
    ensures { Fills plain_vps table.own_orderings result vps.old vps.new r.old r.new }
{
    let count = usize::from(vps.max_sub_layers_minus1) + 1;
    for i in 0..count {
        read_own_ordering(r, i, vps)?;
    }
    Ok(())
}

/// Rows 9 to 13 of table 1, for one sub-layer.
#[tactic(auto, unfolding(hevc_tables::specs::VpsTable::own_ordering))]
fn read_own_ordering(r: &mut ElementReader<'_>, i: usize, vps: &mut Vps) -> Result<(), ParseError>
    requires { i < 7 }
    ensures { Fills plain_vps (table.own_ordering i) result vps.old vps.new r.old r.new }
{
    let buffering = ue(r, Row(1, 9), 0, 15)?;
    let reordering = ue(r, Row(1, 10), 0, buffering)?;
    let latency = ue(r, Row(1, 11), 0, 2_147_483_647)?;
    check_risen(
        r,
        Row(1, 12),
        &vps.max_dec_pic_buffering_minus1,
        i,
        buffering,
    )?;
    check_risen(r, Row(1, 13), &vps.max_num_reorder_pics, i, reordering)?;
    vps.max_dec_pic_buffering_minus1[i] = buffering;
    vps.max_num_reorder_pics[i] = reordering;
    vps.max_latency_increase_plus1[i] = latency;
    Ok(())
}

/// Checks that the number of a sub-layer isn't below that of the one below it.
#[tactic(auto, unfolding(hevc_spec::specs::Rows::when))]
fn check_risen(
    r: &mut ElementReader<'_>,
    row: Row,
    numbers: &[u32; 7],
    i: usize,
    number: u32,
) -> Result<(), ParseError>
    requires { i < 7 }
    ensures read { Reads (λ _. 0)
        (when (not (i == 0)) 0 (check_row row (table.is_risen numbers.now i number))) result r.old
        r.new }
{
    if i != 0 {
        check(r, row, numbers[i - 1] <= number)?;
    }
    Ok(())
}

/// Rows 9 to 11 of table 1, for all sub-layers.
#[tactic(auto, unfolding(hevc_tables::specs::VpsTable::common_ordering))]
fn read_common_ordering(r: &mut ElementReader<'_>, vps: &mut Vps) -> Result<(), ParseError>
    ensures { Fills plain_vps table.common_ordering result vps.old vps.new r.old r.new }
{
    let buffering = ue(r, Row(1, 9), 0, 15)?;
    let reordering = ue(r, Row(1, 10), 0, buffering)?;
    let latency = ue(r, Row(1, 11), 0, 2_147_483_647)?;
    let top = vps.max_sub_layers_minus1;
    let max_dec_pic_buffering_minus1 = up_to_highest(top, buffering);
    let max_num_reorder_pics = up_to_highest(top, reordering);
    let max_latency_increase_plus1 = up_to_highest(top, latency);
    vps.max_dec_pic_buffering_minus1 = max_dec_pic_buffering_minus1;
    vps.max_num_reorder_pics = max_num_reorder_pics;
    vps.max_latency_increase_plus1 = max_latency_increase_plus1;
    Ok(())
}

/// A number for each sub-layer up to the highest, and 0 above it.
fn up_to_highest(max_sub_layers_minus1: u8, n: u32) -> [u32; 7]
    requires { max_sub_layers_minus1 ≤ 6 }
    ensures { result ≡ table.up_to_highest max_sub_layers_minus1 n }
{
    match max_sub_layers_minus1 {
        0 => [n, 0, 0, 0, 0, 0, 0],
        1 => [n, n, 0, 0, 0, 0, 0],
        2 => [n, n, n, 0, 0, 0, 0],
        3 => [n, n, n, n, 0, 0, 0],
        4 => [n, n, n, n, n, 0, 0],
        5 => [n, n, n, n, n, n, 0],
        _ => [n; 7],
    }
}
