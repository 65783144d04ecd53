//! The order count and the short-term set (7.3.6.1, rows 10 to 13 of table 14).
ghost use Rattle.std.specs.Prelude.{◌≡◌, ◌≤◌};
ghost use Rattle.hevc_elements.specs.Words.{Reads, Fills};
ghost use Rattle.hevc_tables.specs.SliceHeaderTable as table;
ghost use Rattle.hevc_tables.specs.SpsTable.{highest_buffering as buffering_of_highest};
ghost use Rattle.hevc_sequence_set.specs.Sps.{plain_sps};
ghost use Rattle.hevc_picture_slice.specs.SliceHeader.{plain_slice_header};

use crate::index::read_index;
use crate::size::bits_between;
use hevc_elements::rows::{bits_u32, flag, zero};
use hevc_elements::{ElementReader, ParseError};
use hevc_picture_slice::SliceHeader;
use hevc_sequence_set::Sps;
use hevc_short_term::read_short_term_set;
use hevc_spec::Row;

/// Rows 10 to 13 of table 14.
#[tactic(auto, unfolding(hevc_tables::specs::SliceHeaderTable::short_term, hevc_spec::specs::Rows::either))]
pub(crate) fn read_short_term(
    r: &mut ElementReader<'_>,
    sps: &Sps,
    h: &mut SliceHeader,
) -> Result<(), ParseError>
    ensures { Fills plain_slice_header
        (table.short_term (plain_sps sps.now)) result h.old h.new r.old r.new }
{
    let num_bits = lsb_bits(sps);
    let lsb = bits_u32(r, Row(14, 10), num_bits, 0, (1u32 << num_bits) - 1)?;
    let is_candidate = read_short_term_flag(r, sps)?;
    h.pic_order_cnt_lsb = lsb as u16;
    h.short_term_ref_pic_set_sps_flag = is_candidate;
    if is_candidate {
        read_candidate_set(r, sps, h)
    } else {
        read_own_set(r, sps, h)
    }
}

/// How many low bits of order counts are signalled: 4 to 16.
pub(crate) fn lsb_bits(sps: &Sps) -> usize
    ensures value { result ≡ table.lsb_bits (plain_sps sps.now) }
    ensures range { (4 ≤ result) × (result ≤ 16) }
{
    usize::from(sps.log2_max_pic_order_cnt_lsb_minus4) + 4
}

/// Row 11 of table 14.
#[tactic(auto, unfolding(hevc_tables::specs::SliceHeaderTable::short_term_flag, hevc_spec::specs::Rows::either))]
fn read_short_term_flag(r: &mut ElementReader<'_>, sps: &Sps) -> Result<bool, ParseError>
    ensures read { Reads (λ b. b) (table.short_term_flag (plain_sps sps.now)) result r.old r.new }
{
    if sps.num_short_term_ref_pic_sets == 0 {
        zero(r, Row(14, 11))?;
        Ok(false)
    } else {
        flag(r, Row(14, 11))
    }
}

/// Row 13 of table 14.
#[tactic(auto, unfolding(hevc_tables::specs::SliceHeaderTable::candidate_short_term_set))]
fn read_candidate_set(
    r: &mut ElementReader<'_>,
    sps: &Sps,
    h: &mut SliceHeader,
) -> Result<(), ParseError>
    ensures { Fills plain_slice_header
        (table.candidate_short_term_set (plain_sps sps.now)) result h.old h.new r.old r.new }
{
    let idx = read_index(r, Row(14, 13), sps.num_short_term_ref_pic_sets)?;
    h.short_term_ref_pic_set_idx = idx;
    h.curr_rps_idx = idx;
    Ok(())
}

/// Row 12 of table 14.
#[tactic(auto, unfolding(hevc_tables::specs::SliceHeaderTable::own_short_term_set))]
fn read_own_set(r: &mut ElementReader<'_>, sps: &Sps, h: &mut SliceHeader) -> Result<(), ParseError>
    ensures { Fills plain_slice_header
        (table.own_short_term_set (plain_sps sps.now)) result h.old h.new r.old r.new }
{
    let before = r.fork();
    let count = sps.num_short_term_ref_pic_sets;
    let sets = sps.short_term_ref_pic_set.as_slice();
    let set = read_short_term_set(r, sets, count, highest_buffering(sps), count)?;
    h.st_rps_bits = bits_between(&before, &r.fork());
    h.short_term_ref_pic_set = set;
    Ok(())
}

/// sps_max_dec_pic_buffering_minus1 of the highest sub-layer.
#[tactic(auto, using(crate::proofs::SetSize::bounds))]
fn highest_buffering(sps: &Sps) -> u8
    ensures value { result ≡ buffering_of_highest (plain_sps sps.now) }
    ensures small { result ≤ 16 }
{
    sps.max_dec_pic_buffering_minus1[usize::from(sps.max_sub_layers_minus1)]
}
