//! Long-term pictures (7.3.6.1, rows 14 to 20 of table 14).
ghost use Rattle.std.specs.Prelude.{◌≡◌, ◌+◌, ◌-◌, ◌*◌, ◌^◌, ◌≤◌, ◌<◌, OnOk, slice_index_or};
ghost use Rattle.hevc_elements.specs.Words.{Fills};
ghost use Rattle.hevc_tables.specs.SliceHeaderTable as table;
ghost use Rattle.hevc_sequence_set.specs.Sps.{plain_sps};
ghost use Rattle.hevc_picture_slice.specs.SliceHeader.{plain_slice_header};

use crate::index::read_index;
use crate::short_term::lsb_bits;
use hevc_elements::rows::{bits_u32, flag, ue_if, ue_u8};
use hevc_elements::{ElementReader, ParseError};
use hevc_picture_slice::SliceHeader;
use hevc_sequence_set::Sps;
use hevc_spec::Row;

/// Rows 14 to 20 of table 14.
#[tactic(auto, unfolding(hevc_tables::specs::SliceHeaderTable::long_term))]
pub(crate) fn read_long_term(
    r: &mut ElementReader<'_>,
    sps: &Sps,
    h: &mut SliceHeader,
) -> Result<(), ParseError>
    ensures { Fills plain_slice_header
        (table.long_term (plain_sps sps.now)) result h.old h.new r.old r.new }
{
    read_counts(r, sps, h)?;
    read_pictures(r, sps, h)
}

/// Rows 14 and 15 of table 14.
#[tactic(auto, unfolding(hevc_tables::specs::SliceHeaderTable::long_term_counts))]
fn read_counts(r: &mut ElementReader<'_>, sps: &Sps, h: &mut SliceHeader) -> Result<(), ParseError>
    ensures { Fills plain_slice_header
        (table.long_term_counts (plain_sps sps.now)) result h.old h.new r.old r.new }
{
    let candidates = sps.num_long_term_ref_pics_sps;
    let most = u32::from(candidates.min(16));
    let num_candidates = ue_if(r, candidates != 0, Row(14, 14), 0, most)? as u8;
    let num_others = ue_u8(r, Row(14, 15), 0, 16 - num_candidates)?;
    h.num_long_term_sps = num_candidates;
    h.num_long_term_pics = num_others;
    Ok(())
}

/// Rows 16 to 20 of table 14, for each picture.
#[tactic(auto, using(hevc_elements::proofs::Loops::loops), unfolding(hevc_tables::specs::SliceHeaderTable::long_term_pictures))]
fn read_pictures(
    r: &mut ElementReader<'_>,
    sps: &Sps,
    h: &mut SliceHeader,
) -> Result<(), ParseError>
    ensures { Fills plain_slice_header
        (table.long_term_pictures (plain_sps sps.now)) result h.old h.new r.old r.new }
{
    let count = usize::from(h.num_long_term_sps + h.num_long_term_pics);
    for i in 0..count {
        read_picture(r, sps, i, h)?;
    }
    Ok(())
}

/// Rows 16 to 20 of table 14, for picture `i`.
#[tactic(auto, unfolding(hevc_tables::specs::SliceHeaderTable::long_term_picture, hevc_spec::specs::Rows::either))]
fn read_picture(
    r: &mut ElementReader<'_>,
    sps: &Sps,
    i: usize,
    h: &mut SliceHeader,
) -> Result<(), ParseError>
    requires there { i < 16 }
    requires few { table.cycles_before i (plain_slice_header h.old) ≤ i * 2 ^ 28 }
    ensures fills { Fills plain_slice_header
        (table.long_term_picture (plain_sps sps.now) i) result h.old h.new r.old r.new }
    ensures few { OnOk result (slice_index_or h.new.delta_poc_msb_cycle_lt i 0 ≤ (i + 1) * 2 ^ 28) }
{
    if i < usize::from(h.num_long_term_sps) {
        read_candidate(r, sps, i, h)?;
    } else {
        read_other(r, sps, i, h)?;
    }
    read_cycles(r, sps, i, h)
}

/// Row 16 of table 14, for picture `i`, one of the sequence set's.
#[tactic(auto, unfolding(hevc_tables::specs::SliceHeaderTable::candidate_long_term_picture))]
fn read_candidate(
    r: &mut ElementReader<'_>,
    sps: &Sps,
    i: usize,
    h: &mut SliceHeader,
) -> Result<(), ParseError>
    requires { i < 16 }
    ensures fills { Fills plain_slice_header
        (table.candidate_long_term_picture (plain_sps sps.now) i) result h.old h.new r.old r.new }
    ensures same_cycles { h.new.delta_poc_msb_cycle_lt ≡ h.old.delta_poc_msb_cycle_lt }
    ensures same_count { h.new.num_long_term_sps ≡ h.old.num_long_term_sps }
{
    let idx = read_index(r, Row(14, 16), sps.num_long_term_ref_pics_sps)?;
    let lsb = sps.lt_ref_pic_poc_lsb_sps[usize::from(idx)];
    let used = sps.used_by_curr_pic_lt_sps_flag[usize::from(idx)];
    h.lt_idx_sps[i] = idx;
    h.poc_lsb_lt[i] = lsb;
    h.used_by_curr_pic_lt[i] = used;
    Ok(())
}

/// Rows 17 and 18 of table 14, for picture `i`, one that isn't the sequence set's.
#[tactic(auto, unfolding(hevc_tables::specs::SliceHeaderTable::other_long_term_picture))]
fn read_other(
    r: &mut ElementReader<'_>,
    sps: &Sps,
    i: usize,
    h: &mut SliceHeader,
) -> Result<(), ParseError>
    requires { i < 16 }
    ensures fills { Fills plain_slice_header
        (table.other_long_term_picture (plain_sps sps.now) i) result h.old h.new r.old r.new }
    ensures same_cycles { h.new.delta_poc_msb_cycle_lt ≡ h.old.delta_poc_msb_cycle_lt }
    ensures same_count { h.new.num_long_term_sps ≡ h.old.num_long_term_sps }
{
    let num_bits = lsb_bits(sps);
    let lsb = bits_u32(r, Row(14, 17), num_bits, 0, (1u32 << num_bits) - 1)?;
    let used = flag(r, Row(14, 18))?;
    h.poc_lsb_lt[i] = lsb;
    h.used_by_curr_pic_lt[i] = used;
    Ok(())
}

/// Rows 19 and 20 of table 14, for picture `i`.
#[tactic(auto, unfolding(hevc_tables::specs::SliceHeaderTable::msb_cycles))]
fn read_cycles(
    r: &mut ElementReader<'_>,
    sps: &Sps,
    i: usize,
    h: &mut SliceHeader,
) -> Result<(), ParseError>
    requires there { i < 16 }
    requires few { table.cycles_before i (plain_slice_header h.old) ≤ i * 2 ^ 28 }
    ensures fills { Fills plain_slice_header
        (table.msb_cycles (plain_sps sps.now) i) result h.old h.new r.old r.new }
    ensures few { OnOk result (slice_index_or h.new.delta_poc_msb_cycle_lt i 0 ≤ (i + 1) * 2 ^ 28) }
{
    let before = cycles_before(i, h);
    let present = flag(r, Row(14, 19))?;
    let cycles = ue_if(r, present, Row(14, 20), 0, most_cycles(sps))?;
    h.delta_poc_msb_present_flag[i] = present;
    h.delta_poc_msb_cycle_lt[i] = u64::from(cycles) + before;
    Ok(())
}

/// The cycles that picture `i` adds its own to (7-52).
fn cycles_before(i: usize, h: &SliceHeader) -> u64
    requires { i < 16 }
    ensures { result ≡ table.cycles_before i (plain_slice_header h.now) }
{
    if i == 0 || i == usize::from(h.num_long_term_sps) {
        0
    } else {
        h.delta_poc_msb_cycle_lt[i - 1]
    }
}

/// The most cycles that a picture tells: 2^(32 - L), of order counts with L low bits.
#[tactic(auto, using(crate::proofs::Cycles::few_cycles))]
fn most_cycles(sps: &Sps) -> u32
    ensures value { result ≡ 2 ^ (32 - table.lsb_bits (plain_sps sps.now)) }
    ensures few { result ≤ 2 ^ 28 }
{
    1u32 << (32 - lsb_bits(sps))
}
