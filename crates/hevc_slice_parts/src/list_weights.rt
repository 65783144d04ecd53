//! The weights of one reference picture list (7.3.6.3, rows 3 to 14 of table 16).
ghost use Rattle.std.specs.Prelude.{◌≡◌, ◌-◌, ◌≤◌, ◌<◌, pos, neg_ℤ, ◌≤ℤ◌, IfOk};
ghost use Rattle.hevc_spec.specs.Rows.{se_row};
ghost use Rattle.hevc_elements.specs.Words.{Reads, Fills};
ghost use Rattle.hevc_tables.specs.WeightedPredictionTable as table;
ghost use Rattle.hevc_sequence_set.specs.Sps.{plain_sps};
ghost use Rattle.hevc_slice_parts.specs.Projections.{plain_list_weights};

use crate::records::ListWeights;
use hevc_elements::rows::{flag, se, se_i8};
use hevc_elements::{ElementReader, ParseError};
use hevc_sequence_set::Sps;
use hevc_spec::Row;

/// No weights.
pub(crate) fn no_weights() -> ListWeights
    ensures { plain_list_weights result ≡ table.no_weights }
{
    ListWeights {
        luma_weight_flag: [false; 15],
        chroma_weight_flag: [false; 15],
        delta_luma_weight: [0; 15],
        luma_offset: [0; 15],
        delta_chroma_weight: [[0; 2]; 15],
        delta_chroma_offset: [[0; 2]; 15],
    }
}

/// Whether there are chroma planes that are coded with luma.
pub(crate) fn has_chroma(sps: &Sps) -> bool
    ensures { result ≡ table.has_chroma (plain_sps sps.now) }
{
    sps.chroma_array_type != 0
}

/// Rows 3 to 8 of table 16 for list 0, or rows 9 to 14 for list 1, of so many places.
#[tactic(auto, unfolding(hevc_tables::specs::WeightedPredictionTable::list_weights))]
pub(crate) fn read_list_weights(
    r: &mut ElementReader<'_>,
    sps: &Sps,
    list: u8,
    count: usize,
) -> Result<ListWeights, ParseError>
    requires list { list ≤ 1 }
    requires places { count ≤ 15 }
    ensures read { Reads plain_list_weights (table.list_weights (plain_sps sps.now) list count)
        result r.old r.new }
{
    let mut w = read_flags(r, sps, list, count)?;
    read_weights(r, sps, list, count, &mut w)?;
    Ok(w)
}

/// Rows 3 and 4 of table 16, or 9 and 10 for list 1.
#[tactic(auto, unfolding(hevc_tables::specs::WeightedPredictionTable::flags, hevc_spec::specs::Rows::when))]
fn read_flags(
    r: &mut ElementReader<'_>,
    sps: &Sps,
    list: u8,
    count: usize,
) -> Result<ListWeights, ParseError>
    requires list { list ≤ 1 }
    requires places { count ≤ 15 }
    ensures read { Reads plain_list_weights (table.flags (plain_sps sps.now) list count) result
        r.old r.new }
{
    let mut w = no_weights();
    read_luma_flags(r, list, count, &mut w)?;
    if has_chroma(sps) {
        read_chroma_flags(r, list, count, &mut w)?;
    }
    Ok(w)
}

/// Row 3 of table 16, or 9 for list 1.
#[tactic(auto, using(hevc_elements::proofs::Loops::loops), unfolding(hevc_tables::specs::WeightedPredictionTable::luma_flags))]
fn read_luma_flags(
    r: &mut ElementReader<'_>,
    list: u8,
    count: usize,
    w: &mut ListWeights,
) -> Result<(), ParseError>
    requires list { list ≤ 1 }
    requires places { count ≤ 15 }
    ensures { Fills plain_list_weights
        (table.luma_flags list count) result w.old w.new r.old r.new }
{
    for i in 0..count {
        read_luma_flag(r, list, i, w)?;
    }
    Ok(())
}

/// Row 3 of table 16, or 9 for list 1, for one place.
#[tactic(auto, unfolding(hevc_tables::specs::WeightedPredictionTable::luma_flag))]
fn read_luma_flag(
    r: &mut ElementReader<'_>,
    list: u8,
    i: usize,
    w: &mut ListWeights,
) -> Result<(), ParseError>
    requires list { list ≤ 1 }
    requires place { i < 15 }
    ensures { Fills plain_list_weights (table.luma_flag list i) result w.old w.new r.old r.new }
{
    let weighted = flag(r, Row(16, 6 * list + 3))?;
    w.luma_weight_flag[i] = weighted;
    Ok(())
}

/// Row 4 of table 16, or 10 for list 1.
#[tactic(auto, using(hevc_elements::proofs::Loops::loops), unfolding(hevc_tables::specs::WeightedPredictionTable::chroma_flags))]
fn read_chroma_flags(
    r: &mut ElementReader<'_>,
    list: u8,
    count: usize,
    w: &mut ListWeights,
) -> Result<(), ParseError>
    requires list { list ≤ 1 }
    requires places { count ≤ 15 }
    ensures { Fills plain_list_weights
        (table.chroma_flags list count) result w.old w.new r.old r.new }
{
    for i in 0..count {
        read_chroma_flag(r, list, i, w)?;
    }
    Ok(())
}

/// Row 4 of table 16, or 10 for list 1, for one place.
#[tactic(auto, unfolding(hevc_tables::specs::WeightedPredictionTable::chroma_flag))]
fn read_chroma_flag(
    r: &mut ElementReader<'_>,
    list: u8,
    i: usize,
    w: &mut ListWeights,
) -> Result<(), ParseError>
    requires list { list ≤ 1 }
    requires place { i < 15 }
    ensures { Fills plain_list_weights (table.chroma_flag list i) result w.old w.new r.old r.new }
{
    let weighted = flag(r, Row(16, 6 * list + 4))?;
    w.chroma_weight_flag[i] = weighted;
    Ok(())
}

/// Rows 5 to 8 of table 16, or 11 to 14 for list 1.
#[tactic(auto, using(hevc_elements::proofs::Loops::loops), unfolding(hevc_tables::specs::WeightedPredictionTable::weights))]
fn read_weights(
    r: &mut ElementReader<'_>,
    sps: &Sps,
    list: u8,
    count: usize,
    w: &mut ListWeights,
) -> Result<(), ParseError>
    requires list { list ≤ 1 }
    requires places { count ≤ 15 }
    ensures { Fills plain_list_weights
        (table.weights (plain_sps sps.now) list count) result w.old w.new r.old r.new }
{
    for i in 0..count {
        read_place_weights(r, sps, list, i, w)?;
    }
    Ok(())
}

/// Rows 5 to 8 of table 16, or 11 to 14 for list 1, for one place.
#[tactic(auto, unfolding(hevc_tables::specs::WeightedPredictionTable::place_weights, hevc_spec::specs::Rows::when))]
fn read_place_weights(
    r: &mut ElementReader<'_>,
    sps: &Sps,
    list: u8,
    i: usize,
    w: &mut ListWeights,
) -> Result<(), ParseError>
    requires list { list ≤ 1 }
    requires place { i < 15 }
    ensures { Fills plain_list_weights
        (table.place_weights (plain_sps sps.now) list i) result w.old w.new r.old r.new }
{
    if w.luma_weight_flag[i] {
        read_luma_weight(r, sps, list, i, w)?;
    }
    if w.chroma_weight_flag[i] {
        read_chroma_weight(r, sps, list, i, w)?;
    }
    Ok(())
}

/// Rows 5 and 6 of table 16, or 11 and 12 for list 1, for one place.
#[tactic(auto, using(crate::proofs::Ranges::ranges), unfolding(hevc_tables::specs::WeightedPredictionTable::luma_weight))]
fn read_luma_weight(
    r: &mut ElementReader<'_>,
    sps: &Sps,
    list: u8,
    i: usize,
    w: &mut ListWeights,
) -> Result<(), ParseError>
    requires list { list ≤ 1 }
    requires place { i < 15 }
    ensures { Fills plain_list_weights
        (table.luma_weight (plain_sps sps.now) list i) result w.old w.new r.old r.new }
{
    let weight = se_i8(r, Row(16, 6 * list + 5), -128, 127)?;
    let offset = read_offset(r, Row(16, 6 * list + 6), luma_half_range(sps))?;
    w.delta_luma_weight[i] = weight;
    w.luma_offset[i] = offset;
    Ok(())
}

/// WpOffsetHalfRangeY (7.4.3.2.2).
#[tactic(auto, using(crate::proofs::Ranges::half_ranges))]
fn luma_half_range(sps: &Sps) -> u32
    ensures value { result ≡ (plain_sps sps.now).wp_offset_half_range_y }
    ensures range { (1 ≤ result) × (result ≤ 8192) }
{
    sps.wp_offset_half_range_y
}

/// Rows 7 and 8 of table 16, or 13 and 14 for list 1, for one place.
#[tactic(auto, unfolding(hevc_tables::specs::WeightedPredictionTable::chroma_weight))]
fn read_chroma_weight(
    r: &mut ElementReader<'_>,
    sps: &Sps,
    list: u8,
    i: usize,
    w: &mut ListWeights,
) -> Result<(), ParseError>
    requires list { list ≤ 1 }
    requires place { i < 15 }
    ensures { Fills plain_list_weights
        (table.chroma_weight (plain_sps sps.now) list i) result w.old w.new r.old r.new }
{
    read_chroma_component(r, sps, list, i, 0, w)?;
    read_chroma_component(r, sps, list, i, 1, w)
}

/// Rows 7 and 8 of table 16, or 13 and 14 for list 1, for component `j` of one place: Cb or Cr.
#[tactic(auto, using(crate::proofs::Ranges::ranges), unfolding(hevc_tables::specs::WeightedPredictionTable::chroma_component))]
fn read_chroma_component(
    r: &mut ElementReader<'_>,
    sps: &Sps,
    list: u8,
    i: usize,
    j: usize,
    w: &mut ListWeights,
) -> Result<(), ParseError>
    requires list { list ≤ 1 }
    requires place { i < 15 }
    requires component { j < 2 }
    ensures { Fills plain_list_weights
        (table.chroma_component (plain_sps sps.now) list i j) result w.old w.new r.old r.new }
{
    let weight = se_i8(r, Row(16, 6 * list + 7), -128, 127)?;
    let offset = read_offset(r, Row(16, 6 * list + 8), 4 * chroma_half_range(sps))?;
    w.delta_chroma_weight[i][j] = weight;
    w.delta_chroma_offset[i][j] = offset;
    Ok(())
}

/// WpOffsetHalfRangeC (7.4.3.2.2).
#[tactic(auto, using(crate::proofs::Ranges::half_ranges))]
fn chroma_half_range(sps: &Sps) -> u32
    ensures value { result ≡ (plain_sps sps.now).wp_offset_half_range_c }
    ensures range { (1 ≤ result) × (result ≤ 8192) }
{
    sps.wp_offset_half_range_c
}

/// An offset from `-half_range` to `half_range - 1`.
fn read_offset(r: &mut ElementReader<'_>, row: Row, half_range: u32) -> Result<i16, ParseError>
    requires range { (1 ≤ half_range) × (half_range ≤ 32768) }
    ensures read { Reads (λ n. n) (se_row row (neg_ℤ (pos half_range)) (pos (half_range - 1)))
        result r.old r.new }
    ensures bounds { IfOk result
        (λ n. (neg_ℤ (pos half_range) ≤ℤ n) × (n ≤ℤ pos (half_range - 1))) }
{
    let half = half_range as i32;
    Ok(se(r, row, -half, half - 1)? as i16)
}
