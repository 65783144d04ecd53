//! The short-term reference picture sets (7.3.2.2.1, rows 35 and 36 of table 5).
ghost use Rattle.std.specs.Prelude.{length, map, IfOk};
ghost use Rattle.std.specs.Prelude.{◌≡◌, ◌≤◌, ◌<◌};
ghost use Rattle.hevc_elements.specs.Words.{ReadsGrowing, FillsGrowing};
ghost use Rattle.hevc_tables.specs.SpsTable as table;
ghost use Rattle.hevc_set_parts.specs.ShortTermRefPicSet.{plain_short_term_ref_pic_set};
ghost use Rattle.hevc_sequence_set.specs.Sps.{plain_sps};

use hevc_elements::rows::ue_u8;
use hevc_elements::{ElementReader, ParseError};
use hevc_sequence_set::Sps;
use hevc_set_parts::{Items, ShortTermRefPicSet};
use hevc_short_term::read_short_term_set;
use hevc_spec::Row;
use std::alloc::Global;

/// Rows 35 and 36 of table 5.
#[tactic(auto, unfolding(hevc_tables::specs::SpsTable::short_term))]
pub(crate) fn read_short_term(
    alloc: Global,
    r: &mut ElementReader<'_>,
    sps: &mut Sps,
) -> Result<(), ParseError>
    ensures { FillsGrowing plain_sps table.short_term result sps.old sps.new r.old r.new }
{
    let count = ue_u8(r, Row(5, 35), 0, 64)?;
    let sets = read_sets(alloc, r, count, highest_buffering(sps))?;
    set_short_term(sps, count, sets);
    Ok(())
}

/// Fills in rows 35 and 36.
fn set_short_term(sps: &mut Sps, count: u8, sets: Items<ShortTermRefPicSet>)
    requires few { count ≤ 64 }
    requires all { length sets ≡ count }
    ensures { plain_sps sps.new ≡ record (plain_sps sps.old) {
      num_short_term_ref_pic_sets = count;
      short_term_ref_pic_set = map plain_short_term_ref_pic_set sets;
    } }
{
    sps.num_short_term_ref_pic_sets = count;
    sps.short_term_ref_pic_set = sets;
}

/// Row 36 of table 5, for so many sets.
#[tactic(auto, using(hevc_elements::proofs::Loops::growing_loops, crate::proofs::Places::appended), unfolding(hevc_tables::specs::SpsTable::short_term_sets, hevc_tables::specs::SpsTable::short_term_set))]
fn read_sets(
    alloc: Global,
    r: &mut ElementReader<'_>,
    count: u8,
    buffering: u8,
) -> Result<Items<ShortTermRefPicSet>, ParseError>
    requires few { count ≤ 64 }
    requires room { buffering ≤ 16 }
    ensures read { ReadsGrowing (λ sets. map plain_short_term_ref_pic_set sets)
        (table.short_term_sets count buffering) result r.old r.new }
    ensures all { IfOk result (λ sets. length sets ≡ count) }
{
    let mut sets = Items::new(alloc);
    for i in 0..count {
        let set = read_short_term_set(r, sets.as_slice(), count, buffering, i)?;
        sets.push(set)?;
    }
    Ok(sets)
}

/// sps_max_dec_pic_buffering_minus1 of the highest sub-layer.
#[tactic(auto, using(crate::proofs::Places::bounds))]
fn highest_buffering(sps: &Sps) -> u8
    ensures value { result ≡ table.highest_buffering (plain_sps sps.now) }
    ensures small { result ≤ 16 }
{
    sps.max_dec_pic_buffering_minus1[usize::from(sps.max_sub_layers_minus1)]
}
