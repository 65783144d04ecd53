//! Short-term reference picture sets (7.3.7, table 7).
ghost use Rattle.std.specs.Prelude.{length, map};
ghost use Rattle.std.specs.Prelude.{◌≤◌};
ghost use Rattle.hevc_elements.specs.Words.{Reads, ReadsTable};
ghost use Rattle.hevc_tables.specs.ShortTermTable.{short_term_ref_pic_set};
ghost use Rattle.hevc_set_parts.specs.ShortTermRefPicSet.{plain_short_term_ref_pic_set};

use crate::listed_set::read_listed_set;
use crate::predicted_set::read_predicted_set;
use hevc_elements::rows::flag_if;
use hevc_elements::{ElementReader, ParseError};
use hevc_set_parts::ShortTermRefPicSet;
use hevc_spec::Row;

/// Reads a short-term reference picture set, by table 7 (7.3.7).
///
/// `sets` are the sets of the sequence parameter set in their order, at least those before number
/// `st_rps_idx`; `count` is num_short_term_ref_pic_sets, 0 to 64. The set that is read is number
/// `st_rps_idx` of these, or, where it is `count`, that of a slice header. `buffering` is
/// sps_max_dec_pic_buffering_minus1 of the highest sub-layer, 0 to 16.
///
/// A predicted set has each member of the set that predicts it and, as difference 0, that set's own
/// picture, moved by the shift, where its flag says so and the sum isn't 0 (7-61, 7-62).
///
/// Errors: `OutOfBits` where the payload ends within an element, and `OutOfRange` with table and
/// row of the first element that isn't allowed; row 6 where a predicted set has more than 16
/// members or a difference that isn't of 32 bits. The reader then is where that element begins.
#[tactic(auto, using(hevc_elements::proofs::Meaning::meanings))]
pub fn read_short_term_set(
    r: &mut ElementReader<'_>,
    sets: &[ShortTermRefPicSet],
    count: u8,
    buffering: u8,
    st_rps_idx: u8,
) -> Result<ShortTermRefPicSet, ParseError>
    requires in_count { st_rps_idx ≤ count }
    requires few { count ≤ 64 }
    requires known { st_rps_idx ≤ length sets.now }
    requires room { buffering ≤ 16 }
    ensures rows { ReadsTable plain_short_term_ref_pic_set (short_term_ref_pic_set
        (map plain_short_term_ref_pic_set sets.now) count buffering st_rps_idx) result r.old r.new }
{
    read_rows(r, sets, count, buffering, st_rps_idx)
}

/// Rows 1 to 12 of table 7.
#[tactic(auto, unfolding(hevc_tables::specs::ShortTermTable::short_term_ref_pic_set, hevc_spec::specs::Rows::either))]
fn read_rows(
    r: &mut ElementReader<'_>,
    sets: &[ShortTermRefPicSet],
    count: u8,
    buffering: u8,
    st_rps_idx: u8,
) -> Result<ShortTermRefPicSet, ParseError>
    requires known { st_rps_idx ≤ length sets.now }
    requires room { buffering ≤ 16 }
    ensures read { Reads plain_short_term_ref_pic_set (short_term_ref_pic_set
        (map plain_short_term_ref_pic_set sets.now) count buffering st_rps_idx) result r.old r.new }
{
    let mut set = ShortTermRefPicSet::new();
    set.inter_ref_pic_set_prediction_flag = flag_if(r, st_rps_idx != 0, Row(7, 1))?;
    if set.inter_ref_pic_set_prediction_flag {
        read_predicted_set(r, sets, count, st_rps_idx, &mut set)?;
    } else {
        read_listed_set(r, buffering, &mut set)?;
    }
    Ok(set)
}
