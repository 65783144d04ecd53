//! From which set another one is predicted, and with which shift (7.3.7, rows 2 to 4 of table 7).
ghost use Rattle.std.specs.Prelude.{OnOk};
ghost use Rattle.std.specs.Prelude.{◌≡◌, ◌<◌};
ghost use Rattle.hevc_elements.specs.Words.{Fills};
ghost use Rattle.hevc_tables.specs.ShortTermTable as table;
ghost use Rattle.hevc_set_parts.specs.ShortTermRefPicSet.{plain_short_term_ref_pic_set};

use hevc_elements::rows::{flag, ue_u8, ue_u16};
use hevc_elements::{ElementReader, ParseError};
use hevc_set_parts::ShortTermRefPicSet;
use hevc_spec::Row;

/// Rows 2 to 4 of table 7.
#[tactic(auto, unfolding(hevc_tables::specs::ShortTermTable::prediction, hevc_spec::specs::Rows::when))]
pub(crate) fn read_prediction(
    r: &mut ElementReader<'_>,
    count: u8,
    st_rps_idx: u8,
    set: &mut ShortTermRefPicSet,
) -> Result<(), ParseError>
    requires { 0 < st_rps_idx }
    ensures fills { Fills plain_short_term_ref_pic_set
        (table.prediction count st_rps_idx) result set.old set.new r.old r.new }
    ensures before { OnOk result (set.new.delta_idx_minus1 < st_rps_idx) }
    ensures bounded { OnOk result (set.new.abs_delta_rps_minus1 < 32768) }
{
    let delta_idx_minus1 = if st_rps_idx == count {
        ue_u8(r, Row(7, 2), 0, st_rps_idx - 1)?
    } else {
        0
    };
    set.delta_idx_minus1 = delta_idx_minus1;
    set.delta_rps_sign = flag(r, Row(7, 3))?;
    set.abs_delta_rps_minus1 = ue_u16(r, Row(7, 4), 0, 32767)?;
    Ok(())
}

/// deltaRps (7-60).
#[tactic(auto, unfolding(hevc_tables::specs::ShortTermTable::shift_of))]
pub(crate) fn shift_of(set: &ShortTermRefPicSet) -> i32
    requires { set.now.abs_delta_rps_minus1 < 32768 }
    ensures { result ≡ table.shift_of (plain_short_term_ref_pic_set set.now) }
{
    let size = i32::from(set.abs_delta_rps_minus1) + 1;
    if set.delta_rps_sign { -size } else { size }
}
