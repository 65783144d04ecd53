//! The schedules of delivery of a sub-layer (E.2.3, table 4).
ghost use Rattle.std.specs.Prelude.{◌≡◌, ◌+◌, ◌≤◌, ◌<◌};
ghost use Rattle.hevc_elements.specs.Words.{Reads, Fills};
ghost use Rattle.hevc_tables.specs.HrdTable as table;
ghost use Rattle.hevc_video_set.specs.SublayerHrdParameters.{plain_sublayer_hrd_parameters};

use hevc_elements::rows::{flag, ue, ue_if};
use hevc_elements::{ElementReader, ParseError};
use hevc_spec::Row;
use hevc_video_set::SublayerHrdParameters;

/// Reads the schedules of a sub-layer, by table 4; those of decoding units where `by_units`.
#[tactic(auto, using(hevc_elements::proofs::Loops::loops), unfolding(hevc_tables::specs::HrdTable::sub_layer_hrd_parameters))]
pub(crate) fn read_schedules(
    r: &mut ElementReader<'_>,
    by_units: bool,
    cpb_cnt_minus1: u32,
) -> Result<SublayerHrdParameters, ParseError>
    requires { cpb_cnt_minus1 ≤ 31 }
    ensures read { Reads plain_sublayer_hrd_parameters
        (table.sub_layer_hrd_parameters by_units cpb_cnt_minus1) result r.old r.new }
{
    let mut hrd = SublayerHrdParameters::new();
    let count = cpb_cnt_minus1 as usize + 1;
    for i in 0..count {
        read_schedule(r, by_units, i, &mut hrd)?;
    }
    Ok(hrd)
}

/// Rows 1 to 3 of table 4, for one schedule.
#[tactic(auto, unfolding(hevc_tables::specs::HrdTable::schedule))]
fn read_schedule(
    r: &mut ElementReader<'_>,
    by_units: bool,
    i: usize,
    hrd: &mut SublayerHrdParameters,
) -> Result<(), ParseError>
    requires { i < 32 }
    ensures { Fills plain_sublayer_hrd_parameters
        (table.schedule by_units i) result hrd.old hrd.new r.old r.new }
{
    hrd.bit_rate_value_minus1[i] = ue(r, Row(4, 1), 0, 2_147_483_647)?;
    hrd.cpb_size_value_minus1[i] = ue(r, Row(4, 1), 0, 2_147_483_647)?;
    hrd.cpb_size_du_value_minus1[i] = ue_if(r, by_units, Row(4, 2), 0, 2_147_483_647)?;
    hrd.bit_rate_du_value_minus1[i] = ue_if(r, by_units, Row(4, 2), 0, 2_147_483_647)?;
    hrd.cbr_flag[i] = flag(r, Row(4, 3))?;
    Ok(())
}
