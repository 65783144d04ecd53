//! The clock and the structures of timing (7.3.2.1, rows 17 to 24 of table 1).
ghost use Rattle.std.specs.Prelude.{◌<◌, ◌^◌, map};
ghost use Rattle.std.specs.Prelude.{◌≡◌, ◌≤◌};
ghost use Rattle.hevc_elements.specs.Words.{FillsGrowing};
ghost use Rattle.hevc_tables.specs.VpsTable as table;
ghost use Rattle.hevc_video_set.specs.HrdParams.{plain_hrd_params};
ghost use Rattle.hevc_video_set.specs.Vps.{plain_vps};

use hevc_elements::rows::{bits_32, flag, flag_or, ue, ue_if, ue_u16};
use hevc_elements::{ElementReader, ParseError};
use hevc_hrd::read_hrd_parameters;
use hevc_spec::Row;
use hevc_video_set::{HrdParams, Vps};

/// Rows 17 to 24 of table 1.
#[tactic(auto, unfolding(hevc_tables::specs::VpsTable::timing_info, hevc_spec::specs::Rows::when))]
pub(crate) fn read_timing_info(r: &mut ElementReader<'_>, vps: &mut Vps) -> Result<(), ParseError>
    ensures { FillsGrowing plain_vps table.timing_info result vps.old vps.new r.old r.new }
{
    vps.timing_info_present_flag = flag(r, Row(1, 17))?;
    if vps.timing_info_present_flag {
        read_timing(r, vps)?;
    }
    Ok(())
}

/// Rows 18 to 24 of table 1.
#[tactic(auto, unfolding(hevc_tables::specs::VpsTable::timing))]
fn read_timing(r: &mut ElementReader<'_>, vps: &mut Vps) -> Result<(), ParseError>
    ensures { FillsGrowing plain_vps table.timing result vps.old vps.new r.old r.new }
{
    vps.num_units_in_tick = bits_32(r, Row(1, 18))?;
    vps.time_scale = bits_32(r, Row(1, 18))?;
    let proportional = flag(r, Row(1, 19))?;
    vps.poc_proportional_to_timing_flag = proportional;
    vps.num_ticks_poc_diff_one_minus1 = ue_if(r, proportional, Row(1, 20), 0, 2_147_483_647)?;
    vps.num_hrd_parameters = ue(r, Row(1, 21), 0, 1024)?;
    read_structures(r, vps)
}

/// Rows 22 to 24 of table 1, for each structure.
#[tactic(auto, using(hevc_elements::proofs::Loops::growing_loops), unfolding(hevc_tables::specs::VpsTable::structures))]
fn read_structures(r: &mut ElementReader<'_>, vps: &mut Vps) -> Result<(), ParseError>
    ensures { FillsGrowing plain_vps table.structures result vps.old vps.new r.old r.new }
{
    let count = vps.num_hrd_parameters;
    for i in 0..count {
        read_structure(r, i, vps)?;
    }
    Ok(())
}

/// Rows 22 to 24 of table 1, for one structure.
#[tactic(auto, using(crate::proofs::StructureLists::pushes), unfolding(hevc_tables::specs::VpsTable::structure))]
// Its frame has whole structures: the stack of its callers stays small without it.
#[inline(never)]
fn read_structure(r: &mut ElementReader<'_>, i: u32, vps: &mut Vps) -> Result<(), ParseError>
    ensures { FillsGrowing plain_vps (table.structure i) result vps.old vps.new r.old r.new }
{
    let layer_set = ue_u16(r, Row(1, 22), 0, 65_535)?;
    let common = flag_or(r, i != 0, true, Row(1, 23))?;
    let mut hrd = HrdParams::new();
    take_last(vps.hrd_parameters.as_slice(), &mut hrd);
    read_hrd_parameters(r, common, vps.max_sub_layers_minus1, &mut hrd)?;
    vps.hrd_layer_set_idx.push(layer_set)?;
    if i != 0 {
        vps.cprms_present_flag.push(common)?;
    }
    vps.hrd_parameters.push(hrd)?;
    Ok(())
}

/// The last structure so far; before the first one there is one of no elements.
#[tactic(auto, using(crate::proofs::StructureLists::lasts))]
fn take_last(structures: &[HrdParams], hrd: &mut HrdParams)
    ensures { plain_hrd_params hrd.new
        ≡ table.last_structure (map plain_hrd_params structures.now) }
{
    match structures.last() {
        Some(last) => *hrd = *last,
        None => *hrd = HrdParams::new(),
    }
}
