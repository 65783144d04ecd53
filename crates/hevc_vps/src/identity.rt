//! The ids, the layers and the profile (7.3.2.1, rows 1 to 7 and 14 to 16 of table 1).
ghost use Rattle.hevc_elements.specs.Words.{Fills};
ghost use Rattle.hevc_tables.specs.VpsTable as table;
ghost use Rattle.hevc_video_set.specs.Vps.{plain_vps};

use hevc_elements::rows::{bits_u8, flag, skip, ue};
use hevc_elements::{ElementReader, ParseError};
use hevc_profile::read_profile_tier_level;
use hevc_spec::Row;
use hevc_video_set::Vps;

/// Rows 1 to 7 of table 1.
#[tactic(auto, unfolding(hevc_tables::specs::VpsTable::identity))]
pub(crate) fn read_identity(r: &mut ElementReader<'_>, vps: &mut Vps) -> Result<(), ParseError>
    ensures { Fills plain_vps table.identity result vps.old vps.new r.old r.new }
{
    vps.video_parameter_set_id = bits_u8(r, Row(1, 1), 4, 0, 15)?;
    vps.base_layer_internal_flag = flag(r, Row(1, 2))?;
    vps.base_layer_available_flag = flag(r, Row(1, 2))?;
    vps.max_layers_minus1 = bits_u8(r, Row(1, 3), 6, 0, 63)?;
    vps.max_sub_layers_minus1 = bits_u8(r, Row(1, 4), 3, 0, 6)?;
    vps.temporal_id_nesting_flag = flag(r, Row(1, 5))?;
    skip(r, Row(1, 6), 16)?;
    vps.profile_tier_level = read_profile_tier_level(r, vps.max_sub_layers_minus1)?;
    Ok(())
}

/// Rows 14 to 16 of table 1.
#[tactic(auto, unfolding(hevc_tables::specs::VpsTable::layer_sets))]
pub(crate) fn read_layer_sets(r: &mut ElementReader<'_>, vps: &mut Vps) -> Result<(), ParseError>
    ensures { Fills plain_vps table.layer_sets result vps.old vps.new r.old r.new }
{
    let max_layer_id = bits_u8(r, Row(1, 14), 6, 0, 62)?;
    let num_layer_sets_minus1 = ue(r, Row(1, 15), 0, 1023)?;
    vps.max_layer_id = max_layer_id;
    vps.num_layer_sets_minus1 = num_layer_sets_minus1;
    skip(
        r,
        Row(1, 16),
        (usize::from(max_layer_id) + 1) * num_layer_sets_minus1 as usize,
    )
}

/// Row 25 of table 1.
#[tactic(auto, unfolding(hevc_tables::specs::VpsTable::extension))]
pub(crate) fn read_extension_flag(
    r: &mut ElementReader<'_>,
    vps: &mut Vps,
) -> Result<(), ParseError>
    ensures { Fills plain_vps table.extension result vps.old vps.new r.old r.new }
{
    vps.extension_flag = flag(r, Row(1, 25))?;
    Ok(())
}
