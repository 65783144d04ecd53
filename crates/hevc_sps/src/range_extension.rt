//! The range extension (7.3.2.2.2, table 9).
ghost use Rattle.hevc_elements.specs.Words.{Reads};
ghost use Rattle.hevc_tables.specs.SpsRangeExtensionTable.{sps_range_extension};
ghost use Rattle.hevc_sequence_set.specs.SpsRangeExtension.{plain_sps_range_extension};

use hevc_elements::rows::flag;
use hevc_elements::{ElementReader, ParseError};
use hevc_sequence_set::SpsRangeExtension;
use hevc_spec::Row;

/// Table 9.
#[tactic(auto, unfolding(hevc_tables::specs::SpsRangeExtensionTable::sps_range_extension))]
pub(crate) fn read_sps_range_extension(
    r: &mut ElementReader<'_>,
) -> Result<SpsRangeExtension, ParseError>
    ensures read { Reads plain_sps_range_extension sps_range_extension result r.old r.new }
{
    let row = Row(9, 1);
    let mut x = SpsRangeExtension::new();
    x.transform_skip_rotation_enabled_flag = flag(r, row)?;
    x.transform_skip_context_enabled_flag = flag(r, row)?;
    x.implicit_rdpcm_enabled_flag = flag(r, row)?;
    x.explicit_rdpcm_enabled_flag = flag(r, row)?;
    x.extended_precision_processing_flag = flag(r, row)?;
    x.intra_smoothing_disabled_flag = flag(r, row)?;
    x.high_precision_offsets_enabled_flag = flag(r, row)?;
    x.persistent_rice_adaptation_enabled_flag = flag(r, row)?;
    x.cabac_bypass_alignment_enabled_flag = flag(r, row)?;
    Ok(x)
}
