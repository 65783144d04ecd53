//! The range extension (7.3.2.2.2, table 9).
ghost use Rattle.std.specs.Prelude.{OnOk};
ghost use Rattle.hevc_tables.specs.SpsRangeExtensionTable.{sps_range_extension};
ghost use Rattle.hevc_sequence_set.specs.SpsRangeExtension.{plain_sps_range_extension};
ghost use Rattle.hevc_write_elements.specs.Filling.{WritesTable};

use hevc_bit_writer::BitWriter;
use hevc_sequence_set::SpsRangeExtension;
use hevc_write_elements::rows::flag;
use std::alloc::AllocError;

/// Table 9.
pub fn write_sps_range_extension(w: &mut BitWriter, x: &SpsRangeExtension) -> Result<(), AllocError>
    ensures { OnOk result (WritesTable sps_range_extension
        (plain_sps_range_extension x.now) w.old w.new) }
{
    flag(w, x.transform_skip_rotation_enabled_flag)?; // Row(9, 1)
    flag(w, x.transform_skip_context_enabled_flag)?; // Row(9, 1)
    flag(w, x.implicit_rdpcm_enabled_flag)?; // Row(9, 1)
    flag(w, x.explicit_rdpcm_enabled_flag)?; // Row(9, 1)
    flag(w, x.extended_precision_processing_flag)?; // Row(9, 1)
    flag(w, x.intra_smoothing_disabled_flag)?; // Row(9, 1)
    flag(w, x.high_precision_offsets_enabled_flag)?; // Row(9, 1)
    flag(w, x.persistent_rice_adaptation_enabled_flag)?; // Row(9, 1)
    flag(w, x.cabac_bypass_alignment_enabled_flag)?; // Row(9, 1)
    Ok(())
}
