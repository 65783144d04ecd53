//! Scaling lists (7.3.4, table 6).
ghost use Rattle.std.specs.Prelude.{OnOk};
ghost use Rattle.hevc_tables.specs.ScalingListTable.{scaling_list_data};
ghost use Rattle.hevc_set_parts.specs.ScalingLists.{plain_scaling_lists};
ghost use Rattle.hevc_write_elements.specs.Filling.{WritesTable};

use crate::matrices::write_matrices;
use hevc_bit_writer::BitWriter;
use hevc_set_parts::ScalingLists;
use std::alloc::AllocError;

/// Table 6: each list with its own entries (scaling_list_pred_mode_flag is 1).
#[tactic(auto, unfolding(crate::specs::Matrices::scaling_list_bits))]
pub fn write_scaling_list_data(w: &mut BitWriter, x: &ScalingLists) -> Result<(), AllocError>
    ensures { OnOk result
        (WritesTable scaling_list_data (plain_scaling_lists x.now) w.old w.new) }
{
    write_matrices(w, false, 1, &[0; 6], &x.scaling_list_4x4)?;
    write_matrices(w, false, 1, &[0; 6], &x.scaling_list_8x8)?;
    write_matrices(
        w,
        true,
        1,
        &x.scaling_list_dc_coef_minus8_16x16,
        &x.scaling_list_16x16,
    )?;
    write_matrices(
        w,
        true,
        3,
        &x.scaling_list_dc_coef_minus8_32x32,
        &x.scaling_list_32x32,
    )?;
    Ok(())
}
