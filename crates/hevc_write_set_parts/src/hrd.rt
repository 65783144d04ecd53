//! Parameters of the hypothetical reference decoder (E.2.2, table 3).
ghost use Rattle.std.specs.Prelude.{◌≤◌, OnOk};
ghost use Rattle.hevc_records.specs.HrdParams.{PlainHrdParams};
ghost use Rattle.hevc_tables.specs.HrdTable as table;
ghost use Rattle.hevc_video_set.specs.HrdParams.{plain_hrd_params};
ghost use Rattle.hevc_write_elements.specs.Filling.{WritesTable};

use crate::hrd_common::write_common_if;
use crate::hrd_sub_layers::write_sub_layers;
use hevc_bit_writer::BitWriter;
use hevc_video_set::HrdParams;
use std::alloc::AllocError;

/// Table 3, for sub-layers from 0 to `max_sub_layers_minus1`, with what they have in common where
/// `common`.
#[tactic(auto, using(crate::proofs::HrdKeeps::hrd_written))]
pub fn write_hrd_parameters(
    w: &mut BitWriter,
    common: bool,
    max_sub_layers_minus1: u8,
    x: &HrdParams,
) -> Result<(), AllocError>
    requires { max_sub_layers_minus1 ≤ 6 }
    ensures { (before : PlainHrdParams) → OnOk result (WritesTable
        (table.hrd_parameters common max_sub_layers_minus1 before)
        (plain_hrd_params x.now) w.old w.new) }
{
    write_common_if(w, common, x)?;
    write_sub_layers(w, max_sub_layers_minus1, x)?;
    Ok(())
}
