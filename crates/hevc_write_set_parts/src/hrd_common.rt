//! What all sub-layers have in common (E.2.2, rows 1 to 9 of table 3).
ghost use Rattle.std.specs.Prelude.{◌≡◌, ◌||◌, OnOk};
ghost use Rattle.hevc_tables.specs.HrdTable as table;
ghost use Rattle.hevc_video_set.specs.HrdParams.{plain_hrd_params};
ghost use Rattle.hevc_write_set_parts.specs.HrdParts as own;
ghost use Rattle.hevc_write_elements.specs.Filling.{Writes, WritesIf};

use hevc_bit_writer::BitWriter;
use hevc_video_set::HrdParams;
use hevc_write_elements::rows::{bits_u8, bits_u8_if, flag};
use std::alloc::AllocError;

/// Rows 1 to 9 of table 3, where they are present.
pub(crate) fn write_common_if(
    w: &mut BitWriter,
    present: bool,
    x: &HrdParams,
) -> Result<(), AllocError>
    ensures { OnOk result (WritesIf present
        (Writes table.common_parameters own.common_parameters_of (plain_hrd_params x.now))
        w.old w.new) }
{
    if !present {
        return Ok(());
    }
    flag(w, x.nal_hrd_parameters_present_flag)?; // Row(3, 1)
    flag(w, x.vcl_hrd_parameters_present_flag)?; // Row(3, 1)
    write_buffering_if(w, has_buffering(x), x)?;
    Ok(())
}

/// Rows 2 to 9 of table 3 are present.
fn has_buffering(x: &HrdParams) -> bool
    ensures { result
        ≡ (x.now.nal_hrd_parameters_present_flag || x.now.vcl_hrd_parameters_present_flag) }
{
    x.nal_hrd_parameters_present_flag || x.vcl_hrd_parameters_present_flag
}

/// Rows 2 to 9 of table 3, where they are present.
fn write_buffering_if(w: &mut BitWriter, present: bool, x: &HrdParams) -> Result<(), AllocError>
    ensures { OnOk result (WritesIf present
        (Writes table.buffering own.buffering_of (plain_hrd_params x.now)) w.old w.new) }
{
    if !present {
        return Ok(());
    }
    flag(w, x.sub_pic_hrd_params_present_flag)?; // Row(3, 2)
    write_units_if(w, x.sub_pic_hrd_params_present_flag, x)?;
    write_scales(w, x)?;
    Ok(())
}

/// Rows 3 to 6 of table 3, where they are present.
fn write_units_if(w: &mut BitWriter, present: bool, x: &HrdParams) -> Result<(), AllocError>
    ensures { OnOk result (WritesIf present
        (Writes table.decoding_units own.decoding_units_of (plain_hrd_params x.now)) w.old w.new) }
{
    if !present {
        return Ok(());
    }
    bits_u8(w, 8, x.tick_divisor_minus2)?; // Row(3, 3)
    bits_u8(w, 5, x.du_cpb_removal_delay_increment_length_minus1)?; // Row(3, 4)
    flag(w, x.sub_pic_cpb_params_in_pic_timing_sei_flag)?; // Row(3, 5)
    bits_u8(w, 5, x.dpb_output_delay_du_length_minus1)?; // Row(3, 6)
    Ok(())
}

/// Rows 7 to 9 of table 3.
fn write_scales(w: &mut BitWriter, x: &HrdParams) -> Result<(), AllocError>
    ensures { OnOk result
        (Writes table.scales own.scales_with_inputs_of (plain_hrd_params x.now) w.old w.new) }
{
    bits_u8(w, 4, x.bit_rate_scale)?; // Row(3, 7)
    bits_u8(w, 4, x.cpb_size_scale)?; // Row(3, 7)
    bits_u8_if(w, x.sub_pic_hrd_params_present_flag, 4, x.cpb_size_du_scale)?; // Row(3, 8)
    bits_u8(w, 5, x.initial_cpb_removal_delay_length_minus1)?; // Row(3, 9)
    bits_u8(w, 5, x.au_cpb_removal_delay_length_minus1)?; // Row(3, 9)
    bits_u8(w, 5, x.dpb_output_delay_length_minus1)?; // Row(3, 9)
    Ok(())
}
