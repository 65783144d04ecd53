//! The screen content coding extensions of the sets of a picture:
//! `VAPictureParameterBufferHEVCScc`.
ghost use Rattle.std.specs.Prelude.{◌≡◌, ◌+◌, ◌≤◌, IfOk, IsTrue};
ghost use Rattle.std.specs.List.{list_all};
ghost use Rattle.std.specs.Option.{option_or};
ghost use Rattle.std.specs.Result.{result_err};
ghost use Rattle.hevc_picture_slice.specs.Pps.{plain_pps};
ghost use Rattle.hevc_sequence_set.specs.Sps.{plain_sps};
ghost use Rattle.hevc_sequence_set.specs.SpsSccExtension.{plain_sps_scc_extension};
ghost use Rattle.hevc_set_parts.specs.PpsSccExtension.{plain_pps_scc_extension};
ghost use Rattle.hevc_va.specs.Arrays.{is_16_bits};
ghost use Rattle.hevc_va.specs.ScreenContent.{buffer_of_screen_content, entries_error};
ghost use Rattle.hevc_va.specs.ScreenContent.{filled_screen_content, palette_entries};
ghost use Rattle.hevc_va.specs.ScreenContent.{palette_error, palette_size, screen_content_error};
ghost use Rattle.hevc_va.specs.ScreenContent.{screen_content_fields, size_error};

use crate::arrays::{are_16_bits, in_16_bits};
use crate::error::VaError;
use hevc_events::flag_bits;
use hevc_picture_slice::Pps;
use hevc_sequence_set::{Sps, SpsSccExtension};
use hevc_set_parts::PpsSccExtension;

/// `VAPictureParameterBufferHEVCScc`: the elements of the screen content coding extensions of a
/// sequence and a picture parameter set (7.3.2.2.3, 7.3.2.3.3), by their names in H.265.
#[repr(C)]
#[derive(Clone, Copy)]
pub struct VaPictureParameterBufferHevcScc {
    /// `pps_curr_pic_ref_enabled_flag` in bit 0, `palette_mode_enabled_flag` in bit 1,
    /// `motion_vector_resolution_control_idc` in bits 2 and 3, and three flags after it.
    pub screen_content_pic_fields: u32,
    pub palette_max_size: u8,
    pub delta_palette_max_predictor_size: u8,
    /// How many first palette predictors there are (9.3.2.3): 0 to 128.
    pub predictor_palette_size: u8,
    /// For each component, the first palette predictors: those of the picture set, else those of
    /// the sequence set, else zeros.
    pub predictor_palette_entries: [[u16; 128]; 3],
    pub pps_act_y_qp_offset_plus5: i8,
    pub pps_act_cb_qp_offset_plus5: i8,
    pub pps_act_cr_qp_offset_plus3: i8,
}

const _: () = prove!(size_of::<VaPictureParameterBufferHevcScc>() == 780);

/// First palette predictors.
#[derive(Clone, Copy)]
struct Palette {
    size: u8,
    entries: [[u16; 128]; 3],
}

/// The screen content coding extensions of both sets as VA-API takes them; where a set has none,
/// the values that H.265 infers.
///
/// Errors, the first that there is: `MotionVectorResolution`, `PaletteSize`, `PaletteEntry`. No set
/// that was read is refused.
pub fn screen_content_buffer(
    sps: &Sps,
    pps: &Pps,
) -> Result<VaPictureParameterBufferHevcScc, VaError>
    ensures filled { IfOk result (λ buffer. buffer
        ≡ buffer_of_screen_content (plain_sps sps.now).scc_extension
        (plain_pps pps.now).scc_extension) }
    ensures refused { result_err result
        ≡ screen_content_error (plain_sps sps.now).scc_extension
        (plain_pps pps.now).scc_extension }
{
    if sps.scc_extension.motion_vector_resolution_control_idc > 3 {
        return Err(VaError::MotionVectorResolution);
    }
    let palette = palette_of(&sps.scc_extension, &pps.scc_extension)?;
    Ok(filled_buffer(&sps.scc_extension, &pps.scc_extension, palette))
}

/// The first palette predictors, where they can be held.
fn palette_of(sps: &SpsSccExtension, pps: &PpsSccExtension) -> Result<Palette, VaError>
    ensures size { IfOk result (λ palette. palette.size
        ≡ palette_size (plain_sps_scc_extension sps.now) (plain_pps_scc_extension pps.now)) }
    ensures entries { IfOk result (λ palette. palette.entries
        ≡ palette_entries (plain_sps_scc_extension sps.now) (plain_pps_scc_extension pps.now)) }
    ensures refused { result_err result
        ≡ palette_error (plain_sps_scc_extension sps.now) (plain_pps_scc_extension pps.now) }
{
    if pps.palette_predictor_initializers_present_flag {
        return palette_of_picture_set(pps);
    }
    if sps.palette_predictor_initializers_present_flag {
        return palette_of_sequence_set(sps);
    }
    Ok(Palette {
        size: 0,
        entries: [[0; 128]; 3],
    })
}

/// Those of a picture set.
fn palette_of_picture_set(pps: &PpsSccExtension) -> Result<Palette, VaError>
    ensures size { IfOk result
        (λ palette. palette.size ≡ pps.now.num_palette_predictor_initializers) }
    ensures entries { IfOk result
        (λ palette. palette.entries ≡ pps.now.palette_predictor_initializer) }
    ensures refused { result_err result ≡ size_error pps.now.num_palette_predictor_initializers }
{
    let size = pps.num_palette_predictor_initializers;
    if size > 128 {
        return Err(VaError::PaletteSize);
    }
    let entries = pps.palette_predictor_initializer;
    Ok(Palette { size, entries })
}

/// Those of a sequence set.
fn palette_of_sequence_set(sps: &SpsSccExtension) -> Result<Palette, VaError>
    ensures size { IfOk result
        (λ palette. palette.size ≡ sps.now.num_palette_predictor_initializer_minus1 + 1) }
    ensures entries { IfOk result
        (λ palette. palette.entries ≡ sps.now.palette_predictor_initializer) }
    ensures refused { result_err result
        ≡ option_or (size_error (sps.now.num_palette_predictor_initializer_minus1 + 1))
        (entries_error sps.now.palette_predictor_initializer) }
{
    let size_minus1 = sps.num_palette_predictor_initializer_minus1;
    if size_minus1 > 127 {
        return Err(VaError::PaletteSize);
    }
    let entries = sps.palette_predictor_initializer;
    if !are_entries(&entries) {
        return Err(VaError::PaletteEntry);
    }
    Ok(Palette {
        size: size_minus1 + 1,
        entries: entries_of(&entries),
    })
}

/// Whether each entry fits 16 bits.
fn are_entries(components: &[[u32; 128]; 3]) -> bool
    ensures { result ≡ list_all (list_all is_16_bits) components.now }
{
    components.iter().all(|entries| are_16_bits(entries))
}

/// The same entries, each in 16 bits.
fn entries_of(components: &[[u32; 128]; 3]) -> [[u16; 128]; 3]
    requires { IsTrue (list_all (list_all is_16_bits) components.now) }
    ensures { result ≡ components.now }
{
    let mut entries = [[0; 128]; 3];
    for i in 0..3 {
        entries[i] = in_16_bits(&components[i]);
    }
    entries
}

/// The buffer with these first palette predictors.
fn filled_buffer(
    sps: &SpsSccExtension,
    pps: &PpsSccExtension,
    palette: Palette,
) -> VaPictureParameterBufferHevcScc
    requires { sps.now.motion_vector_resolution_control_idc ≤ 3 }
    ensures { result
        ≡ filled_screen_content (plain_sps_scc_extension sps.now) (plain_pps_scc_extension pps.now)
        palette.size palette.entries }
{
    let Palette { size, entries } = palette;
    VaPictureParameterBufferHevcScc {
        screen_content_pic_fields: screen_content_fields(sps, pps),
        palette_max_size: sps.palette_max_size,
        delta_palette_max_predictor_size: sps.delta_palette_max_predictor_size,
        predictor_palette_size: size,
        predictor_palette_entries: entries,
        pps_act_y_qp_offset_plus5: pps.act_y_qp_offset_plus5,
        pps_act_cb_qp_offset_plus5: pps.act_cb_qp_offset_plus5,
        pps_act_cr_qp_offset_plus3: pps.act_cr_qp_offset_plus3,
    }
}

/// The resolution of motion vectors, and the flags in the order of their bits.
fn screen_content_fields(sps: &SpsSccExtension, pps: &PpsSccExtension) -> u32
    requires { sps.now.motion_vector_resolution_control_idc ≤ 3 }
    ensures { result
        ≡ screen_content_fields (plain_sps_scc_extension sps.now)
        (plain_pps_scc_extension pps.now) }
{
    let first = flag_bits(&[pps.curr_pic_ref_enabled_flag, sps.palette_mode_enabled_flag]);
    let others = flag_bits(&[
        sps.intra_boundary_filtering_disabled_flag,
        pps.residual_adaptive_colour_transform_enabled_flag,
        pps.slice_act_qp_offsets_present_flag,
    ]);
    first as u32 + 4 * u32::from(sps.motion_vector_resolution_control_idc) + 16 * others as u32
}
