//! A picture and its sets: `VAPictureParameterBufferHEVC`.
ghost use Rattle.std.specs.Prelude.{◌≡◌, IfOk};
ghost use Rattle.std.specs.Result.{result_err};
ghost use Rattle.hevc_dpb.specs.Views.{stored_entries};
ghost use Rattle.hevc_picture_slice.specs.Pps.{plain_pps};
ghost use Rattle.hevc_refs.specs.Sets.{plain_set};
ghost use Rattle.hevc_sequence_set.specs.Sps.{plain_sps};
ghost use Rattle.hevc_va.specs.Picture.{buffer_of_picture, filled_buffer, picture_error};
ghost use Rattle.hevc_va.specs.Picture.{picture_fields, slice_parsing_fields, tile_columns};
ghost use Rattle.hevc_va.specs.Picture.{tile_rows, tiles_error};

use crate::arrays::{are_16_bits, in_16_bits};
use crate::error::VaError;
use crate::references::reference_frames;
use crate::surfaces::{VaPictureHevc, VaSurfaces, picture_at};
use hevc_dpb::Dpb;
use hevc_events::flag_bits;
use hevc_picture_slice::{Pps, Slice};
use hevc_pictures::PictureData;
use hevc_refs::RefPicSet;
use hevc_sequence_set::Sps;

/// `VAPictureParameterBufferHEVC`: a picture, the pictures that it may refer to, and the elements
/// of its sets (7.3.2.2.1, 7.3.2.3.1), by their names in H.265.
#[repr(C)]
#[derive(Clone, Copy)]
pub struct VaPictureParameterBufferHevc {
    /// The picture.
    pub curr_pic: VaPictureHevc,
    /// The reference pictures of the buffer in stored order, and after them the picture itself
    /// where it may refer to itself. Places that are left hold no picture.
    pub reference_frames: [VaPictureHevc; 15],
    pub pic_width_in_luma_samples: u16,
    pub pic_height_in_luma_samples: u16,
    /// `chroma_format_idc` in bits 0 and 1, and flags after it. `NoPicReorderingFlag` and
    /// `NoBiPredFlag` aren't set.
    pub pic_fields: u32,
    /// That of the highest sub-layer.
    pub sps_max_dec_pic_buffering_minus1: u8,
    pub bit_depth_luma_minus8: u8,
    pub bit_depth_chroma_minus8: u8,
    pub pcm_sample_bit_depth_luma_minus1: u8,
    pub pcm_sample_bit_depth_chroma_minus1: u8,
    pub log2_min_luma_coding_block_size_minus3: u8,
    pub log2_diff_max_min_luma_coding_block_size: u8,
    pub log2_min_transform_block_size_minus2: u8,
    pub log2_diff_max_min_transform_block_size: u8,
    pub log2_min_pcm_luma_coding_block_size_minus3: u8,
    pub log2_diff_max_min_pcm_luma_coding_block_size: u8,
    pub max_transform_hierarchy_depth_intra: u8,
    pub max_transform_hierarchy_depth_inter: u8,
    pub init_qp_minus26: i8,
    pub diff_cu_qp_delta_depth: u8,
    pub pps_cb_qp_offset: i8,
    pub pps_cr_qp_offset: i8,
    pub log2_parallel_merge_level_minus2: u8,
    pub num_tile_columns_minus1: u8,
    pub num_tile_rows_minus1: u8,
    /// Those of the first 19 tile columns, evenly spread or not. A twentieth takes what is left.
    pub column_width_minus1: [u16; 19],
    /// Those of the first 21 tile rows, likewise.
    pub row_height_minus1: [u16; 21],
    /// Flags, from bit 0 on. `IntraPicFlag` is `RapPicFlag`.
    pub slice_parsing_fields: u32,
    pub log2_max_pic_order_cnt_lsb_minus4: u8,
    pub num_short_term_ref_pic_sets: u8,
    pub num_long_term_ref_pic_sps: u8,
    pub num_ref_idx_l0_default_active_minus1: u8,
    pub num_ref_idx_l1_default_active_minus1: u8,
    pub pps_beta_offset_div2: i8,
    pub pps_tc_offset_div2: i8,
    pub num_extra_slice_header_bits: u8,
    /// The bits of the short-term reference picture set in the header of the first slice.
    pub st_rps_bits: u32,
    /// Zeros.
    pub va_reserved: [u32; 8],
}

const _: () = prove!(size_of::<VaPictureParameterBufferHevc>() == 604);

/// The sizes of tiles that there are places for.
#[derive(Clone, Copy)]
struct Tiles {
    columns: [u16; 19],
    rows: [u16; 21],
}

/// A picture as VA-API takes it: with its first slice, its sets, the buffer as its slices find it,
/// its reference picture set over that, and the surfaces of all these pictures.
///
/// Errors, the first that there is: `TileColumns`, `TileRows`, `References`, `NoSurface`. No set
/// that was read is refused for its tiles.
pub fn picture_buffer(
    picture: &PictureData,
    slice: &Slice<'_>,
    sps: &Sps,
    pps: &Pps,
    dpb: &Dpb<u64>,
    rps: &RefPicSet,
    surfaces: VaSurfaces<'_>,
) -> Result<VaPictureParameterBufferHevc, VaError>
    ensures filled { IfOk result (λ buffer. buffer
        ≡ buffer_of_picture picture.now slice.now (plain_sps sps.now) (plain_pps pps.now)
        (stored_entries dpb.now) (plain_set rps.now)
        surfaces.entry.current surfaces.entry.stored.now) }
    ensures refused { result_err result
        ≡ picture_error (plain_pps pps.now) (stored_entries dpb.now) surfaces.entry.stored.now }
{
    let tiles = tiles_of(pps)?;
    let frames = reference_frames(picture, pps, dpb, rps, surfaces)?;
    let current = picture_at(surfaces.current, picture.pic_order_cnt_val, 0);
    Ok(filled_buffer(picture, slice, sps, pps, tiles, current, frames))
}

/// The sizes of tiles, where they can be held.
fn tiles_of(pps: &Pps) -> Result<Tiles, VaError>
    ensures columns { IfOk result (λ tiles. tiles.columns ≡ tile_columns (plain_pps pps.now)) }
    ensures rows { IfOk result (λ tiles. tiles.rows ≡ tile_rows (plain_pps pps.now)) }
    ensures refused { result_err result ≡ tiles_error (plain_pps pps.now) }
{
    let columns = &pps.column_width_minus1[..19];
    let rows = &pps.row_height_minus1[..21];
    if !are_16_bits(columns) {
        return Err(VaError::TileColumns);
    }
    if !are_16_bits(rows) {
        return Err(VaError::TileRows);
    }
    Ok(Tiles {
        columns: in_16_bits(columns),
        rows: in_16_bits(rows),
    })
}

/// The buffer with these parts.
fn filled_buffer(
    picture: &PictureData,
    slice: &Slice<'_>,
    sps: &Sps,
    pps: &Pps,
    tiles: Tiles,
    current: VaPictureHevc,
    frames: [VaPictureHevc; 15],
) -> VaPictureParameterBufferHevc
    ensures { result ≡ filled_buffer picture.now slice.now (plain_sps sps.now) (plain_pps pps.now)
        tiles.columns tiles.rows current frames }
{
    let highest = sps.max_sub_layers_minus1 as usize;
    let Tiles { columns, rows } = tiles;
    VaPictureParameterBufferHevc {
        curr_pic: current,
        reference_frames: frames,
        pic_width_in_luma_samples: sps.pic_width_in_luma_samples,
        pic_height_in_luma_samples: sps.pic_height_in_luma_samples,
        pic_fields: picture_fields(sps, pps),
        sps_max_dec_pic_buffering_minus1: sps.max_dec_pic_buffering_minus1[highest],
        bit_depth_luma_minus8: sps.bit_depth_luma_minus8,
        bit_depth_chroma_minus8: sps.bit_depth_chroma_minus8,
        pcm_sample_bit_depth_luma_minus1: sps.pcm_sample_bit_depth_luma_minus1,
        pcm_sample_bit_depth_chroma_minus1: sps.pcm_sample_bit_depth_chroma_minus1,
        log2_min_luma_coding_block_size_minus3: sps.log2_min_luma_coding_block_size_minus3,
        log2_diff_max_min_luma_coding_block_size: sps.log2_diff_max_min_luma_coding_block_size,
        log2_min_transform_block_size_minus2: sps.log2_min_luma_transform_block_size_minus2,
        log2_diff_max_min_transform_block_size: sps.log2_diff_max_min_luma_transform_block_size,
        log2_min_pcm_luma_coding_block_size_minus3: sps.log2_min_pcm_luma_coding_block_size_minus3,
        log2_diff_max_min_pcm_luma_coding_block_size: sps.log2_diff_max_min_pcm_luma_coding_block_size,
        max_transform_hierarchy_depth_intra: sps.max_transform_hierarchy_depth_intra,
        max_transform_hierarchy_depth_inter: sps.max_transform_hierarchy_depth_inter,
        init_qp_minus26: pps.init_qp_minus26,
        diff_cu_qp_delta_depth: pps.diff_cu_qp_delta_depth,
        pps_cb_qp_offset: pps.cb_qp_offset,
        pps_cr_qp_offset: pps.cr_qp_offset,
        log2_parallel_merge_level_minus2: pps.log2_parallel_merge_level_minus2,
        num_tile_columns_minus1: pps.num_tile_columns_minus1,
        num_tile_rows_minus1: pps.num_tile_rows_minus1,
        column_width_minus1: columns,
        row_height_minus1: rows,
        slice_parsing_fields: slice_parsing_fields(picture, sps, pps),
        log2_max_pic_order_cnt_lsb_minus4: sps.log2_max_pic_order_cnt_lsb_minus4,
        num_short_term_ref_pic_sets: sps.num_short_term_ref_pic_sets,
        num_long_term_ref_pic_sps: sps.num_long_term_ref_pics_sps,
        num_ref_idx_l0_default_active_minus1: pps.num_ref_idx_l0_default_active_minus1,
        num_ref_idx_l1_default_active_minus1: pps.num_ref_idx_l1_default_active_minus1,
        pps_beta_offset_div2: pps.beta_offset_div2,
        pps_tc_offset_div2: pps.tc_offset_div2,
        num_extra_slice_header_bits: pps.num_extra_slice_header_bits,
        st_rps_bits: slice.header.st_rps_bits,
        va_reserved: [0; 8],
    }
}

/// The chroma format, and the flags in the order of their bits.
fn picture_fields(sps: &Sps, pps: &Pps) -> u32
    ensures { result ≡ picture_fields (plain_sps sps.now) (plain_pps pps.now) }
{
    let flags = flag_bits(&[
        sps.separate_colour_plane_flag,
        sps.pcm_enabled_flag,
        sps.scaling_list_enabled_flag,
        pps.transform_skip_enabled_flag,
        sps.amp_enabled_flag,
        sps.strong_intra_smoothing_enabled_flag,
        pps.sign_data_hiding_enabled_flag,
        pps.constrained_intra_pred_flag,
        pps.cu_qp_delta_enabled_flag,
        pps.weighted_pred_flag,
        pps.weighted_bipred_flag,
        pps.transquant_bypass_enabled_flag,
        pps.tiles_enabled_flag,
        pps.entropy_coding_sync_enabled_flag,
        pps.loop_filter_across_slices_enabled_flag,
        pps.loop_filter_across_tiles_enabled_flag,
        sps.pcm_loop_filter_disabled_flag,
    ]);
    u32::from(sps.chroma_format_idc) + 4 * flags as u32
}

/// The flags that slice headers are read by, in the order of their bits.
fn slice_parsing_fields(picture: &PictureData, sps: &Sps, pps: &Pps) -> u32
    ensures { result
        ≡ slice_parsing_fields picture.now (plain_sps sps.now) (plain_pps pps.now) }
{
    flag_bits(&[
        pps.lists_modification_present_flag,
        sps.long_term_ref_pics_present_flag,
        sps.temporal_mvp_enabled_flag,
        pps.cabac_init_present_flag,
        pps.output_flag_present_flag,
        pps.dependent_slice_segments_enabled_flag,
        pps.slice_chroma_qp_offsets_present_flag,
        sps.sample_adaptive_offset_enabled_flag,
        pps.deblocking_filter_override_enabled_flag,
        pps.deblocking_filter_disabled_flag,
        pps.slice_segment_header_extension_present_flag,
        picture.is_irap,
        picture.nalu_type.is_idr(),
        picture.is_irap,
    ]) as u32
}
