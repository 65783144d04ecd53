//! Sets that no stream has, or that slices are read with.
ghost use Rattle.std.specs.Prelude.{◌≡◌};
ghost use Rattle.hevc_sequence_set.specs.Sps.{plain_sps};
ghost use Rattle.hevc_set_parts.specs.ShortTermRefPicSet.{plain_short_term_ref_pic_set};
ghost use Rattle.hevc_worked_units.specs.Sets.{a_column, a_referring_column, a_row_of_ten};
ghost use Rattle.hevc_worked_units.specs.Sets.{a_tall_column, two_neighbours};

use hevc_sequence_set::Sps;
use hevc_set_parts::ShortTermRefPicSet;
use std::alloc::Global;

/// A sequence set of 16 blocks of 8x8 luma samples, one over another, with chroma of 4:2:0.
pub fn column(alloc: Global) -> Sps
    ensures { plain_sps result ≡ a_column }
{
    let mut sps = Sps::new(alloc);
    sps.pic_height_in_luma_samples = 128;
    sps.pic_height_in_ctbs_y = 16;
    sps.pic_size_in_ctbs_y = 16;
    sps.pic_size_in_samples_y = 128;
    sps.chroma_format_idc = 1;
    sps.chroma_array_type = 1;
    sps.max_dec_pic_buffering_minus1 = [4, 0, 0, 0, 0, 0, 0];
    sps
}

/// A sequence set of 440 blocks, one over another.
pub fn tall_column(alloc: Global) -> Sps
    ensures { plain_sps result ≡ a_tall_column }
{
    let mut sps = Sps::new(alloc);
    sps.pic_height_in_luma_samples = 3520;
    sps.pic_height_in_ctbs_y = 440;
    sps.pic_size_in_ctbs_y = 440;
    sps.pic_size_in_samples_y = 3520;
    sps
}

/// The column with motion vectors of other pictures and two long-term pictures, one of them used.
pub fn referring_column(alloc: Global) -> Sps
    ensures { plain_sps result ≡ a_referring_column }
{
    let mut sps = column(alloc);
    sps.long_term_ref_pics_present_flag = true;
    sps.num_long_term_ref_pics_sps = 2;
    sps.lt_ref_pic_poc_lsb_sps[0] = 3;
    sps.lt_ref_pic_poc_lsb_sps[1] = 9;
    sps.used_by_curr_pic_lt_sps_flag[0] = true;
    sps.temporal_mvp_enabled_flag = true;
    sps
}

/// A sequence set of ten blocks of 8x8 luma samples side by side, of 12 bits of luma, with up to
/// six palette predictors.
pub fn ten_blocks(alloc: Global) -> Sps
    ensures { plain_sps result ≡ a_row_of_ten }
{
    let mut sps = Sps::new(alloc);
    sps.pic_width_in_luma_samples = 80;
    sps.pic_width_in_ctbs_y = 10;
    sps.pic_size_in_ctbs_y = 10;
    sps.pic_size_in_samples_y = 80;
    sps.bit_depth_luma_minus8 = 4;
    sps.scc_extension.palette_max_size = 4;
    sps.scc_extension.delta_palette_max_predictor_size = 2;
    sps
}

/// The short-term set of one member directly before the picture and one directly after it.
pub fn neighbours() -> ShortTermRefPicSet
    ensures { plain_short_term_ref_pic_set result ≡ two_neighbours }
{
    let mut set = ShortTermRefPicSet::new();
    set.num_negative_pics = 1;
    set.num_positive_pics = 1;
    set.num_delta_pocs = 2;
    set.delta_poc_s0[0] = -1;
    set.delta_poc_s1[0] = 1;
    set
}
