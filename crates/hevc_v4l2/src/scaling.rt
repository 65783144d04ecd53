//! The scaling lists: `struct v4l2_ctrl_hevc_scaling_matrix`.
ghost use Rattle.std.specs.Prelude.{◌≡◌, ◌≤ℤ◌, negsuc, pos, map};
ghost use Rattle.hevc_events.specs.Scan.{in_raster_order, scan_places_8x8};
ghost use Rattle.hevc_records.specs.Bounds.{Within};
ghost use Rattle.hevc_set_parts.specs.ScalingLists.{plain_scaling_lists};
ghost use Rattle.hevc_sequence_set.specs.Sps.{plain_sps};
ghost use Rattle.hevc_picture_slice.specs.Pps.{plain_pps};
ghost use Rattle.hevc_v4l2.specs.Scaling.{active_lists, control_of_lists, dc_coef, flat_lists};
ghost use Rattle.hevc_v4l2.specs.Scaling.{luma_lists, luma_coefs};

use hevc_events::{SCAN_PLACES_4X4, SCAN_PLACES_8X8, raster_list, raster_lists};
use hevc_picture_slice::Pps;
use hevc_scaling::default_scaling_lists;
use hevc_sequence_set::Sps;
use hevc_set_parts::ScalingLists;

/// `struct v4l2_ctrl_hevc_scaling_matrix`: scaling lists (7.3.4), each in raster order.
///
/// Of each size there are lists for intra Y, Cb and Cr, then inter Y, Cb and Cr; of 32x32 for those
/// of Y alone.
#[repr(C)]
#[derive(Clone, Copy)]
pub struct V4l2CtrlHevcScalingMatrix {
    pub scaling_list_4x4: [[u8; 16]; 6],
    pub scaling_list_8x8: [[u8; 64]; 6],
    pub scaling_list_16x16: [[u8; 64]; 6],
    pub scaling_list_32x32: [[u8; 64]; 2],
    /// The first entry of each 16x16 matrix.
    pub scaling_list_dc_coef_16x16: [u8; 6],
    /// The first entry of each 32x32 matrix.
    pub scaling_list_dc_coef_32x32: [u8; 2],
}

const _: () = prove!(size_of::<V4l2CtrlHevcScalingMatrix>() == 1000);

/// The scaling lists that are active where these sets are (7.4.3.2.1, 7.4.3.3.1), as a stateless
/// decoder takes them: those of the picture set, else those of the sequence set, else the default
/// ones; 16 everywhere where coefficients aren't scaled by lists.
pub fn scaling_control(sps: &Sps, pps: &Pps) -> V4l2CtrlHevcScalingMatrix
    ensures { result ≡ control_of_lists (active_lists (plain_sps sps.now) (plain_pps pps.now)) }
{
    if !sps.scaling_list_enabled_flag {
        control_of(&flat_scaling_lists())
    } else if pps.scaling_list_data_present_flag {
        control_of(&pps.scaling_list)
    } else if sps.scaling_list_data_present_flag {
        control_of(&sps.scaling_list)
    } else {
        control_of(&default_scaling_lists())
    }
}

/// Lists of 16 alone.
fn flat_scaling_lists() -> ScalingLists
    ensures { plain_scaling_lists result ≡ flat_lists }
{
    ScalingLists {
        scaling_list_dc_coef_minus8_16x16: [8; 6],
        scaling_list_dc_coef_minus8_32x32: [8; 6],
        scaling_list_4x4: [[16; 16]; 6],
        scaling_list_8x8: [[16; 64]; 6],
        scaling_list_16x16: [[16; 64]; 6],
        scaling_list_32x32: [[16; 64]; 6],
    }
}

/// These lists, as a stateless decoder takes them.
fn control_of(lists: &ScalingLists) -> V4l2CtrlHevcScalingMatrix
    ensures { result ≡ control_of_lists (plain_scaling_lists lists.now) }
{
    V4l2CtrlHevcScalingMatrix {
        scaling_list_4x4: raster_lists(&lists.scaling_list_4x4, &SCAN_PLACES_4X4),
        scaling_list_8x8: raster_lists(&lists.scaling_list_8x8, &SCAN_PLACES_8X8),
        scaling_list_16x16: raster_lists(&lists.scaling_list_16x16, &SCAN_PLACES_8X8),
        scaling_list_32x32: luma_lists(&lists.scaling_list_32x32),
        scaling_list_dc_coef_16x16: dc_coefs(&lists.scaling_list_dc_coef_minus8_16x16),
        scaling_list_dc_coef_32x32: luma_coefs(dc_coefs(&lists.scaling_list_dc_coef_minus8_32x32)),
    }
}

/// The lists of luma in raster order.
fn luma_lists(lists: &[[u8; 64]; 6]) -> [[u8; 64]; 2]
    ensures { result ≡ map (in_raster_order scan_places_8x8) (luma_lists lists.now) }
{
    [
        raster_list(&lists[0], &SCAN_PLACES_8X8),
        raster_list(&lists[3], &SCAN_PLACES_8X8),
    ]
}

/// The first entries of the matrices of luma.
fn luma_coefs(coefs: [u8; 6]) -> [u8; 2]
    ensures { result ≡ luma_coefs coefs }
{
    [coefs[0], coefs[3]]
}

/// The first entry of each matrix, of which the syntax has 8 less.
fn dc_coefs(minus8: &[i16; 6]) -> [u8; 6]
    requires { Within (negsuc 6) (pos 247) minus8.now }
    ensures { result ≡ map dc_coef minus8.now }
{
    let mut coefs = [0; 6];
    for i in 0..6 {
        coefs[i] = (minus8[i] + 8) as u8;
    }
    coefs
}
