//! The scaling lists: `VAIQMatrixBufferHEVC`.
ghost use Rattle.std.specs.Prelude.{◌≡◌};
ghost use Rattle.hevc_sequence_set.specs.Sps.{plain_sps};
ghost use Rattle.hevc_picture_slice.specs.Pps.{plain_pps};
ghost use Rattle.hevc_v4l2.specs.Scaling.{active_lists};
ghost use Rattle.hevc_va.specs.Scaling.{buffer_of_lists};

use hevc_picture_slice::Pps;
use hevc_sequence_set::Sps;
use hevc_v4l2::scaling_control;

/// `VAIQMatrixBufferHEVC`: scaling lists (7.3.4), each in raster order.
///
/// Of each size there are lists for intra Y, Cb and Cr, then inter Y, Cb and Cr; of 32x32 for those
/// of Y alone.
#[repr(C)]
#[derive(Clone, Copy)]
pub struct VaIqMatrixBufferHevc {
    pub scaling_list_4x4: [[u8; 16]; 6],
    pub scaling_list_8x8: [[u8; 64]; 6],
    pub scaling_list_16x16: [[u8; 64]; 6],
    pub scaling_list_32x32: [[u8; 64]; 2],
    /// The first entry of each 16x16 matrix.
    pub scaling_list_dc_16x16: [u8; 6],
    /// The first entry of each 32x32 matrix.
    pub scaling_list_dc_32x32: [u8; 2],
    /// Zeros.
    pub va_reserved: [u32; 4],
}

const _: () = prove!(size_of::<VaIqMatrixBufferHevc>() == 1016);

/// The scaling lists that are active where these sets are (7.4.3.2.1, 7.4.3.3.1): those of the
/// picture set, else those of the sequence set, else the default ones; 16 everywhere where
/// coefficients aren't scaled by lists, where VA-API takes no such buffer.
pub fn scaling_buffer(sps: &Sps, pps: &Pps) -> VaIqMatrixBufferHevc
    ensures { result ≡ buffer_of_lists (active_lists (plain_sps sps.now) (plain_pps pps.now)) }
{
    let lists = scaling_control(sps, pps);
    let list_4x4 = lists.scaling_list_4x4;
    let list_8x8 = lists.scaling_list_8x8;
    let list_16x16 = lists.scaling_list_16x16;
    let list_32x32 = lists.scaling_list_32x32;
    let dc_16x16 = lists.scaling_list_dc_coef_16x16;
    let dc_32x32 = lists.scaling_list_dc_coef_32x32;
    VaIqMatrixBufferHevc {
        scaling_list_4x4: list_4x4,
        scaling_list_8x8: list_8x8,
        scaling_list_16x16: list_16x16,
        scaling_list_32x32: list_32x32,
        scaling_list_dc_16x16: dc_16x16,
        scaling_list_dc_32x32: dc_32x32,
        va_reserved: [0; 4],
    }
}
