//! The default scaling lists (7.4.5).
ghost use Rattle.std.specs.Prelude.{◌≡◌};
ghost use Rattle.hevc_records.specs.DefaultScalingLists.{default_lists, flat_list, intra_list};
ghost use Rattle.hevc_records.specs.DefaultScalingLists.{inter_list};
ghost use Rattle.hevc_set_parts.specs.ScalingLists.{plain_scaling_lists};

use hevc_set_parts::ScalingLists;

/// The list of each 4x4 matrix (Table 7-5).
const FLAT: [u8; 16] = [16; 16];

/// The list of each larger matrix of intra prediction (Table 7-6).
const INTRA: [u8; 64] = [
    16, 16, 16, 16, 16, 16, 16, 16, 16, 16, 17, 16, 17, 16, 17, 18, 17, 18, 18, 17, 18, 21, 19, 20,
    21, 20, 19, 21, 24, 22, 22, 24, 24, 22, 22, 24, 25, 25, 27, 30, 27, 25, 25, 29, 31, 35, 35, 31,
    29, 36, 41, 44, 41, 36, 47, 54, 54, 47, 65, 70, 65, 88, 88, 115,
];

/// The list of each larger matrix of inter prediction (Table 7-6).
const INTER: [u8; 64] = [
    16, 16, 16, 16, 16, 16, 16, 16, 16, 16, 17, 17, 17, 17, 17, 18, 18, 18, 18, 18, 18, 20, 20, 20,
    20, 20, 20, 20, 24, 24, 24, 24, 24, 24, 24, 24, 25, 25, 25, 25, 25, 25, 25, 28, 28, 28, 28, 28,
    28, 33, 33, 33, 33, 33, 41, 41, 41, 41, 54, 54, 54, 71, 71, 91,
];

/// The lists of the 4x4 matrices.
pub(crate) const FLAT_LISTS: [[u8; 16]; 6] = [FLAT; 6];

/// The lists of the matrices of each larger size, three of intra and three of inter prediction
/// (Table 7-4).
pub(crate) const LARGER_LISTS: [[u8; 64]; 6] = [INTRA, INTRA, INTRA, INTER, INTER, INTER];

/// The default scaling lists of a set that has none of its own (7.4.5), with 16 as the first entry
/// of each matrix of 16x16 and 32x32. Lists that the syntax doesn't have, those of chroma at 32x32,
/// have entries 0.
pub fn default_scaling_lists() -> ScalingLists
    ensures { plain_scaling_lists result ≡ default_lists }
{
    ScalingLists {
        scaling_list_dc_coef_minus8_16x16: [8; 6],
        scaling_list_dc_coef_minus8_32x32: [8, 0, 0, 8, 0, 0],
        scaling_list_4x4: FLAT_LISTS,
        scaling_list_8x8: LARGER_LISTS,
        scaling_list_16x16: LARGER_LISTS,
        scaling_list_32x32: [INTRA, [0; 64], [0; 64], INTER, [0; 64], [0; 64]],
    }
}
