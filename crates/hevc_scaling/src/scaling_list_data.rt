//! Scaling lists (7.3.4, table 6).
ghost use Rattle.hevc_elements.specs.Words.{Reads, ReadsTable};
ghost use Rattle.hevc_tables.specs.ScalingListTable.{scaling_list_data};
ghost use Rattle.hevc_set_parts.specs.ScalingLists.{plain_scaling_lists};

use crate::default_lists::{FLAT_LISTS, LARGER_LISTS};
use crate::matrices::read_matrices;
use crate::size::Size;
use hevc_elements::{ElementReader, ParseError};
use hevc_set_parts::ScalingLists;

/// Reads scaling lists, by table 6 (7.3.4).
///
/// A list of which the syntax says that it is the default one is that of Tables 7-5 and 7-6, with 8
/// as its number of the first entry less 8. Of the 32x32 matrices those of chroma aren't read:
/// their entries are 0.
///
/// Errors: `OutOfBits` where the payload ends within an element, and `OutOfRange` with table and
/// row of the first element that isn't allowed. The reader then is where that element begins.
#[tactic(auto, using(hevc_elements::proofs::Meaning::meanings))]
pub fn read_scaling_list_data(r: &mut ElementReader<'_>) -> Result<ScalingLists, ParseError>
    ensures rows { ReadsTable plain_scaling_lists scaling_list_data result r.old r.new }
{
    read_sizes(r)
}

/// Table 6, size by size.
#[tactic(auto, unfolding(hevc_tables::specs::ScalingListTable::scaling_list_data))]
fn read_sizes(r: &mut ElementReader<'_>) -> Result<ScalingLists, ParseError>
    ensures read { Reads plain_scaling_lists scaling_list_data result r.old r.new }
{
    let of_4x4 = read_matrices(r, Size::S4x4, &FLAT_LISTS)?;
    let of_8x8 = read_matrices(r, Size::S8x8, &LARGER_LISTS)?;
    let of_16x16 = read_matrices(r, Size::S16x16, &LARGER_LISTS)?;
    let of_32x32 = read_matrices(r, Size::S32x32, &LARGER_LISTS)?;
    let scaling_list_dc_coef_minus8_16x16 = of_16x16.dc_coef_minus8;
    let scaling_list_dc_coef_minus8_32x32 = of_32x32.dc_coef_minus8;
    let scaling_list_4x4 = of_4x4.entries;
    let scaling_list_8x8 = of_8x8.entries;
    let scaling_list_16x16 = of_16x16.entries;
    let scaling_list_32x32 = of_32x32.entries;
    Ok(ScalingLists {
        scaling_list_dc_coef_minus8_16x16,
        scaling_list_dc_coef_minus8_32x32,
        scaling_list_4x4,
        scaling_list_8x8,
        scaling_list_16x16,
        scaling_list_32x32,
    })
}
