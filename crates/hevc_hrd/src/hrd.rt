//! Parameters of the hypothetical reference decoder (E.2.2, table 3).
ghost use Rattle.std.specs.Prelude.{◌≡◌, ◌≤◌, OnErr};
ghost use Rattle.hevc_elements.specs.Words.{when, Fills, Reads, ReadsTable};
ghost use Rattle.hevc_records.specs.HrdParams.{default_hrd_params};
ghost use Rattle.hevc_tables.specs.HrdTable as table;
ghost use Rattle.hevc_video_set.specs.HrdParams.{plain_hrd_params};

use crate::common::{forget_sub_layers, read_common};
use crate::sub_layers::read_sub_layers;
use hevc_elements::{ElementReader, ParseError};
use hevc_video_set::HrdParams;

/// Reads parameters of the hypothetical reference decoder, for sub-layers from 0 to
/// `max_sub_layers_minus1`, by table 3 (E.2.2), into `hrd`.
///
/// `common` is commonInfPresentFlag: without it what all sub-layers have in common isn't read, but
/// is that of the structure before (E.3.2), which `hrd` is at first. Sub-layers above the highest
/// have the values of `HrdParams::new`.
///
/// Errors: `OutOfBits` where the payload ends within an element, and `OutOfRange` with table and
/// row of the first element that isn't allowed. The reader then is where that element begins, and
/// `hrd` is that of `HrdParams::new`.
#[tactic(auto, using(hevc_elements::proofs::Meaning::meanings))]
pub fn read_hrd_parameters(
    r: &mut ElementReader<'_>,
    common: bool,
    max_sub_layers_minus1: u8,
    hrd: &mut HrdParams,
) -> Result<(), ParseError>
    requires { max_sub_layers_minus1 ≤ 6 }
    ensures rows { ReadsTable (λ _. plain_hrd_params hrd.new) (table.hrd_parameters common
        max_sub_layers_minus1 (plain_hrd_params hrd.old)) result r.old r.new }
    ensures refused { OnErr result (plain_hrd_params hrd.new ≡ default_hrd_params) }
{
    let result = read_rows(r, common, max_sub_layers_minus1, hrd);
    if result.is_err() {
        *hrd = HrdParams::new();
    }
    result
}

/// Rows 1 to 16 of table 3.
#[tactic(auto, unfolding(hevc_tables::specs::HrdTable::hrd_parameters))]
fn read_rows(
    r: &mut ElementReader<'_>,
    common: bool,
    max_sub_layers_minus1: u8,
    hrd: &mut HrdParams,
) -> Result<(), ParseError>
    requires { max_sub_layers_minus1 ≤ 6 }
    ensures { Fills plain_hrd_params (table.hrd_parameters common max_sub_layers_minus1) result
        hrd.old hrd.new r.old r.new }
{
    read_common_or_keep(r, common, hrd)?;
    read_sub_layers(r, max_sub_layers_minus1, hrd)
}

/// Rows 1 to 9 of table 3, or what the structure before has.
#[tactic(auto, unfolding(hevc_spec::specs::Rows::when))]
fn read_common_or_keep(
    r: &mut ElementReader<'_>,
    common: bool,
    hrd: &mut HrdParams,
) -> Result<(), ParseError>
    ensures { Fills plain_hrd_params (λ before. when common (table.common_of before)
        (table.common_parameters default_hrd_params)) result hrd.old hrd.new r.old r.new }
{
    if common {
        *hrd = HrdParams::new();
        read_common(r, hrd)
    } else {
        forget_sub_layers(hrd);
        Ok(())
    }
}
