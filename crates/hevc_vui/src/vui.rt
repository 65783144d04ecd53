//! Video usability information (E.2.1, table 8).
ghost use Rattle.std.specs.Prelude.{◌≡◌, ◌≤◌, OnErr};
ghost use Rattle.hevc_elements.specs.Words.{Fills, Reads, ReadsTable};
ghost use Rattle.hevc_records.specs.VuiParams.{default_vui_params};
ghost use Rattle.hevc_tables.specs.VuiTable.{vui_parameters};
ghost use Rattle.hevc_video_set.specs.VuiParams.{plain_vui_params};

use crate::appearance::{read_aspect_ratio, read_chroma_places, read_display, read_overscan};
use crate::restrictions::read_stream_restrictions;
use crate::signal::read_signal_type;
use crate::timing::read_timing_info;
use hevc_elements::{ElementReader, ParseError};
use hevc_video_set::VuiParams;

/// Reads video usability information of a set whose highest sub-layer is `max_sub_layers_minus1`,
/// by table 8 (E.2.1), into `vui`.
///
/// What `vui` is at first doesn't count: an element that is absent has its value of
/// `VuiParams::new`.
///
/// Errors: `OutOfBits` where the payload ends within an element, and `OutOfRange` with table and
/// row of the first element that isn't allowed. The reader then is where that element begins, and
/// `vui` is that of `VuiParams::new`.
#[tactic(auto, using(hevc_elements::proofs::Meaning::meanings))]
pub fn read_vui_parameters(
    r: &mut ElementReader<'_>,
    max_sub_layers_minus1: u8,
    vui: &mut VuiParams,
) -> Result<(), ParseError>
    requires { max_sub_layers_minus1 ≤ 6 }
    ensures rows { ReadsTable (λ _. plain_vui_params vui.new) (vui_parameters max_sub_layers_minus1)
        result r.old r.new }
    ensures refused { OnErr result (plain_vui_params vui.new ≡ default_vui_params) }
{
    let result = read_rows(r, max_sub_layers_minus1, vui);
    if result.is_err() {
        *vui = VuiParams::new();
    }
    result
}

/// Rows 1 to 26 of table 8.
#[tactic(auto, unfolding(hevc_tables::specs::VuiTable::vui_parameters))]
fn read_rows(
    r: &mut ElementReader<'_>,
    max_sub_layers_minus1: u8,
    vui: &mut VuiParams,
) -> Result<(), ParseError>
    requires { max_sub_layers_minus1 ≤ 6 }
    ensures { Fills plain_vui_params (λ _. vui_parameters max_sub_layers_minus1) result
        vui.old vui.new r.old r.new }
{
    *vui = VuiParams::new();
    read_aspect_ratio(r, vui)?;
    read_overscan(r, vui)?;
    read_signal_type(r, vui)?;
    read_chroma_places(r, vui)?;
    read_display(r, vui)?;
    read_timing_info(r, max_sub_layers_minus1, vui)?;
    read_stream_restrictions(r, vui)
}
