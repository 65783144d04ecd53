//! The screen content coding extension (7.3.2.3.3, table 13).
ghost use Rattle.std.specs.Prelude.{◌≡◌, ◌≤◌, ◌<◌};
ghost use Rattle.hevc_elements.specs.Words.{Reads, Fills};
ghost use Rattle.hevc_tables.specs.PpsSccExtensionTable as table;
ghost use Rattle.hevc_tables.specs.PpsTable.{max_palette_predictors as most_predictors};
ghost use Rattle.hevc_tables.specs.SpsSccExtensionTable.{bit_depth as bit_depth_of};
ghost use Rattle.hevc_tables.specs.SpsTable.{sample_format};
ghost use Rattle.hevc_set_parts.specs.PpsSccExtension.{plain_pps_scc_extension};
ghost use Rattle.hevc_sequence_set.specs.Sps.{plain_sps};

use hevc_elements::rows::{bits_u32, flag, se_i8, ue_u8, ue_u8_if};
use hevc_elements::{ElementReader, ParseError};
use hevc_sequence_set::Sps;
use hevc_set_parts::PpsSccExtension;
use hevc_spec::Row;

/// Table 13.
#[tactic(auto, unfolding(hevc_tables::specs::PpsSccExtensionTable::pps_scc_extension, hevc_spec::specs::Rows::when))]
pub(crate) fn read_pps_scc_extension(
    r: &mut ElementReader<'_>,
    sps: &Sps,
) -> Result<PpsSccExtension, ParseError>
    ensures read { Reads plain_pps_scc_extension (table.pps_scc_extension
        (sample_format (plain_sps sps.now)) (most_predictors (plain_sps sps.now))) result r.old
        r.new }
{
    let mut x = PpsSccExtension::new();
    x.curr_pic_ref_enabled_flag = flag(r, Row(13, 1))?;
    x.residual_adaptive_colour_transform_enabled_flag = flag(r, Row(13, 1))?;
    if x.residual_adaptive_colour_transform_enabled_flag {
        read_colour_transform(r, &mut x)?;
    }
    x.palette_predictor_initializers_present_flag = flag(r, Row(13, 6))?;
    if x.palette_predictor_initializers_present_flag {
        read_palettes(r, sps, &mut x)?;
    }
    Ok(x)
}

/// Rows 2 to 5 of table 13.
#[tactic(auto, unfolding(hevc_tables::specs::PpsSccExtensionTable::colour_transform))]
fn read_colour_transform(
    r: &mut ElementReader<'_>,
    x: &mut PpsSccExtension,
) -> Result<(), ParseError>
    ensures { Fills plain_pps_scc_extension table.colour_transform result x.old x.new r.old r.new }
{
    x.slice_act_qp_offsets_present_flag = flag(r, Row(13, 2))?;
    x.act_y_qp_offset_plus5 = se_i8(r, Row(13, 3), -7, 17)?;
    x.act_cb_qp_offset_plus5 = se_i8(r, Row(13, 4), -7, 17)?;
    x.act_cr_qp_offset_plus3 = se_i8(r, Row(13, 5), -9, 15)?;
    Ok(())
}

/// The greatest number of palette predictors: at most 128.
fn max_palette_predictors(sps: &Sps) -> u8
    ensures value { result ≡ most_predictors (plain_sps sps.now) }
    ensures small { result ≤ 128 }
{
    sps.scc_extension.palette_max_size + sps.scc_extension.delta_palette_max_predictor_size
}

/// Rows 7 to 11 of table 13.
#[tactic(auto, unfolding(hevc_tables::specs::PpsSccExtensionTable::palettes, hevc_spec::specs::Rows::when))]
fn read_palettes(
    r: &mut ElementReader<'_>,
    sps: &Sps,
    x: &mut PpsSccExtension,
) -> Result<(), ParseError>
    ensures { Fills plain_pps_scc_extension
        (table.palettes (sample_format (plain_sps sps.now))
        (most_predictors (plain_sps sps.now))) result x.old x.new r.old r.new }
{
    let count = ue_u8(r, Row(13, 7), 0, max_palette_predictors(sps))?;
    x.num_palette_predictor_initializers = count;
    if count != 0 {
        read_initializers(r, sps, x)
    } else {
        Ok(())
    }
}

/// Rows 8 to 11 of table 13.
#[tactic(auto, unfolding(hevc_tables::specs::PpsSccExtensionTable::initializers))]
fn read_initializers(
    r: &mut ElementReader<'_>,
    sps: &Sps,
    x: &mut PpsSccExtension,
) -> Result<(), ParseError>
    requires { x.old.num_palette_predictor_initializers ≤ 128 }
    ensures { Fills plain_pps_scc_extension
        (table.initializers (sample_format (plain_sps sps.now))) result x.old x.new r.old r.new }
{
    let luma = sps.bit_depth_luma_minus8;
    let chroma = sps.bit_depth_chroma_minus8;
    let monochrome = flag(r, Row(13, 8))?;
    x.monochrome_palette_flag = monochrome;
    x.luma_bit_depth_entry_minus8 = ue_u8(r, Row(13, 9), luma, luma)?;
    x.chroma_bit_depth_entry_minus8 = ue_u8_if(r, !monochrome, Row(13, 10), chroma, chroma)?;
    read_predictors(r, sps, x)
}

/// Row 11 of table 13.
#[tactic(auto, using(hevc_elements::proofs::Loops::loops), unfolding(hevc_tables::specs::PpsSccExtensionTable::predictors))]
fn read_predictors(
    r: &mut ElementReader<'_>,
    sps: &Sps,
    x: &mut PpsSccExtension,
) -> Result<(), ParseError>
    requires { x.old.num_palette_predictor_initializers ≤ 128 }
    ensures { Fills plain_pps_scc_extension
        (table.predictors (sample_format (plain_sps sps.now))) result x.old x.new r.old r.new }
{
    let num_components = if x.monochrome_palette_flag { 1 } else { 3 };
    let count = usize::from(x.num_palette_predictor_initializers);
    for component in 0..num_components {
        read_component(r, sps, count, component, x)?;
    }
    Ok(())
}

/// Row 11 of table 13, for one component of so many predictors.
#[tactic(auto, using(hevc_elements::proofs::Loops::loops), unfolding(hevc_tables::specs::PpsSccExtensionTable::component_predictors))]
fn read_component(
    r: &mut ElementReader<'_>,
    sps: &Sps,
    count: usize,
    component: usize,
    x: &mut PpsSccExtension,
) -> Result<(), ParseError>
    requires many { count ≤ 128 }
    requires there { component < 3 }
    ensures { Fills plain_pps_scc_extension
        (table.component_predictors
        (sample_format (plain_sps sps.now)) count component) result x.old x.new r.old r.new }
{
    for i in 0..count {
        read_predictor(r, sps, component, i, x)?;
    }
    Ok(())
}

/// Row 11 of table 13, for one predictor.
#[tactic(auto, unfolding(hevc_tables::specs::PpsSccExtensionTable::predictor))]
fn read_predictor(
    r: &mut ElementReader<'_>,
    sps: &Sps,
    component: usize,
    i: usize,
    x: &mut PpsSccExtension,
) -> Result<(), ParseError>
    requires component { component < 3 }
    requires there { i < 128 }
    ensures { Fills plain_pps_scc_extension
        (table.predictor
        (sample_format (plain_sps sps.now)) component i) result x.old x.new r.old r.new }
{
    let depth = bit_depth(sps, component);
    let predictor = bits_u32(r, Row(13, 11), depth, 0, (1u32 << depth) - 1)?;
    x.palette_predictor_initializer[component][i] = predictor as u16;
    Ok(())
}

/// The bits of a sample of a component.
fn bit_depth(sps: &Sps, component: usize) -> usize
    ensures value { result ≡ bit_depth_of (sample_format (plain_sps sps.now)) component }
    ensures small { result ≤ 14 }
{
    if component == 0 {
        usize::from(sps.bit_depth_luma_minus8) + 8
    } else {
        usize::from(sps.bit_depth_chroma_minus8) + 8
    }
}
