//! The screen content coding extension (7.3.2.2.3, table 10).
ghost use Rattle.std.specs.Prelude.{◌≡◌, ◌≤◌, ◌<◌};
ghost use Rattle.hevc_elements.specs.Words.{Reads, Fills};
ghost use Rattle.hevc_tables.specs.SpsSccExtensionTable as table;
ghost use Rattle.hevc_sequence_set.specs.SpsSccExtension.{plain_sps_scc_extension};
ghost use Rattle.hevc_sps.specs.Projections.{plain_format};

use crate::sample_format::SampleFormat;
use hevc_elements::rows::{bits_u8, bits_u32, flag, ue_u8};
use hevc_elements::{ElementReader, ParseError};
use hevc_sequence_set::SpsSccExtension;
use hevc_spec::Row;

/// Table 10.
#[tactic(auto, unfolding(hevc_tables::specs::SpsSccExtensionTable::sps_scc_extension, hevc_spec::specs::Rows::when))]
pub(crate) fn read_sps_scc_extension(
    r: &mut ElementReader<'_>,
    format: SampleFormat,
) -> Result<SpsSccExtension, ParseError>
    ensures read { Reads plain_sps_scc_extension (table.sps_scc_extension (plain_format format))
        result r.old r.new }
{
    let mut x = SpsSccExtension::new();
    x.curr_pic_ref_enabled_flag = flag(r, Row(10, 1))?;
    x.palette_mode_enabled_flag = flag(r, Row(10, 1))?;
    if x.palette_mode_enabled_flag {
        read_palettes(r, format, &mut x)?;
    }
    x.motion_vector_resolution_control_idc = bits_u8(r, Row(10, 7), 2, 0, 3)?;
    x.intra_boundary_filtering_disabled_flag = flag(r, Row(10, 8))?;
    Ok(x)
}

/// Rows 2 to 6 of table 10.
#[tactic(auto, unfolding(hevc_tables::specs::SpsSccExtensionTable::palettes, hevc_spec::specs::Rows::when))]
fn read_palettes(
    r: &mut ElementReader<'_>,
    format: SampleFormat,
    x: &mut SpsSccExtension,
) -> Result<(), ParseError>
    ensures { Fills plain_sps_scc_extension
        (table.palettes (plain_format format)) result x.old x.new r.old r.new }
{
    let size = ue_u8(r, Row(10, 2), 0, 64)?;
    let delta = ue_u8(r, Row(10, 3), 0, 128 - size)?;
    let present = flag(r, Row(10, 4))?;
    x.palette_max_size = size;
    x.delta_palette_max_predictor_size = delta;
    x.palette_predictor_initializers_present_flag = present;
    if present {
        read_initializers(r, format, x)
    } else {
        Ok(())
    }
}

/// Rows 5 and 6 of table 10.
#[tactic(auto, unfolding(hevc_tables::specs::SpsSccExtensionTable::initializers))]
fn read_initializers(
    r: &mut ElementReader<'_>,
    format: SampleFormat,
    x: &mut SpsSccExtension,
) -> Result<(), ParseError>
    ensures { Fills plain_sps_scc_extension
        (table.initializers (plain_format format)) result x.old x.new r.old r.new }
{
    let most = x.palette_max_size + x.delta_palette_max_predictor_size;
    let least = if most == 0 { 1 } else { 0 };
    let count_minus1 = ue_u8(r, Row(10, 5), least, most.saturating_sub(1))?;
    x.num_palette_predictor_initializer_minus1 = count_minus1;
    read_predictors(r, format, usize::from(count_minus1) + 1, x)
}

/// Row 6 of table 10, for so many predictors of each component.
#[tactic(auto, using(hevc_elements::proofs::Loops::loops), unfolding(hevc_tables::specs::SpsSccExtensionTable::predictors))]
fn read_predictors(
    r: &mut ElementReader<'_>,
    format: SampleFormat,
    count: usize,
    x: &mut SpsSccExtension,
) -> Result<(), ParseError>
    requires { count ≤ 128 }
    ensures { Fills plain_sps_scc_extension
        (table.predictors (plain_format format) count) result x.old x.new r.old r.new }
{
    let num_components = if format.chroma_format_idc == 0 { 1 } else { 3 };
    for component in 0..num_components {
        read_component(r, format, count, component, x)?;
    }
    Ok(())
}

/// Row 6 of table 10, for so many predictors of one component.
#[tactic(auto, using(hevc_elements::proofs::Loops::loops), unfolding(hevc_tables::specs::SpsSccExtensionTable::component_predictors))]
fn read_component(
    r: &mut ElementReader<'_>,
    format: SampleFormat,
    count: usize,
    component: usize,
    x: &mut SpsSccExtension,
) -> Result<(), ParseError>
    requires many { count ≤ 128 }
    requires there { component < 3 }
    ensures { Fills plain_sps_scc_extension
        (table.component_predictors
        (plain_format format) count component) result x.old x.new r.old r.new }
{
    for i in 0..count {
        read_predictor(r, format, component, i, x)?;
    }
    Ok(())
}

/// Row 6 of table 10, for one predictor.
#[tactic(auto, unfolding(hevc_tables::specs::SpsSccExtensionTable::predictor))]
fn read_predictor(
    r: &mut ElementReader<'_>,
    format: SampleFormat,
    component: usize,
    i: usize,
    x: &mut SpsSccExtension,
) -> Result<(), ParseError>
    requires component { component < 3 }
    requires there { i < 128 }
    ensures { Fills plain_sps_scc_extension
        (table.predictor (plain_format format) component i) result x.old x.new r.old r.new }
{
    let depth = format.bit_depth(component);
    let predictor = bits_u32(r, Row(10, 6), depth, 0, (1u32 << depth) - 1)?;
    x.palette_predictor_initializer[component][i] = predictor;
    Ok(())
}
