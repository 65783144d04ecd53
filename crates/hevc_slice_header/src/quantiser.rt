//! What a slice adds to the picture set's quantisers (7.3.6.1, rows 35 to 42 of table 14).
ghost use Rattle.std.specs.Prelude.{◌≡◌, ◌≤◌, ◌+ℤ◌, neg_ℤ, pos};
ghost use Rattle.hevc_elements.specs.Words.{Reads, Fills};
ghost use Rattle.hevc_tables.specs.SliceHeaderTable as table;
ghost use Rattle.hevc_picture_slice.specs.Pps.{plain_pps};
ghost use Rattle.hevc_picture_slice.specs.SliceHeader.{plain_slice_header};

use hevc_elements::rows::{check, flag_if, se_i8};
use hevc_elements::{ElementReader, ParseError};
use hevc_picture_slice::{Pps, SliceHeader};
use hevc_spec::Row;

/// Rows 35 to 42 of table 14.
#[tactic(auto, unfolding(hevc_tables::specs::SliceHeaderTable::quantisers))]
pub(crate) fn read_quantisers(
    r: &mut ElementReader<'_>,
    pps: &Pps,
    h: &mut SliceHeader,
) -> Result<(), ParseError>
    ensures { Fills plain_slice_header
        (table.quantisers (plain_pps pps.now)) result h.old h.new r.old r.new }
{
    read_quantiser(r, pps, h)?;
    read_extension_offsets(r, pps, h)
}

/// Rows 35 to 40 of table 14.
#[tactic(auto, unfolding(hevc_tables::specs::SliceHeaderTable::quantiser, hevc_spec::specs::Rows::when))]
fn read_quantiser(
    r: &mut ElementReader<'_>,
    pps: &Pps,
    h: &mut SliceHeader,
) -> Result<(), ParseError>
    ensures { Fills plain_slice_header
        (table.quantiser (plain_pps pps.now)) result h.old h.new r.old r.new }
{
    let qp_delta = se_i8(r, Row(14, 35), -87, 77)?;
    check(r, Row(14, 36), is_slice_qp(pps, qp_delta))?;
    h.qp_delta = qp_delta;
    if pps.slice_chroma_qp_offsets_present_flag {
        read_chroma_offsets(r, pps, h)
    } else {
        Ok(())
    }
}

/// Rows 41 and 42 of table 14.
#[tactic(auto, unfolding(hevc_tables::specs::SliceHeaderTable::extension_offsets, hevc_spec::specs::Rows::when))]
fn read_extension_offsets(
    r: &mut ElementReader<'_>,
    pps: &Pps,
    h: &mut SliceHeader,
) -> Result<(), ParseError>
    ensures { Fills plain_slice_header
        (table.extension_offsets (plain_pps pps.now)) result h.old h.new r.old r.new }
{
    if pps.scc_extension.slice_act_qp_offsets_present_flag {
        read_colour_transform_offsets(r, h)?;
    }
    let has_choice = pps.range_extension.chroma_qp_offset_list_enabled_flag;
    h.cu_chroma_qp_offset_enabled_flag = flag_if(r, has_choice, Row(14, 42))?;
    Ok(())
}

/// Whether SliceQpY (7-54) is from -QpBdOffsetY to 51.
fn is_slice_qp(pps: &Pps, qp_delta: i8) -> bool
    ensures { result ≡ table.is_slice_qp (plain_pps pps.now) qp_delta }
{
    let qp = slice_qp(pps, qp_delta);
    least_qp(pps) <= qp && qp <= 51
}

/// SliceQpY (7-54).
fn slice_qp(pps: &Pps, qp_delta: i8) -> i32
    ensures { result ≡ (pos 26 +ℤ pps.now.init_qp_minus26 +ℤ qp_delta) }
{
    26 + i32::from(pps.init_qp_minus26) + i32::from(qp_delta)
}

/// -QpBdOffsetY (7-5).
fn least_qp(pps: &Pps) -> i32
    ensures { result ≡ neg_ℤ (pos pps.now.qp_bd_offset_y) }
{
    -(pps.qp_bd_offset_y as i32)
}

/// Rows 37 to 40 of table 14.
#[tactic(auto, unfolding(hevc_tables::specs::SliceHeaderTable::chroma_offsets))]
fn read_chroma_offsets(
    r: &mut ElementReader<'_>,
    pps: &Pps,
    h: &mut SliceHeader,
) -> Result<(), ParseError>
    ensures { Fills plain_slice_header
        (table.chroma_offsets (plain_pps pps.now)) result h.old h.new r.old r.new }
{
    let cb = read_chroma_offset(r, 37, pps.cb_qp_offset)?;
    let cr = read_chroma_offset(r, 39, pps.cr_qp_offset)?;
    set_chroma_offsets(h, cb, cr);
    Ok(())
}

/// Fills in rows 37 to 40.
fn set_chroma_offsets(h: &mut SliceHeader, cb: i8, cr: i8)
    ensures { plain_slice_header h.new ≡ record (plain_slice_header h.old) {
      cb_qp_offset = cb;
      cr_qp_offset = cr;
    } }
{
    h.cb_qp_offset = cb;
    h.cr_qp_offset = cr;
}

/// A row of a chroma offset, and the check after it.
#[tactic(auto, unfolding(hevc_tables::specs::SliceHeaderTable::chroma_offset))]
fn read_chroma_offset(
    r: &mut ElementReader<'_>,
    number: u8,
    of_picture_set: i8,
) -> Result<i8, ParseError>
    requires { number ≤ 254 }
    ensures read { Reads (λ offset. offset) (table.chroma_offset number of_picture_set) result r.old
        r.new }
{
    let offset = se_i8(r, Row(14, number), -12, 12)?;
    let row_behind = Row(14, number + 1);
    check(r, row_behind, is_chroma_offset(offset, of_picture_set))?;
    Ok(offset)
}

/// Whether an offset of the slice and the picture set's are from -12 to 12 together.
fn is_chroma_offset(offset: i8, of_picture_set: i8) -> bool
    ensures { result ≡ table.is_chroma_offset offset of_picture_set }
{
    let sum = i32::from(offset) + i32::from(of_picture_set);
    -12 <= sum && sum <= 12
}

/// Row 41 of table 14.
#[tactic(auto, unfolding(hevc_tables::specs::SliceHeaderTable::colour_transform_offsets))]
fn read_colour_transform_offsets(
    r: &mut ElementReader<'_>,
    h: &mut SliceHeader,
) -> Result<(), ParseError>
    ensures { Fills plain_slice_header table.colour_transform_offsets result
        h.old h.new r.old r.new }
{
    let y = se_i8(r, Row(14, 41), -12, 12)?;
    let cb = se_i8(r, Row(14, 41), -12, 12)?;
    let cr = se_i8(r, Row(14, 41), -12, 12)?;
    set_colour_transform_offsets(h, y, cb, cr);
    Ok(())
}

/// Fills in row 41.
fn set_colour_transform_offsets(h: &mut SliceHeader, y: i8, cb: i8, cr: i8)
    ensures { plain_slice_header h.new ≡ record (plain_slice_header h.old) {
      slice_act_y_qp_offset = y;
      slice_act_cb_qp_offset = cb;
      slice_act_cr_qp_offset = cr;
    } }
{
    h.slice_act_y_qp_offset = y;
    h.slice_act_cb_qp_offset = cb;
    h.slice_act_cr_qp_offset = cr;
}
