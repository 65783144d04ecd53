//! Variables that follow from what a unit has.
ghost use Rattle.std.specs.Prelude.{◌≡◌, ◌++◌, Some, OnOk};
ghost use Rattle.std.specs.Prelude.{if◌then◌else◌, None};
ghost use Rattle.hevc_sequence_set.specs.Sps.{plain_sps};
ghost use Rattle.hevc_picture_slice.specs.Pps.{plain_pps};
ghost use Rattle.hevc_picture_slice.specs.SliceHeader.{plain_slice_header};
ghost use Rattle.hevc_syntax_text.specs.Order.{behind_picture, head_at};
ghost use Rattle.hevc_syntax_text.specs.Variables.{before_value, before_variable, count_line};
ghost use Rattle.hevc_syntax_text.specs.Variables.{set_variables, slice_qp_y, told_count};
ghost use Rattle.hevc_syntax_text.specs.Variables.{variable_line, variables_text};

use crate::counting::Counting;
use hevc_element_lines::{Style, line_end};
use hevc_picture_slice::{Pps, Slice, SliceHeader};
use hevc_sequence_set::Sps;
use itoa::Buffer;
use std::alloc::AllocError;

/// Variables of a unit.
#[derive(Clone, Copy)]
pub enum Variables {
    /// PicWidthInCtbsY, PicHeightInCtbsY (7.4.3.2.1) and MaxDpbSize (A.4.2).
    OfSequence {
        width: u32,
        height: u32,
        buffer: u8,
    },
    /// PicOrderCntVal (8.3.1), if it is a 32-bit number, and SliceQpY (7-54).
    OfPicture {
        order_count: Option<i32>,
        slice_qp: i32,
    },
}

/// Those of a sequence set.
pub(crate) fn set_variables(set: &Sps) -> Variables
    ensures { result ≡ set_variables (plain_sps set.now) }
{
    Variables::OfSequence {
        width: set.pic_width_in_ctbs_y,
        height: set.pic_height_in_ctbs_y,
        buffer: set.max_dpb_size() as u8,
    }
}

/// Those of a slice segment with its active sets, if it is first in its picture, which is counted.
pub(crate) fn slice_variables(
    counting: &mut Counting,
    slice: &Slice<'_>,
    sps: &Sps,
    pps: &Pps,
) -> Option<Variables>
    ensures variables { result ≡ (if slice.now.header.first_slice_segment_in_pic_flag
        then Some (Variables.OfPicture (told_count (head_at counting.old slice.now.nalu
        (plain_slice_header slice.now.header)
        (record { sps = plain_sps sps.now; pps = plain_pps pps.now })))
        (slice_qp_y (plain_pps pps.now) (plain_slice_header slice.now.header)))
        else None) }
    ensures counting { counting.new ≡ (if slice.now.header.first_slice_segment_in_pic_flag
        then behind_picture (head_at counting.old slice.now.nalu
        (plain_slice_header slice.now.header)
        (record { sps = plain_sps sps.now; pps = plain_pps pps.now })) counting.old
        else counting.old) }
{
    let header = slice.header();
    if !header.first_slice_segment_in_pic_flag {
        return None;
    }
    let order_count = counting.begin(slice, sps);
    let slice_qp = slice_qp_y(pps, header);
    Some(Variables::OfPicture {
        order_count,
        slice_qp,
    })
}

/// SliceQpY (7-54).
fn slice_qp_y(pps: &Pps, header: &SliceHeader) -> i32
    ensures { result ≡ slice_qp_y (plain_pps pps.now) (plain_slice_header header.now) }
{
    26 + i32::from(pps.init_qp_minus26) + i32::from(header.qp_delta)
}

/// Adds a line for each variable.
pub(crate) fn push_variables(
    text: &mut Vec<u8>,
    style: Style,
    variables: Option<Variables>,
) -> Result<(), AllocError>
    ensures { OnOk result (text.new.items ≡ text.old.items ++ variables_text style variables) }
{
    match variables {
        None => Ok(()),
        Some(
            Variables::OfSequence {
                width,
                height,
                buffer,
            },
        ) => push_sizes(text, style, width, height, buffer),
        Some(
            Variables::OfPicture {
                order_count,
                slice_qp,
            },
        ) => {
            push_count(text, style, order_count)?;
            push_variable(text, style, b"SliceQpY", i64::from(slice_qp))
        }
    }
}

/// Adds the lines of a sequence set's sizes.
#[tactic(auto, using(std::proofs::Common::append_assoc))]
fn push_sizes(
    text: &mut Vec<u8>,
    style: Style,
    width: u32,
    height: u32,
    buffer: u8,
) -> Result<(), AllocError>
    ensures { OnOk result (text.new.items ≡ text.old.items
        ++ variables_text style (Some (Variables.OfSequence width height buffer))) }
{
    push_variable(text, style, b"PicWidthInCtbsY", i64::from(width))?;
    push_variable(text, style, b"PicHeightInCtbsY", i64::from(height))?;
    push_variable(text, style, b"MaxDpbSize", i64::from(buffer))
}

/// Adds the line of an order count, if there is one.
fn push_count(text: &mut Vec<u8>, style: Style, count: Option<i32>) -> Result<(), AllocError>
    ensures { OnOk result (text.new.items ≡ text.old.items ++ count_line style count) }
{
    match count {
        None => Ok(()),
        Some(count) => push_variable(text, style, b"PicOrderCntVal", i64::from(count)),
    }
}

/// Adds the line of a variable.
#[tactic(auto, unfolding(crate::specs::Variables::variable_line), using(std::proofs::Common::append_assoc))]
fn push_variable(
    text: &mut Vec<u8>,
    style: Style,
    name: &[u8],
    value: i64,
) -> Result<(), AllocError>
    ensures { OnOk result
        (text.new.items ≡ text.old.items ++ variable_line style name.now value) }
{
    text.extend_from_slice(before_variable(style))?;
    text.extend_from_slice(name)?;
    text.extend_from_slice(before_value(style))?;
    text.extend_from_slice(Buffer::new().format(value).as_bytes())?;
    text.extend_from_slice(line_end(style))
}

/// What is before the name of a variable.
fn before_variable(style: Style) -> &'static [u8]
    ensures { result.now ≡ before_variable style }
{
    match style {
        Style::Words => b"variable ",
        Style::Json => b"{\"variable\":\"",
    }
}

/// What is before its value.
fn before_value(style: Style) -> &'static [u8]
    ensures { result.now ≡ before_value style }
{
    match style {
        Style::Words => b" ",
        Style::Json => b"\",\"value\":",
    }
}
