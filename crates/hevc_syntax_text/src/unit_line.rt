//! The first line of a unit.
ghost use Rattle.std.specs.Prelude.{◌≡◌, ◌++◌, OnOk, Ok, Err};
ghost use Rattle.hevc_spec.specs.Units.{NalUnit};
ghost use Rattle.hevc_bits.specs.NaluType.{nalu_type_number};
ghost use Rattle.hevc_bits.specs.FoundUnit.{bytes_of, unit_of};
ghost use Rattle.hevc_bits.specs.declared.header.UnitError.{UnitError as unit_error};
ghost use Rattle.hevc_bare_units.specs.Pieces.{own_unit};
ghost use Rattle.hevc_syntax_text.specs.UnitLines.{before_unit, header_text, unit_line, unit_place};

use crate::fields::{push_byte_field, push_number_field, push_text_field};
use crate::unit_types::type_name;
use hevc_bare_units::{Piece, own_bytes};
use hevc_bits::{Nalu, NaluHeader, NaluType};
use hevc_element_lines::{Style, line_end, push_number};
use std::alloc::AllocError;

/// Adds the line of a unit.
#[tactic(auto, unfolding(crate::specs::UnitLines::unit_line), using(std::proofs::Common::append_assoc))]
pub(crate) fn push_unit_line(
    text: &mut Vec<u8>,
    style: Style,
    number: u64,
    nalu: &Nalu<'_, NaluHeader>,
) -> Result<(), AllocError>
    ensures { OnOk result (text.new.items ≡ text.old.items
        ++ unit_line style number (unit_of nalu.now) (Ok nalu.now.header)) }
{
    let size = nalu.as_ref().len();
    push_unit_place(text, style, number, nalu.offset(), size)?;
    push_header(text, style, nalu.header())?;
    text.extend_from_slice(line_end(style))
}

/// Adds the line of a unit whose header is faulty.
#[tactic(auto, unfolding(crate::specs::UnitLines::unit_line), using(std::proofs::Common::append_assoc))]
pub(crate) fn push_bare_line(
    text: &mut Vec<u8>,
    style: Style,
    number: u64,
    piece: &Nalu<'_, Piece>,
) -> Result<(), AllocError>
    ensures { OnOk result ((error : unit_error) → text.new.items ≡ text.old.items
        ++ unit_line style number (own_unit piece.now) (Err error)) }
{
    let size = own_bytes(piece.as_ref()).len();
    push_unit_place(text, style, number, piece.offset(), size)?;
    text.extend_from_slice(line_end(style))
}

/// Adds the number of a unit, its place and its size.
#[tactic(auto, using(std::proofs::Common::append_assoc))]
fn push_unit_place(
    text: &mut Vec<u8>,
    style: Style,
    number: u64,
    offset: usize,
    size: usize,
) -> Result<(), AllocError>
    ensures { OnOk result
        (text.new.items ≡ text.old.items ++ unit_place style number offset size) }
{
    text.extend_from_slice(before_unit(style))?;
    push_number(text, number)?;
    push_number_field(text, style, b"offset", offset as u64)?;
    push_number_field(text, style, b"size", size as u64)
}

/// Adds a header.
#[tactic(auto, using(std::proofs::Common::append_assoc))]
fn push_header(text: &mut Vec<u8>, style: Style, header: &NaluHeader) -> Result<(), AllocError>
    ensures { OnOk result (text.new.items ≡ text.old.items ++ header_text style header.now) }
{
    let nalu_type = header.nalu_type();
    push_byte_field(text, style, b"nal_unit_type", type_number(nalu_type))?;
    push_text_field(text, style, b"name", type_name(nalu_type))?;
    push_byte_field(text, style, b"nuh_layer_id", header.layer_id())?;
    push_byte_field(text, style, b"TemporalId", header.temporal_id_plus1() - 1)
}

/// The number of a type.
fn type_number(nalu_type: NaluType) -> u8
    ensures { result ≡ nalu_type_number nalu_type }
{
    nalu_type as u8
}

/// What is before the number of a unit.
fn before_unit(style: Style) -> &'static [u8]
    ensures { result.now ≡ before_unit style }
{
    match style {
        Style::Words => b"unit ",
        Style::Json => b"{\"unit\":",
    }
}
