//! The fields of a line.
ghost use Rattle.std.specs.Prelude.{◌≡◌, ◌++◌, OnOk};
ghost use Rattle.hevc_element_lines.specs.Lines.{indices_text};
ghost use Rattle.hevc_syntax_text.specs.Fields.{after_text, before_name, before_number};
ghost use Rattle.hevc_syntax_text.specs.Fields.{before_text, number_field, signed_field};
ghost use Rattle.hevc_syntax_text.specs.Fields.{text_field};

use hevc_element_lines::{Style, push_indices, push_number};
use hevc_element_names::ElementName;
use itoa::Buffer;
use std::alloc::AllocError;

/// Adds a field that is a number.
#[tactic(auto, unfolding(crate::specs::Fields::number_field), using(std::proofs::Common::append_assoc))]
pub(crate) fn push_number_field(
    text: &mut Vec<u8>,
    style: Style,
    name: &[u8],
    number: u64,
) -> Result<(), AllocError>
    ensures { OnOk result
        (text.new.items ≡ text.old.items ++ number_field style name.now number) }
{
    text.extend_from_slice(before_name(style))?;
    text.extend_from_slice(name)?;
    text.extend_from_slice(before_number(style))?;
    push_number(text, number)
}

/// The same of a number of one byte.
pub(crate) fn push_byte_field(
    text: &mut Vec<u8>,
    style: Style,
    name: &[u8],
    number: u8,
) -> Result<(), AllocError>
    ensures { OnOk result
        (text.new.items ≡ text.old.items ++ number_field style name.now number) }
{
    push_number_field(text, style, name, u64::from(number))
}

/// Adds a field that is a signed number.
#[tactic(auto, unfolding(crate::specs::Fields::signed_field), using(std::proofs::Common::append_assoc))]
pub(crate) fn push_signed_field(
    text: &mut Vec<u8>,
    style: Style,
    name: &[u8],
    number: i64,
) -> Result<(), AllocError>
    ensures { OnOk result
        (text.new.items ≡ text.old.items ++ signed_field style name.now number) }
{
    text.extend_from_slice(before_name(style))?;
    text.extend_from_slice(name)?;
    text.extend_from_slice(before_number(style))?;
    text.extend_from_slice(Buffer::new().format(number).as_bytes())
}

/// Adds a field that is a text.
#[tactic(auto, unfolding(crate::specs::Fields::text_field), using(std::proofs::Common::append_assoc))]
pub(crate) fn push_text_field(
    text: &mut Vec<u8>,
    style: Style,
    name: &[u8],
    field: &[u8],
) -> Result<(), AllocError>
    ensures { OnOk result
        (text.new.items ≡ text.old.items ++ text_field style name.now field.now) }
{
    text.extend_from_slice(before_name(style))?;
    text.extend_from_slice(name)?;
    text.extend_from_slice(before_text(style))?;
    text.extend_from_slice(field)?;
    text.extend_from_slice(after_text(style))
}

/// Adds a field that is the name of an element, with its indices.
#[tactic(auto, unfolding(crate::specs::Fields::text_field), using(std::proofs::Common::append_assoc))]
pub(crate) fn push_name_field(
    text: &mut Vec<u8>,
    style: Style,
    name: &[u8],
    element: ElementName,
) -> Result<(), AllocError>
    ensures { OnOk result (text.new.items ≡ text.old.items
        ++ text_field style name.now (element.name.now ++ indices_text element.indices)) }
{
    text.extend_from_slice(before_name(style))?;
    text.extend_from_slice(name)?;
    text.extend_from_slice(before_text(style))?;
    text.extend_from_slice(element.name)?;
    push_indices(text, element.indices)?;
    text.extend_from_slice(after_text(style))
}

/// What is before the name of a field.
fn before_name(style: Style) -> &'static [u8]
    ensures { result.now ≡ before_name style }
{
    match style {
        Style::Words => b" ",
        Style::Json => b",\"",
    }
}

/// What is before a number.
fn before_number(style: Style) -> &'static [u8]
    ensures { result.now ≡ before_number style }
{
    match style {
        Style::Words => b" ",
        Style::Json => b"\":",
    }
}

/// What is before a text.
fn before_text(style: Style) -> &'static [u8]
    ensures { result.now ≡ before_text style }
{
    match style {
        Style::Words => b" ",
        Style::Json => b"\":\"",
    }
}

/// What is after a text.
fn after_text(style: Style) -> &'static [u8]
    ensures { result.now ≡ after_text style }
{
    match style {
        Style::Words => b"",
        Style::Json => b"\"",
    }
}
