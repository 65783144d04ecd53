//! The lines of a unit's elements.
ghost use Rattle.std.specs.Prelude.{◌≡◌, ◌++◌, ◌+◌, ◌-◌, ◌*◌, ◌<◌, ◌≤◌, decimal, OnOk, drop, codes};
ghost use Rattle.std.specs.Fmt.{signed_decimal};
ghost use Rattle.hevc_element_names.specs.Seen.{natural, sight_of};
ghost use Rattle.hevc_element_lines.specs.Lines.{before_form, before_name, before_place};
ghost use Rattle.hevc_element_lines.specs.Lines.{before_value, code_number, element_line};
ghost use Rattle.hevc_element_lines.specs.Lines.{element_lines, form_text, golomb_size, index_text};
ghost use Rattle.hevc_element_lines.specs.Lines.{indices_text, line_end, lines_from, place_after};
ghost use Rattle.hevc_element_lines.specs.Lines.{size_by};

use crate::style::Style;
use hevc_element_names::{ElementName, Indices, Seen};
use hevc_elements::{Descriptor, Told};
use itoa::Buffer;
use std::alloc::{AllocError, Global};

/// Adds a line for each element of a unit, in the order in which they were read.
///
/// Errors: no memory. Some lines may be added then.
pub fn push_elements(
    alloc: Global,
    text: &mut Vec<u8>,
    style: Style,
    told: &[Told],
) -> Result<(), AllocError>
    ensures { OnOk result (text.new.items ≡ text.old.items ++ element_lines style told.now) }
{
    let mut seen = Seen::new(alloc)?;
    let mut place = 16;
    for one in told {
        push_element(text, style, place, &seen, one)?;
        seen.see(one)?;
        place = place_after(place, one);
    }
    Ok(())
}

/// Adds the line of an element.
#[tactic(auto, unfolding(crate::specs::Lines::element_line), using(std::proofs::Common::append_assoc))]
fn push_element(
    text: &mut Vec<u8>,
    style: Style,
    place: u64,
    seen: &Seen,
    told: &Told,
) -> Result<(), AllocError>
    ensures { OnOk result (text.new.items
        ≡ text.old.items ++ element_line style place (sight_of seen.now) told.now) }
{
    let ElementName { name, indices } = seen.name(told.row);
    push_place(text, style, place)?;
    push_name(text, style, name, indices)?;
    push_form(text, style, told.descriptor)?;
    push_value(text, style, told.value)
}

/// Adds where the element is.
#[tactic(auto, using(std::proofs::Common::append_assoc))]
fn push_place(text: &mut Vec<u8>, style: Style, place: u64) -> Result<(), AllocError>
    ensures { OnOk result
        (text.new.items ≡ text.old.items ++ (before_place style ++ decimal place)) }
{
    text.extend_from_slice(before_place(style))?;
    push_number(text, place)
}

/// Adds its name.
#[tactic(auto, using(std::proofs::Common::append_assoc))]
fn push_name(
    text: &mut Vec<u8>,
    style: Style,
    name: &[u8],
    indices: Indices,
) -> Result<(), AllocError>
    ensures { OnOk result
        (text.new.items ≡ text.old.items
        ++ (before_name style ++ name.now ++ indices_text indices)) }
{
    text.extend_from_slice(before_name(style))?;
    text.extend_from_slice(name)?;
    push_indices(text, indices)
}

/// Adds how it is written.
#[tactic(auto, using(std::proofs::Common::append_assoc))]
fn push_form(text: &mut Vec<u8>, style: Style, descriptor: Descriptor) -> Result<(), AllocError>
    ensures { OnOk result
        (text.new.items ≡ text.old.items ++ (before_form style ++ form_text descriptor)) }
{
    text.extend_from_slice(before_form(style))?;
    push_descriptor(text, descriptor)
}

/// Adds its value, and the line's end.
#[tactic(auto, using(std::proofs::Common::append_assoc))]
fn push_value(text: &mut Vec<u8>, style: Style, value: i64) -> Result<(), AllocError>
    ensures { OnOk result (text.new.items
        ≡ text.old.items ++ (before_value style ++ signed_decimal value ++ line_end style)) }
{
    text.extend_from_slice(before_value(style))?;
    text.extend_from_slice(Buffer::new().format(value).as_bytes())?;
    text.extend_from_slice(line_end(style))
}

/// Adds indices, each in brackets.
///
/// Errors: no memory. Some bytes may be added then.
#[tactic(auto, using(std::proofs::Common::append_assoc))]
pub fn push_indices(text: &mut Vec<u8>, indices: Indices) -> Result<(), AllocError>
    ensures { OnOk result (text.new.items ≡ text.old.items ++ indices_text indices) }
{
    match indices {
        Indices::Without => Ok(()),
        Indices::One(index) => push_index(text, index),
        Indices::Two(first, second) => {
            push_index(text, first)?;
            push_index(text, second)
        }
    }
}

/// Adds an index.
#[tactic(auto, using(std::proofs::Common::append_assoc))]
fn push_index(text: &mut Vec<u8>, index: u64) -> Result<(), AllocError>
    ensures { OnOk result (text.new.items ≡ text.old.items ++ index_text index) }
{
    text.extend_from_slice(b"[")?;
    push_number(text, index)?;
    text.extend_from_slice(b"]")
}

/// Adds a form.
#[tactic(auto, using(std::proofs::Common::append_assoc))]
fn push_descriptor(text: &mut Vec<u8>, descriptor: Descriptor) -> Result<(), AllocError>
    ensures { OnOk result (text.new.items ≡ text.old.items ++ form_text descriptor) }
{
    match descriptor {
        Descriptor::U(bits) => {
            text.extend_from_slice(b"u(")?;
            push_number(text, u64::from(bits))?;
            text.extend_from_slice(b")")
        }
        Descriptor::Ue => text.extend_from_slice(b"ue(v)"),
        Descriptor::Se => text.extend_from_slice(b"se(v)"),
    }
}

/// Adds a number in decimal digits.
///
/// Errors: no memory. Nothing is added then.
pub fn push_number(text: &mut Vec<u8>, number: u64) -> Result<(), AllocError>
    ensures { OnOk result (text.new.items ≡ text.old.items ++ decimal number) }
{
    text.extend_from_slice(Buffer::new().format(number).as_bytes())
}

/// What is before an element's place.
fn before_place(style: Style) -> &'static [u8]
    ensures { result.now ≡ before_place style }
{
    match style {
        Style::Words => b"",
        Style::Json => b"{\"bit\":",
    }
}

/// What is before its name.
fn before_name(style: Style) -> &'static [u8]
    ensures { result.now ≡ before_name style }
{
    match style {
        Style::Words => b" ",
        Style::Json => b",\"name\":\"",
    }
}

/// What is before its form.
fn before_form(style: Style) -> &'static [u8]
    ensures { result.now ≡ before_form style }
{
    match style {
        Style::Words => b" ",
        Style::Json => b"\",\"form\":\"",
    }
}

/// What is before its value.
fn before_value(style: Style) -> &'static [u8]
    ensures { result.now ≡ before_value style }
{
    match style {
        Style::Words => b" ",
        Style::Json => b"\",\"value\":",
    }
}

/// What is at the end of a line.
pub fn line_end(style: Style) -> &'static [u8]
    ensures { result.now ≡ line_end style }
{
    match style {
        Style::Words => b"\n",
        Style::Json => b"}\n",
    }
}

/// The place after an element, up to 2^64 - 1.
pub fn place_after(place: u64, told: &Told) -> u64
    ensures { result ≡ place_after place told.now }
{
    place.saturating_add(size_by(told.descriptor, told.value))
}

/// How many bits an element has.
fn size_by(descriptor: Descriptor, value: i64) -> u64
    ensures { result ≡ size_by descriptor value }
{
    match descriptor {
        Descriptor::U(bits) => u64::from(bits),
        Descriptor::Ue => golomb_size(natural(value)),
        Descriptor::Se => golomb_size(code_number(value)),
    }
}

/// The size of an Exp-Golomb number (9.2).
fn golomb_size(number: u64) -> u64
    requires { number < 18446744073709551615 }
    ensures { result ≡ golomb_size number }
{
    2 * u64::from(63_u32.saturating_sub((number + 1).leading_zeros())) + 1
}

/// The number that a signed number is mapped from (Table 9-3).
fn code_number(value: i64) -> u64
    ensures value { result ≡ code_number value }
    ensures small { result < 18446744073709551615 }
{
    if value >= 0 {
        (2 * natural(value)).saturating_sub(1)
    } else if value > -4_294_967_296 {
        2 * natural(-value)
    } else {
        0
    }
}

/// A value of 32 bits, and 0 for any other.
fn natural(value: i64) -> u64
    ensures value { result ≡ natural value }
    ensures small { result < 4294967296 }
{
    if value >= 0 && value < 4_294_967_296 {
        value as u64
    } else {
        0
    }
}
