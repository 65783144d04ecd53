//! The line of a refusal.
ghost use Rattle.std.specs.Prelude.{◌≡◌, ◌++◌, ◌<◌, length, IfOk, OnOk};
ghost use Rattle.hevc_spec.specs.Payload.{payload_bits};
ghost use Rattle.hevc_bits.specs.declared.stream_limit.TheConstants.{STREAM_LIMIT};
ghost use Rattle.hevc_element_names.specs.Seen.{sight_of};
ghost use Rattle.hevc_syntax_text.specs.Fields.{number_field};
ghost use Rattle.hevc_syntax_text.specs.Refusals.{after_cause, before_cause, bounds_field};
ghost use Rattle.hevc_syntax_text.specs.Refusals.{cause_name, cause_text, details, element_fields};
ghost use Rattle.hevc_syntax_text.specs.Refusals.{header_cause, refusal_line, refused_fields};
ghost use Rattle.hevc_syntax_text.specs.Refusals.{seen_after};

use crate::cause::Cause;
use crate::fields::{push_byte_field, push_name_field, push_signed_field, push_text_field};
use hevc_bits::UnitError;
use hevc_element_lines::{Style, line_end};
use hevc_element_names::{Seen, bounds_of};
use hevc_elements::Told;
use hevc_refused_element::refused_among;
use hevc_spec::Row;
use std::alloc::{AllocError, Global};

/// Adds the line of a refusal, of a unit with this payload, of which these elements were told.
///
/// Errors: no memory. Some bytes may be added then.
#[tactic(auto, using(std::proofs::Common::append_assoc))]
pub(crate) fn push_refusal(
    alloc: Global,
    text: &mut Vec<u8>,
    style: Style,
    payload: &[u8],
    told: &[Told],
    cause: Cause,
) -> Result<(), AllocError>
    requires { length payload.now < STREAM_LIMIT }
    ensures { OnOk result (text.new.items ≡ text.old.items
        ++ refusal_line style (payload_bits 0 payload.now) told.now cause) }
{
    push_cause(text, style, cause)?;
    push_details(alloc, text, style, payload, told, cause)?;
    text.extend_from_slice(line_end(style))
}

/// Adds a cause and its numbers.
#[tactic(auto, using(std::proofs::Common::append_assoc))]
fn push_cause(text: &mut Vec<u8>, style: Style, cause: Cause) -> Result<(), AllocError>
    ensures { OnOk result (text.new.items ≡ text.old.items ++ cause_text style cause) }
{
    match cause {
        Cause::Header(error) => push_header_cause(text, style, error),
        Cause::OutOfBits => push_name(text, style, b"OutOfBits"),
        Cause::OutOfRange(row) => {
            push_name(text, style, b"OutOfRange")?;
            push_byte_field(text, style, b"table", row.0)?;
            push_byte_field(text, style, b"row", row.1)
        }
        Cause::MissingSps(id) => push_numbered(text, style, b"MissingSps", b"id", id),
        Cause::MissingPps(id) => push_numbered(text, style, b"MissingPps", b"id", id),
    }
}

/// Adds the cause of a faulty header.
#[tactic(auto, using(std::proofs::Common::append_assoc))]
fn push_header_cause(text: &mut Vec<u8>, style: Style, error: UnitError) -> Result<(), AllocError>
    ensures { OnOk result (text.new.items ≡ text.old.items ++ header_cause style error) }
{
    match error {
        UnitError::NoNal => push_name(text, style, b"NoNal"),
        UnitError::TruncatedNalu => push_name(text, style, b"TruncatedNalu"),
        UnitError::InvalidNaluType(number) => {
            push_numbered(text, style, b"InvalidNaluType", b"nal_unit_type", number)
        }
        UnitError::TemporalIdZero => push_name(text, style, b"TemporalIdZero"),
    }
}

/// Adds the name of a cause and its number.
#[tactic(auto, using(std::proofs::Common::append_assoc))]
fn push_numbered(
    text: &mut Vec<u8>,
    style: Style,
    name: &[u8],
    field: &[u8],
    number: u8,
) -> Result<(), AllocError>
    ensures { OnOk result (text.new.items ≡ text.old.items
        ++ (cause_name style name.now ++ number_field style field.now number)) }
{
    push_name(text, style, name)?;
    push_byte_field(text, style, field, number)
}

/// Adds the name of a cause.
#[tactic(auto, unfolding(crate::specs::Refusals::cause_name), using(std::proofs::Common::append_assoc))]
fn push_name(text: &mut Vec<u8>, style: Style, name: &[u8]) -> Result<(), AllocError>
    ensures { OnOk result (text.new.items ≡ text.old.items ++ cause_name style name.now) }
{
    text.extend_from_slice(before_cause(style))?;
    text.extend_from_slice(name)?;
    text.extend_from_slice(after_cause(style))
}

/// Adds what is said of an element that isn't allowed.
#[tactic(auto, using(std::proofs::Common::append_assoc))]
fn push_details(
    alloc: Global,
    text: &mut Vec<u8>,
    style: Style,
    payload: &[u8],
    told: &[Told],
    cause: Cause,
) -> Result<(), AllocError>
    requires { length payload.now < STREAM_LIMIT }
    ensures { OnOk result (text.new.items ≡ text.old.items
        ++ details style (payload_bits 0 payload.now) told.now cause) }
{
    match cause {
        Cause::OutOfRange(row) => {
            push_refused(alloc, text, style, payload, told, row)?;
            push_bounds(text, style, bounds_of(row))
        }
        _ => Ok(()),
    }
}

/// Adds the name and the value of the element of a row that is refused, if it has a value.
#[tactic(auto, unfolding(crate::specs::Refusals::refused_fields))]
fn push_refused(
    alloc: Global,
    text: &mut Vec<u8>,
    style: Style,
    payload: &[u8],
    told: &[Told],
    row: Row,
) -> Result<(), AllocError>
    requires { length payload.now < STREAM_LIMIT }
    ensures { OnOk result (text.new.items ≡ text.old.items
        ++ refused_fields style (payload_bits 0 payload.now) told.now row) }
{
    let Some(refused) = refused_among(payload, told, row) else {
        return Ok(());
    };
    push_element(
        alloc,
        text,
        style,
        &told[..told.len().saturating_sub(1)],
        &refused,
    )
}

/// Adds the name and the value of an element that comes after others.
#[tactic(auto, unfolding(crate::specs::Refusals::element_fields), using(std::proofs::Common::append_assoc))]
fn push_element(
    alloc: Global,
    text: &mut Vec<u8>,
    style: Style,
    before: &[Told],
    told: &Told,
) -> Result<(), AllocError>
    ensures { OnOk result
        (text.new.items ≡ text.old.items ++ element_fields style before.now told.now) }
{
    let seen = see_all(alloc, before)?;
    push_name_field(text, style, b"name", seen.name(told.row))?;
    push_signed_field(text, style, b"value", told.value)
}

/// What was seen after elements.
fn see_all(alloc: Global, told: &[Told]) -> Result<Seen, AllocError>
    ensures { IfOk result (λ seen. sight_of seen ≡ seen_after told.now) }
{
    let mut seen = Seen::new(alloc)?;
    for one in told {
        seen.see(one)?;
    }
    Ok(seen)
}

/// Adds bounds, where there are some.
fn push_bounds(text: &mut Vec<u8>, style: Style, bounds: &[u8]) -> Result<(), AllocError>
    ensures { OnOk result (text.new.items ≡ text.old.items ++ bounds_field style bounds.now) }
{
    if bounds.is_empty() {
        return Ok(());
    }
    push_text_field(text, style, b"bounds", bounds)
}

/// What is before a cause.
fn before_cause(style: Style) -> &'static [u8]
    ensures { result.now ≡ before_cause style }
{
    match style {
        Style::Words => b"refused ",
        Style::Json => b"{\"refused\":\"",
    }
}

/// What is after a cause.
fn after_cause(style: Style) -> &'static [u8]
    ensures { result.now ≡ after_cause style }
{
    match style {
        Style::Words => b"",
        Style::Json => b"\"",
    }
}
