//! The messages of supplemental enhancement information (7.3.5, D.2.1).
ghost use Rattle.std.specs.Prelude.{◌≡◌, ◌++◌, ◌≤◌, ◌<◌, length, drop, IfSome, OnOk};
ghost use Rattle.std.specs.Option.{option_map};
ghost use Rattle.hevc_spec.specs.Payload.{payload_after};
ghost use Rattle.hevc_bits.specs.NaluType.{nalu_type_number};
ghost use Rattle.hevc_bits.specs.FoundUnit.{bytes_of};
ghost use Rattle.hevc_syntax_text.specs.Messages.{before_message, has_more, is_sei, kind_text};
ghost use Rattle.hevc_syntax_text.specs.Messages.{message_line, message_name, messages_from};
ghost use Rattle.hevc_syntax_text.specs.Messages.{messages_text, next_message, own_name};
ghost use Rattle.hevc_syntax_text.specs.Messages.{sum_of_bytes};
ghost use Rattle.hevc_syntax_text.specs.FoundMessages.{message_of, sum_in};

use crate::fields::{push_number_field, push_text_field};
use crate::message_names::{NAMES, SPANS};
use crate::rbsp::rbsp_of;
use hevc_bits::{Nalu, NaluHeader, NaluType};
use hevc_element_lines::{Style, line_end};
use hevc_element_names::text_at;
use std::alloc::{AllocError, Global};

/// payloadType and payloadSize of a message, and the bytes after its payload.
#[derive(Clone, Copy)]
pub(crate) struct Message<'a> {
    kind: u64,
    size: u64,
    rest: &'a [u8],
}

/// What the first bytes add up to, and how many they are.
#[derive(Clone, Copy)]
pub(crate) struct Sum {
    value: u64,
    count: usize,
}

/// Adds a line for each message of a unit, if it has some.
///
/// Errors: no memory. Some lines may be added then.
#[tactic(auto, unfolding(crate::specs::Messages::messages_text))]
pub(crate) fn push_messages(
    alloc: Global,
    text: &mut Vec<u8>,
    style: Style,
    nalu: &Nalu<'_, NaluHeader>,
) -> Result<(), AllocError>
    ensures { OnOk result (text.new.items ≡ text.old.items
        ++ messages_text style nalu.now.header.nal_unit_type (bytes_of nalu.now)) }
{
    if !is_sei(nalu.header().nalu_type()) {
        return Ok(());
    }
    let rbsp = rbsp_of(alloc, nalu.payload())?;
    push_each(text, style, &rbsp)
}

/// Whether a unit of a type has messages.
fn is_sei(nalu_type: NaluType) -> bool
    ensures { result ≡ is_sei (nalu_type_number nalu_type) }
{
    match nalu_type {
        NaluType::PrefixSeiNut | NaluType::SuffixSeiNut => true,
        _ => false,
    }
}

/// Adds a line for each message of a payload.
fn push_each(text: &mut Vec<u8>, style: Style, rbsp: &[u8]) -> Result<(), AllocError>
    ensures { OnOk result (text.new.items
        ≡ text.old.items ++ messages_from style (length rbsp.now) rbsp.now) }
{
    let mut rest = rbsp;
    for i in 0..rbsp.len() {
        let _ = i;
        let Some(message) = next_message(rest) else {
            return Ok(());
        };
        push_message(text, style, message.kind, message.size)?;
        rest = message.rest;
    }
    Ok(())
}

/// The message that comes next, if there is one.
#[tactic(auto, unfolding(crate::specs::Messages::next_message))]
fn next_message(bytes: &[u8]) -> Option<Message<'_>>
    ensures { option_map message_of result ≡ next_message bytes.now }
{
    if !has_more(bytes) {
        return None;
    }
    let kind = first_sum(bytes)?;
    let after = &bytes[kind.count..];
    let size = first_sum(after)?;
    Some(Message {
        kind: kind.value,
        size: size.value,
        rest: bytes_after(&after[size.count..], size.value),
    })
}

/// Whether more is left than the byte of the stop bit.
fn has_more(bytes: &[u8]) -> bool
    ensures { result ≡ has_more bytes.now }
{
    match bytes {
        [] => false,
        [byte] => *byte != 0x80,
        _ => true,
    }
}

/// What the bytes up to the first one that isn't 255 add up to.
fn first_sum(bytes: &[u8]) -> Option<Sum>
    ensures value { option_map (sum_in bytes.now) result ≡ sum_of_bytes 0 bytes.now }
    ensures within { IfSome result (λ sum. sum.count ≤ length bytes.now) }
{
    let mut value: u64 = 0;
    let mut count: usize = 0;
    for byte in bytes {
        count += 1;
        if *byte != 255 {
            return Some(Sum {
                value: value.saturating_add(u64::from(*byte)),
                count,
            });
        }
        value = value.saturating_add(255);
    }
    None
}

/// The bytes after so many, as far as there are some.
fn bytes_after(bytes: &[u8], count: u64) -> &[u8]
    ensures { result.now ≡ drop count bytes.now }
{
    if count < bytes.len() as u64 {
        &bytes[count as usize..]
    } else {
        &[]
    }
}

/// Adds the line of a message.
#[tactic(auto, unfolding(crate::specs::Messages::message_line), using(std::proofs::Common::append_assoc))]
fn push_message(text: &mut Vec<u8>, style: Style, kind: u64, size: u64) -> Result<(), AllocError>
    ensures { OnOk result (text.new.items ≡ text.old.items ++ message_line style kind size) }
{
    push_kind(text, style, kind)?;
    push_number_field(text, style, b"payloadSize", size)?;
    text.extend_from_slice(line_end(style))
}

/// Adds a payloadType with its name.
#[tactic(auto, unfolding(crate::specs::Messages::kind_text), using(std::proofs::Common::append_assoc))]
fn push_kind(text: &mut Vec<u8>, style: Style, kind: u64) -> Result<(), AllocError>
    ensures { OnOk result (text.new.items ≡ text.old.items ++ kind_text style kind) }
{
    text.extend_from_slice(before_message(style))?;
    push_number_field(text, style, b"payloadType", kind)?;
    push_text_field(text, style, b"name", message_name(kind))
}

/// The name of a payloadType.
#[tactic(auto, unfolding(crate::specs::Messages::message_name))]
fn message_name(kind: u64) -> &'static [u8]
    ensures { result.now ≡ message_name kind }
{
    if kind < 256 {
        own_name(text_at(&NAMES, &SPANS, kind as usize))
    } else {
        b"reserved_sei_message"
    }
}

/// A name, or that of a message that is reserved.
fn own_name(name: &'static [u8]) -> &'static [u8]
    ensures { result.now ≡ own_name name.now }
{
    if name.is_empty() {
        b"reserved_sei_message"
    } else {
        name
    }
}

/// What is before a message.
fn before_message(style: Style) -> &'static [u8]
    ensures { result.now ≡ before_message style }
{
    match style {
        Style::Words => b"sei",
        Style::Json => b"{\"sei\":true",
    }
}
