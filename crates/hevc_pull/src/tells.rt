//! The elements of a unit as they are read, for who looks at a stream.
ghost use Rattle.std.specs.Prelude.{◌≡◌, ◌<◌, length, IfOk};
ghost use Rattle.hevc_bits.specs.declared.stream_limit.TheConstants.{STREAM_LIMIT};
ghost use Rattle.hevc_parser.specs.Kept.{kept_by};
ghost use Rattle.hevc_pull.specs.Tells.{Tells, TellsElements, elements_text};

use crate::status::{NO_MEMORY, TOO_LONG};
use crate::units::{UnitCall, tell_found};
use hevc_bits::{Nalu, NaluHeader, UnitError};
use hevc_element_calls::write_text;
use hevc_element_lines::{Style, push_elements};
use hevc_parser::Parser;
use hevc_refused_element::elements_of;
use std::alloc::{AllocError, Global};

/// Tells the first unit of the bytes, and its elements as they are read with the sets that are
/// kept: a line each, in order, with its place in bits, its name, how it is written and its value.
/// They are those of a parameter set or a slice segment header, of a refused one those up to the
/// element that is refused, and none of another unit. As much of the text is written as there is
/// room for, and zeros in all of the room after it, of which there is one at least; `text_size` is
/// how many bytes the whole has. The answer is a status, 0 where the unit has a header; any other
/// leaves text and size as they were.
pub fn tell_unit(
    sets: &Parser,
    bytes: &[u8],
    unit: &mut UnitCall,
    text: &mut [u8],
    text_size: &mut usize,
    alloc: Global,
) -> u32
    ensures { Tells bytes.now (kept_by sets.now) unit.old unit.new
        (record { room = text.old; size = text_size.old })
        (record { room = text.new; size = text_size.new }) result }
{
    if bytes.len() >= 1 << 60 {
        return TOO_LONG;
    }
    let mut position = 0;
    let found: Result<Nalu<'_, NaluHeader>, UnitError> = Nalu::next(bytes, &mut position);
    let status = tell_found(&found, bytes, 0, unit);
    match found {
        Ok(nalu) => tell_elements(sets, &nalu, text, text_size, alloc),
        Err(_) => status,
    }
}

/// Writes the lines of a unit's elements.
fn tell_elements(
    sets: &Parser,
    nalu: &Nalu<'_, NaluHeader>,
    text: &mut [u8],
    text_size: &mut usize,
    alloc: Global,
) -> u32
    requires { length nalu.now.stream < STREAM_LIMIT }
    ensures { TellsElements (elements_text (kept_by sets.now) nalu.now)
        (record { room = text.old; size = text_size.old })
        (record { room = text.new; size = text_size.new }) result }
{
    match lines_of(sets, nalu, alloc) {
        Ok(lines) => {
            *text_size = write_text(&lines, text);
            0
        }
        Err(_) => NO_MEMORY,
    }
}

/// The lines of a unit's elements.
fn lines_of(
    sets: &Parser,
    nalu: &Nalu<'_, NaluHeader>,
    alloc: Global,
) -> Result<Vec<u8>, AllocError>
    requires { length nalu.now.stream < STREAM_LIMIT }
    ensures { IfOk result (λ lines. lines.items ≡ elements_text (kept_by sets.now) nalu.now) }
{
    let told = elements_of(alloc, sets, nalu)?;
    let mut lines = Vec::new(alloc);
    push_elements(alloc, &mut lines, Style::Words, &told)?;
    Ok(lines)
}
