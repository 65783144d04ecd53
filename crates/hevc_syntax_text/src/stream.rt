//! The text of a stream, unit by unit.
ghost use Rattle.std.specs.Prelude.{◌≡◌, ◌≤◌, ◌<◌, ◌++◌, [], length, true, Ok, Err, IfOk};
ghost use Rattle.std.specs.Prelude.{OnOk, Some};
ghost use Rattle.hevc_spec.specs.Payload.{payload_bits};
ghost use Rattle.hevc_bits.specs.FoundUnit.{bytes_of, unit_of};
ghost use Rattle.hevc_bits.specs.ParsedHeader.{parsed_header};
ghost use Rattle.hevc_bits.specs.declared.stream_limit.TheConstants.{STREAM_LIMIT};
ghost use Rattle.hevc_bare_units.specs.Pieces.{own_unit};
ghost use Rattle.hevc_syntax_text.specs.Requests.{is_chosen};
ghost use Rattle.hevc_syntax_text.specs.Before.{at_beginning};
ghost use Rattle.hevc_syntax_text.specs.Standing.{before_of, AreAlike};
ghost use Rattle.hevc_syntax_text.specs.Steps.{EndsUnit, Fits, IsRefusedNext, TakesNextIfAny};
ghost use Rattle.hevc_syntax_text.specs.Steps.{TakesUnit};
ghost use Rattle.hevc_syntax_text.specs.Written.{before_units, last_line};

use crate::cause::Cause;
use crate::fields::push_number_field;
use crate::messages::push_messages;
use crate::refusal::push_refusal;
use crate::sets::Sets;
use crate::unit_line::{push_bare_line, push_unit_line};
use crate::variables::push_variables;
use crate::words::Request;
use hevc_bare_units::{Piece, next_piece, own_bytes};
use hevc_bits::{Nalu, NaluHeader, UnitError};
use hevc_element_lines::{Style, line_end, push_elements, push_number};
use hevc_elements::Told;
use std::alloc::{AllocError, Global};

/// A stream that is told unit by unit.
#[derive(Drop)]
pub(crate) struct StreamText {
    alloc: Global,
    pub(crate) request: Request,
    sets: Sets,
    /// The text that isn't written yet.
    pub(crate) bytes: Vec<u8>,
    /// How many units there were.
    pub(crate) units: u64,
    /// How many of those that are chosen are refused.
    pub(crate) refused: u64,
}

impl StreamText {
    /// Before the first unit.
    pub(crate) fn new(alloc: Global, request: Request) -> StreamText
        ensures bytes { result.bytes.items ≡ [] }
        ensures counts { (result.units ≡ 0) × (result.refused ≡ 0) }
        ensures first { before_of result.sets ≡ at_beginning }
        ensures alike { AreAlike result.sets }
        ensures request { result.request ≡ request }
    {
        StreamText {
            alloc,
            request,
            sets: Sets::new(alloc),
            bytes: Vec::new(alloc),
            units: 0,
            refused: 0,
        }
    }

    /// Takes the first unit whose start code is at `position` or after it, if there is one, and
    /// gives the place after it.
    pub(crate) fn take_next(
        &mut self,
        stream: &[u8],
        position: usize,
    ) -> Result<Option<usize>, AllocError>
        requires short { length stream.now < STREAM_LIMIT }
        requires within { position ≤ length stream.now }
        requires fits { Fits self.old }
        requires alike { AreAlike self.old.sets }
        ensures { IfOk result
            (λ next. TakesNextIfAny stream.now position next self.old self.new) }
    {
        let mut place = position;
        match Nalu::next(stream, &mut place) {
            Ok(nalu) => {
                self.take_unit(&nalu)?;
                Ok(Some(nalu.offset() + nalu.size()))
            }
            Err(UnitError::NoNal) => Ok(None),
            Err(error) => Ok(Some(self.take_refused(stream, position, error)?)),
        }
    }

    /// Takes a unit whose header is read.
    fn take_unit(&mut self, nalu: &Nalu<'_, NaluHeader>) -> Result<(), AllocError>
        requires short { length nalu.now.stream < STREAM_LIMIT }
        requires fits { Fits self.old }
        requires alike { AreAlike self.old.sets }
        ensures { OnOk result (TakesUnit nalu.now.stream (unit_of nalu.now) self.old self.new) }
    {
        // That its bytes parse to its header, `header` says.
        let _header = nalu.header();
        if self.request.chosen.has(self.units, nalu.as_ref()) {
            self.tell_unit(nalu)
        } else {
            let _outcome = self.sets.take(nalu)?;
            self.units += 1;
            Ok(())
        }
    }

    /// Takes a unit that is chosen.
    fn tell_unit(&mut self, nalu: &Nalu<'_, NaluHeader>) -> Result<(), AllocError>
        requires short { length nalu.now.stream < STREAM_LIMIT }
        requires fits { Fits self.old }
        requires alike { AreAlike self.old.sets }
        requires parsed { parsed_header (bytes_of nalu.now) ≡ Ok nalu.now.header }
        requires long { length (bytes_of nalu.now) ≡ nalu.now.size }
        requires chosen { is_chosen self.old.request.chosen self.old.units (bytes_of nalu.now)
            ≡ true }
        ensures { OnOk result (TakesUnit nalu.now.stream (unit_of nalu.now) self.old self.new) }
    {
        let style = self.request.style;
        push_unit_line(&mut self.bytes, style, self.units, nalu)?;
        push_messages(self.alloc, &mut self.bytes, style, nalu)?;
        let told = self.sets.tell(nalu)?;
        push_elements(self.alloc, &mut self.bytes, style, &told)?;
        let outcome = self.sets.take(nalu)?;
        push_variables(&mut self.bytes, style, outcome.variables)?;
        self.end_unit(nalu.payload(), &told, outcome.cause)
    }

    /// Adds the refusal of a unit, if it is refused, and counts the unit.
    fn end_unit(
        &mut self,
        payload: &[u8],
        told: &[Told],
        cause: Option<Cause>,
    ) -> Result<(), AllocError>
        requires short { length payload.now < STREAM_LIMIT }
        requires fits { Fits self.old }
        ensures { OnOk result
            (EndsUnit (payload_bits 0 payload.now) told.now cause self.old self.new) }
    {
        let Some(cause) = cause else {
            self.units += 1;
            return Ok(());
        };
        let style = self.request.style;
        push_refusal(self.alloc, &mut self.bytes, style, payload, told, cause)?;
        self.refused += 1;
        self.units += 1;
        Ok(())
    }

    /// Takes the first unit whose start code is at `position` or after it, whose header is refused,
    /// and gives the place after it.
    fn take_refused(
        &mut self,
        stream: &[u8],
        position: usize,
        error: UnitError,
    ) -> Result<usize, AllocError>
        requires within { position ≤ length stream.now }
        requires fits { Fits self.old }
        requires alike { AreAlike self.old.sets }
        requires refused { IsRefusedNext position stream.now error }
        ensures { IfOk result
            (λ next. TakesNextIfAny stream.now position (Some next) self.old self.new) }
    {
        let piece = next_piece(stream, position).unwrap();
        self.take_bare(&piece, error)?;
        Ok(piece.offset() + piece.size())
    }

    /// Takes a unit whose header is refused.
    fn take_bare(&mut self, piece: &Nalu<'_, Piece>, error: UnitError) -> Result<(), AllocError>
        requires fits { Fits self.old }
        requires alike { AreAlike self.old.sets }
        requires refused { parsed_header (own_unit piece.now).bytes ≡ Err error }
        ensures { OnOk result (TakesUnit piece.now.stream (own_unit piece.now) self.old self.new) }
    {
        if self
            .request
            .chosen
            .has(self.units, own_bytes(piece.as_ref()))
        {
            self.tell_bare(piece, error)
        } else {
            self.units += 1;
            Ok(())
        }
    }

    /// Takes a unit that is chosen and whose header is refused.
    fn tell_bare(&mut self, piece: &Nalu<'_, Piece>, error: UnitError) -> Result<(), AllocError>
        requires fits { Fits self.old }
        requires alike { AreAlike self.old.sets }
        requires refused { parsed_header (own_unit piece.now).bytes ≡ Err error }
        requires chosen { is_chosen self.old.request.chosen self.old.units
            (own_unit piece.now).bytes ≡ true }
        ensures { OnOk result (TakesUnit piece.now.stream (own_unit piece.now) self.old self.new) }
    {
        push_bare_line(&mut self.bytes, self.request.style, self.units, piece)?;
        self.end_unit(&[], &[], Some(Cause::Header(error)))
    }
}

/// Adds the last line.
#[tactic(auto, using(std::proofs::Common::append_assoc))]
pub(crate) fn push_last(
    text: &mut Vec<u8>,
    style: Style,
    units: u64,
    refused: u64,
) -> Result<(), AllocError>
    ensures { OnOk result (text.new.items ≡ text.old.items ++ last_line style units refused) }
{
    text.extend_from_slice(before_units(style))?;
    push_number(text, units)?;
    push_number_field(text, style, b"refused", refused)?;
    text.extend_from_slice(line_end(style))
}

/// What is before the number of units.
fn before_units(style: Style) -> &'static [u8]
    ensures { result.now ≡ before_units style }
{
    match style {
        Style::Words => b"end units ",
        Style::Json => b"{\"units\":",
    }
}
