//! The units of a stream, one by one.
ghost use Rattle.std.specs.Prelude.{◌≡◌, ◌+◌, ◌≤◌, ◌<◌, ◌++◌, [], length, map, vec_len};
ghost use Rattle.std.specs.Prelude.{vec_capacity, IfOk, IfErr, OnOk, OnSome};
ghost use Rattle.hevc_spec.specs.Units.{kept_bytes, units, units_from};
ghost use Rattle.hevc_bits.specs.FoundUnit.{bytes_of};
ghost use Rattle.hevc_stream.specs.Kept.{none_kept};
ghost use Rattle.hevc_stream.specs.Stream.{meanings};
ghost use Rattle.hevc_stateless_laws.specs.Segments.{read_units};
ghost use Rattle.hevc_driver.specs.Answers.{BlamesFairly};
ghost use Rattle.hevc_stateless.specs.Decoders.{view_of, kept_in, set_for};
ghost use Rattle.hevc_stateless.specs.Views.{at_beginning};
ghost use Rattle.hevc_decoder.specs.Answers.{outcome, without_unit};
ghost use Rattle.hevc_decoder.specs.Names.{shown_at};
ghost use Rattle.hevc_decoder.specs.Stepping.{IsNextUnit, StaysUnlessTaken};
ghost use Rattle.hevc_decoder.specs.Scenes.{scene, trail_of};
ghost use Rattle.hevc_decoder.specs.Gives.{Gives, GivesWhole, LeavesNext, Closes, is_check_events};
ghost use Rattle.hevc_decoder.specs.Runs.{TakesNext, TakesPiece, EndsHere, EndsRun, Ended};
ghost use Rattle.hevc_bits.specs.declared.stream_limit.TheConstants.{STREAM_LIMIT};

use crate::decoded::{Refused, Shown};
use hevc_bits::{Nalu, NaluHeader, UnitError};
use hevc_stateless::{
    DecodeError, DecoderEvent, MAX_OUTPUTS_OF_UNIT, StatelessDecoder, StatelessH265DecoderBackend,
};

/// Moves what was output to the outputs of a unit.
fn deliver<B: StatelessH265DecoderBackend>(
    decoder: &mut StatelessDecoder<B>,
    unit: u64,
    shown: &mut Vec<Shown<B::Handle>>,
)
    requires room { vec_len shown.old + length (view_of decoder.old).queue
        ≤ vec_capacity shown.old }
    ensures shown { shown.new.items
        ≡ shown.old.items ++ map (shown_at unit) (view_of decoder.old).queue }
    ensures view { view_of decoder.new ≡ record (view_of decoder.old) { queue = [] } }
    ensures kept { kept_in decoder.new ≡ kept_in decoder.old }
    ensures options { set_for decoder.new ≡ set_for decoder.old }
{
    while let Some(DecoderEvent::FrameReady(frame)) = decoder.next_event() {
        shown.push_reserved(Shown::of(frame, unit));
    }
}

/// Gives a unit, and moves what is output.
fn give<B: StatelessH265DecoderBackend>(
    decoder: &mut StatelessDecoder<B>,
    nalu: &Nalu<'_, NaluHeader>,
    unit: u64,
    shown: &mut Vec<Shown<B::Handle>>,
) -> Result<(), DecodeError>
    requires short { length nalu.now.stream < STREAM_LIMIT }
    requires empty { (view_of decoder.old).queue ≡ [] }
    ensures empty { (view_of decoder.new).queue ≡ [] }
    ensures blames { BlamesFairly B.counts B.is_faultless (view_of decoder.old).backend
        (view_of decoder.new).backend result }
    ensures gives { Gives result unit (set_for decoder.old) nalu.now.header (bytes_of nalu.now)
        (scene B.log B.handed B.frames decoder.old shown.old.items)
        (scene B.log B.handed B.frames decoder.new shown.new.items) }
    ensures options { set_for decoder.new ≡ set_for decoder.old }
{
    shown.reserve(MAX_OUTPUTS_OF_UNIT)?;
    let taken = decoder.decode_unit(0, nalu);
    deliver(decoder, unit, shown);
    taken
}

/// Whether a negotiation was opened.
fn opens_negotiation(taken: &Result<(), DecodeError>) -> bool
    ensures { result ≡ is_check_events taken.now }
{
    matches!(taken, Err(DecodeError::CheckEvents))
}

/// Takes a unit of a stream: one that opens a negotiation is given once more.
fn take_unit<B: StatelessH265DecoderBackend>(
    decoder: &mut StatelessDecoder<B>,
    nalu: &Nalu<'_, NaluHeader>,
    unit: u64,
    shown: &mut Vec<Shown<B::Handle>>,
) -> Result<(), DecodeError>
    requires short { length nalu.now.stream < STREAM_LIMIT }
    requires empty { (view_of decoder.old).queue ≡ [] }
    ensures empty { (view_of decoder.new).queue ≡ [] }
    ensures blames { BlamesFairly B.counts B.is_faultless (view_of decoder.old).backend
        (view_of decoder.new).backend result }
    ensures gives { GivesWhole result unit (set_for decoder.old) nalu.now.header
        (bytes_of nalu.now)
        (scene B.log B.handed B.frames decoder.old shown.old.items)
        (scene B.log B.handed B.frames decoder.new shown.new.items) }
    ensures options { set_for decoder.new ≡ set_for decoder.old }
{
    let taken = give(decoder, nalu, unit, shown);
    if !opens_negotiation(&taken) {
        return taken;
    }
    decoder.accept_format();
    give(decoder, nalu, unit, shown)
}

/// After the last unit.
fn close<B: StatelessH265DecoderBackend>(
    decoder: &mut StatelessDecoder<B>,
    unit: u64,
    shown: &mut Vec<Shown<B::Handle>>,
) -> Result<(), DecodeError>
    requires empty { (view_of decoder.old).queue ≡ [] }
    ensures empty { (view_of decoder.new).queue ≡ [] }
    ensures options { set_for decoder.new ≡ set_for decoder.old }
    ensures blames { BlamesFairly B.counts B.is_faultless (view_of decoder.old).backend
        (view_of decoder.new).backend result }
    ensures closes { Closes result unit
        (scene B.log B.handed B.frames decoder.old shown.old.items)
        (scene B.log B.handed B.frames decoder.new shown.new.items) }
{
    shown.reserve(MAX_OUTPUTS_OF_UNIT)?;
    let flushed = decoder.flush();
    deliver(decoder, unit, shown);
    flushed
}

/// Takes the next unit of a piece of a stream from a position on, as unit `unit`, and moves the
/// position to the place after it. `None` where no unit is left; the position stays then, and after
/// a refusal.
pub(crate) fn take_next<'a, B: StatelessH265DecoderBackend>(
    decoder: &mut StatelessDecoder<B>,
    piece: &'a [u8],
    position: &mut usize,
    unit: u64,
    shown: &mut Vec<Shown<B::Handle>>,
) -> Result<Option<Nalu<'a, NaluHeader>>, Refused>
    requires short { length piece.now < STREAM_LIMIT }
    requires few { unit < STREAM_LIMIT }
    requires within { position.old ≤ length piece.now }
    requires empty { (view_of decoder.old).queue ≡ [] }
    ensures empty { (view_of decoder.new).queue ≡ [] }
    ensures next { IfOk result (λ found. IsNextUnit found
        (units_from kept_bytes position.old piece.now)
        (units_from kept_bytes position.new piece.now)) }
    ensures moves { IfOk result (λ found. OnSome found (position.old < position.new)) }
    ensures stays { StaysUnlessTaken result position.old position.new }
    ensures within { position.new ≤ length piece.now }
    ensures blames { BlamesFairly B.counts B.is_faultless (view_of decoder.old).backend
        (view_of decoder.new).backend (without_unit result) }
    ensures takes { TakesNext result (set_for decoder.old) unit
        (units_from kept_bytes position.old piece.now)
        (units_from kept_bytes position.new piece.now)
        (scene B.log B.handed B.frames decoder.old shown.old.items)
        (scene B.log B.handed B.frames decoder.new shown.new.items) }
    ensures leaves { LeavesNext (outcome result) (set_for decoder.old) unit
        (units_from kept_bytes position.old piece.now)
        (scene B.log B.handed B.frames decoder.old shown.old.items)
        (scene B.log B.handed B.frames decoder.new shown.new.items) }
    ensures options { set_for decoder.new ≡ set_for decoder.old }
{
    let mut next = *position;
    let nalu = match Nalu::next(piece, &mut next) {
        Ok(nalu) => nalu,
        Err(error) => match error {
            UnitError::NoNal => return Ok(None),
            UnitError::TruncatedNalu | UnitError::InvalidNaluType(_) | UnitError::TemporalIdZero =>
                {
                    let error = error.into();
                    return Err(Refused { unit, error });
                }
        },
    };
    if let Err(error) = take_unit(decoder, &nalu, unit, shown) {
        return Err(Refused { unit, error });
    }
    *position = nalu.offset() + nalu.size();
    Ok(Some(nalu))
}

/// Takes the units of a piece of a stream, the first of which is unit `first`, and gives the number
/// of the next one.
pub(crate) fn take_piece<B: StatelessH265DecoderBackend>(
    decoder: &mut StatelessDecoder<B>,
    piece: &[u8],
    first: u64,
    shown: &mut Vec<Shown<B::Handle>>,
) -> Result<u64, Refused>
    requires short { first + length piece.now < STREAM_LIMIT }
    requires empty { (view_of decoder.old).queue ≡ [] }
    ensures empty { OnOk result ((view_of decoder.new).queue ≡ []) }
    ensures few { IfOk result (λ next. next ≤ first + length piece.now) }
    ensures blames { BlamesFairly B.counts B.is_faultless (view_of decoder.old).backend
        (view_of decoder.new).backend (without_unit result) }
    ensures takes { TakesPiece result (set_for decoder.old) first (units piece.now)
        (scene B.log B.handed B.frames decoder.old shown.old.items)
        (scene B.log B.handed B.frames decoder.new shown.new.items) }
    ensures options { set_for decoder.new ≡ set_for decoder.old }
{
    let mut position = 0;
    let mut unit = first;
    while let Some(_nalu) = take_next(decoder, piece, &mut position, unit, shown)? {
        unit += 1;
    }
    Ok(unit)
}

/// After the last of so many units. Gives the number of pictures.
pub(crate) fn finish<B: StatelessH265DecoderBackend>(
    decoder: &mut StatelessDecoder<B>,
    unit: u64,
    shown: &mut Vec<Shown<B::Handle>>,
) -> Result<u64, Refused>
    requires empty { (view_of decoder.old).queue ≡ [] }
    ensures blames { BlamesFairly B.counts B.is_faultless (view_of decoder.old).backend
        (view_of decoder.new).backend (without_unit result) }
    ensures empty { (view_of decoder.new).queue ≡ [] }
    ensures options { set_for decoder.new ≡ set_for decoder.old }
    ensures leaves { Closes (outcome result) unit
        (scene B.log B.handed B.frames decoder.old shown.old.items)
        (scene B.log B.handed B.frames decoder.new shown.new.items) }
    ensures ends { EndsHere result (set_for decoder.old) unit
        (scene B.log B.handed B.frames decoder.old shown.old.items)
        (scene B.log B.handed B.frames decoder.new shown.new.items) }
{
    let pictures = decoder.num_pictures();
    match close(decoder, unit, shown) {
        Ok(()) => Ok(pictures),
        Err(error) => Err(Refused { unit, error }),
    }
}

/// Takes the last units of a stream, the first of which is unit `first`, and gives the number of
/// the stream's pictures.
pub(crate) fn take_last<B: StatelessH265DecoderBackend>(
    decoder: &mut StatelessDecoder<B>,
    piece: &[u8],
    first: u64,
    shown: &mut Vec<Shown<B::Handle>>,
) -> Result<u64, Refused>
    requires short { first + length piece.now < STREAM_LIMIT }
    requires empty { (view_of decoder.old).queue ≡ [] }
    ensures blames { BlamesFairly B.counts B.is_faultless (view_of decoder.old).backend
        (view_of decoder.new).backend (without_unit result) }
    ensures ends { EndsRun result (set_for decoder.old) first (units piece.now)
        (scene B.log B.handed B.frames decoder.old shown.old.items)
        (scene B.log B.handed B.frames decoder.new shown.new.items) }
{
    let unit = take_piece(decoder, piece, first, shown)?;
    finish(decoder, unit, shown)
}

/// Takes all units of a stream, and gives the number of its pictures.
pub(crate) fn take_units<B: StatelessH265DecoderBackend>(
    decoder: &mut StatelessDecoder<B>,
    stream: &[u8],
    shown: &mut Vec<Shown<B::Handle>>,
) -> Result<u64, Refused>
    requires short { length stream.now < STREAM_LIMIT }
    requires beginning { view_of decoder.old ≡ at_beginning (view_of decoder.old).backend }
    requires nothing { kept_in decoder.old ≡ none_kept }
    ensures blames { BlamesFairly B.counts B.is_faultless (view_of decoder.old).backend
        (view_of decoder.new).backend (without_unit result) }
    ensures ended { Ended result (meanings (set_for decoder.old) stream.now)
        (read_units (set_for decoder.old) stream.now)
        (trail_of (scene B.log B.handed B.frames decoder.old shown.old.items))
        (trail_of (scene B.log B.handed B.frames decoder.new shown.new.items)) }
    ensures unit { IfErr result (λ refused. refused.unit ≤ length (units stream.now)) }
{
    take_last(decoder, stream, 0, shown)
}
