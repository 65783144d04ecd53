//! A stream that is decoded unit by unit.
ghost use Rattle.std.specs.Prelude.{◌≡◌, ◌≤◌, ◌<◌, [], ℕ, List, length};
ghost use Rattle.hevc_spec.specs.Units.{kept_bytes, units, units_from};
ghost use Rattle.hevc_options.specs.Options.{options_of};
ghost use Rattle.hevc_stateless.specs.Decoders.{set_for, view_of};
ghost use Rattle.hevc_decoder.specs.Stepping.{DecodesEnd, DecodesNext, MovesOn, StandsIn};
ghost use Rattle.hevc_decoder.specs.Answers.{outcome};
ghost use Rattle.hevc_decoder.specs.Gives.{Closes, LeavesNext};
ghost use Rattle.hevc_decoder.specs.Scenes.{scene};
ghost use Rattle.hevc_bits.specs.declared.stream_limit.TheConstants.{STREAM_LIMIT};

use crate::decoded::{Refused, Shown};
use crate::units::{finish, take_next};
use hevc_bits::{Nalu, NaluHeader};
use hevc_stateless::{Options, StatelessDecoder, StatelessH265DecoderBackend};
use std::alloc::Global;

/// A decoder to which the units of a stream are given one by one, by `decode_next_unit` and
/// `end_stream`.
pub fn begin_stream<B: StatelessH265DecoderBackend>(
    alloc: Global,
    backend: B,
    options: Options,
) -> StatelessDecoder<B>
    ensures empty { (view_of result).queue ≡ [] }
    ensures stands { (stream : List ℕ) → StandsIn B.log B.handed B.frames B.counts B.is_faultless
        (options_of options) stream 0 (units stream) backend [] result }
{
    StatelessDecoder::new_with(alloc, backend, options)
}

/// Takes the next unit of a byte stream (Annex B) of less than 2^60 bytes, from a position on, as
/// unit `unit`; a format is accepted as it is negotiated. Pictures that are output are added to
/// `shown`, and the position moves to the place after the unit. `None` where no unit is left. A
/// refusal is that of the whole stream. The position stays then, and where no unit is left.
pub fn decode_next_unit<'a, B: StatelessH265DecoderBackend>(
    decoder: &mut StatelessDecoder<B>,
    stream: &'a [u8],
    position: &mut usize,
    unit: u64,
    shown: &mut Vec<Shown<B::Handle>>,
) -> Result<Option<Nalu<'a, NaluHeader>>, Refused>
    requires short { length stream.now < STREAM_LIMIT }
    requires few { unit < STREAM_LIMIT }
    requires within { position.old ≤ length stream.now }
    requires empty { (view_of decoder.old).queue ≡ [] }
    ensures empty { (view_of decoder.new).queue ≡ [] }
    ensures position { MovesOn result stream.now position.old position.new }
    ensures decodes { DecodesNext B.log B.handed B.frames B.counts B.is_faultless result stream.now unit
        (units_from kept_bytes position.old stream.now)
        (units_from kept_bytes position.new stream.now)
        decoder.old decoder.new shown.old.items shown.new.items }
    ensures leaves { LeavesNext (outcome result) (set_for decoder.old) unit
        (units_from kept_bytes position.old stream.now)
        (scene B.log B.handed B.frames decoder.old shown.old.items)
        (scene B.log B.handed B.frames decoder.new shown.new.items) }
{
    take_next(decoder, stream, position, unit, shown)
}

/// Ends a stream all units of which were taken, so many of them, and gives the number of its
/// pictures. Those that are output now are added to `shown`.
pub fn end_stream<B: StatelessH265DecoderBackend>(
    decoder: &mut StatelessDecoder<B>,
    unit: u64,
    shown: &mut Vec<Shown<B::Handle>>,
) -> Result<u64, Refused>
    requires empty { (view_of decoder.old).queue ≡ [] }
    ensures empty { (view_of decoder.new).queue ≡ [] }
    ensures leaves { Closes (outcome result) unit
        (scene B.log B.handed B.frames decoder.old shown.old.items)
        (scene B.log B.handed B.frames decoder.new shown.new.items) }
    ensures options { set_for decoder.new ≡ set_for decoder.old }
    ensures decodes { DecodesEnd B.log B.handed B.frames B.counts B.is_faultless result unit
        decoder.old decoder.new shown.old.items shown.new.items }
{
    finish(decoder, unit, shown)
}
