//! A whole stream decoded.
ghost use Rattle.std.specs.Prelude.{◌≡◌, ◌<◌, ◌^◌, [], List, length};
ghost use Rattle.hevc_stream.specs.Options.{default_options};
ghost use Rattle.hevc_options.specs.Options.{options_of};
ghost use Rattle.hevc_stateless.specs.Decoders.{view_of};
ghost use Rattle.hevc_decoder.specs.declared.decoded.Shown.{Shown};
ghost use Rattle.hevc_decoder.specs.Promise.{Decodes, told};
ghost use Rattle.hevc_decoder.specs.Stepping.{JudgesUnits};
ghost use Rattle.hevc_bits.specs.declared.stream_limit.TheConstants.{STREAM_LIMIT};

use crate::decoded::{Decoded, Refused, Shown};
use crate::steps::{begin_stream, decode_next_unit, end_stream};
use crate::units::take_units;
use hevc_stateless::{Options, StatelessDecoder, StatelessH265DecoderBackend};
use std::alloc::Global;

/// Decodes a byte stream (Annex B) of less than 2^60 bytes, and adds the pictures that are output
/// to `shown`, in output order (C.5.2).
///
/// What the units ask for is defined without this code: `meanings` gives what each unit means (7.3,
/// 7.4), `calls` the calls of a backend, `outputs` the pictures that are output and the unit at
/// which each is, `verdict` how the stream ends. `Decodes` says that no more is done and, but for a
/// backend that fails or has no frame, or an allocation that fails, no less; docs/PROMISES.md tells
/// each of its fields in words.
pub fn decode_stream_with<B: StatelessH265DecoderBackend>(
    alloc: Global,
    backend: B,
    options: Options,
    stream: &[u8],
    shown: &mut Vec<Shown<B::Handle>>,
) -> Decoded<B>
    requires { length stream.now < STREAM_LIMIT }
    ensures decodes { Decodes (options_of options) stream.now
        (told B.log B.handed B.counts B.is_faultless backend shown.old.items)
        (told B.log B.handed B.counts B.is_faultless result.backend shown.new.items)
        result.result }
{
    let mut decoder = StatelessDecoder::new_with(alloc, backend, options);
    let result = take_units(&mut decoder, stream, shown);
    Decoded {
        backend: decoder.into_backend(),
        result,
    }
}

/// Decodes a byte stream (Annex B) of less than 2^60 bytes with all sub-layers and CRA pictures as
/// such: `decode_stream_with` under `Options::new()`.
pub fn decode_stream<B: StatelessH265DecoderBackend>(
    alloc: Global,
    backend: B,
    stream: &[u8],
    shown: &mut Vec<Shown<B::Handle>>,
) -> Decoded<B>
    requires { length stream.now < STREAM_LIMIT }
    ensures decodes { Decodes default_options stream.now
        (told B.log B.handed B.counts B.is_faultless backend shown.old.items)
        (told B.log B.handed B.counts B.is_faultless result.backend shown.new.items)
        result.result }
{
    decode_stream_with(alloc, backend, Options::new(), stream, shown)
}

/// Decodes a byte stream (Annex B) of less than 2^60 bytes for its verdict and its calls alone:
/// `decode_stream_with`, but that the pictures that are output are let go, so that no more memory
/// is taken by a longer stream.
pub fn judge_stream<B: StatelessH265DecoderBackend>(
    alloc: Global,
    backend: B,
    options: Options,
    stream: &[u8],
) -> Decoded<B>
    requires { length stream.now < STREAM_LIMIT }
    ensures decodes { (shown : List (Shown B.Handle)) × Decodes (options_of options) stream.now
        (told B.log B.handed B.counts B.is_faultless backend [])
        (told B.log B.handed B.counts B.is_faultless result.backend shown)
        result.result }
{
    let mut decoder = begin_stream(alloc, backend, options);
    let result = judge_units(alloc, &mut decoder, stream);
    Decoded {
        backend: decoder.into_backend(),
        result,
    }
}

/// Takes all units of a stream, and lets go what is output.
fn judge_units<B: StatelessH265DecoderBackend>(
    alloc: Global,
    decoder: &mut StatelessDecoder<B>,
    stream: &[u8],
) -> Result<u64, Refused>
    requires short { length stream.now < STREAM_LIMIT }
    requires empty { (view_of decoder.old).queue ≡ [] }
    ensures { JudgesUnits B.log B.handed B.frames B.counts B.is_faultless result stream.now
        decoder.old decoder.new }
{
    let mut shown = Vec::new(alloc);
    let mut position = 0;
    let mut unit = 0;
    while let Some(_nalu) = decode_next_unit(decoder, stream, &mut position, unit, &mut shown)? {
        shown.clear();
        unit += 1;
    }
    end_stream(decoder, unit, &mut shown)
}
