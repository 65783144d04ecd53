//! A source decoded.
ghost use Rattle.std.specs.Prelude.{◌<◌, ◌≤◌, ℕ, List, IfOk, OnOk, IsErrOf, length};
ghost use Rattle.std.specs.Io.KnownBytes.{Consumes, IsAtEnd};
ghost use Rattle.hevc_options.specs.Options.{options_of};
ghost use Rattle.hevc_decoder.specs.Promise.{Decodes, IsHonest, told};
ghost use Rattle.hevc_decoder.specs.Sources.{ComeOutFirst, CountsFailure, OfSource};
ghost use Rattle.hevc_bits.specs.declared.stream_limit.TheConstants.{STREAM_LIMIT};

use crate::decoded::{Decoded, Shown};
use crate::feed::take_source;
use hevc_io::{InputError, Source};
use hevc_stateless::{Options, StatelessDecoder, StatelessH265DecoderBackend};
use std::alloc::Global;

/// Decodes the byte stream (Annex B) that a source has left, of at most `limit` bytes, as it comes:
/// no more of it is kept at a time than what lies between two start codes and what one read gives.
/// After a refusal the source is read to its end.
///
/// On `Ok` all is as `decode_stream_with` has it for these bytes. After an `InputError` the backend
/// is dropped; the pictures that came out until then were added to `shown`. `Failed` has a cause: a
/// fault was counted, or no more can be. By `TooLong` more than `limit` bytes left the source.
pub fn decode_source_with<B: StatelessH265DecoderBackend + Drop, S: Source>(
    alloc: Global,
    backend: B,
    options: Options,
    source: &mut S,
    limit: usize,
    shown: &mut Vec<Shown<B::Handle>>,
) -> Result<Decoded<B>, InputError>
    requires { limit < STREAM_LIMIT }

    // Such a stream was read to its end.
    ensures end { OnOk result (IsAtEnd (S.left source.new)) }
    ensures limit { OfSource result (S.left source.old) (λ _ stream. length stream ≤ limit) }

    // Its pictures are output in order; where the input failed, the first of them.
    ensures outputs { ComeOutFirst (options_of options) (S.left source.old)
        shown.old.items shown.new.items }

    // All else as for a stream that is there.
    ensures decodes { OfSource result (S.left source.old) (λ decoded stream.
        Decodes (options_of options) stream
        (told B.log B.handed B.counts B.is_faultless backend shown.old.items)
        (told B.log B.handed B.counts B.is_faultless decoded.backend shown.new.items)
        decoded.result) }
    ensures honest { IfOk result (λ decoded. IsHonest
        (told B.log B.handed B.counts B.is_faultless backend shown.old.items)
        (told B.log B.handed B.counts B.is_faultless decoded.backend shown.new.items)
        decoded.result) }

    // Why the input can't be had.
    ensures faults { CountsFailure (IsErrOf result InputError.Failed)
        (S.faults source.old) (S.faults source.new) }
    ensures too_long { IsErrOf result InputError.TooLong → (given : List ℕ)
        × (limit < length given)
        × Consumes (S.left source.old) (S.left source.new) given }
{
    let mut decoder = StatelessDecoder::new_with(alloc, backend, options);
    let result = take_source(alloc, &mut decoder, source, limit, shown)?;
    Ok(Decoded {
        backend: decoder.into_backend(),
        result,
    })
}
