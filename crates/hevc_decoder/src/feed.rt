//! The units of a stream, taken as a source hands it over.
ghost use Rattle.std.specs.Prelude.{◌≡◌, ◌+◌, ◌-◌, ◌≤◌, ◌<◌, [], ℕ, List, length, IfOk, OnErr};
ghost use Rattle.std.specs.Prelude.{OnOk, IsErrOf};
ghost use Rattle.std.specs.Io.KnownBytes.{Consumes, IsAtEnd};
ghost use Rattle.hevc_bits.specs.StartCode.{NoneStands};
ghost use Rattle.hevc_stream.specs.Kept.{none_kept};
ghost use Rattle.hevc_driver.specs.Answers.{BlamesFairly};
ghost use Rattle.hevc_stateless.specs.Decoders.{view_of, kept_in, set_for};
ghost use Rattle.hevc_stateless.specs.Views.{at_beginning};
ghost use Rattle.hevc_decoder.specs.Answers.{without_unit};
ghost use Rattle.hevc_decoder.specs.Scenes.{scene, trail_of};
ghost use Rattle.hevc_decoder.specs.Sources.{ComeOutFirst, CountsFailure, Drained, FedTo, FeedsOn};
ghost use Rattle.hevc_bits.specs.declared.stream_limit.TheConstants.{STREAM_LIMIT};

use crate::decoded::{Refused, Shown};
use crate::units::{take_last, take_piece};
use crate::window::{Window, lead_length, whole_units};
use hevc_io::{InputError, Source};
use hevc_stateless::{StatelessDecoder, StatelessH265DecoderBackend};
use std::alloc::Global;

/// Takes the units of the window that are whole, and gives the number of the next one. Of the
/// window `seen` bytes were looked through before; no more than one unit is left in it, and of
/// bytes that belong to none two at most.
fn take_whole<B: StatelessH265DecoderBackend>(
    decoder: &mut StatelessDecoder<B>,
    window: &mut Window,
    seen: usize,
    unit: u64,
    shown: &mut Vec<Shown<B::Handle>>,
) -> Result<u64, Refused>
    requires short { unit + length window.old < STREAM_LIMIT }
    requires seen { NoneStands window.old 1 (seen - 2) }
    requires empty { (view_of decoder.old).queue ≡ [] }
    ensures empty { OnOk result ((view_of decoder.new).queue ≡ []) }
    ensures few { IfOk result (λ next. next + length window.new ≤ unit + length window.old) }
    ensures blames { BlamesFairly B.counts B.is_faultless (view_of decoder.old).backend
        (view_of decoder.new).backend (without_unit result) }
    ensures feeds { FeedsOn result (set_for decoder.old) unit window.old window.new
        (scene B.log B.handed B.frames decoder.old shown.old.items)
        (scene B.log B.handed B.frames decoder.new shown.new.items) }
    ensures left { OnOk result (NoneStands window.new 1 (length window.new)) }
    ensures options { set_for decoder.new ≡ set_for decoder.old }
{
    let cut = whole_units(window.as_slice(), seen);
    let next = take_piece(decoder, &window.as_slice()[..cut], unit, shown)?;
    window.drop_front(cut);
    let lead = lead_length(window.as_slice());
    window.drop_front(lead);
    Ok(next)
}

/// Takes units as the source hands them over, until it is at its end or a unit is refused, and
/// gives their number. What is left in the window then is the last unit's. Of `left` bytes that may
/// still come, those that come are taken off.
fn feed<B: StatelessH265DecoderBackend, S: Source>(
    decoder: &mut StatelessDecoder<B>,
    source: &mut S,
    window: &mut Window,
    left: &mut usize,
    shown: &mut Vec<Shown<B::Handle>>,
) -> Result<Result<u64, Refused>, InputError>
    requires short { left.old < STREAM_LIMIT }
    requires beginning { view_of decoder.old ≡ at_beginning (view_of decoder.old).backend }
    requires nothing { kept_in decoder.old ≡ none_kept }
    requires fresh { window.old ≡ [] }
    ensures fed { IfOk result (λ fed. (given : List ℕ)
        × Consumes (S.left source.old) (S.left source.new) given
        × (length given + left.new ≡ left.old)
        × FedTo fed (set_for decoder.old) given window.new
        (scene B.log B.handed B.frames decoder.old shown.old.items)
        (scene B.log B.handed B.frames decoder.new shown.new.items)) }
    ensures outputs { OnErr result (ComeOutFirst (set_for decoder.old) (S.left source.old)
        shown.old.items shown.new.items) }
    ensures end { IfOk result (λ fed. OnOk fed (IsAtEnd (S.left source.new))) }
    ensures few { IfOk result (λ fed. IfOk fed
        (λ unit. unit + length window.new ≤ left.old)) }
    ensures left { IfOk result (λ fed. OnOk fed
        (NoneStands window.new 1 (length window.new))) }
    ensures empty { IfOk result (λ fed. OnOk fed ((view_of decoder.new).queue ≡ [])) }
    ensures blames { IfOk result (λ fed.
        BlamesFairly B.counts B.is_faultless (view_of decoder.old).backend
        (view_of decoder.new).backend (without_unit fed)) }
    ensures options { OnOk result (set_for decoder.new ≡ set_for decoder.old) }
    ensures faults { CountsFailure (IsErrOf result InputError.Failed)
        (S.faults source.old) (S.faults source.new) }
    ensures too_long { IsErrOf result InputError.TooLong → (given : List ℕ)
        × (left.old < length given)
        × Consumes (S.left source.old) (S.left source.new) given }
{
    let mut unit = 0;
    loop {
        let seen = window.len();
        let count = window.read(source)?;
        if count == 0 {
            return Ok(Ok(unit));
        }
        if count > *left {
            return Err(InputError::TooLong);
        }
        *left -= count;
        match take_whole(decoder, window, seen, unit, shown) {
            Ok(next) => unit = next,
            Err(refused) => return Ok(Err(refused)),
        }
    }
}

/// Takes all units of the stream that a source has left, of at most `limit` bytes, and gives the
/// number of its pictures. After a refusal the source is read to its end.
pub(crate) fn take_source<B: StatelessH265DecoderBackend, S: Source>(
    alloc: Global,
    decoder: &mut StatelessDecoder<B>,
    source: &mut S,
    limit: usize,
    shown: &mut Vec<Shown<B::Handle>>,
) -> Result<Result<u64, Refused>, InputError>
    requires short { limit < STREAM_LIMIT }
    requires beginning { view_of decoder.old ≡ at_beginning (view_of decoder.old).backend }
    requires nothing { kept_in decoder.old ≡ none_kept }
    ensures drained { IfOk result (λ answer. Drained (set_for decoder.old) limit
        (S.left source.old) (S.left source.new) answer
        (trail_of (scene B.log B.handed B.frames decoder.old shown.old.items))
        (trail_of (scene B.log B.handed B.frames decoder.new shown.new.items))) }
    ensures outputs { OnErr result (ComeOutFirst (set_for decoder.old) (S.left source.old)
        shown.old.items shown.new.items) }
    ensures end { OnOk result (IsAtEnd (S.left source.new)) }
    ensures blames { IfOk result (λ answer.
        BlamesFairly B.counts B.is_faultless (view_of decoder.old).backend
        (view_of decoder.new).backend (without_unit answer)) }
    ensures faults { CountsFailure (IsErrOf result InputError.Failed)
        (S.faults source.old) (S.faults source.new) }
    ensures too_long { IsErrOf result InputError.TooLong → (given : List ℕ)
        × (limit < length given)
        × Consumes (S.left source.old) (S.left source.new) given }
{
    let mut window = Window::new(alloc);
    let mut left = limit;
    let fed = feed(decoder, source, &mut window, &mut left, shown)?;
    if let Ok(unit) = fed {
        let answer = take_last(decoder, window.as_slice(), unit, shown);
        return Ok(answer);
    }
    window.skip(source, left)?;
    Ok(fed)
}
