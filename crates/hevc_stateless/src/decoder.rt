//! The decoder and its calls.
ghost use Rattle.std.specs.Prelude.{◌≡◌, ◌<◌, ◌≤◌, ◌^◌, length, IfOk, [], option_map, OnOk, OnErr};
ghost use Rattle.hevc_spec.specs.Units.{units};
ghost use Rattle.hevc_stream.specs.Kept.{none_kept};
ghost use Rattle.hevc_stream.specs.Options.{default_options};
ghost use Rattle.hevc_options.specs.Options.{options_of};
ghost use Rattle.hevc_walk_units.specs.Units.{open_head};
ghost use Rattle.hevc_driver.specs.Given.{Given};
ghost use Rattle.hevc_driver.specs.Heads.{head_of};
ghost use Rattle.hevc_stateless.specs.declared.state.State.TheVariants.{AwaitingFormat, Decoding};
ghost use Rattle.hevc_stateless.specs.declared.state.State.TheVariants.{Reset};
ghost use Rattle.hevc_stateless.specs.States.{is_awaited};
ghost use Rattle.hevc_stateless.specs.Events.{TellsNext};
ghost use Rattle.hevc_stateless.specs.Flushes.{Flushes};
ghost use Rattle.hevc_bits.specs.FoundUnit.{bytes_of};
ghost use Rattle.hevc_stateless.specs.Steps.{StepsIn, TakesFirst};
ghost use Rattle.hevc_stateless.specs.Views.{at_beginning, begun_again, is_waiting, traces_at, OutputsFew};
ghost use Rattle.hevc_stateless.specs.Decoders.{IsFairOver, view_of, kept_in, set_for, seen_by};
ghost use Rattle.hevc_bits.specs.declared.stream_limit.TheConstants.{STREAM_LIMIT};

use crate::event::DecoderEvent;
use crate::session::Session;
use hevc_backend::{Backend, StreamInfo};
use hevc_bits::{Nalu, NaluHeader};
use hevc_driver::{DecodeError, Head, Options, StatelessH265DecoderBackend};
use hevc_kept_sets::KeptSets;
use std::alloc::Global;

/// The decoder of a stream, which is given unit by unit.
///
/// It keeps parameter sets (7.4.2.4.2), begins and finishes pictures over a backend (8.1.3), and
/// puts each picture that is output into a queue at the moment that the bumping process asks for
/// (C.5.2).
#[derive(Drop)]
pub struct StatelessDecoder<B: StatelessH265DecoderBackend> {
    pub(crate) session: Session<B>,
    pub(crate) kept: KeptSets,
}

impl<B: StatelessH265DecoderBackend> StatelessDecoder<B> {
    /// A decoder at the beginning of a stream: CRA pictures are handled as such, and all sub-layers
    /// are wanted.
    pub fn new(alloc: Global, backend: B) -> StatelessDecoder<B>
        ensures view { view_of result ≡ at_beginning backend }
        ensures kept { kept_in result ≡ none_kept }
        ensures options { set_for result ≡ default_options }
    {
        StatelessDecoder::new_with(alloc, backend, Options::new())
    }

    /// A decoder at the beginning of a stream, with what is set for decoding by external means
    /// (8.1.2, 8.1.3).
    pub fn new_with(alloc: Global, backend: B, options: Options) -> StatelessDecoder<B>
        ensures view { view_of result ≡ at_beginning backend }
        ensures kept { kept_in result ≡ none_kept }
        ensures options { set_for result ≡ options_of options }
    {
        StatelessDecoder {
            session: Session::new(alloc, backend),
            kept: KeptSets::new(alloc, options),
        }
    }

    /// Takes the first unit of the input, of less than 2^60 bytes, with the time at which its
    /// picture is to be output, in the caller's unit. The answer is the place after the unit, in
    /// bytes: 3 at least.
    ///
    /// Errors: `NoNal`, there is none; those of the unit's header; `CheckEvents`, a format is
    /// awaited, from here on where the unit opened its negotiation, and the unit is to be given
    /// once more when it is accepted; else those of the unit. `DecodeError` names each.
    pub fn decode(&mut self, timestamp: u64, bitstream: &[u8]) -> Result<usize, DecodeError>
        requires short { length bitstream.now < STREAM_LIMIT }
        ensures few { OutputsFew (view_of self.old) (view_of self.new) }
        ensures fair { IsFairOver B.counts B.is_faultless B.info self.old self.new result }
        ensures takes { TakesFirst (units bitstream.now) result timestamp (set_for self.old)
            (seen_by B.log B.handed B.frames self.old)
            (seen_by B.log B.handed B.frames self.new) }
        ensures inside { IfOk result (λ place. (3 ≤ place) × (place ≤ length bitstream.now)) }
        ensures options { set_for self.new ≡ set_for self.old }
    {
        let mut position = 0;
        let nalu = Nalu::next(bitstream, &mut position)?;
        self.decode_unit(timestamp, &nalu)?;
        Ok(nalu.offset() + nalu.size())
    }

    /// Takes a unit that was found in a stream of less than 2^60 bytes, with the time at which its
    /// picture is to be output, in the caller's unit. Its bytes are not searched again, so it may
    /// be given once more at no cost.
    ///
    /// Errors: `CheckEvents`, a format is awaited, from here on where the unit opened its
    /// negotiation, and the unit is to be given once more when it is accepted; else those of the
    /// unit. `DecodeError` names each.
    pub fn decode_unit(
        &mut self,
        timestamp: u64,
        nalu: &Nalu<'_, NaluHeader>,
    ) -> Result<(), DecodeError>
        requires short { length nalu.now.stream < STREAM_LIMIT }
        ensures few { OutputsFew (view_of self.old) (view_of self.new) }
        ensures fair { IsFairOver B.counts B.is_faultless B.info self.old self.new result }
        ensures takes { StepsIn result timestamp (set_for self.old)
            nalu.now.header (bytes_of nalu.now)
            (seen_by B.log B.handed B.frames self.old)
            (seen_by B.log B.handed B.frames self.new) }
        ensures options { set_for self.new ≡ set_for self.old }
    {
        if self.awaiting_format() {
            return Err(DecodeError::CheckEvents);
        }
        // That its bytes parse to its header, `header` says.
        let _header = nalu.header();
        self.take_unit(timestamp, nalu)
    }

    /// The stream ends, or is left: the open picture is over, and all that waits is output. After
    /// it an IDR picture or a sequence parameter set is waited for. A format that is awaited is
    /// forgotten, and the next picture negotiates again.
    ///
    /// Errors: `NoMemory`, `Backend`, `DpbFull`. The state and the stored pictures stay; where a
    /// call of the backend was refused the open picture is given up, and a second call goes on.
    pub fn flush(&mut self) -> Result<(), DecodeError>
        ensures few { OutputsFew (view_of self.old) (view_of self.new) }
        ensures fair { IsFairOver B.counts B.is_faultless B.info self.old self.new result }
        ensures flushes { (given : Given) → Flushes result given
            (traces_at B.log B.handed B.frames (view_of self.old))
            (traces_at B.log B.handed B.frames (view_of self.new))
            (view_of self.old).state (view_of self.old).standing (view_of self.new).standing }
        ensures latest { (view_of self.new).latest ≡ (view_of self.old).latest }
        ensures state { OnOk result ((view_of self.new).state ≡ Reset) }
        ensures stays { OnErr result ((view_of self.new).state ≡ (view_of self.old).state) }
        ensures kept { kept_in self.new ≡ kept_in self.old }
        ensures options { set_for self.new ≡ set_for self.old }
    {
        self.session.flush()
    }

    /// The next picture that was output, which leaves the queue; else, while a format is awaited,
    /// that it is.
    pub fn next_event(&mut self) -> Option<DecoderEvent<B::Handle>>
        ensures event { TellsNext result (view_of self.old).state
            (view_of self.old).queue (view_of self.new).queue }
        ensures others { view_of self.new
            ≡ record (view_of self.old) { queue = (view_of self.new).queue } }
        ensures kept { kept_in self.new ≡ kept_in self.old }
        ensures options { set_for self.new ≡ set_for self.old }
    {
        if let Some(frame) = self.session.next_frame() {
            return Some(DecoderEvent::FrameReady(frame));
        }
        if self.awaiting_format() {
            return Some(DecoderEvent::FormatChanged);
        }
        None
    }

    /// Whether a format was negotiated that isn't accepted yet.
    pub fn awaiting_format(&self) -> bool
        ensures { result ≡ is_awaited (view_of self.now).state }
    {
        self.session.awaiting_format()
    }

    /// Accepts the format that is awaited.
    pub fn accept_format(&mut self)
        requires awaited { (view_of self.old).state ≡ AwaitingFormat }
        ensures view { view_of self.new ≡ record (view_of self.old) { state = Decoding } }
        ensures kept { kept_in self.new ≡ kept_in self.old }
        ensures options { set_for self.new ≡ set_for self.old }
    {
        self.session.resume();
    }

    /// The wait after `flush` is over, if there is one, and the next picture begins a coded video
    /// sequence, as after an end of sequence (8.1.3).
    pub fn begin_again(&mut self)
        ensures view { view_of self.new ≡ begun_again (view_of self.old) }
        ensures kept { kept_in self.new ≡ kept_in self.old }
        ensures options { set_for self.new ≡ set_for self.old }
    {
        self.session.begin_again();
        self.session.end_sequence();
    }

    /// How many pictures have begun so far, those included that are passed over (8.1.3): the number
    /// of the next one.
    pub fn num_pictures(&self) -> u64
        ensures { result ≡ (view_of self.now).standing.next.number }
    {
        self.session.num_pictures()
    }

    /// The picture whose slice segments come: what its first one told of it (8.1.3, 8.3.1). `None`
    /// before the first picture, once a picture is over or given up, and while the slices of a
    /// picture are passed over.
    pub fn open_picture(&self) -> Option<&Head>
        ensures { option_map (λ h. head_of h.now) result
            ≡ open_head (view_of self.now).standing.current }
    {
        self.session.open_picture()
    }

    /// Whether a picture of this number is stored, and needed for output (C.5.2.2).
    pub fn is_waiting(&self, number: u64) -> bool
        ensures { result ≡ is_waiting number (view_of self.now).standing.store.buffer }
    {
        self.session.is_waiting(number)
    }

    /// What the backend tells of the sequence.
    pub fn stream_info(&self) -> Option<&StreamInfo>
        ensures { option_map (λ info. info.now) result ≡ B.info (view_of self.now).backend }
    {
        self.session.backend().stream_info()
    }

    /// The backend.
    pub fn backend(&self) -> &B
        ensures { result.now ≡ (view_of self.now).backend }
    {
        self.session.backend()
    }

    /// Another backend takes the place of the backend, which is the answer: one that was handed
    /// what this one was, as its log says. So a backend can be given out whose calls were kept, and
    /// one that keeps none yet goes on.
    pub fn replace_backend(&mut self, backend: B) -> B
        requires log { B.log backend ≡ B.log (view_of self.old).backend }
        requires handed { B.handed backend ≡ B.handed (view_of self.old).backend }
        ensures former { result ≡ (view_of self.old).backend }
        ensures view { view_of self.new ≡ record (view_of self.old) { backend = backend } }
        ensures kept { kept_in self.new ≡ kept_in self.old }
        ensures options { set_for self.new ≡ set_for self.old }
    {
        self.session.replace_backend(backend)
    }

    /// The backend, and nothing else of the decoder.
    pub fn into_backend(self) -> B
        ensures { result ≡ (view_of self).backend }
    {
        let StatelessDecoder { session, kept: _ } = self;
        session.into_backend()
    }
}

impl StatelessDecoder<Backend> {
    ghost use Rattle.hevc_backend.specs.Recording.{planned};

    /// A decoder at the beginning of a stream, over a backend that records its calls and never
    /// fails.
    pub fn new_dummy(alloc: Global) -> StatelessDecoder<Backend>
        ensures view { view_of result ≡ at_beginning (planned [] []) }
        ensures kept { kept_in result ≡ none_kept }
        ensures options { set_for result ≡ default_options }
    {
        StatelessDecoder::new(alloc, Backend::new(alloc))
    }
}
