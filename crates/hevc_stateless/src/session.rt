//! A stream that is being decoded.
ghost use Rattle.std.specs.Prelude.{◌≡◌, true, Option, Some, option_map, OnOk, OnErr};
ghost use Rattle.hevc_spec.specs.UnitTypes.{is_idr};
ghost use Rattle.hevc_bits.specs.NaluType.{nalu_type_number};
ghost use Rattle.hevc_sequence_set.specs.Sps.{plain_sps};
ghost use Rattle.hevc_walk_inputs.specs.Sequences.{format_of_set};
ghost use Rattle.hevc_walk.specs.Meanings.{SequenceSet, CodedSlice, EndOfSequence, EndOfBitstream};
ghost use Rattle.hevc_picture_slice.specs.SliceHeader.{plain_slice_header};
ghost use Rattle.hevc_walk_units.specs.Units.{open_head};
ghost use Rattle.hevc_driver.specs.Headers.{whole_segment};
ghost use Rattle.hevc_driver.specs.Heads.{head_of};
ghost use Rattle.hevc_driver.specs.Given.{Given, given_at};
ghost use Rattle.hevc_driver.specs.Moments.{step_part};
ghost use Rattle.hevc_driver.specs.Slices.{slice_of};
ghost use Rattle.hevc_driver.specs.Sound.{AreNamed};
ghost use Rattle.hevc_stateless.specs.declared.state.State.TheVariants.{AwaitingStreamInfo};
ghost use Rattle.hevc_stateless.specs.declared.state.State.TheVariants.{AwaitingFormat, Decoding};
ghost use Rattle.hevc_stateless.specs.declared.state.State.TheVariants.{Reset};
ghost use Rattle.hevc_stateless.specs.States.{is_awaited, awaits_stream_info, decoding_again};
ghost use Rattle.hevc_stateless.specs.States.{is_decoding};
ghost use Rattle.hevc_stateless.specs.States.{state_at};
ghost use Rattle.hevc_stateless.specs.Flushes.{Flushes};
ghost use Rattle.hevc_stateless.specs.Steps.{Acts, TakesIn};
ghost use Rattle.hevc_records.specs.SliceHeader.{PlainSliceSegmentHeader};
ghost use Rattle.hevc_stateless.specs.Views.{IsFairSeen, at_beginning, traces_at, moment_at, PopsFrame};
ghost use Rattle.hevc_stateless.specs.Views.{OutputsFew, is_waiting, waits_as};
ghost use Rattle.std.specs.List.{list_any};

use crate::state::State;
use hevc_bits::NaluType;
use hevc_dpb::DpbEntry;
use hevc_driver::{DecodeError, Driver, Frame, Head, Options, StatelessH265DecoderBackend};
use hevc_picture_slice::{Pps, Slice};
use hevc_sequence_set::Sps;
use std::alloc::Global;
use std::marker::Model;

/// A stream that is being decoded: its pictures, and what is waited for. Between two calls its
/// driver is sound, so that a backend is handed no reference that isn't stored, and no handle that
/// it didn't give.
#[derive(Drop)]
pub struct Session<B: StatelessH265DecoderBackend> {
    driver: Driver<B>,
    state: State,
}

impl<B: StatelessH265DecoderBackend> Model for Session<B> {
    ghost use Rattle.hevc_dpb.specs.Entries.{tickets};
    ghost use Rattle.hevc_dpb.specs.Views.{stored_entries};
    ghost use Rattle.hevc_driver.specs.Sound.{IsSound};
    ghost use Rattle.hevc_driver.specs.Headers.{latest_of};
    ghost use Rattle.hevc_driver.specs.Standings.{standing, current_of};
    ghost use Rattle.hevc_stateless.specs.Views.{View, IsIdleBefore};

    ghost Value = { View B B.Handle };

    ghost view = { λ s. record { backend = s.driver.backend; state = s.state; standing = standing s.driver.standing; queue = s.driver.standing.queue.items; tickets = tickets (stored_entries s.driver.standing.dpb); latest = latest_of s.driver.standing.kept } };

    ghost invariant = { λ s. IsSound (B.log s.driver.backend) (B.handed s.driver.backend) s.driver.standing × IsIdleBefore s.state (current_of s.driver.standing.set s.driver.standing.current) };
}

/// The state that follows a unit of this type, no parameter set: a slice of an IDR picture ends the
/// wait after `flush`.
fn behind_unit(state: State, nalu_type: NaluType) -> State
    ensures { result ≡ state_at (is_idr (nalu_type_number nalu_type)) state }
{
    match state {
        State::Reset if nalu_type.is_idr() => State::Decoding,
        state => state,
    }
}

/// Whether one of these has this number, and is needed for output.
fn any_waiting<T: Copy>(entries: &[DpbEntry<T>], number: u64) -> bool
    ensures { result ≡ list_any (waits_as number) entries.now }
{
    entries.iter().any(|entry| waits_as(entry, number))
}

fn waits_as<T: Copy>(entry: &DpbEntry<T>, number: u64) -> bool
    ensures { result ≡ waits_as number entry.now }
{
    entry.number == number && entry.picture.needed_for_output
}

impl<B: StatelessH265DecoderBackend> Session<B> {
    /// At the beginning of a stream.
    pub(crate) fn new(alloc: Global, backend: B) -> Session<B>
        ensures { result ≡ at_beginning backend }
    {
        Session {
            driver: Driver::new(alloc, backend),
            state: State::AwaitingStreamInfo,
        }
    }

    /// The backend.
    pub(crate) fn backend(&self) -> &B
        ensures { result.now ≡ self.now.backend }
    {
        &self.driver.backend
    }

    /// Another backend, of the same log, takes the place of the backend, which is the answer.
    pub(crate) fn replace_backend(&mut self, backend: B) -> B
        requires log { B.log backend ≡ B.log self.old.backend }
        requires handed { B.handed backend ≡ B.handed self.old.backend }
        ensures former { result ≡ self.old.backend }
        ensures view { self.new ≡ record self.old { backend = backend } }
    {
        std::mem::replace(&mut self.driver.backend, backend)
    }

    /// The backend, and nothing else.
    pub(crate) fn into_backend(self) -> B
        ensures { result ≡ self.backend }
    {
        let Session {
            driver: Driver {
                alloc: _,
                backend,
                standing: _,
                lists: _,
            },
            state: _,
        } = self;
        backend
    }

    /// Whether the first sequence set is waited for.
    pub(crate) fn awaiting_stream_info(&self) -> bool
        ensures { result ≡ awaits_stream_info self.now.state }
    {
        matches!(self.state, State::AwaitingStreamInfo)
    }

    /// Whether a unit of this type, no parameter set, is decoded rather than passed over.
    pub(crate) fn decodes(&self, nalu_type: NaluType) -> bool
        ensures { result
            ≡ is_decoding (state_at (is_idr (nalu_type_number nalu_type)) self.now.state) }
    {
        matches!(behind_unit(self.state, nalu_type), State::Decoding)
    }

    /// A slice of an IDR picture ends the wait after `flush`.
    pub(crate) fn leave_reset(&mut self, nalu_type: NaluType)
        ensures { self.new ≡ record self.old {
          state = state_at (is_idr (nalu_type_number nalu_type)) self.old.state;
        } }
    {
        self.state = behind_unit(self.state, nalu_type);
    }

    /// Whether a format was negotiated that isn't accepted yet.
    pub(crate) fn awaiting_format(&self) -> bool
        ensures { result ≡ is_awaited self.now.state }
    {
        matches!(self.state, State::AwaitingFormat)
    }

    /// The wait after `flush` is over, if there is one.
    pub(crate) fn begin_again(&mut self)
        ensures { self.new ≡ record self.old { state = decoding_again self.old.state } }
    {
        if matches!(self.state, State::Reset) {
            self.state = State::Decoding;
        }
    }

    /// Nothing is waited for any more.
    pub(crate) fn resume(&mut self)
        ensures { self.new ≡ record self.old { state = Decoding } }
    {
        self.state = State::Decoding;
    }

    /// How many pictures have begun, those included that are passed over.
    pub(crate) fn num_pictures(&self) -> u64
        ensures { result ≡ self.now.standing.next.number }
    {
        self.driver.standing.next.number
    }

    /// What is known of the picture whose slices come, where it is decoded.
    pub(crate) fn open_picture(&self) -> Option<&Head>
        ensures { option_map (λ h. head_of h.now) result ≡ open_head self.now.standing.current }
    {
        self.driver.open_picture()
    }

    /// Whether a picture of this number is stored, and needed for output.
    #[tactic(auto, using(crate::proofs::Waiting::waits_stored))]
    pub(crate) fn is_waiting(&self, number: u64) -> bool
        ensures { result ≡ is_waiting number self.now.standing.store.buffer }
    {
        any_waiting(self.driver.standing.dpb.entries(), number)
    }

    /// The next picture that was output.
    pub(crate) fn next_frame(&mut self) -> Option<Frame<B::Handle>>
        ensures frame { PopsFrame result self.old.queue self.new.queue }
        ensures others { self.new ≡ record self.old { queue = self.new.queue } }
    {
        self.driver.standing.queue.pop_front()
    }

    /// The first sequence set: its format is negotiated.
    ///
    /// Errors: `CheckEvents`, the format is awaited from here on; `Backend`, `NoMemory`, and
    /// nothing has changed then.
    pub(crate) fn open_sequence(&mut self, sps: &Sps) -> Result<(), DecodeError>
        requires first { self.old.state ≡ AwaitingStreamInfo }
        ensures few { OutputsFew self.old self.new }
        ensures fair { IsFairSeen B.counts B.is_faultless B.info self.old self.new result }
        ensures acts { (given : Given) (own : Option PlainSliceSegmentHeader)
            → given.set ≡ Some (plain_sps sps.now) → Acts result given
            (SequenceSet (format_of_set (plain_sps sps.now))) own self.old.state
            (moment_at B.log B.handed B.frames self.old)
            (moment_at B.log B.handed B.frames self.new) }
    {
        self.driver.open_sequence(sps)?;
        self.state = State::AwaitingFormat;
        Err(DecodeError::CheckEvents)
    }

    /// A slice segment that is decoded, with the sets that it makes active. Room is made before the
    /// wait after `flush` ends.
    ///
    /// Errors: `NoMemory` before a call of the backend, nothing has changed then; else those of the
    /// driver; after `CheckEvents` a format is awaited.
    pub(crate) fn take_slice(
        &mut self,
        timestamp: u64,
        options: Options,
        slice: &mut Slice<'_>,
        sps: &Sps,
        pps: &Pps,
    ) -> Result<(), DecodeError>
        requires named { AreNamed slice.old sps.now pps.now }
        requires decoding { is_decoding (state_at (is_idr slice.old.nalu.header.nal_unit_type)
            self.old.state) ≡ true }
        ensures few { OutputsFew self.old self.new }
        ensures fair { IsFairSeen B.counts B.is_faultless B.info self.old self.new result }
        ensures takes { TakesIn result
            (given_at timestamp (slice_of options slice.old sps.now pps.now)
            (whole_segment self.old.latest slice.old sps.now pps.now) self.old.standing)
            (CodedSlice (slice_of options slice.old sps.now pps.now))
            (Some (plain_slice_header slice.old.header))
            (state_at (is_idr slice.old.nalu.header.nal_unit_type) self.old.state)
            (moment_at B.log B.handed B.frames self.old)
            (moment_at B.log B.handed B.frames self.new) }
    {
        self.driver.reserve()?;
        self.state = behind_unit(self.state, slice.nalu().header().nalu_type());
        let result = self.driver.take_slice(timestamp, options, slice, sps, pps);
        if matches!(result, Err(DecodeError::CheckEvents)) {
            self.state = State::AwaitingFormat;
        }
        result
    }

    /// An end of sequence.
    pub(crate) fn end_sequence(&mut self)
        ensures { self.new
            ≡ record self.old { standing = (step_part EndOfSequence self.old.standing).next } }
    {
        self.driver.end_sequence();
    }

    /// An end of the bitstream.
    pub(crate) fn end_bitstream(&mut self)
        ensures { self.new
            ≡ record self.old { standing = (step_part EndOfBitstream self.old.standing).next } }
    {
        self.driver.end_bitstream();
    }

    /// The open picture is over, and all that waits is output. A format that is awaited is
    /// forgotten.
    ///
    /// Errors: `NoMemory`, `Backend`, `DpbFull`; where a call of the backend was refused the open
    /// picture is given up.
    pub(crate) fn flush(&mut self) -> Result<(), DecodeError>
        ensures few { OutputsFew self.old self.new }
        ensures fair { IsFairSeen B.counts B.is_faultless B.info self.old self.new result }
        ensures flushes { (given : Given) → Flushes result given
            (traces_at B.log B.handed B.frames self.old)
            (traces_at B.log B.handed B.frames self.new)
            self.old.state self.old.standing self.new.standing }
        ensures latest { self.new.latest ≡ self.old.latest }
        ensures state { OnOk result (self.new.state ≡ Reset) }
        ensures stays { OnErr result (self.new.state ≡ self.old.state) }
    {
        let awaited = self.awaiting_format();
        self.driver.reserve()?;
        self.driver.close()?;
        if awaited {
            self.driver.forget_format();
        }
        self.state = State::Reset;
        Ok(())
    }
}
