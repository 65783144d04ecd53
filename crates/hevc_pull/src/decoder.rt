//! The decoder and its calls.
ghost use Rattle.std.specs.Prelude.{◌≡◌, ◌<◌, ◌≤◌, ◌↔◌, [], true, false, Ok, length, Some, IfOk, IfNone};
ghost use Rattle.std.specs.Prelude.{IfSome, IsOk, OnErr, OnOk, MatchOption};
ghost use Rattle.std.specs.Option.{option_map};
ghost use Rattle.hevc_bits.specs.declared.stream_limit.TheConstants.{STREAM_LIMIT};
ghost use Rattle.hevc_bits.specs.FoundUnit.{bytes_of};
ghost use Rattle.hevc_driver.specs.Given.{Given};
ghost use Rattle.hevc_stateless.specs.declared.state.State.TheVariants.{AwaitingFormat};
ghost use Rattle.hevc_stateless.specs.Flushes.{Flushes};
ghost use Rattle.hevc_stateless.specs.Steps.{StepsIn};
ghost use Rattle.hevc_stateless.specs.Views.{OutputsFew, PopsFrame};
ghost use Rattle.hevc_queue.specs.Controls.{latest_offsets_minus1, latest_picture_controls};
ghost use Rattle.hevc_queue.specs.Controls.{latest_slice_controls};
ghost use Rattle.hevc_queue.specs.Queue.{given_wanted, with_controls};
ghost use Rattle.hevc_stream.specs.Kept.{none_kept};
ghost use Rattle.hevc_options.specs.Options.{options_of};
ghost use Rattle.hevc_pull.specs.Views.{options_for, seen_of, pulled_traces, kept_of};
ghost use Rattle.hevc_pull.specs.Views.{KeepsSets, KeepsTold, view_in, with_free_frames};
ghost use Rattle.hevc_pull.specs.Pulling.{AreTaken, Asks, Counts, IsEmptied, KeepsCounted};
ghost use Rattle.hevc_pull.specs.Pulling.{PullsNext};
ghost use Rattle.hevc_pull.specs.Pulling.{TakesEvent, decoding_on, nothing_to_tell};
ghost use Rattle.hevc_pull.specs.Pulling.{outputs_are_due, telling};
ghost use Rattle.hevc_pull.specs.Calls.{IsFlushed};
ghost use Rattle.hevc_pull.specs.Seeking.{Sought, found, seeks_after, seeks_behind};

use crate::counted::{Counted, counted_of, first_ended, remove, tell};
use crate::pulled::Pulled;
use crate::seeking::{is_irap_slice, is_other_slice};
use hevc_bits::{Nalu, NaluHeader};
use hevc_driver::{DecodeError, Frame, Options};
use hevc_events::Event;
use hevc_queue::{PictureControls, QueueBackend};
use hevc_stateless::{DecoderEvent, StatelessDecoder};
use hevc_v4l2::{ControlError, SliceControls};
use std::alloc::{AllocError, Global};
use thiserror::Error;

/// No format is awaited.
#[derive(Clone, Copy, Debug, PartialEq, Eq, Drop, Error)]
#[error("no format is awaited")]
pub struct NotAwaited;

/// The decoder of a stream, which is given unit by unit and calls nobody: what it asks a backend
/// for, and what becomes of the pictures, wait until they are taken.
///
/// It is made of its parts. Pictures and handles are numbers, from 0 in order of decoding.
#[derive(Drop)]
pub struct PullDecoder {
    /// The memory of the queues that stand in for its own.
    pub alloc: Global,
    /// The decoder, over a queue of its calls.
    pub decoder: StatelessDecoder<QueueBackend>,
    /// The pictures that were counted, and whose end wasn't told yet.
    pub counted: Vec<Counted>,
    /// Whether it was told that the format that is awaited is.
    pub change_told: bool,
    /// Whether an IRAP picture is sought, at which decoding goes on.
    pub seeking: bool,
}

impl PullDecoder {
    /// A decoder at the beginning of a stream, with what is set for decoding by external means
    /// (8.1.2, 8.1.3).
    pub fn new(alloc: Global, options: Options) -> PullDecoder
        ensures telling { telling result ≡ nothing_to_tell }
        ensures kept { kept_of result ≡ none_kept }
        ensures options { options_for result ≡ options_of options }
    {
        PullDecoder {
            alloc,
            decoder: StatelessDecoder::new_with(alloc, QueueBackend::new(alloc), options),
            counted: Vec::new(alloc),
            change_told: false,
            seeking: false,
        }
    }

    /// Drops the decoder, with all that waits. The answer is how many calls weren't taken.
    pub fn end(self) -> usize
        ensures { result ≡ length (view_in self).backend.waiting }
    {
        self.decoder.backend().num_waiting()
    }

    /// Takes a unit that was found in a stream of less than 2^60 bytes, with the time at which its
    /// picture is to be output, in the caller's unit, while so many frames are free as was told.
    ///
    /// Errors: those of `decode_unit` of `StatelessDecoder`.
    pub fn decode_unit(
        &mut self,
        timestamp: u64,
        nalu: &Nalu<'_, NaluHeader>,
    ) -> Result<(), DecodeError>
        requires short { length nalu.now.stream < STREAM_LIMIT }
        ensures takes { Sought result timestamp (options_for self.old) self.old.seeking
            nalu.now.header (bytes_of nalu.now) (seen_of self.old) (seen_of self.new) }
        ensures seeking { self.new.seeking
            ≡ seeks_behind (Ok nalu.now.header) self.old.seeking }
        ensures few { OutputsFew (view_in self.old) (view_in self.new) }
        ensures told { KeepsTold self.old self.new }
        ensures counts { Counts timestamp self.old self.new }
        ensures options { options_for self.new ≡ options_for self.old }
    {
        if self.seeking && is_other_slice(nalu) {
            return Ok(());
        }
        if self.seeking && is_irap_slice(nalu) {
            self.go_on();
        }
        self.count_unit(timestamp, nalu)
    }

    /// Decoding goes on at the IRAP picture that was sought.
    fn go_on(&mut self)
        ensures seen { seen_of self.new ≡ found true (seen_of self.old) }
        ensures told { KeepsTold self.old self.new }
        ensures counted { self.new.counted ≡ self.old.counted }
        ensures change { self.new.change_told ≡ self.old.change_told }
        ensures seeking { self.new.seeking ≡ false }
        ensures options { options_for self.new ≡ options_for self.old }
    {
        self.decoder.begin_again();
        self.seeking = false;
    }

    /// Takes a unit that isn't passed over, and counts its picture.
    fn count_unit(&mut self, timestamp: u64, nalu: &Nalu<'_, NaluHeader>) -> Result<(), DecodeError>
        requires short { length nalu.now.stream < STREAM_LIMIT }
        ensures takes { StepsIn result timestamp (options_for self.old) nalu.now.header
            (bytes_of nalu.now) (seen_of self.old) (seen_of self.new) }
        ensures few { OutputsFew (view_in self.old) (view_in self.new) }
        ensures told { KeepsTold self.old self.new }
        ensures counts { Counts timestamp self.old self.new }
        ensures seeking { self.new.seeking ≡ self.old.seeking }
        ensures options { options_for self.new ≡ options_for self.old }
    {
        if self.decoder.awaiting_format() {
            return Err(DecodeError::CheckEvents);
        }
        let number = self.decoder.num_pictures();
        self.counted.push(Counted::new(number, timestamp))?;
        let result = self.decoder.decode_unit(timestamp, nalu);
        if self.decoder.num_pictures() == number {
            let _none = self.counted.pop();
        }
        result
    }

    /// The stream ends, or is left: the open picture is over, and all that waits is output.
    ///
    /// Errors: those of `flush` of `StatelessDecoder`.
    pub fn flush(&mut self) -> Result<(), DecodeError>
        ensures flushed { IsFlushed result self.old self.new }
        ensures few { OutputsFew (view_in self.old) (view_in self.new) }
        ensures seeking { self.new.seeking ≡ self.old.seeking }
    {
        self.decoder.flush()?;
        self.change_told = false;
        Ok(())
    }

    /// The stream is left, as by `flush`, and decoding goes on at the next IRAP picture with the
    /// parameter sets that are kept.
    ///
    /// Errors: those of `flush` of `StatelessDecoder`.
    pub fn seek(&mut self) -> Result<(), DecodeError>
        ensures flushed { IsFlushed result self.old self.new }
        ensures few { OutputsFew (view_in self.old) (view_in self.new) }
        ensures seeking { self.new.seeking ≡ seeks_after result self.old.seeking }
    {
        self.flush()?;
        self.seeking = true;
        Ok(())
    }

    /// The next of what came of the units: calls in their order, the pictures that are output, those
    /// that never will be, and that a format is awaited. Pictures come after the calls, but those
    /// that are output before a sequence begins come before that.
    pub fn next(&mut self) -> Option<Pulled>
        ensures next { PullsNext result (telling self.old) (telling self.new) }
        ensures keeps { KeepsSets self.old self.new }
    {
        if !self.decoder.backend().is_sequence_next() {
            if let Some(event) = self.next_asked() {
                return Some(Pulled::Asked(event));
            }
        }
        self.next_output()
    }

    /// The next call.
    fn next_asked(&mut self) -> Option<Event>
        ensures event { MatchOption result
            (IsEmptied (view_in self.old).backend × (telling self.new ≡ telling self.old))
            (λ event. Asks event (telling self.old) (telling self.new)) }
        ensures keeps { KeepsSets self.old self.new }
    {
        let event = self.take_event()?;
        tell(&mut self.counted, &event);
        Some(event)
    }

    /// The next, where outputs are due.
    fn next_output(&mut self) -> Option<Pulled>
        requires { outputs_are_due (view_in self.old).backend.waiting ≡ true }
        ensures next { PullsNext result (telling self.old) (telling self.new) }
        ensures keeps { KeepsSets self.old self.new }
    {
        if let Some(frame) = self.next_frame() {
            let counted = counted_of(&self.counted, frame.number);
            remove(&mut self.counted, frame.number);
            return Some(Pulled::Output(frame, counted));
        }
        if let Some(event) = self.next_asked() {
            return Some(Pulled::Asked(event));
        }
        self.next_ended()
    }

    /// The next, where all calls and outputs were taken.
    fn next_ended(&mut self) -> Option<Pulled>
        requires { AreTaken (view_in self.old) }
        ensures next { PullsNext result (telling self.old) (telling self.new) }
        ensures keeps { KeepsSets self.old self.new }
    {
        if let Some(counted) = first_ended(&self.counted, &self.decoder) {
            let counted = *counted;
            remove(&mut self.counted, counted.number);
            return Some(if counted.is_begun {
                Pulled::Dropped(counted)
            } else {
                Pulled::Skipped(counted)
            });
        }
        if self.decoder.awaiting_format() && !self.change_told {
            self.change_told = true;
            return Some(Pulled::FormatChanged);
        }
        None
    }

    /// Takes the first picture that was output.
    fn next_frame(&mut self) -> Option<Frame<u64>>
        ensures frame { PopsFrame result (view_in self.old).queue (view_in self.new).queue }
        ensures others { view_in self.new
            ≡ record (view_in self.old) { queue = (view_in self.new).queue } }
        ensures unchanged { IfNone result (view_in self.new ≡ view_in self.old) }
        ensures keeps { KeepsSets self.old self.new }
        ensures counted { KeepsCounted self.old self.new }
    {
        match self.decoder.next_event() {
            Some(DecoderEvent::FrameReady(frame)) => Some(frame),
            Some(DecoderEvent::FormatChanged) | None => None,
        }
    }

    /// Takes the first event that waits.
    fn take_event(&mut self) -> Option<Event>
        ensures event { MatchOption result
            (IsEmptied (view_in self.old).backend × (view_in self.new ≡ view_in self.old))
            (λ event. TakesEvent event (view_in self.old).backend (view_in self.new).backend) }
        ensures others { view_in self.new
            ≡ record (view_in self.old) { backend = (view_in self.new).backend } }
        ensures keeps { KeepsSets self.old self.new }
        ensures counted { KeepsCounted self.old self.new }
    {
        let stand_in = self.decoder.backend().stand_in(self.alloc);
        let mut backend = self.decoder.replace_backend(stand_in);
        let event = backend.take_event();
        let _stand_in = self.decoder.replace_backend(backend);
        event
    }

    /// So many frames are free.
    pub fn set_free_frames(&mut self, free_frames: usize)
        ensures view { view_in self.new ≡ record (view_in self.old) {
          backend = record (view_in self.old).backend { free_frames = free_frames };
        } }
        ensures keeps { KeepsSets self.old self.new }
        ensures seen { seen_of self.new ≡ with_free_frames free_frames (seen_of self.old) }
        ensures told { KeepsTold self.old self.new }
        ensures counted { KeepsCounted self.old self.new }
    {
        let stand_in = self.decoder.backend().stand_in(self.alloc);
        let mut backend = self.decoder.replace_backend(stand_in);
        backend.set_free_frames(free_frames);
        let _stand_in = self.decoder.replace_backend(backend);
    }

    /// From here on, the structs of Linux's stateless decoders are filled with each picture that
    /// begins, and each slice segment of it.
    ///
    /// Errors: an allocation fails.
    pub fn want_controls(&mut self) -> Result<(), AllocError>
        ensures wanted { OnOk result (view_in self.new ≡ record (view_in self.old) {
          backend = with_controls (view_in self.old).backend;
        }) }
        ensures unchanged { OnErr result (view_in self.new ≡ view_in self.old) }
        ensures keeps { KeepsSets self.old self.new }
        ensures counted { KeepsCounted self.old self.new }
    {
        let stand_in = self.decoder.backend().stand_in(self.alloc);
        let mut backend = self.decoder.replace_backend(stand_in);
        let done = backend.want_controls(self.alloc);
        let _stand_in = self.decoder.replace_backend(backend);
        done
    }

    /// The structs of the latest picture that began, or what they can't hold; None where structs
    /// aren't wanted, or none has begun since.
    pub fn picture_controls(&self) -> Option<Result<PictureControls, ControlError>>
        ensures { result ≡ latest_picture_controls (given_wanted (view_in self.now).backend) }
    {
        self.decoder.backend().picture_controls()
    }

    /// The struct of its latest slice segment, or what it can't hold; None where there is none.
    pub fn slice_controls(&self) -> Option<Result<SliceControls, ControlError>>
        ensures { result ≡ latest_slice_controls (given_wanted (view_in self.now).backend) }
    {
        self.decoder.backend().slice_controls()
    }

    /// The bytes from each entry point of that slice segment to the next one, less 1.
    pub fn offsets_minus1(&self) -> Option<&[u32]>
        ensures { option_map (λ offsets. offsets.now) result
            ≡ latest_offsets_minus1 (given_wanted (view_in self.now).backend) }
    {
        self.decoder.backend().offsets_minus1()
    }

    /// Accepts the format that is awaited.
    ///
    /// Errors: none is.
    pub fn accept_format(&mut self) -> Result<(), NotAwaited>
        ensures accepted { IsOk result ↔ ((view_in self.old).state ≡ AwaitingFormat) }
        ensures view { OnOk result (telling self.new ≡ decoding_on (telling self.old)) }
        ensures unchanged { OnErr result (self.new ≡ self.old) }
        ensures keeps { KeepsSets self.old self.new }
    {
        if !self.decoder.awaiting_format() {
            return Err(NotAwaited);
        }
        self.decoder.accept_format();
        self.change_told = false;
        Ok(())
    }
}
