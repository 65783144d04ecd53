//! A backend that puts its calls into a queue.
ghost use Rattle.std.specs.Prelude.{◌≡◌, ◌+◌, ◌<◌, ◌^◌, ◌↔◌, [], ◌∷◌, ℕ, drop, length};
ghost use Rattle.std.specs.Prelude.{slice_index_or, None, Some, IsNone, IfSome, IfNone, IfOk, OnOk};
ghost use Rattle.std.specs.Prelude.{OnErr};
ghost use Rattle.std.specs.Option.{option_map};
ghost use Rattle.hevc_backend.specs.Trait.{CountsFaults};
ghost use Rattle.hevc_queue.specs.declared.given.Given.{Given as Told};
ghost use Rattle.hevc_events.specs.Waiting.{sequence_is_next};
ghost use Rattle.hevc_queue.specs.Events.{event_of, events_of};
ghost use Rattle.hevc_queue.specs.Controls.{latest_offsets_minus1, latest_picture_controls};
ghost use Rattle.hevc_queue.specs.Controls.{latest_slice_controls};
ghost use Rattle.hevc_queue.specs.Queue.{given_wanted, handed_of, log_of, new_queue};
ghost use Rattle.hevc_queue.specs.Queue.{with_controls_after, with_controls, with_taken};

use crate::asked::{picture_event, sequence_event, sets_event, slice_event, submission_event};
use crate::controls::{
    Controls, PictureControls, fill_picture, fill_slice, no_controls, wanted_offsets,
};
use crate::given::Given;
use hevc_backend::{BackendError, StatelessH265DecoderBackend, StreamInfo};
use hevc_dpb::{Dpb, PictureData};
use hevc_events::{Event, EventQueue};
use hevc_history::History;
use hevc_picture_slice::{Pps, Slice};
use hevc_refs::{RefPicList, RefPicSet};
use hevc_sequence_set::Sps;
use hevc_v4l2::{ControlError, SliceControls};
use std::alloc::{AllocError, Global};
use std::marker::Model;

/// A backend that puts each call into a queue, as an event, and has as many free frames as it was
/// told of. A call fails only where an allocation does, or 2^64 - 1 calls were made.
///
/// It keeps no call: its log is there in proofs alone. Its pictures and handles are the numbers of
/// pictures. The events that were taken, followed by those that wait, are those of the calls of its
/// log.
#[derive(Drop)]
pub struct QueueBackend {
    /// The events of its calls that wait.
    queue: EventQueue,
    free_frames: usize,
    faults: u64,
    empty_answers: u64,
    room: bool,
    /// How often it was asked for free frames, up to 2^64 - 1.
    questions: u64,
    /// The structs of Linux's stateless decoders, where they are wanted.
    controls: Option<Box<Controls>>,
    /// What the calls were given, for proofs alone.
    history: History<Given>,
    /// What those before structs were wanted were given.
    before: History<Given>,
}

impl Model for QueueBackend {
    ghost use Rattle.std.specs.Prelude.{◌≡◌, drop, length, Some};
    ghost use Rattle.std.specs.Option.{option_map};
    ghost use Rattle.hevc_events.specs.Waiting.{next_place};
    ghost use Rattle.hevc_queue.specs.Controls.{AreOfCalls, wanted};
    ghost use Rattle.hevc_queue.specs.Events.{events_of};
    ghost use Rattle.hevc_queue.specs.Queue.{Queue};
    ghost use Rattle.hevc_queue.specs.QueueCode.{queue_code};

    ghost Value = { Queue };

    ghost coded = { queue_code };

    ghost view = { λ b. record {
      given = b.history.items;
      waiting = b.queue.events;
      free_frames = b.free_frames;
      counts = record {
        faults = b.faults;
        empty_answers = b.empty_answers;
        set_after = option_map (λ _. length b.before.items) (wanted b.controls);
        taken = b.queue.taken;
      };
      frames = record { asked = Some b.questions; found = b.room };
    } };

    ghost invariant = { λ b. (next_place b.queue ≡ length b.history.items)
        × (b.queue.events ≡ drop b.queue.taken (events_of b.history.items))
        × AreOfCalls (wanted b.controls) b.before.items b.history.items };
}

impl QueueBackend {
    /// A backend that took no call, and has no free frame.
    pub fn new(alloc: Global) -> QueueBackend
        ensures { result ≡ new_queue }
    {
        QueueBackend {
            queue: EventQueue::new(alloc),
            free_frames: 0,
            faults: 0,
            empty_answers: 0,
            room: false,
            questions: 0,
            controls: None,
            history: History::new(),
            before: History::new(),
        }
    }

    /// A backend that took the same calls, and of which no event waits: one that stands in for this
    /// one while its events are taken.
    pub fn stand_in(&self, alloc: Global) -> QueueBackend
        ensures { result ≡ with_controls_after None
            (with_taken (length self.now.given) [] self.now) }
    {
        QueueBackend {
            queue: self.queue.stand_in(alloc),
            free_frames: self.free_frames,
            faults: self.faults,
            empty_answers: self.empty_answers,
            room: self.room,
            questions: self.questions,
            controls: None,
            history: self.history.again(),
            before: History::new(),
        }
    }

    /// Whether a sequence begins by the first event that waits.
    pub fn is_sequence_next(&self) -> bool
        ensures { result ≡ sequence_is_next self.now.waiting }
    {
        self.queue.is_sequence_next()
    }

    /// So many frames are free.
    pub fn set_free_frames(&mut self, free_frames: usize)
        ensures { self.new ≡ record self.old { free_frames = free_frames } }
    {
        self.free_frames = free_frames;
    }

    /// How many events wait. These are the events of the calls of the log that were not taken yet,
    /// in order.
    pub fn num_waiting(&self) -> usize
        ensures value { result ≡ length self.now.waiting }
        ensures events { self.now.waiting ≡ drop self.now.counts.taken (events_of self.now.given) }
        ensures all { self.now.counts.taken + length self.now.waiting ≡ length self.now.given }
    {
        self.queue.num_waiting()
    }

    /// Takes the first event that waits: that of the call whose place in the log is the number of
    /// events that were taken before.
    pub fn take_event(&mut self) -> Option<Event>
        ensures none { IsNone result ↔ (self.old.waiting ≡ []) }
        ensures first { IfSome result (λ event. self.old.waiting ≡ event ∷ self.new.waiting) }
        ensures told { IfSome result (λ event. (d : Told)
            → event ≡ event_of self.old.counts.taken
            (slice_index_or self.old.given self.old.counts.taken d)) }
        ensures taken { IfSome result (λ _. self.new
            ≡ with_taken (self.old.counts.taken + 1) self.new.waiting self.old) }
        ensures all { IfNone result (self.old.counts.taken ≡ length self.old.given) }
        ensures unchanged { IfNone result (self.new ≡ self.old) }
    {
        self.queue.take()
    }

    /// From here on, the structs of Linux's stateless decoders are filled with each picture that
    /// begins.
    ///
    /// Errors: an allocation fails; all stays.
    pub fn want_controls(&mut self, alloc: Global) -> Result<(), AllocError>
        ensures wanted { OnOk result (self.new ≡ with_controls self.old) }
        ensures unchanged { OnErr result (self.new ≡ self.old) }
    {
        if self.controls.is_none() {
            self.controls = Some(Box::new(alloc, no_controls())?);
            self.before = self.history.again();
        }
        Ok(())
    }

    /// The structs of the latest picture that began, or what they can't hold; None where structs
    /// aren't wanted, or none has begun since.
    pub fn picture_controls(&self) -> Option<Result<PictureControls, ControlError>>
        ensures { result ≡ latest_picture_controls (given_wanted self.now) }
    {
        let controls = self.controls.as_ref()?;
        let begun = controls.begun.as_ref()?;
        Some(begun.filled)
    }

    /// The struct of its latest slice segment, or what it can't hold; None where there is none.
    pub fn slice_controls(&self) -> Option<Result<SliceControls, ControlError>>
        ensures { result ≡ latest_slice_controls (given_wanted self.now) }
    {
        let controls = self.controls.as_ref()?;
        let segment = controls.slice.as_ref()?;
        Some(segment.filled)
    }

    /// The bytes from each entry point of that slice segment to the next one, less 1.
    pub fn offsets_minus1(&self) -> Option<&[u32]>
        ensures { option_map (λ offsets. offsets.now) result
            ≡ latest_offsets_minus1 (given_wanted self.now) }
    {
        let controls = self.controls.as_ref()?;
        let segment = controls.slice.as_ref()?;
        Some(segment.offsets_minus1.as_slice())
    }

    /// The place of the next call in the log.
    ///
    /// Errors: no place is left, which counts as a fault.
    fn next_place(&mut self) -> Result<u64, BackendError>
        ensures place { IfOk result (λ place. place ≡ length self.new.given) }
        ensures unchanged { OnOk result (self.new ≡ self.old) }
        ensures left { IfOk result (λ place. place + 1 < 2 ^ 64) }
        ensures cause { CountsFaults self.old.counts self.new.counts result }
        ensures kept { self.new ≡ record self.old { counts = self.new.counts } }
    {
        match self.queue.next_place() {
            Some(place) => Ok(place),
            None => {
                self.faults = self.faults.saturating_add(1);
                Err(BackendError::Failed)
            }
        }
    }
}

impl StatelessH265DecoderBackend for QueueBackend {
    type Handle = u64;

    type Picture = u64;

    ghost log = { λ b. Some (log_of b) };

    ghost handed = { λ b. Some (handed_of b) };

    ghost counts = { λ b. b.counts };

    ghost frames = { λ b. b.frames };

    ghost info = { λ _. None };

    ghost is_faultless = { λ _. ⊥ };

    fn new_sequence(&mut self, sps: &Sps) -> Result<(), BackendError> {
        let place = self.next_place()?;
        let event = sequence_event(place, sps);
        self.queue.put(event)?;
        self.history = self.history.and(sps);
        Ok(())
    }

    fn new_picture(
        &mut self,
        number: u64,
        picture: &PictureData,
        timestamp: u64,
    ) -> Result<u64, BackendError> {
        let place = self.next_place()?;
        let event = picture_event(place, number, picture, timestamp);
        self.queue.put(event)?;
        self.history = self.history.and(&(number, picture, timestamp));
        self.room = false;
        self.free_frames = self.free_frames.saturating_sub(1);
        Ok(number)
    }

    fn begin_picture(
        &mut self,
        number: u64,
        _picture: &mut u64,
        picture_data: &PictureData,
        sps: &Sps,
        pps: &Pps,
        dpb: &Dpb<u64>,
        rps: &RefPicSet,
        slice: &Slice<'_>,
    ) -> Result<(), BackendError> {
        let place = self.next_place()?;
        let event = sets_event(place, number, sps, rps);
        self.queue.put(event)?;
        self.history = self
            .history
            .and(&(number, picture_data, sps, pps, dpb, rps, slice));
        fill_picture(&mut self.controls, picture_data, sps, pps, dpb, rps, slice);
        Ok(())
    }

    fn decode_slice(
        &mut self,
        number: u64,
        _picture: &mut u64,
        slice: &Slice<'_>,
        sps: &Sps,
        pps: &Pps,
        dpb: &Dpb<u64>,
        ref_pic_list0: &RefPicList,
        ref_pic_list1: &RefPicList,
    ) -> Result<(), BackendError> {
        let place = self.next_place()?;
        let event = slice_event(place, number, slice, ref_pic_list0, ref_pic_list1);
        let offsets_minus1 = wanted_offsets(&self.controls, slice)?;
        self.queue.put(event)?;
        self.history = self.history.and(&(
            number,
            slice,
            sps,
            pps,
            dpb,
            ref_pic_list0,
            ref_pic_list1,
        ));
        fill_slice(
            &mut self.controls,
            offsets_minus1,
            slice,
            sps,
            pps,
            dpb,
            ref_pic_list0,
            ref_pic_list1,
        );
        Ok(())
    }

    fn submit_picture(&mut self, number: u64, _picture: u64) -> Result<u64, BackendError> {
        let place = self.next_place()?;
        let event = submission_event(place, number);
        self.queue.put(event)?;
        self.history = self.history.and(&number);
        Ok(number)
    }

    fn num_free_frames(&mut self) -> usize {
        if self.free_frames == 0 {
            self.empty_answers = self.empty_answers.saturating_add(1);
        }
        self.room = self.free_frames != 0;
        self.questions = self.questions.saturating_add(1);
        self.free_frames
    }

    fn stream_info(&self) -> Option<&StreamInfo> {
        None
    }
}
