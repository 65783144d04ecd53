//! A backend that decodes nothing, and records its calls.
ghost use Rattle.std.specs.Prelude.{◌≡◌, ◌∷◌, ◌++◌, [], None, Some, OnOk, OnErr, IfOk, IfErr};
ghost use Rattle.std.specs.Prelude.{length};
ghost use Rattle.std.specs.Option.{option_copied};
ghost use Rattle.hevc_backend.specs.declared.error.BackendError.TheVariants.{Failed, NoMemory};
ghost use Rattle.hevc_backend.specs.declared.call.Call.TheVariants.{SubmitPicture};
ghost use Rattle.hevc_backend.specs.Handles.{handle_of, handles, AreCounted};
ghost use Rattle.hevc_backend.specs.Calls.{new_sequence_call, new_picture_call, begin_picture_call};
ghost use Rattle.hevc_backend.specs.Calls.{decode_slice_call};
ghost use Rattle.hevc_backend.specs.Recording.{Recording, planned, fails_next, with_call_made};
ghost use Rattle.hevc_backend.specs.Recording.{with_fault, behind, with_info, with_room_taken};
ghost use Rattle.hevc_backend.specs.Recording.{is_failed, next_free, asked, IsFaultless};
ghost use Rattle.hevc_backend.specs.Trait.{HasNoFault};

use crate::backend::StatelessH265DecoderBackend;
use crate::call::Call;
use crate::error::BackendError;
use crate::negotiation::{NegotiationInfo, Resolution};
use crate::stream_info::StreamInfo;
use hevc_dpb::{Dpb, PictureData};
use hevc_picture_slice::{Pps, Slice};
use hevc_refs::{RefPicList, RefPicSet};
use hevc_sequence_set::Sps;
use hevc_set_parts::Items;
use std::alloc::Global;
use std::marker::Model;

/// A backend that decodes nothing, and records its calls. It fails by a plan, and where an
/// allocation fails.
///
/// Its pictures are their numbers, and its handles are 0, 1, 2 and so on, in the order of
/// submission.
#[derive(Drop)]
pub struct Backend {
    alloc: Global,
    calls: Vec<Call<u64>>,
    /// How many pictures were submitted: the next handle.
    submitted: u64,
    failing: Vec<u64>,
    /// How many of the recorded calls were made, failed ones included.
    made: u64,
    free: Vec<usize>,
    /// How many numbers of `free` were answered.
    asked: usize,
    faults: u64,
    empty_answers: u64,
    room: bool,
    /// How often it was asked for free frames, up to 2^64 - 1.
    questions: u64,
    info: Option<StreamInfo>,
}

impl Model for Backend {
    ghost use Rattle.std.specs.Prelude.{◌≡◌, ◌≤◌, length, drop, Some};
    ghost use Rattle.std.specs.List.{range_with_len};
    ghost use Rattle.hevc_backend.specs.Handles.{handles};
    ghost use Rattle.hevc_backend.specs.Recording.{Recording};
    ghost use Rattle.hevc_backend.specs.Trait.{counts_of};

    ghost Value = { Recording };

    ghost view = { λ b. record {
      log = b.calls.items;
      failing = b.failing.items;
      made = b.made;
      free = drop b.asked b.free.items;
      counts = counts_of b.faults b.empty_answers;
      frames = record { asked = Some b.questions; found = b.room };
      info = b.info;
    } };

    ghost invariant = { λ b. (handles b.calls.items ≡ range_with_len 0 b.submitted) × (b.asked ≤ length b.free.items) };
}

impl Backend {
    /// A backend with an empty log, which never fails and has 16 free frames at every question.
    pub fn new(alloc: Global) -> Backend
        ensures { result ≡ planned [] [] }
    {
        Backend::with_plan(alloc, Vec::new(alloc), Vec::new(alloc))
    }

    /// A backend with an empty log that fails by a plan. Of the calls that a log tells of, whether
    /// they fail or not, the first is number 1, and those whose number is in `failing` fail.
    /// Questions for free frames are answered by the numbers of `free`, in order, and by 16 after
    /// them.
    pub fn with_plan(alloc: Global, failing: Vec<u64>, free: Vec<usize>) -> Backend
        ensures { result ≡ planned failing.items free.items }
    {
        Backend {
            alloc,
            calls: Vec::new(alloc),
            submitted: 0,
            failing,
            made: 0,
            free,
            asked: 0,
            faults: 0,
            empty_answers: 0,
            room: false,
            questions: 0,
            info: None,
        }
    }

    /// The calls so far, in order. The handles among them are 0, 1, 2 and so on.
    pub fn calls(&self) -> &[Call<u64>]
        ensures log { result.now ≡ self.now.log }
        ensures handles { AreCounted result.now }
    {
        self.calls.as_slice()
    }

    /// A call is made: it fails if the plan says so.
    fn count_call(&mut self) -> Result<(), BackendError>
        ensures planned { is_failed result ≡ fails_next self.old }
        ensures failed { OnErr result (self.new ≡ with_fault self.old) }
        ensures only_faults { IfErr result (λ e. e ≡ Failed) }
        ensures counted { OnOk result (self.new ≡ with_call_made self.old) }
    {
        let fails = match self.made.checked_add(1) {
            Some(number) => {
                self.made = number;
                self.failing.contains(&number)
            }
            None => false,
        };
        if fails {
            self.faults = self.faults.saturating_add(1);
            return Err(BackendError::Failed);
        }
        Ok(())
    }

    /// Records a call that gives no handle.
    fn record(&mut self, call: Call<u64>) -> Result<(), BackendError>
        requires { handle_of call ≡ [] }
        ensures recorded { OnOk result
            (self.new ≡ record self.old { log = self.old.log ++ call ∷ [] }) }
        ensures refused { OnErr result (self.new ≡ self.old) }
        ensures only_memory { IfErr result (λ e. e ≡ NoMemory) }
    {
        self.calls.push(call)?;
        Ok(())
    }
}

impl StatelessH265DecoderBackend for Backend {
    type Handle = u64;

    type Picture = u64;

    ghost log = { λ b. Some b.log };

    ghost handed = { λ _. None };

    ghost counts = { λ b. b.counts };

    ghost frames = { λ b. b.frames };

    ghost info = { λ b. b.info };

    ghost is_faultless = { IsFaultless };

    fn new_sequence(&mut self, sps: &Sps) -> Result<(), BackendError>
        ensures planned { is_failed result ≡ fails_next self.old }
        ensures recorded { self.new
            ≡ with_info sps.now result (behind (λ _. new_sequence_call sps.now) self.old result) }
    {
        self.count_call()?;
        let info = NegotiationInfo::from(sps);
        self.record(Call::NewSequence { info })?;
        let window = sps.visible_rectangle();
        self.info = Some(StreamInfo {
            coded_resolution: info.coded_resolution,
            display_resolution: Resolution {
                width: window.max.x,
                height: window.max.y,
            },
            min_num_frames: sps.max_dpb_size() + 1,
        });
        Ok(())
    }

    fn new_picture(
        &mut self,
        number: u64,
        picture: &PictureData,
        timestamp: u64,
    ) -> Result<u64, BackendError>
        ensures planned { is_failed result ≡ fails_next self.old }
        ensures recorded { self.new ≡ with_room_taken result
            (behind (λ _. new_picture_call number picture.now timestamp) self.old result) }
        ensures picture { IfOk result (λ p. p ≡ number) }
    {
        self.count_call()?;
        self.record(Call::NewPicture {
            number,
            nalu_type: picture.nalu_type,
            pic_order_cnt_val: picture.pic_order_cnt_val,
            pic_output_flag: picture.pic_output_flag,
            timestamp,
        })?;
        self.room = false;
        Ok(number)
    }

    fn begin_picture(
        &mut self,
        number: u64,
        _picture: &mut u64,
        _picture_data: &PictureData,
        _sps: &Sps,
        _pps: &Pps,
        _dpb: &Dpb<u64>,
        rps: &RefPicSet,
        _slice: &Slice<'_>,
    ) -> Result<(), BackendError>
        ensures planned { is_failed result ≡ fails_next self.old }
        ensures faultless { IsFaultless self.old → IsFaultless self.new × HasNoFault result }
        ensures recorded { self.new
            ≡ behind (λ _. begin_picture_call number rps.now) self.old result }
    {
        self.count_call()?;
        let alloc = self.alloc;
        let call = Call::BeginPicture {
            number,
            st_curr_before: Items::from_slice(alloc, rps.st_curr_before())?,
            st_curr_after: Items::from_slice(alloc, rps.st_curr_after())?,
            st_foll: Items::from_slice(alloc, rps.st_foll())?,
            lt_curr: Items::from_slice(alloc, rps.lt_curr())?,
            lt_foll: Items::from_slice(alloc, rps.lt_foll())?,
        };
        self.record(call)
    }

    fn decode_slice(
        &mut self,
        number: u64,
        _picture: &mut u64,
        slice: &Slice<'_>,
        _sps: &Sps,
        _pps: &Pps,
        _dpb: &Dpb<u64>,
        ref_pic_list0: &RefPicList,
        ref_pic_list1: &RefPicList,
    ) -> Result<(), BackendError>
        ensures planned { is_failed result ≡ fails_next self.old }
        ensures faultless { IsFaultless self.old → IsFaultless self.new × HasNoFault result }
        ensures recorded { self.new ≡ behind
            (λ _. decode_slice_call number slice.now ref_pic_list0.now ref_pic_list1.now)
            self.old result }
    {
        self.count_call()?;
        let alloc = self.alloc;
        let call = Call::DecodeSlice {
            number,
            address: slice.header().segment_address,
            bytes: Items::from_slice(alloc, slice.nalu().as_ref())?,
            list0: Items::from_slice(alloc, ref_pic_list0.as_slice())?,
            list1: Items::from_slice(alloc, ref_pic_list1.as_slice())?,
        };
        self.record(call)
    }

    fn submit_picture(&mut self, number: u64, _picture: u64) -> Result<u64, BackendError>
        ensures planned { is_failed result ≡ fails_next self.old }
        ensures recorded { self.new
            ≡ behind (λ handle. SubmitPicture number handle) self.old result }
        ensures handle { IfOk result (λ handle. handle ≡ length (handles self.old.log)) }
    {
        self.count_call()?;
        let handle = self.submitted;
        self.calls.push(Call::SubmitPicture { number, handle })?;
        self.submitted += 1;
        Ok(handle)
    }

    fn num_free_frames(&mut self) -> usize
        ensures answer { result ≡ next_free self.old.free }
        ensures asked { self.new ≡ asked self.old }
    {
        let frames = match self.free.get(self.asked) {
            Some(frames) => {
                self.asked += 1;
                *frames
            }
            None => 16,
        };
        if frames == 0 {
            self.empty_answers = self.empty_answers.saturating_add(1);
        }
        self.room = frames != 0;
        self.questions = self.questions.saturating_add(1);
        frames
    }

    fn stream_info(&self) -> Option<&StreamInfo>
        ensures { option_copied result ≡ self.now.info }
    {
        self.info.as_ref()
    }
}
