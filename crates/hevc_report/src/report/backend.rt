//! A backend that decodes nothing, and writes the lines of its calls.
ghost use Rattle.std.specs.Prelude.{◌≡◌, ◌++◌, [], ℕ, List, length, false, None, Some, OnOk, OnErr};
ghost use Rattle.std.specs.List.{flat_map};
ghost use Rattle.hevc_backend.specs.Handles.{AreCounted};
ghost use Rattle.hevc_backend.specs.Trait.{counts_of};
ghost use Rattle.hevc_report.specs.Lines.{log_line};
ghost use Rattle.hevc_report.specs.Reported.{Reported};

use super::line::{push_picture, push_sequence, push_slice, push_submission};
use hevc_backend::{BackendError, Call, NegotiationInfo, StatelessH265DecoderBackend, StreamInfo};
use hevc_dpb::{Dpb, PictureData};
use hevc_history::History;
use hevc_picture_slice::{Pps, Slice};
use hevc_refs::{RefPicList, RefPicSet};
use hevc_sequence_set::Sps;
use std::alloc::{AllocError, Global};
use std::marker::Model;

/// A backend that decodes nothing, and writes the line of each call as it comes. It fails only where an allocation does,
/// and always has 16 free frames.
///
/// It keeps no call: its log is there in proofs alone. Its pictures are their numbers, and its handles are 0, 1, 2
/// and so on, in the order of submission.
#[derive(Drop)]
pub(crate) struct ReportBackend {
    alloc: Global,
    /// The lines of the calls.
    text: Vec<u8>,
    /// How many pictures were submitted: the next handle.
    submitted: u64,
    /// It was asked for frames, and no picture has begun since.
    room: bool,
    /// The calls, for proofs alone.
    history: History<Call<u64>>,
}

impl Model for ReportBackend {
    ghost use Rattle.std.specs.Prelude.{◌≡◌};
    ghost use Rattle.std.specs.List.{flat_map, range_with_len};
    ghost use Rattle.hevc_backend.specs.Handles.{handles};
    ghost use Rattle.hevc_report.specs.Lines.{log_line};
    ghost use Rattle.hevc_report.specs.Reported.{Reported};

    ghost Value = { Reported };

    ghost view = { λ b. record { log = b.history.items; room = b.room } };

    ghost invariant = { λ b. (b.text.items ≡ flat_map log_line b.history.items)
        × (handles b.history.items ≡ range_with_len 0 b.submitted) };
}

impl ReportBackend {
    /// A backend that took no call.
    pub(crate) fn new(alloc: Global) -> ReportBackend
        ensures log { result.log ≡ [] }
        ensures room { result.room ≡ false }
    {
        ReportBackend {
            alloc,
            text: Vec::new(alloc),
            submitted: 0,
            room: false,
            history: History::new(),
        }
    }

    /// The lines of the calls. The handles among these are 0, 1, 2 and so on.
    pub(crate) fn into_text(self) -> Vec<u8>
        ensures lines { result.items ≡ flat_map log_line self.log }
        ensures handles { AreCounted self.log }
    {
        self.text
    }
}

/// Gives up what came after so many bytes of a text, where a line wasn't added whole.
fn whole_or_none(
    text: &mut Vec<u8>,
    before: usize,
    added: Result<(), AllocError>,
) -> Result<(), AllocError>
    ensures same { result ≡ added }
    ensures whole { OnOk result (text.new.items ≡ text.old.items) }
    ensures none { (old more : List ℕ) → before ≡ length old → text.old.items ≡ old ++ more
        → OnErr result (text.new.items ≡ old) }
{
    if added.is_err() {
        text.truncate(before);
    }
    added
}

impl StatelessH265DecoderBackend for ReportBackend {
    type Handle = u64;

    type Picture = u64;

    ghost log = { λ b. Some b.log };

    ghost handed = { λ _. None };

    ghost counts = { λ _. counts_of 0 0 };

    ghost frames = { λ b. record { asked = None; found = b.room } };

    ghost info = { λ _. None };

    ghost is_faultless = { λ _. Unit {0} };

    fn new_sequence(&mut self, sps: &Sps) -> Result<(), BackendError> {
        let mut line = String::new(self.alloc);
        push_sequence(&mut line, &NegotiationInfo::from(sps))?;
        self.text.extend_from_slice(line.as_bytes())?;
        self.history = self.history.and(sps);
        Ok(())
    }

    fn new_picture(
        &mut self,
        number: u64,
        picture: &PictureData,
        timestamp: u64,
    ) -> Result<u64, BackendError> {
        let before = self.text.len();
        let added = push_picture(
            &mut self.text,
            number,
            picture.nalu_type,
            picture.pic_order_cnt_val,
            picture.pic_output_flag,
        );
        whole_or_none(&mut self.text, before, added)?;
        self.history = self.history.and(&(number, picture, timestamp));
        self.room = false;
        Ok(number)
    }

    fn begin_picture(
        &mut self,
        number: u64,
        _picture: &mut u64,
        _picture_data: &PictureData,
        _sps: &Sps,
        _pps: &Pps,
        _dpb: &Dpb<u64>,
        rps: &RefPicSet,
        _slice: &Slice<'_>,
    ) -> Result<(), BackendError> {
        self.history = self.history.and(&(number, rps));
        Ok(())
    }

    fn decode_slice(
        &mut self,
        number: u64,
        _picture: &mut u64,
        slice: &Slice<'_>,
        _sps: &Sps,
        _pps: &Pps,
        _dpb: &Dpb<u64>,
        ref_pic_list0: &RefPicList,
        ref_pic_list1: &RefPicList,
    ) -> Result<(), BackendError> {
        let before = self.text.len();
        let added = push_slice(
            &mut self.text,
            number,
            slice.header().segment_address,
            slice.nalu().as_ref().len(),
            ref_pic_list0.as_slice(),
            ref_pic_list1.as_slice(),
        );
        whole_or_none(&mut self.text, before, added)?;
        self.history = self
            .history
            .and(&(number, slice, ref_pic_list0, ref_pic_list1));
        Ok(())
    }

    fn submit_picture(&mut self, number: u64, _picture: u64) -> Result<u64, BackendError> {
        let handle = self.submitted;
        let before = self.text.len();
        let added = push_submission(&mut self.text, number, handle);
        whole_or_none(&mut self.text, before, added)?;
        self.history = self.history.and(&(number, handle));
        self.submitted += 1;
        Ok(handle)
    }

    fn num_free_frames(&mut self) -> usize {
        self.room = true;
        16
    }

    fn stream_info(&self) -> Option<&StreamInfo> {
        None
    }
}
