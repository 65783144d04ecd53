//! What the decoder asks of a backend.
ghost use Rattle.std.specs.Prelude.{◌≡◌, IsTrue, List, OnOk, OnErr};
ghost use Rattle.std.specs.Option.{option_copied};
ghost use Rattle.std.specs.declared.option.Option.{Option};
ghost use Rattle.hevc_sequence_set.specs.Sps.{plain_sps};
ghost use Rattle.hevc_walk_inputs.specs.Sequences.{format_of_set};
ghost use Rattle.hevc_dpb.specs.Entries.{numbers};
ghost use Rattle.hevc_dpb.specs.Views.{stored_entries};
ghost use Rattle.hevc_backend.specs.declared.call.Call.{Call};
ghost use Rattle.hevc_backend.specs.declared.call.Call.TheVariants.{SubmitPicture};
ghost use Rattle.hevc_backend.specs.declared.stream_info.StreamInfo.{StreamInfo};
ghost use Rattle.hevc_backend.specs.Named.{SetNamesAmong, ListNamesAmong};
ghost use Rattle.hevc_backend.specs.Trait.{Counts, Frames, Logs, CountsFaults, CountsEmptyAnswers};
ghost use Rattle.hevc_backend.specs.Trait.{StaysFaultless, StaysWithFrames, with_frame_taken};
ghost use Rattle.hevc_backend.specs.Trait.{with_question};
ghost use Rattle.hevc_backend.specs.Calls.{new_sequence_call, new_picture_call, begin_picture_call};
ghost use Rattle.hevc_backend.specs.Calls.{decode_slice_call};
ghost use Rattle.hevc_backend.specs.Handed.{Handed, Sequence, Announced, Begun, Decoded};
ghost use Rattle.hevc_backend.specs.Handed.{AreAnnounced, IsAnnounced, plain_dpb, plain_picture};
ghost use Rattle.hevc_backend.specs.Handed.{segment_of};
ghost use Rattle.hevc_backend.specs.Told.{WhereTold, IsTold, IsBegun, begun_picture};

use crate::error::BackendError;
use crate::stream_info::StreamInfo;
use hevc_dpb::{Dpb, PictureData};
use hevc_picture_slice::{Pps, Slice};
use hevc_refs::{RefPicList, RefPicSet};
use hevc_sequence_set::Sps;

/// What decodes the samples of pictures.
///
/// Each of the first five calls that succeeds is in the log, and no other call does. `Failed` has a
/// cause: a fault was counted, or no more can be; the log stays. `NoMemory` leaves the log and the
/// counts. A backend that is faultless never answers `Failed` and always has a free frame, now and
/// later.
pub trait StatelessH265DecoderBackend {
    /// The handle of a decoded picture.
    type Handle: Copy;

    /// A picture whose slices come. One that is given up is dropped.
    type Picture: Drop;

    /// The calls that succeeded, in order, where the backend exposes them.
    ghost log: { Self → Option (List (Call Self.Handle)) };

    /// What came with these calls, in order, where the backend exposes it: each picture, parameter
    /// set, header and decoded picture buffer, whole.
    ghost handed: { Self → Option (List Handed) };

    /// How many calls failed, and how many questions for free frames were answered by 0, so far.
    /// Neither count falls, and both stay at 2^64 - 1. And after how many calls its owner set
    /// something of it, and of how many it was told, which no call changes.
    ghost counts: { Self → Counts };

    /// How often it was asked for free frames, where it exposes that; and whether the last question
    /// found one and no picture has begun since.
    ghost frames: { Self → Frames };

    /// What it tells of the sequence.
    ghost info: { Self → Option StreamInfo };

    /// No call fails from here on, and there is always a free frame.
    ghost is_faultless: { Self → Type 0 };

    /// A sequence begins: this is the sequence parameter set whose format is negotiated, the first
    /// one, or that of the slice that names another format than the accepted one.
    fn new_sequence(&mut self, sps: &Sps) -> Result<(), BackendError>
        ensures log { Logs (log self.old) (log self.new) result (λ _. new_sequence_call sps.now) }
        ensures handed { Logs (handed self.old) (handed self.new) result
            (λ _. Sequence (plain_sps sps.now)) }
        ensures cause { CountsFaults (counts self.old) (counts self.new) result }
        ensures faultless { StaysFaultless (is_faultless self.old) (is_faultless self.new) result }
        ensures frames { frames self.new ≡ frames self.old };

    /// A picture begins, and takes a free frame. `picture` has the type of its first slice (Table
    /// 7-1), its order count PicOrderCntVal (8.3.1) and its PicOutputFlag (8.1.3).
    fn new_picture(
        &mut self,
        number: u64,
        picture: &PictureData,
        timestamp: u64,
    ) -> Result<Self::Picture, BackendError>
        requires { IsTrue (frames self.old).found }
        ensures log { Logs (log self.old) (log self.new) result
            (λ _. new_picture_call number picture.now timestamp) }
        ensures handed { Logs (handed self.old) (handed self.new) result
            (λ _. Announced number (plain_picture picture.now)) }
        ensures cause { CountsFaults (counts self.old) (counts self.new) result }
        ensures faultless { StaysFaultless (is_faultless self.old) (is_faultless self.new) result }
        ensures taken { OnOk result (frames self.new ≡ with_frame_taken (frames self.old)) }
        ensures not_taken { OnErr result (frames self.new ≡ frames self.old) }
        ensures info { info self.new ≡ info self.old };

    /// The slices of a picture come; `slice` is the first of them. `dpb` has what is stored while
    /// the picture is decoded (C.5.2.2), with its marks, and `rps` is its reference picture set
    /// over that (8.3.2).
    fn begin_picture(
        &mut self,
        number: u64,
        picture: &mut Self::Picture,
        picture_data: &PictureData,
        sps: &Sps,
        pps: &Pps,
        dpb: &Dpb<Self::Handle>,
        rps: &RefPicSet,
        slice: &Slice<'_>,
    ) -> Result<(), BackendError>
        // Each picture that is named is handed over, and so are the sets that the slice means.
        requires references { SetNamesAmong (numbers (stored_entries dpb.now)) rps.now }
        requires pps { pps.now.pic_parameter_set_id ≡ slice.now.header.pic_parameter_set_id }
        requires sps { sps.now.seq_parameter_set_id ≡ pps.now.seq_parameter_set_id }
        // They are of the sequence and the picture that the backend was told of, with the handles
        // that it gave.
        requires told { WhereTold (log self.old)
            (IsTold number (format_of_set (plain_sps sps.now)) (stored_entries dpb.now)) }
        requires begun { WhereTold (log self.old) (IsBegun (begun_picture number picture_data.now)) }
        requires announced { IsAnnounced (handed self.old) number (plain_picture picture_data.now) }
        // What is stored is as it was announced, but for mark, latency count and whether it is
        // needed for output.
        requires stored { AreAnnounced (handed self.old) (stored_entries dpb.now) }
        ensures log { Logs (log self.old) (log self.new) result
            (λ _. begin_picture_call number rps.now) }
        ensures handed { Logs (handed self.old) (handed self.new) result
            (λ _. Begun number (plain_picture picture_data.now) (plain_dpb dpb.now)
            (segment_of slice.now sps.now pps.now)) }
        ensures cause { CountsFaults (counts self.old) (counts self.new) result }
        ensures faultless { StaysFaultless (is_faultless self.old) (is_faultless self.new) result }
        ensures frames { frames self.new ≡ frames self.old }
        ensures info { info self.new ≡ info self.old };

    /// A slice of a picture, with its two reference picture lists over `dpb` (8.3.4).
    fn decode_slice(
        &mut self,
        number: u64,
        picture: &mut Self::Picture,
        slice: &Slice<'_>,
        sps: &Sps,
        pps: &Pps,
        dpb: &Dpb<Self::Handle>,
        ref_pic_list0: &RefPicList,
        ref_pic_list1: &RefPicList,
    ) -> Result<(), BackendError>
        requires list0 { ListNamesAmong (numbers (stored_entries dpb.now)) ref_pic_list0.now }
        requires list1 { ListNamesAmong (numbers (stored_entries dpb.now)) ref_pic_list1.now }
        requires stored { AreAnnounced (handed self.old) (stored_entries dpb.now) }
        requires pps { pps.now.pic_parameter_set_id ≡ slice.now.header.pic_parameter_set_id }
        requires sps { sps.now.seq_parameter_set_id ≡ pps.now.seq_parameter_set_id }
        requires told { WhereTold (log self.old)
            (IsTold number (format_of_set (plain_sps sps.now)) (stored_entries dpb.now)) }
        ensures log { Logs (log self.old) (log self.new) result
            (λ _. decode_slice_call number slice.now ref_pic_list0.now ref_pic_list1.now) }
        ensures handed { Logs (handed self.old) (handed self.new) result
            (λ _. Decoded number (plain_dpb dpb.now) (segment_of slice.now sps.now pps.now)) }
        ensures cause { CountsFaults (counts self.old) (counts self.new) result }
        ensures faultless { StaysFaultless (is_faultless self.old) (is_faultless self.new) result }
        ensures frames { frames self.new ≡ frames self.old }
        ensures info { info self.new ≡ info self.old };

    /// A picture is whole. Its handle names it from here on.
    fn submit_picture(
        &mut self,
        number: u64,
        picture: Self::Picture,
    ) -> Result<Self::Handle, BackendError>
        ensures log { Logs (log self.old) (log self.new) result
            (λ handle. SubmitPicture number handle) }
        ensures handed { handed self.new ≡ handed self.old }
        ensures cause { CountsFaults (counts self.old) (counts self.new) result }
        ensures faultless { StaysFaultless (is_faultless self.old) (is_faultless self.new) result }
        ensures frames { frames self.new ≡ frames self.old }
        ensures info { info self.new ≡ info self.old };

    /// How many frames are free.
    fn num_free_frames(&mut self) -> usize
        ensures log { log self.new ≡ log self.old }
        ensures handed { handed self.new ≡ handed self.old }
        ensures cause { CountsEmptyAnswers (counts self.old) (counts self.new) result }
        ensures faultless { StaysWithFrames (is_faultless self.old) (is_faultless self.new) result }
        ensures frames { frames self.new ≡ with_question result (frames self.old) }
        ensures info { info self.new ≡ info self.old };

    /// What the backend tells of the sequence, None where it tells nothing.
    fn stream_info(&self) -> Option<&StreamInfo>
        ensures { option_copied result ≡ info self.now };
}
