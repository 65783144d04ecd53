//! A backend that decodes nothing and keeps nothing.
ghost use Rattle.std.specs.Prelude.{◌≡◌, false, None};
ghost use Rattle.hevc_backend.specs.Silent.{frames_of};
ghost use Rattle.hevc_backend.specs.Trait.{counts_of};

use crate::backend::StatelessH265DecoderBackend;
use crate::error::BackendError;
use crate::stream_info::StreamInfo;
use hevc_dpb::{Dpb, PictureData};
use hevc_picture_slice::{Pps, Slice};
use hevc_refs::{RefPicList, RefPicSet};
use hevc_sequence_set::Sps;

/// A backend that decodes nothing, keeps nothing and exposes no log. No call fails, and there is
/// always a free frame.
#[derive(Drop)]
pub struct SilentBackend {
    room: bool,
}

impl SilentBackend {
    /// A backend that wasn't asked for frames.
    pub fn new() -> SilentBackend
        ensures { (frames_of result).found ≡ false }
    {
        SilentBackend { room: false }
    }
}

impl StatelessH265DecoderBackend for SilentBackend {
    type Handle = ();

    type Picture = ();

    ghost log = { λ _. None };

    ghost handed = { λ _. None };

    ghost counts = { λ _. counts_of 0 0 };

    ghost frames = { frames_of };

    ghost info = { λ _. None };

    ghost is_faultless = { λ _. Unit {0} };

    fn new_sequence(&mut self, _sps: &Sps) -> Result<(), BackendError> {
        Ok(())
    }

    fn new_picture(
        &mut self,
        _number: u64,
        _picture: &PictureData,
        _timestamp: u64,
    ) -> Result<(), BackendError> {
        self.room = false;
        Ok(())
    }

    fn begin_picture(
        &mut self,
        _number: u64,
        _picture: &mut (),
        _picture_data: &PictureData,
        _sps: &Sps,
        _pps: &Pps,
        _dpb: &Dpb<()>,
        _rps: &RefPicSet,
        _slice: &Slice<'_>,
    ) -> Result<(), BackendError> {
        Ok(())
    }

    fn decode_slice(
        &mut self,
        _number: u64,
        _picture: &mut (),
        _slice: &Slice<'_>,
        _sps: &Sps,
        _pps: &Pps,
        _dpb: &Dpb<()>,
        _ref_pic_list0: &RefPicList,
        _ref_pic_list1: &RefPicList,
    ) -> Result<(), BackendError> {
        Ok(())
    }

    fn submit_picture(&mut self, _number: u64, _picture: ()) -> Result<(), BackendError> {
        Ok(())
    }

    fn num_free_frames(&mut self) -> usize {
        self.room = true;
        16
    }

    fn stream_info(&self) -> Option<&StreamInfo> {
        None
    }
}
