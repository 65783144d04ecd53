//! A backend over a device, of which nothing is known but its answers.
ghost use Rattle.std.specs.Prelude.{◌≡◌, None};
ghost use Rattle.hevc_backend.specs.Trait.{CountsFaults, counts_of};

use hevc_backend::{BackendError, Resolution, StatelessH265DecoderBackend, StreamInfo};
use hevc_dpb::{Dpb, PictureData};
use hevc_picture_slice::{Pps, Slice};
use hevc_refs::{RefPicList, RefPicSet};
use hevc_sequence_set::Sps;

/// A device with frames of its own. Each call says whether it succeeded.
pub(crate) trait Device: Drop {
    /// Makes frames of this size.
    fn make_frames(&mut self, width: u32, height: u32, count: usize) -> bool;

    /// Takes a free frame.
    fn take_frame(&mut self, timestamp: u64) -> Option<u32>;

    /// Decodes a slice into a frame.
    fn decode(&mut self, frame: u32, slice: &[u8]) -> bool;

    /// How many frames are free.
    fn free_frames(&mut self) -> usize;
}

/// A backend over a device. Its pictures and handles are frames of the device.
#[derive(Drop)]
pub(crate) struct OverDevice<D: Device> {
    pub device: D,
    pub faults: u64,
    pub empty_answers: u64,
    pub room: bool,
    pub info: Option<StreamInfo>,
}

impl<D: Device> OverDevice<D> {
    /// What the device didn't do is a fault.
    fn count(&mut self, done: bool) -> Result<(), BackendError>
        ensures cause { CountsFaults
            (counts_of self.old.faults self.old.empty_answers)
            (counts_of self.new.faults self.new.empty_answers) result }
        ensures room { self.new.room ≡ self.old.room }
        ensures info { self.new.info ≡ self.old.info }
    {
        if !done {
            self.faults = self.faults.saturating_add(1);
            return Err(BackendError::Failed);
        }
        Ok(())
    }
}

impl<D: Device> StatelessH265DecoderBackend for OverDevice<D> {
    type Handle = u32;

    type Picture = u32;

    ghost log = { λ _. None };

    ghost handed = { λ _. None };

    ghost counts = { λ b. counts_of b.faults b.empty_answers };

    ghost frames = { λ b. record { asked = None; found = b.room } };

    ghost info = { λ b. b.info };

    ghost is_faultless = { λ _. ⊥ };

    fn new_sequence(&mut self, sps: &Sps) -> Result<(), BackendError> {
        let coded_resolution = Resolution {
            width: sps.width().into(),
            height: sps.height().into(),
        };
        let window = sps.visible_rectangle();
        let min_num_frames = sps.max_dpb_size() + 1;
        let done = self.device.make_frames(
            coded_resolution.width,
            coded_resolution.height,
            min_num_frames,
        );
        self.count(done)?;
        self.info = Some(StreamInfo {
            coded_resolution,
            display_resolution: Resolution {
                width: window.max.x,
                height: window.max.y,
            },
            min_num_frames,
        });
        Ok(())
    }

    fn new_picture(
        &mut self,
        _number: u64,
        _picture: &PictureData,
        timestamp: u64,
    ) -> Result<u32, BackendError> {
        match self.device.take_frame(timestamp) {
            Some(frame) => {
                self.room = false;
                Ok(frame)
            }
            None => {
                self.faults = self.faults.saturating_add(1);
                Err(BackendError::Failed)
            }
        }
    }

    fn begin_picture(
        &mut self,
        _number: u64,
        _picture: &mut u32,
        _picture_data: &PictureData,
        _sps: &Sps,
        _pps: &Pps,
        _dpb: &Dpb<u32>,
        _rps: &RefPicSet,
        _slice: &Slice<'_>,
    ) -> Result<(), BackendError> {
        Ok(())
    }

    fn decode_slice(
        &mut self,
        _number: u64,
        picture: &mut u32,
        slice: &Slice<'_>,
        _sps: &Sps,
        _pps: &Pps,
        _dpb: &Dpb<u32>,
        _ref_pic_list0: &RefPicList,
        _ref_pic_list1: &RefPicList,
    ) -> Result<(), BackendError> {
        let done = self.device.decode(*picture, slice.nalu().as_ref());
        self.count(done)
    }

    fn submit_picture(&mut self, _number: u64, picture: u32) -> Result<u32, BackendError> {
        Ok(picture)
    }

    fn num_free_frames(&mut self) -> usize {
        let frames = self.device.free_frames();
        if frames == 0 {
            self.empty_answers = self.empty_answers.saturating_add(1);
        }
        self.room = frames != 0;
        frames
    }

    fn stream_info(&self) -> Option<&StreamInfo> {
        self.info.as_ref()
    }
}
