//! A backend that decodes nothing, and keeps all that comes with its calls.
#![tactic(auto)]

ghost use Rattle.std.specs.Prelude.{◌≡◌, [], false, None, Some, IfOk};
ghost use Rattle.hevc_backend.specs.Handed.{plain_dpb, segment_of};
ghost use Rattle.hevc_backend.specs.Trait.{counts_of};
ghost use Rattle.hevc_test_backend.specs.Telling.{all_handed, kept_dpb, kept_segment};

use hevc_backend::{BackendError, StatelessH265DecoderBackend, StreamInfo};
use hevc_dpb::{Dpb, DpbEntry, PictureData};
use hevc_picture_slice::{Pps, Slice, SliceHeader};
use hevc_refs::{RefPicList, RefPicSet};
use hevc_sequence_set::Sps;
use std::alloc::{AllocError, Global};

/// The sets and the header of a slice segment.
#[derive(Drop)]
pub struct KeptSegment {
    pub sps: Sps,
    pub pps: Pps,
    pub header: SliceHeader,
}

impl KeptSegment {
    /// Copies of what came with a slice segment.
    ///
    /// Errors: no memory.
    fn new(slice: &Slice<'_>, sps: &Sps, pps: &Pps) -> Result<KeptSegment, AllocError>
        ensures { IfOk result (λ s. kept_segment s ≡ segment_of slice.now sps.now pps.now) }
    {
        Ok(KeptSegment {
            sps: sps.try_clone()?,
            pps: *pps,
            header: slice.header.try_clone()?,
        })
    }
}

/// What is stored while a picture is decoded, in stored order.
#[derive(Drop)]
pub struct KeptDpb {
    pub entries: Vec<DpbEntry<u64>>,
    /// How many pictures it may hold.
    pub max_num_pics: usize,
}

impl KeptDpb {
    /// A copy of what is stored.
    ///
    /// Errors: no memory.
    fn new(alloc: Global, dpb: &Dpb<u64>) -> Result<KeptDpb, AllocError>
        ensures { IfOk result (λ d. kept_dpb d ≡ plain_dpb dpb.now) }
    {
        Ok(KeptDpb {
            entries: Vec::from_slice(alloc, dpb.entries())?,
            max_num_pics: dpb.max_num_pics(),
        })
    }
}

/// What came with a call that succeeded.
#[derive(Drop)]
pub enum Came {
    /// The sequence set whose format is negotiated.
    Sequence(Sps),
    /// A picture that begins.
    Announced {
        number: u64,
        picture: PictureData,
    },
    /// The same picture, with its first slice segment.
    Begun {
        number: u64,
        picture: PictureData,
        dpb: KeptDpb,
        segment: KeptSegment,
    },
    /// A slice segment of a picture.
    Decoded {
        number: u64,
        dpb: KeptDpb,
        segment: KeptSegment,
    },
}

/// A backend that keeps all that comes with its calls. None fails unless an allocation does, and
/// there is always a free frame.
#[derive(Drop)]
pub struct TellingBackend {
    alloc: Global,
    room: bool,
    /// How often it was asked for free frames, up to 2^64 - 1.
    pub asked: u64,
    pub came: Vec<Came>,
}

impl TellingBackend {
    /// A backend to which nothing came.
    pub fn new(alloc: Global) -> TellingBackend
        ensures { all_handed result.came.items ≡ [] }
    {
        TellingBackend {
            alloc,
            room: false,
            asked: 0,
            came: Vec::new(alloc),
        }
    }
}

impl StatelessH265DecoderBackend for TellingBackend {
    type Handle = u64;

    type Picture = ();

    ghost log = { λ _. None };

    ghost handed = { λ b. Some (all_handed b.came.items) };

    ghost counts = { λ _. counts_of 0 0 };

    ghost frames = { λ b. record { asked = Some b.asked; found = b.room } };

    ghost info = { λ _. None };

    ghost is_faultless = { λ _. Unit {0} };

    fn new_sequence(&mut self, sps: &Sps) -> Result<(), BackendError> {
        self.came.push(Came::Sequence(sps.try_clone()?))?;
        Ok(())
    }

    fn new_picture(
        &mut self,
        number: u64,
        picture: &PictureData,
        _timestamp: u64,
    ) -> Result<(), BackendError> {
        self.came.push(Came::Announced {
            number,
            picture: *picture,
        })?;
        self.room = false;
        Ok(())
    }

    fn begin_picture(
        &mut self,
        number: u64,
        _picture: &mut (),
        picture_data: &PictureData,
        sps: &Sps,
        pps: &Pps,
        dpb: &Dpb<u64>,
        _rps: &RefPicSet,
        slice: &Slice<'_>,
    ) -> Result<(), BackendError> {
        let dpb = KeptDpb::new(self.alloc, dpb)?;
        let segment = KeptSegment::new(slice, sps, pps)?;
        self.came.push(Came::Begun {
            number,
            picture: *picture_data,
            dpb,
            segment,
        })?;
        Ok(())
    }

    fn decode_slice(
        &mut self,
        number: u64,
        _picture: &mut (),
        slice: &Slice<'_>,
        sps: &Sps,
        pps: &Pps,
        dpb: &Dpb<u64>,
        _ref_pic_list0: &RefPicList,
        _ref_pic_list1: &RefPicList,
    ) -> Result<(), BackendError> {
        let dpb = KeptDpb::new(self.alloc, dpb)?;
        let segment = KeptSegment::new(slice, sps, pps)?;
        self.came.push(Came::Decoded {
            number,
            dpb,
            segment,
        })?;
        Ok(())
    }

    fn submit_picture(&mut self, number: u64, _picture: ()) -> Result<u64, BackendError> {
        Ok(number)
    }

    fn num_free_frames(&mut self) -> usize {
        self.room = true;
        self.asked = self.asked.saturating_add(1);
        16
    }

    fn stream_info(&self) -> Option<&StreamInfo> {
        None
    }
}
