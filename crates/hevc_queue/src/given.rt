//! What the calls on a backend were given, for proofs alone: no code makes such a value.
use hevc_dpb::{Dpb, PictureData};
use hevc_picture_slice::{Pps, Slice};
use hevc_refs::{RefPicList, RefPicSet};
use hevc_sequence_set::Sps;

/// A picture whose slices come: its sets, the buffer, its reference picture set, and its first
/// slice segment.
#[derive(Drop)]
pub struct BegunPicture {
    pub number: u64,
    pub picture: PictureData,
    pub sps: Sps,
    pub pps: Pps,
    pub buffer: Dpb<u64>,
    pub reference_set: RefPicSet,
    pub slice: Slice<'static>,
}

/// A slice segment of a picture: its sets, the buffer, and its reference picture lists.
#[derive(Drop)]
pub struct GivenSlice {
    pub number: u64,
    pub slice: Slice<'static>,
    pub sps: Sps,
    pub pps: Pps,
    pub buffer: Dpb<u64>,
    pub list0: RefPicList,
    pub list1: RefPicList,
}

/// What a call was given.
#[derive(Drop)]
pub enum Given {
    Sequence(Sps),
    Picture {
        number: u64,
        picture: PictureData,
        timestamp: u64,
    },
    Begun(BegunPicture),
    Slice(GivenSlice),
    Submission(u64),
}
