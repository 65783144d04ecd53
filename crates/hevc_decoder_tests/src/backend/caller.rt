//! A caller over any backend.
use hevc_backend::{BackendError, StatelessH265DecoderBackend};
use hevc_dpb::{Dpb, PictureData};
use hevc_picture_slice::{Pps, Slice};
use hevc_refs::{RefPicSet, ReferencePicLists};
use hevc_sequence_set::Sps;
use std::alloc::Global;

/// What a picture begins with.
#[derive(Drop)]
pub(crate) struct First<'a> {
    pub number: u64,
    pub picture: PictureData,
    pub slice: Slice<'a>,
    pub pps: Pps,
}

/// A sequence of one picture of one slice, without references. None where there is no free frame, or where the sets aren't
/// those that the slice means.
pub(crate) fn decode_picture<B: StatelessH265DecoderBackend>(
    alloc: Global,
    backend: &mut B,
    sps: &Sps,
    first: &First<'_>,
) -> Result<Option<B::Handle>, BackendError> {
    let (slice, pps) = (&first.slice, &first.pps);
    if pps.pic_parameter_set_id != slice.header.pic_parameter_set_id {
        return Ok(None);
    }
    if sps.seq_parameter_set_id != pps.seq_parameter_set_id {
        return Ok(None);
    }
    backend.new_sequence(sps)?;
    if backend.num_free_frames() == 0 {
        return Ok(None);
    }
    let (number, data) = (first.number, &first.picture);
    let dpb = Dpb::new(alloc);
    let mut picture = backend.new_picture(number, data, 90000)?;
    let rps = RefPicSet::new();
    backend.begin_picture(number, &mut picture, data, sps, pps, &dpb, &rps, slice)?;
    let lists = ReferencePicLists::new();
    let (list0, list1) = (&lists.ref_pic_list0, &lists.ref_pic_list1);
    backend.decode_slice(number, &mut picture, slice, sps, pps, &dpb, list0, list1)?;
    Ok(Some(backend.submit_picture(number, picture)?))
}
