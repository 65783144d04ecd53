//! Backends, each call once.
mod caller;
mod over_device;

use crate::expect::{expect, expect_eq, ok};
use caller::{First, decode_picture};
use hevc_backend::{
    Backend, BackendError, Call, Resolution, SilentBackend, StatelessH265DecoderBackend,
};
use hevc_bits::{Nalu, NaluHeader, NaluType};
use hevc_dpb::PictureData;
use hevc_picture_slice::{Pps, Slice, SliceHeader};
use hevc_sequence_set::Sps;
use over_device::{Device, OverDevice};
use std::alloc::Global;

/// A unit of an IDR picture after its start code.
const UNIT: &[u8] = &[0, 0, 1, 38, 1, 175, 128];

/// What picture 7 begins with, if the first unit of the stream is one.
fn first(alloc: Global, stream: &[u8]) -> Option<First<'_>> {
    let mut position = 0;
    match Nalu::<NaluHeader>::next(stream, &mut position) {
        Ok(nalu) => {
            let mut header = SliceHeader::new(alloc);
            header.segment_address = 3;
            let mut picture = PictureData::default();
            picture.nalu_type = NaluType::IdrWRadl;
            picture.pic_order_cnt_val = -4;
            picture.pic_output_flag = true;
            Some(First {
                number: 7,
                picture,
                slice: Slice::new(header, nalu),
                pps: Pps::new(),
            })
        }
        Err(_) => None,
    }
}

/// The first call is a sequence of one luma sample.
fn begins_sequence(calls: &[Call<u64>]) -> bool {
    match calls.first() {
        Some(Call::NewSequence { info }) => {
            info.coded_resolution
                == Resolution {
                    width: 1,
                    height: 1,
                }
        }
        _ => false,
    }
}

/// The second call is picture 7 with what is known of it.
fn begins_picture(calls: &[Call<u64>]) -> bool {
    match calls.get(1) {
        Some(
            Call::NewPicture {
                number: 7,
                nalu_type: NaluType::IdrWRadl,
                pic_order_cnt_val: -4,
                pic_output_flag: true,
                timestamp: 90000,
            },
        ) => true,
        _ => false,
    }
}

/// The third call is picture 7 without references.
fn names_no_references(calls: &[Call<u64>]) -> bool {
    match calls.get(2) {
        Some(
            Call::BeginPicture {
                number: 7,
                st_curr_before,
                lt_foll,
                ..
            },
        ) => st_curr_before.as_slice().is_empty() && lt_foll.as_slice().is_empty(),
        _ => false,
    }
}

/// The fourth call is the slice of picture 7, with its bytes and without lists.
fn has_slice(calls: &[Call<u64>]) -> bool {
    match calls.get(3) {
        Some(
            Call::DecodeSlice {
                number: 7,
                address: 3,
                bytes,
                list0,
                list1,
            },
        ) => {
            bytes.as_slice() == [38, 1, 175, 128].as_slice()
                && list0.as_slice().is_empty()
                && list1.as_slice().is_empty()
        }
        _ => false,
    }
}

/// The fifth call submits picture 7.
fn submits(calls: &[Call<u64>]) -> bool {
    match calls.get(4) {
        Some(
            Call::SubmitPicture {
                number: 7,
                handle: 0,
            },
        ) => true,
        _ => false,
    }
}

#[test]
fn each_call_is_recorded_once(rt: HostRuntime) {
    let rt = &rt;
    let alloc = rt.alloc();
    let mut backend = Backend::new(alloc);
    let sps = Sps::new(alloc);
    let first = ok(rt, first(alloc, UNIT).ok_or("no unit"));
    expect(
        rt,
        decode_picture(alloc, &mut backend, &sps, &first) == Ok(Some(0)),
    );
    let calls = backend.calls();
    expect_eq(rt, calls.len(), 5);
    expect(
        rt,
        begins_sequence(calls) && begins_picture(calls) && names_no_references(calls),
    );
    expect(rt, has_slice(calls) && submits(calls));
}

#[test]
fn a_planned_call_fails_and_is_not_recorded(rt: HostRuntime) {
    let rt = &rt;
    let alloc = rt.alloc();
    let mut backend = Backend::with_plan(
        alloc,
        ok(rt, vec![in alloc; 3]),
        ok(rt, vec![in alloc; 16, 0]),
    );
    let sps = Sps::new(alloc);
    let picture = PictureData::default();
    expect(rt, backend.new_sequence(&sps) == Ok(()));
    expect(rt, backend.new_picture(0, &picture, 0) == Ok(0));
    expect(
        rt,
        backend.submit_picture(0, 0) == Err(BackendError::Failed),
    );
    expect_eq(rt, backend.calls().len(), 2);
    expect(rt, backend.submit_picture(0, 0) == Ok(0));
    expect(rt, backend.submit_picture(1, 1) == Ok(1));
    expect_eq(rt, backend.calls().len(), 4);
}

#[test]
fn frames_are_those_of_the_plan(rt: HostRuntime) {
    let rt = &rt;
    let alloc = rt.alloc();
    let mut backend = Backend::with_plan(alloc, Vec::new(alloc), ok(rt, vec![in alloc; 16, 0]));
    expect_eq(rt, backend.num_free_frames(), 16);
    expect_eq(rt, backend.num_free_frames(), 0);
    expect_eq(rt, backend.num_free_frames(), 16);
    expect_eq(rt, backend.num_free_frames(), 16);
    expect(rt, backend.calls().is_empty());
}

#[test]
fn info_is_that_of_the_sequence(rt: HostRuntime) {
    let rt = &rt;
    let alloc = rt.alloc();
    let mut backend = Backend::with_plan(alloc, ok(rt, vec![in alloc; 1]), Vec::new(alloc));
    let sps = Sps::new(alloc);
    expect(rt, backend.stream_info().is_none());
    expect(rt, backend.new_sequence(&sps) == Err(BackendError::Failed));
    expect(rt, backend.stream_info().is_none());
    expect(rt, backend.new_sequence(&sps) == Ok(()));
    let one = Resolution {
        width: 1,
        height: 1,
    };
    let info = ok(rt, backend.stream_info().ok_or("no info"));
    expect(
        rt,
        info.coded_resolution == one && info.display_resolution == one,
    );
    expect_eq(rt, info.min_num_frames, sps.max_dpb_size() + 1);
}

#[test]
fn a_silent_backend_takes_all(rt: HostRuntime) {
    let rt = &rt;
    let alloc = rt.alloc();
    let mut backend = SilentBackend::new();
    let sps = Sps::new(alloc);
    let first = ok(rt, first(alloc, UNIT).ok_or("no unit"));
    expect(
        rt,
        decode_picture(alloc, &mut backend, &sps, &first) == Ok(Some(())),
    );
    expect(
        rt,
        backend.num_free_frames() != 0 && backend.stream_info().is_none(),
    );
}

/// A device that makes frames, and hands out so many.
#[derive(Drop)]
struct Frames {
    left: u32,
}

impl Device for Frames {
    fn make_frames(&mut self, width: u32, height: u32, count: usize) -> bool {
        width > 0 && height > 0 && count > 0
    }

    fn take_frame(&mut self, _timestamp: u64) -> Option<u32> {
        self.left = self.left.checked_sub(1)?;
        Some(self.left)
    }

    fn decode(&mut self, frame: u32, slice: &[u8]) -> bool {
        frame == self.left && slice.len() > 2
    }

    fn free_frames(&mut self) -> usize {
        self.left as usize
    }
}

#[test]
fn a_device_runs_out_of_frames(rt: HostRuntime) {
    let rt = &rt;
    let alloc = rt.alloc();
    let mut backend = OverDevice {
        device: Frames { left: 1 },
        faults: 0,
        empty_answers: 0,
        room: false,
        info: None,
    };
    let sps = Sps::new(alloc);
    let first = ok(rt, first(alloc, UNIT).ok_or("no unit"));
    expect(
        rt,
        decode_picture(alloc, &mut backend, &sps, &first) == Ok(Some(0)),
    );
    expect(rt, backend.stream_info().is_some());
    expect(
        rt,
        decode_picture(alloc, &mut backend, &sps, &first) == Ok(None),
    );
    expect(rt, backend.faults == 0 && backend.empty_answers == 1);
}
