//! A driver over a backend that fails at a planned call, or has no frame.
mod streams;

use crate::expect::{expect, expect_eq, ok};
use hevc_backend::{Backend, Call};
use hevc_driver::{DecodeError, Driver};
use hevc_sequence_set::Sps;
use streams::{IDR, close, give, slice, start};

/// The number of pictures that were output, and the number of the last one.
fn outputs(driver: &Driver<Backend>) -> (usize, Option<u64>) {
    let queue = &driver.standing.queue;
    (queue.len(), queue.back().map(|frame| frame.number))
}

#[test]
fn a_picture_is_begun_decoded_submitted_and_output(rt: HostRuntime) {
    let rt = &rt;
    let alloc = rt.alloc();
    let mut driver = Driver::new(alloc, Backend::new(alloc));
    let sps = Sps::new(alloc);
    expect(rt, start(&mut driver, &sps) == Ok(()));
    let mut idr = ok(rt, slice(alloc, IDR).ok_or("no unit"));
    expect(rt, give(&mut driver, 90000, &mut idr, &sps) == Ok(()));
    expect_eq(rt, driver.backend.calls().len(), 4);
    expect(rt, outputs(&driver) == (0, None));
    expect(rt, close(&mut driver) == Ok(()));
    let calls = driver.backend.calls();
    expect(
        rt,
        matches!(
            calls.get(1),
            Some(Call::NewPicture {
                number: 0,
                timestamp: 90000,
                ..
            })
        ),
    );
    expect(
        rt,
        matches!(calls.get(2), Some(Call::BeginPicture { number: 0, .. })),
    );
    expect(
        rt,
        matches!(calls.get(3), Some(Call::DecodeSlice { number: 0, .. })),
    );
    expect(
        rt,
        matches!(
            calls.get(4),
            Some(Call::SubmitPicture {
                number: 0,
                handle: 0
            })
        ),
    );
    expect(rt, outputs(&driver) == (1, Some(0)));
}

#[test]
fn a_backend_without_a_frame_is_asked_again(rt: HostRuntime) {
    let rt = &rt;
    let alloc = rt.alloc();
    let backend = Backend::with_plan(alloc, Vec::new(alloc), ok(rt, vec![in alloc; 0]));
    let mut driver = Driver::new(alloc, backend);
    let sps = Sps::new(alloc);
    let mut idr = ok(rt, slice(alloc, IDR).ok_or("no unit"));
    expect(rt, start(&mut driver, &sps) == Ok(()));
    let full = Err(DecodeError::NotEnoughOutputBuffers(1));
    expect(rt, give(&mut driver, 0, &mut idr, &sps) == full);
    expect_eq(rt, driver.backend.calls().len(), 1);
    expect(rt, give(&mut driver, 0, &mut idr, &sps) == Ok(()));
    expect_eq(rt, driver.standing.next.number, 1);
}

#[test]
fn a_failed_call_gives_the_picture_up_and_takes_its_number(rt: HostRuntime) {
    let rt = &rt;
    let alloc = rt.alloc();
    let backend = Backend::with_plan(alloc, ok(rt, vec![in alloc; 3]), Vec::new(alloc));
    let mut driver = Driver::new(alloc, backend);
    let sps = Sps::new(alloc);
    let mut idr = ok(rt, slice(alloc, IDR).ok_or("no unit"));
    expect(rt, start(&mut driver, &sps) == Ok(()));
    expect(
        rt,
        give(&mut driver, 0, &mut idr, &sps) == Err(DecodeError::Backend),
    );
    expect_eq(rt, driver.standing.next.number, 1);
    expect(rt, close(&mut driver) == Ok(()));
    expect(rt, outputs(&driver) == (0, None));
    expect_eq(rt, driver.backend.calls().len(), 2);
}

#[test]
fn a_dependent_slice_needs_an_independent_one(rt: HostRuntime) {
    let rt = &rt;
    let alloc = rt.alloc();
    let mut driver = Driver::new(alloc, Backend::new(alloc));
    let sps = Sps::new(alloc);
    let mut idr = ok(rt, slice(alloc, IDR).ok_or("no unit"));
    let mut dependent = ok(rt, slice(alloc, IDR).ok_or("no unit"));
    dependent.header.first_slice_segment_in_pic_flag = false;
    dependent.header.dependent_slice_segment_flag = true;
    expect(rt, start(&mut driver, &sps) == Ok(()));
    let alone = Err(DecodeError::NoIndependentSlice);
    expect(rt, give(&mut driver, 0, &mut dependent, &sps) == alone);
    expect(rt, give(&mut driver, 0, &mut idr, &sps) == Ok(()));
    expect(rt, give(&mut driver, 0, &mut dependent, &sps) == Ok(()));
    expect_eq(rt, driver.backend.calls().len(), 5);
}
