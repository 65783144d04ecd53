//! What is decoded from extracted bytes, beside what is decoded from the whole.
ghost use Rattle.std.specs.Prelude.{◌≤◌};

use crate::tests::expect::{expect, expect_eq, ok};
use crate::tests::streams::{IDR, P4, PPS, SPS, UPPER_P2, stream};
use crate::tests::words::words_of;
use hevc_extract::extract;
use hevc_io::{MemorySink, MemorySource};
use hevc_report::run;
use hevc_stream_maker::make_stream;
use std::alloc::Global;
use std::process::Abort;

/// The report by `layer 0` on these bytes, which are decoded to their end.
fn report(rt: &impl Abort, alloc: Global, bytes: Vec<u8>) -> String {
    let words = words_of(rt, alloc, &["layer", "0"]);
    let mut source = MemorySource::new(bytes, Vec::new(alloc));
    let mut sink = MemorySink::new(alloc, Vec::new(alloc));
    expect_eq(rt, run(alloc, &words, &mut source, &mut sink), 0);
    let mut text = String::new(alloc);
    for byte in sink.written() {
        ok(rt, text.push(*byte as char));
    }
    text
}

/// A line but for its unit.
fn without_unit(line: &str) -> &str {
    match line.split_once(" unit ") {
        Some((front, _)) => front,
        None => line,
    }
}

/// By `layer 0` the same is reported on these bytes and on what is extracted from them, line for line
/// but for the units; there are so many lines.
fn are_alike(rt: &impl Abort, alloc: Global, bytes: Vec<u8>, lines: usize) {
    let mut out = Vec::new(alloc);
    expect(rt, extract(&bytes, 0, &mut out).is_ok());
    expect(rt, out.len() < bytes.len());
    let whole = report(rt, alloc, bytes);
    let part = report(rt, alloc, out);
    let mut others = part.lines();
    for line in whole.lines() {
        let other = others.next().unwrap_or("");
        expect_eq(rt, without_unit(other), without_unit(line));
    }
    expect(rt, others.next().is_none());
    expect_eq(rt, whole.lines().count(), lines);
}

/// The made stream of so many pictures, those of odd order counts in sub-layer 1. No picture refers
/// to them.
fn in_sub_layers(rt: &impl Abort, alloc: Global, pictures: u32) -> Vec<u8>
    requires { 1 ≤ pictures }
{
    let made = ok(rt, make_stream(alloc, pictures));
    let mut bytes = ok(rt, Vec::from_slice(alloc, &made));
    let mut number = 0u64;
    for place in 0..made.len() {
        let [0x00, 0x00, 0x01, 0x02, 0x01, ..] = &made[place..] else {
            continue;
        };
        if let (3 | 4 | 6 | 7, Some(byte)) = (number % 8, bytes.get_mut(place + 4)) {
            *byte = 0x02;
        }
        number = number.wrapping_add(1);
    }
    bytes
}

#[test]
fn lower_sub_layers_are_decoded_as_in_the_whole(rt: HostRuntime) {
    let rt = &rt;
    let alloc = rt.alloc();
    let bytes = stream(rt, alloc, &[SPS, PPS, IDR, UPPER_P2, P4, UPPER_P2]);
    are_alike(rt, alloc, bytes, 10);
    are_alike(rt, alloc, in_sub_layers(rt, alloc, 9), 22);
    are_alike(rt, alloc, in_sub_layers(rt, alloc, 41), 86);
}
