//! The program over streams in memory, from the words of the command line to the status.
use crate::tests::expect::{expect_eq, ok};
use crate::tests::streams::{
    CRA, DISCARDING_IDR, END_OF_BITSTREAM, END_OF_SEQUENCE, IDR, LARGE_SPS, LATENCY_SPS, P2, P4,
    P8, PPS, SMALL_BUFFER_SPS, SPS, T0, TRUNCATED, UNKNOWN_PPS_IDR, WIDE_SPS, stream,
};
use crate::tests::words::words_of;
use hevc_check::run_check;
use hevc_io::{MemorySink, MemorySource};
use std::alloc::Global;
use std::process::Abort;

/// A run by these words over these units, whose reads and writes with these numbers fail, ends with
/// this status and writes this line.
fn writes(
    rt: &impl Abort,
    alloc: Global,
    texts: &[&str],
    units: &[&[u8]],
    reads: Vec<u64>,
    writes: Vec<u64>,
    status: u8,
    line: &str,
) {
    let words = words_of(rt, alloc, texts);
    let mut source = MemorySource::new(stream(rt, alloc, units), reads);
    let mut sink = MemorySink::new(alloc, writes);
    expect_eq(rt, run_check(alloc, &words, &mut source, &mut sink), status);
    expect_eq(rt, sink.written(), line.as_bytes());
}

/// A run by these words over these units, in which nothing fails.
fn gives(rt: &impl Abort, alloc: Global, texts: &[&str], units: &[&[u8]], status: u8, line: &str) {
    let none = Vec::new(alloc);
    writes(rt, alloc, texts, units, none, Vec::new(alloc), status, line);
}

/// The words by which the plainer bounds are checked, and display order.
const BOUNDS: &[&str] = &[];

const ORDER: &[&str] = &["order"];

#[test]
fn bounds_that_are_kept_have_a_line(rt: HostRuntime) {
    let rt = &rt;
    let alloc = rt.alloc();
    let line = "check yes sequences 0 pictures 0\n";
    gives(rt, alloc, BOUNDS, &[], 0, line);
    let units: &[&[u8]] = &[SPS, PPS, IDR, P4, P2];
    let line = "check yes sequences 1 pictures 3\n";
    gives(rt, alloc, BOUNDS, units, 0, line);
    let units: &[&[u8]] = &[SPS, PPS, IDR, WIDE_SPS, PPS, IDR];
    let line = "check yes sequences 2 pictures 2\n";
    gives(rt, alloc, BOUNDS, units, 0, line);
    let units: &[&[u8]] = &[SPS, PPS, IDR, P4, END_OF_BITSTREAM, CRA];
    let line = "check yes sequences 2 pictures 3\n";
    gives(rt, alloc, BOUNDS, units, 0, line);
}

#[test]
fn each_breach_has_its_name(rt: HostRuntime) {
    let rt = &rt;
    let alloc = rt.alloc();
    let units: &[&[u8]] = &[SPS, PPS, IDR, WIDE_SPS, PPS, P4];
    let line = "check no picture 1 unit 5 Changed\n";
    gives(rt, alloc, BOUNDS, units, 7, line);
    let units: &[&[u8]] = &[LATENCY_SPS, PPS, IDR];
    let line = "check no picture 0 unit 2 Latency\n";
    gives(rt, alloc, BOUNDS, units, 7, line);
    let units: &[&[u8]] = &[SPS, PPS, IDR, T0];
    let line = "check no picture 1 unit 3 SameCount\n";
    gives(rt, alloc, BOUNDS, units, 7, line);
    let units: &[&[u8]] = &[SMALL_BUFFER_SPS, PPS, IDR, P4, P2, P8];
    let line = "check no picture 3 unit 5 Full\n";
    gives(rt, alloc, BOUNDS, units, 7, line);
    let units: &[&[u8]] = &[SPS, PPS, IDR, P4, END_OF_SEQUENCE, CRA];
    let line = "check no picture 2 unit 5 Discards\n";
    gives(rt, alloc, BOUNDS, units, 7, line);
    let units: &[&[u8]] = &[SPS, PPS, IDR, P4, P8, P2];
    let line = "check no picture 3 unit 5 Reorder\n";
    gives(rt, alloc, BOUNDS, units, 7, line);
}

#[test]
fn order_is_checked_by_its_word(rt: HostRuntime) {
    let rt = &rt;
    let alloc = rt.alloc();
    let units: &[&[u8]] = &[LATENCY_SPS, PPS, IDR, P4, P2];
    let line = "check yes sequences 1 pictures 3\n";
    gives(rt, alloc, ORDER, units, 0, line);
    let line = "check no picture 0 unit 2 Latency\n";
    gives(rt, alloc, BOUNDS, units, 7, line);
    let units: &[&[u8]] = &[SPS, PPS, IDR, P4, P8, P2];
    let line = "check no picture 3 unit 5 Reorder\n";
    gives(rt, alloc, ORDER, units, 7, line);
    let line = "refused unit 3 TruncatedNalu\n";
    gives(rt, alloc, ORDER, &[SPS, PPS, IDR, TRUNCATED], 1, line);
}

#[test]
fn a_refused_stream_has_a_line(rt: HostRuntime) {
    let rt = &rt;
    let alloc = rt.alloc();
    let units: &[&[u8]] = &[SPS, PPS, IDR, T0, TRUNCATED];
    let line = "refused unit 4 TruncatedNalu\n";
    gives(rt, alloc, BOUNDS, units, 1, line);
    let units: &[&[u8]] = &[SPS, PPS, UNKNOWN_PPS_IDR];
    let line = "refused unit 2 MissingPps 5\n";
    gives(rt, alloc, BOUNDS, units, 1, line);
    let units: &[&[u8]] = &[LARGE_SPS, PPS, IDR, T0, T0, T0, T0, T0, T0];
    let line = "refused unit 9 DpbFull\n";
    gives(rt, alloc, BOUNDS, units, 1, line);
    let no_temporal_id: &[u8] = &[0x26, 0x00, 0x80];
    let line = "refused unit 0 OutOfRange 0 1\n";
    gives(rt, alloc, BOUNDS, &[no_temporal_id], 1, line);
}

#[test]
fn other_words_are_refused(rt: HostRuntime) {
    let alloc = rt.alloc();
    let units: &[&[u8]] = &[SPS, PPS, IDR];
    for texts in [
        [""].as_slice(),
        &["bounds"],
        &["0"],
        &["Order"],
        &["order", "order"],
    ] {
        gives(&rt, alloc, texts, units, 2, "");
    }
}

#[test]
fn faults_have_their_statuses(rt: HostRuntime) {
    let rt = &rt;
    let alloc = rt.alloc();
    for units in [[SPS, PPS, IDR].as_slice(), &[SPS, PPS, IDR, DISCARDING_IDR]] {
        for call in 1..3u64 {
            let reads = ok(rt, vec![in alloc; call]);
            writes(rt, alloc, BOUNDS, units, reads, Vec::new(alloc), 3, "");
        }
        let first = ok(rt, vec![in alloc; 1]);
        writes(rt, alloc, BOUNDS, units, Vec::new(alloc), first, 4, "");
    }
}
