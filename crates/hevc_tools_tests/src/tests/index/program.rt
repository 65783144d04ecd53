//! The program over streams in memory, from the words of the command line to the status.
use crate::tests::expect::{expect_eq, ok};
use crate::tests::runs::{self, Program};
use crate::tests::streams::{IDR, P4, PPS, SPS, TRUNCATED, stream};
use std::alloc::Global;
use std::process::Abort;

/// A run of the program in which nothing fails.
fn gives(rt: &impl Abort, alloc: Global, texts: &[&str], bytes: &[u8], status: u8, written: &[u8]) {
    runs::gives(rt, alloc, Program::Splicer, texts, bytes, status, written);
}

/// The words that ask for the points.
const NONE: &[&str] = &[];

#[test]
fn the_points_have_lines(rt: HostRuntime) {
    let rt = &rt;
    let alloc = rt.alloc();
    gives(rt, alloc, NONE, &[], 0, b"end points 0\n");
    let bytes = stream(rt, alloc, &[SPS, PPS, IDR, P4, IDR, P4]);
    let lines =
        b"point 0 unit 2 offset 41 type 19 poc 0\npoint 2 unit 4 offset 57 type 19 poc 0\nend points 2\n";
    gives(rt, alloc, NONE, &bytes, 0, lines);
}

#[test]
fn the_bytes_from_a_point_on_are_written(rt: HostRuntime) {
    let rt = &rt;
    let alloc = rt.alloc();
    let bytes = stream(rt, alloc, &[SPS, PPS, IDR, P4, IDR, P4]);
    let part = stream(rt, alloc, &[SPS, PPS, IDR, P4]);
    expect_eq(rt, part.len(), 54);
    gives(rt, alloc, &["splice", "2"], &bytes, 0, &part);
    gives(rt, alloc, &["splice", "0"], &bytes, 0, &bytes);
}

#[test]
fn no_point_has_a_line(rt: HostRuntime) {
    let rt = &rt;
    let alloc = rt.alloc();
    let bytes = stream(rt, alloc, &[SPS, PPS, IDR, P4, IDR, P4]);
    gives(rt, alloc, &["splice", "1"], &bytes, 7, b"no point 1\n");
    gives(rt, alloc, &["splice", "10"], &bytes, 7, b"no point 10\n");
    gives(rt, alloc, &["splice", "0"], &[], 7, b"no point 0\n");
    gives(
        rt,
        alloc,
        &["splice", "18446744073709551615"],
        &bytes,
        7,
        b"no point 18446744073709551615\n",
    );
}

#[test]
fn a_refused_stream_has_a_line(rt: HostRuntime) {
    let rt = &rt;
    let alloc = rt.alloc();
    let bytes = stream(rt, alloc, &[SPS, PPS, IDR, TRUNCATED]);
    let line = b"refused unit 3 TruncatedNalu\n";
    for texts in [NONE, &["splice", "0"], &["splice", "1"]] {
        gives(rt, alloc, texts, &bytes, 1, line);
    }
    let bytes = stream(rt, alloc, &[SPS, IDR]);
    gives(rt, alloc, NONE, &bytes, 1, b"refused unit 1 MissingPps 0\n");
    let unspecified: &[u8] = &[0x60, 0x01, 0x80];
    let bytes = stream(rt, alloc, &[SPS, unspecified]);
    let line = b"refused unit 1 InvalidNaluType 48\n";
    gives(rt, alloc, NONE, &bytes, 1, line);
    let no_temporal_id: &[u8] = &[0x26, 0x00, 0x80];
    let bytes = stream(rt, alloc, &[no_temporal_id]);
    let line = b"refused unit 0 OutOfRange 0 1\n";
    gives(rt, alloc, NONE, &bytes, 1, line);
}

#[test]
fn other_words_are_refused(rt: HostRuntime) {
    let alloc = rt.alloc();
    let bytes = stream(&rt, alloc, &[SPS, PPS, IDR]);
    for texts in [
        ["splice"].as_slice(),
        &[""],
        &["0"],
        &["index"],
        &["splice", ""],
        &["splice", "01"],
        &["splice", "00"],
        &["splice", "-1"],
        &["splice", "a"],
        &["splice", "1a"],
        &["splice", " 1"],
        &["splice", "18446744073709551616"],
        &["splice", "100000000000000000000"],
        &["cut", "0"],
        &["splice", "0", "0"],
    ] {
        gives(&rt, alloc, texts, &bytes, 2, &[]);
    }
}

#[test]
fn faults_have_their_statuses(rt: HostRuntime) {
    let rt = &rt;
    let alloc = rt.alloc();
    let bytes = stream(rt, alloc, &[SPS, PPS, IDR]);
    for texts in [NONE, &["splice", "0"], &["splice", "1"]] {
        for call in 1..3u64 {
            let reads = ok(rt, vec![in alloc; call]);
            runs::writes(
                rt,
                alloc,
                Program::Splicer,
                texts,
                &bytes,
                reads,
                Vec::new(alloc),
                3,
                &[],
            );
        }
        let first = ok(rt, vec![in alloc; 1]);
        runs::writes(
            rt,
            alloc,
            Program::Splicer,
            texts,
            &bytes,
            Vec::new(alloc),
            first,
            4,
            &[],
        );
    }
}
