//! The program over streams in memory, from the words of the command line to the status.
use crate::tests::expect::{expect_eq, ok};
use crate::tests::runs::{self, Program};
use crate::tests::streams::{IDR, P4, PPS, SPS, TRUNCATED, UPPER_P2, stream};
use std::alloc::Global;
use std::process::Abort;

/// A run of the program in which nothing fails.
fn gives(rt: &impl Abort, alloc: Global, texts: &[&str], bytes: &[u8], status: u8, written: &[u8]) {
    runs::gives(rt, alloc, Program::Extractor, texts, bytes, status, written);
}

#[test]
fn the_bytes_alone_are_written(rt: HostRuntime) {
    let rt = &rt;
    let alloc = rt.alloc();
    let bytes = stream(rt, alloc, &[SPS, PPS, IDR, P4, UPPER_P2]);
    let lower = stream(rt, alloc, &[SPS, PPS, IDR, P4]);
    expect_eq(rt, lower.len(), 54);
    gives(rt, alloc, &["0"], &bytes, 0, &lower);
    gives(rt, alloc, &["1"], &bytes, 0, &bytes);
    gives(rt, alloc, &["6"], &bytes, 0, &bytes);
    gives(rt, alloc, &["0"], &[], 0, &[]);
    let upper = stream(rt, alloc, &[UPPER_P2]);
    gives(rt, alloc, &["0"], &upper, 0, &[]);
}

#[test]
fn layers_are_a_second_word(rt: HostRuntime) {
    let rt = &rt;
    let alloc = rt.alloc();
    let of_layer_62: &[u8] = &[0x03, 0xf1, 0xd2];
    let of_layer_63: &[u8] = &[0x03, 0xf9, 0xd2];
    let bytes = stream(rt, alloc, &[IDR, of_layer_62, of_layer_63]);
    let base = stream(rt, alloc, &[IDR]);
    for top in ["0", "9", "10", "61"] {
        gives(rt, alloc, &["0", top], &bytes, 0, &base);
    }
    let lower = stream(rt, alloc, &[IDR, of_layer_62]);
    gives(rt, alloc, &["0", "62"], &bytes, 0, &lower);
    gives(rt, alloc, &["0"], &bytes, 0, &bytes);
}

#[test]
fn a_refused_unit_has_a_line(rt: HostRuntime) {
    let rt = &rt;
    let alloc = rt.alloc();
    let line = b"refused unit 0 TruncatedNalu\n";
    gives(rt, alloc, &["0"], &[0x00, 0x00, 0x01, 0x42], 1, line);
    let unspecified: &[u8] = &[0x60, 0x01, 0x80];
    let no_temporal_id: &[u8] = &[0x26, 0x00, 0x80];
    let bytes = stream(rt, alloc, &[SPS, UPPER_P2, unspecified, TRUNCATED]);
    let line = b"refused unit 2 InvalidNaluType 48\n";
    gives(rt, alloc, &["0", "0"], &bytes, 1, line);
    let bytes = stream(rt, alloc, &[SPS, no_temporal_id]);
    gives(
        rt,
        alloc,
        &["6"],
        &bytes,
        1,
        b"refused unit 1 TemporalIdZero\n",
    );
}

#[test]
fn other_words_are_refused(rt: HostRuntime) {
    let rt = &rt;
    let alloc = rt.alloc();
    let bytes = stream(rt, alloc, &[IDR]);
    let none: &[&str] = &[];
    gives(rt, alloc, none, &bytes, 2, &[]);
    for word in ["", "7", "00", "06", "a", "-1", "layer"] {
        gives(rt, alloc, &[word], &bytes, 2, &[]);
        gives(rt, alloc, &[word, "0"], &bytes, 2, &[]);
    }
    for word in ["", "63", "64", "00", "05", "100", "6a", "a", "0 "] {
        gives(rt, alloc, &["0", word], &bytes, 2, &[]);
    }
    gives(rt, alloc, &["0", "0", "0"], &bytes, 2, &[]);
}

#[test]
fn faults_have_their_statuses(rt: HostRuntime) {
    let rt = &rt;
    let alloc = rt.alloc();
    let bytes = stream(rt, alloc, &[SPS, PPS, IDR]);
    for call in 1..3u64 {
        let reads = ok(rt, vec![in alloc; call]);
        runs::writes(
            rt,
            alloc,
            Program::Extractor,
            &["0"],
            &bytes,
            reads,
            Vec::new(alloc),
            3,
            &[],
        );
    }
    let first = ok(rt, vec![in alloc; 1]);
    runs::writes(
        rt,
        alloc,
        Program::Extractor,
        &["0"],
        &bytes,
        Vec::new(alloc),
        first,
        4,
        &[],
    );
    let first = ok(rt, vec![in alloc; 1]);
    let truncated = stream(rt, alloc, &[TRUNCATED]);
    runs::writes(
        rt,
        alloc,
        Program::Extractor,
        &["0"],
        &truncated,
        Vec::new(alloc),
        first,
        4,
        &[],
    );
}
