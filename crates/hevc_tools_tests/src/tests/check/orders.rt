//! What a check of display order answers.
use super::{no, yes};
use crate::tests::expect::{expect_eq, expect_fewer};
use crate::tests::streams::{
    CRA, DISCARDING_IDR, END_OF_BITSTREAM, END_OF_SEQUENCE, IDR, LARGE_SPS, LATENCY_SPS, P2, P4,
    P8, PPS, RASL4, RASL6, SMALL_BUFFER_SPS, SPS, T0, T1, T3, TRUNCATED, WIDE_SPS, stream,
};
use hevc_bits::STREAM_LIMIT;
use hevc_check::{Breach, CheckError, Checked, check_order};
use hevc_decoder::{DecodeError, Refused};
use std::alloc::Global;
use std::process::Abort;

/// The check of these units has this answer.
fn answers(rt: &impl Abort, alloc: Global, units: &[&[u8]], answer: Result<Checked, CheckError>) {
    let bytes = stream(rt, alloc, units);
    expect_fewer(rt, &bytes, STREAM_LIMIT);
    expect_eq(rt, check_order(alloc, &bytes), answer);
}

/// In so many sequences and pictures nothing is out of order.
fn passes(rt: &impl Abort, alloc: Global, units: &[&[u8]], sequences: u64, pictures: u64) {
    answers(rt, alloc, units, yes(sequences, pictures));
}

/// The picture of this number is the first that breaks the order, by this.
fn breaks(rt: &impl Abort, alloc: Global, units: &[&[u8]], number: u64, unit: u64, breach: Breach) {
    answers(rt, alloc, units, no(number, unit, breach));
}

#[test]
fn order_is_kept(rt: HostRuntime) {
    let rt = &rt;
    let alloc = rt.alloc();
    passes(rt, alloc, &[], 0, 0);
    passes(rt, alloc, &[SPS, PPS, IDR, P4, P2], 1, 3);
    passes(rt, alloc, &[SPS, PPS, IDR, CRA], 1, 2);
    passes(rt, alloc, &[SPS, PPS, IDR, WIDE_SPS, PPS, IDR], 2, 2);
    let ended: &[&[u8]] = &[SPS, PPS, IDR, P4, END_OF_BITSTREAM, CRA];
    passes(rt, alloc, ended, 2, 3);
    // A latency that is declared and kept, and a buffer that is filled in time.
    passes(rt, alloc, &[LATENCY_SPS, PPS, IDR, P4, P2], 1, 3);
    passes(rt, alloc, &[SMALL_BUFFER_SPS, PPS, IDR, P4, P2, P8], 1, 4);
    // Skipped pictures aren't output.
    passes(rt, alloc, &[SPS, PPS, CRA, RASL6, RASL4], 1, 3);
    passes(rt, alloc, &[SPS, PPS, CRA, RASL6, RASL6], 1, 3);
}

#[test]
fn a_picture_breaks_the_order(rt: HostRuntime) {
    let rt = &rt;
    let alloc = rt.alloc();
    let wide: &[&[u8]] = &[SPS, PPS, IDR, WIDE_SPS, PPS, P4];
    breaks(rt, alloc, wide, 1, 5, Breach::Changed);
    let late: &[&[u8]] = &[LATENCY_SPS, PPS, IDR, P4, P2, T3];
    breaks(rt, alloc, late, 3, 5, Breach::Latency);
    breaks(rt, alloc, &[SPS, PPS, IDR, T0], 1, 3, Breach::SameCount);
    let full: &[&[u8]] = &[SMALL_BUFFER_SPS, PPS, IDR, P4, P2, P8, T1];
    breaks(rt, alloc, full, 4, 6, Breach::Full);
    let discarding: &[&[u8]] = &[SPS, PPS, IDR, DISCARDING_IDR];
    breaks(rt, alloc, discarding, 1, 3, Breach::Discards);
    let ended: &[&[u8]] = &[SPS, PPS, IDR, P4, END_OF_SEQUENCE, CRA];
    breaks(rt, alloc, ended, 2, 5, Breach::Discards);
    let reordered: &[&[u8]] = &[SPS, PPS, IDR, P4, P8, P2];
    breaks(rt, alloc, reordered, 3, 5, Breach::Reorder);
}

#[test]
fn the_lowest_picture_is_named(rt: HostRuntime) {
    let rt = &rt;
    let alloc = rt.alloc();
    let later: &[&[u8]] = &[SPS, PPS, IDR, P4, P8, P2, T0];
    breaks(rt, alloc, later, 3, 5, Breach::Reorder);
    let both: &[&[u8]] = &[LATENCY_SPS, PPS, IDR, P4, P8, P2];
    breaks(rt, alloc, both, 3, 5, Breach::Latency);
}

#[test]
fn a_stream_that_is_refused_is_not_checked(rt: HostRuntime) {
    let rt = &rt;
    let alloc = rt.alloc();
    let refused = Refused {
        unit: 4,
        error: DecodeError::TruncatedNalu,
    };
    let units: &[&[u8]] = &[SPS, PPS, IDR, T0, TRUNCATED];
    answers(rt, alloc, units, Err(CheckError::Refused(refused)));
    let refused = Refused {
        unit: 9,
        error: DecodeError::DpbFull,
    };
    let units: &[&[u8]] = &[LARGE_SPS, PPS, IDR, T0, T0, T0, T0, T0, T0];
    answers(rt, alloc, units, Err(CheckError::Refused(refused)));
}
