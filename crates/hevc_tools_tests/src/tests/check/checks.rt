//! What a check of streams in memory answers.
use super::{no, yes};
use crate::tests::expect::{expect_eq, expect_fewer};
use crate::tests::streams::{
    CRA, DISCARDING_IDR, END_OF_BITSTREAM, END_OF_SEQUENCE, IDR, LARGE_SPS, LATENCY_SPS, P2, P4,
    P8, PPS, RASL4, RASL6, SMALL_BUFFER_SPS, SPS, T0, TRUNCATED, UNKNOWN_PPS_IDR, WIDE_SPS, stream,
};
use hevc_bits::STREAM_LIMIT;
use hevc_check::{Breach, CheckError, Checked, check_stream};
use hevc_decoder::{DecodeError, Refused};
use std::alloc::Global;
use std::process::Abort;

/// The check of these units has this answer.
fn answers(rt: &impl Abort, alloc: Global, units: &[&[u8]], answer: Result<Checked, CheckError>) {
    let bytes = stream(rt, alloc, units);
    expect_fewer(rt, &bytes, STREAM_LIMIT);
    expect_eq(rt, check_stream(alloc, &bytes), answer);
}

/// These units break nothing, and have so many sequences and pictures.
fn passes(rt: &impl Abort, alloc: Global, units: &[&[u8]], sequences: u64, pictures: u64) {
    answers(rt, alloc, units, yes(sequences, pictures));
}

/// Of these units the picture of this number breaks this.
fn breaks(rt: &impl Abort, alloc: Global, units: &[&[u8]], number: u64, unit: u64, breach: Breach) {
    answers(rt, alloc, units, no(number, unit, breach));
}

/// These units can't be decoded.
fn refuses(rt: &impl Abort, alloc: Global, units: &[&[u8]], unit: u64, error: DecodeError) {
    let refused = Refused { unit, error };
    answers(rt, alloc, units, Err(CheckError::Refused(refused)));
}

#[test]
fn bounds_are_kept(rt: HostRuntime) {
    let rt = &rt;
    let alloc = rt.alloc();
    passes(rt, alloc, &[], 0, 0);
    passes(rt, alloc, &[SPS, PPS], 0, 0);
    passes(rt, alloc, &[SPS, PPS, IDR, P4, P2], 1, 3);
    passes(rt, alloc, &[SPS, PPS, IDR, CRA], 1, 2);
    passes(rt, alloc, &[SPS, PPS, IDR, WIDE_SPS, PPS, IDR], 2, 2);
    passes(rt, alloc, &[SPS, PPS, DISCARDING_IDR], 1, 1);
    let ended: &[&[u8]] = &[SPS, PPS, IDR, P4, END_OF_BITSTREAM, CRA];
    passes(rt, alloc, ended, 2, 3);
}

#[test]
fn a_picture_breaks_a_bound(rt: HostRuntime) {
    let rt = &rt;
    let alloc = rt.alloc();
    breaks(
        rt,
        alloc,
        &[SPS, PPS, IDR, WIDE_SPS, PPS, P4],
        1,
        5,
        Breach::Changed,
    );
    breaks(rt, alloc, &[LATENCY_SPS, PPS, IDR], 0, 2, Breach::Latency);
    breaks(rt, alloc, &[SPS, PPS, IDR, T0], 1, 3, Breach::SameCount);
    let full: &[&[u8]] = &[SMALL_BUFFER_SPS, PPS, IDR, P4, P2, P8];
    breaks(rt, alloc, full, 3, 5, Breach::Full);
    breaks(
        rt,
        alloc,
        &[SPS, PPS, IDR, DISCARDING_IDR],
        1,
        3,
        Breach::Discards,
    );
    let ended: &[&[u8]] = &[SPS, PPS, IDR, P4, END_OF_SEQUENCE, CRA];
    breaks(rt, alloc, ended, 2, 5, Breach::Discards);
    breaks(
        rt,
        alloc,
        &[SPS, PPS, IDR, P4, P8, P2],
        3,
        5,
        Breach::Reorder,
    );
}

#[test]
fn the_lowest_picture_is_named(rt: HostRuntime) {
    let rt = &rt;
    let alloc = rt.alloc();
    let later: &[&[u8]] = &[SPS, PPS, IDR, P4, P8, P2, T0];
    breaks(rt, alloc, later, 3, 5, Breach::Reorder);
    let both: &[&[u8]] = &[SPS, PPS, IDR, P2, P4, P8, P2];
    breaks(rt, alloc, both, 4, 6, Breach::SameCount);
}

#[test]
fn skipped_pictures_are_looked_at(rt: HostRuntime) {
    let rt = &rt;
    let alloc = rt.alloc();
    passes(rt, alloc, &[SPS, PPS, CRA, RASL6, RASL4], 1, 3);
    breaks(
        rt,
        alloc,
        &[SPS, PPS, CRA, RASL6, RASL6],
        2,
        4,
        Breach::SameCount,
    );
    let wide: &[&[u8]] = &[SPS, PPS, CRA, WIDE_SPS, PPS, RASL6];
    breaks(rt, alloc, wide, 1, 5, Breach::Changed);
}

#[test]
fn a_stream_that_is_refused_is_not_checked(rt: HostRuntime) {
    let rt = &rt;
    let alloc = rt.alloc();
    refuses(rt, alloc, &[TRUNCATED], 0, DecodeError::TruncatedNalu);
    refuses(
        rt,
        alloc,
        &[SPS, PPS, UNKNOWN_PPS_IDR],
        2,
        DecodeError::MissingPps(5),
    );
    refuses(
        rt,
        alloc,
        &[SPS, PPS, IDR, T0, TRUNCATED],
        4,
        DecodeError::TruncatedNalu,
    );
    let full: &[&[u8]] = &[LARGE_SPS, PPS, IDR, T0, T0, T0, T0, T0, T0];
    refuses(rt, alloc, full, 9, DecodeError::DpbFull);
}
