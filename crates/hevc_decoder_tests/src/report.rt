//! Streams of the worked units, from the words of the command line and the bytes to the report.
use crate::expect::{expect, expect_eq, ok};
use hevc_io::{MemorySink, MemorySource, Word};
use hevc_report::run;
use hevc_stream_maker::make_stream;
use hevc_worked_units::units::{
    CRA, DISCARDING_IDR, END_OF_BITSTREAM, END_OF_SEQUENCE, IDR, LARGE_SPS, P2, P4, P8, PPS, SPS,
    T0, UPPER_P2, WIDE_SPS,
};
use std::alloc::Global;
use std::process::Abort;

/// With 10 bits of luma.
const TEN_BIT_LUMA: &[u8] = &[
    0x42, 0x01, 0x01, 0x01, 0x60, 0x00, 0x00, 0x03, 0x00, 0x90, 0x00, 0x00, 0x03, 0x00, 0x00, 0x03,
    0x00, 0x3c, 0xa0, 0x88, 0x44, 0xf9, 0x56, 0xaf, 0x08, 0x20,
];

/// With `scaling_list_enabled_flag`, and no lists of its own.
const SCALING_LISTS_ENABLED: &[u8] = &[
    0x42, 0x01, 0x01, 0x01, 0x60, 0x00, 0x00, 0x03, 0x00, 0x90, 0x00, 0x00, 0x03, 0x00, 0x00, 0x03,
    0x00, 0x3c, 0xa0, 0x88, 0x45, 0xe5, 0x5a, 0xbe, 0x10, 0x40, 0x00,
];

/// With eight sub-layers, and no more.
const EIGHT_SUB_LAYERS: &[u8] = &[0x42, 0x01, 0x0f, 0x80];

/// With a level that isn't one of those of Annex A, and no more.
const LEVEL_61: &[u8] = &[
    0x42, 0x01, 0x01, 0x01, 0x60, 0x00, 0x00, 0x03, 0x00, 0x90, 0x00, 0x00, 0x03, 0x00, 0x00, 0x03,
    0x00, 0x3d,
];

/// With a latency of 256.
const LATENCY_256: &[u8] = &[
    0x42, 0x01, 0x01, 0x01, 0x60, 0x00, 0x00, 0x03, 0x00, 0x90, 0x00, 0x00, 0x03, 0x00, 0x00, 0x03,
    0x00, 0x3c, 0xa0, 0x88, 0x45, 0xe5, 0x40, 0x10, 0x18,
];

const VPS: &[u8] = &[
    0x40, 0x01, 0x0c, 0x01, 0xff, 0xff, 0x01, 0x60, 0x00, 0x00, 0x03, 0x00, 0x90, 0x00, 0x00, 0x03,
    0x00, 0x00, 0x03, 0x00, 0x3c, 0x95, 0x40, 0x90,
];

/// With `dependent_slice_segments_enabled_flag`.
const DEPENDENT_SLICES_PPS: &[u8] = &[0x44, 0x01, 0xe0, 0x71, 0x80, 0x12];

/// With `output_flag_present_flag`.
const OUTPUT_FLAG_PPS: &[u8] = &[0x44, 0x01, 0xd0, 0x71, 0x80, 0x12];

/// With `pps_curr_pic_ref_enabled_flag`.
const CURRENT_PICTURE_PPS: &[u8] = &[0x44, 0x01, 0xc0, 0x71, 0x80, 0x14, 0x42, 0x40];

/// An IDR picture whose `pic_output_flag` is 0.
const HIDDEN_IDR: &[u8] = &[0x26, 0x01, 0xad, 0x80];

/// A slice of an IDR picture without `first_slice_segment_in_pic_flag`.
const LATER_SLICE: &[u8] = &[0x26, 0x01, 0x2f, 0x80];

/// A P slice of an IDR picture.
const P_SLICE: &[u8] = &[0x26, 0x01, 0xa9, 0xc0, 0x80];

/// A B slice of an IDR picture.
const B_SLICE: &[u8] = &[0x26, 0x01, 0xb3, 0x80, 0x80];

/// An IDR slice whose SliceQpY is -6, which 10 bits of luma allow, and 8 bits don't.
const QUANTISER_MINUS_6: &[u8] = &[0x26, 0x01, 0xac, 0x08, 0x30, 0x80];

/// A dependent slice of an IDR picture.
const DEPENDENT_SLICE: &[u8] = &[0x26, 0x01, 0x38, 0x80];

/// The same in layer 1.
const LAYER_1_P2: &[u8] = &[0x02, 0x09, 0xd1, 0x12, 0x55, 0x70, 0x80];

/// A B picture of order count 2, which refers to 0 and 4.
const B2: &[u8] = &[0x02, 0x01, 0xe4, 0x49, 0x54, 0xe0, 0x80];

const START: &[u8] = &[0x00, 0x00, 0x01];

const SEQ: &str = "seq 16x16 profile 1 depth 8 8 chroma 1 buffer 16\n";

const PICTURE_0: &str =
    "pic 0 type 19 poc 0 output 1\nslice 0 at 0 size 4 list0 - list1 -\nsubmit 0 handle 0\n";

const PICTURE_1: &str =
    "pic 1 type 19 poc 0 output 1\nslice 1 at 0 size 4 list0 - list1 -\nsubmit 1 handle 1\n";

const PICTURE_2: &str =
    "pic 2 type 19 poc 0 output 1\nslice 2 at 0 size 4 list0 - list1 -\nsubmit 2 handle 2\n";

const PICTURE_3: &str =
    "pic 3 type 19 poc 0 output 1\nslice 3 at 0 size 4 list0 - list1 -\nsubmit 3 handle 3\n";

const PICTURE_4: &str =
    "pic 4 type 19 poc 0 output 1\nslice 4 at 0 size 4 list0 - list1 -\nsubmit 4 handle 4\n";

/// An IDR picture 0 that isn't whole.
const BEGUN_0: &str = "pic 0 type 19 poc 0 output 1\nslice 0 at 0 size 4 list0 - list1 -\n";

const P4_1: &str =
    "pic 1 type 1 poc 4 output 1\nslice 1 at 0 size 6 list0 0 list1 -\nsubmit 1 handle 1\n";

/// The same, not whole.
const BEGUN_P4: &str = "pic 1 type 1 poc 4 output 1\nslice 1 at 0 size 6 list0 0 list1 -\n";

const P2_2: &str =
    "pic 2 type 1 poc 2 output 1\nslice 2 at 0 size 7 list0 0 list1 -\nsubmit 2 handle 2\n";

const UPPER_P2_2: &str =
    "pic 2 type 2 poc 2 output 1\nslice 2 at 0 size 7 list0 0 list1 -\nsubmit 2 handle 2\n";

const B2_2: &str =
    "pic 2 type 1 poc 2 output 1\nslice 2 at 0 size 7 list0 0 list1 1\nsubmit 2 handle 2\n";

/// The units, each after this start code.
fn joined(rt: &impl Abort, alloc: Global, start: &[u8], units: &[&[u8]]) -> Vec<u8> {
    let mut bytes = Vec::new(alloc);
    for unit in units {
        ok(rt, bytes.extend_from_slice(start));
        ok(rt, bytes.extend_from_slice(unit));
    }
    bytes
}

/// The units, each after 00 00 01.
fn stream(rt: &impl Abort, alloc: Global, units: &[&[u8]]) -> Vec<u8> {
    joined(rt, alloc, START, units)
}

/// The words of a command line.
fn words_of(rt: &impl Abort, alloc: Global, texts: &[&str]) -> Vec<Word> {
    let mut words = Vec::new(alloc);
    for text in texts {
        let word = Word::new(ok(rt, Vec::from_slice(alloc, text.as_bytes())));
        ok(rt, words.push(word));
    }
    words
}

/// A run by these words over these bytes ends with this status. Gives what it wrote.
fn written_by(
    rt: &impl Abort,
    alloc: Global,
    texts: &[&str],
    bytes: Vec<u8>,
    status: u8,
) -> MemorySink {
    let words = words_of(rt, alloc, texts);
    let mut source = MemorySource::new(bytes, Vec::new(alloc));
    let mut sink = MemorySink::new(alloc, Vec::new(alloc));
    expect_eq(rt, run(alloc, &words, &mut source, &mut sink), status);
    sink
}

/// A run by no words over these bytes ends with this status, and writes these pieces of text.
fn reports_on(rt: &impl Abort, alloc: Global, bytes: Vec<u8>, status: u8, text: &[&str]) {
    let mut expected = String::new(alloc);
    for piece in text {
        ok(rt, expected.push_str(piece));
    }
    let sink = written_by(rt, alloc, &[], bytes, status);
    expect_eq(rt, sink.written(), expected.as_bytes());
}

/// The same over these units.
fn reports(rt: &impl Abort, alloc: Global, units: &[&[u8]], status: u8, text: &[&str]) {
    let bytes = stream(rt, alloc, units);
    reports_on(rt, alloc, bytes, status, text);
}

/// A run by these words over these bytes ends with this status, and what it writes ends so.
fn ends_on(rt: &impl Abort, alloc: Global, texts: &[&str], bytes: Vec<u8>, status: u8, end: &str) {
    let sink = written_by(rt, alloc, texts, bytes, status);
    expect(rt, sink.written().ends_with(end.as_bytes()));
}

/// The same over these units.
fn ends(rt: &impl Abort, alloc: Global, texts: &[&str], units: &[&[u8]], status: u8, end: &str) {
    let bytes = stream(rt, alloc, units);
    ends_on(rt, alloc, texts, bytes, status, end);
}

#[test]
fn pictures_come_out_in_output_order(rt: HostRuntime) {
    let rt = &rt;
    let alloc = rt.alloc();
    let end =
        "show 0 poc 0 unit 4\nshow 2 poc 2 unit 5\nshow 1 poc 4 unit 5\nend pictures 3 shown 3\n";
    reports(
        rt,
        alloc,
        &[SPS, PPS, IDR, P4, P2],
        0,
        &[SEQ, PICTURE_0, P4_1, P2_2, end],
    );
    let end = "show 0 poc 0 unit 4\nshow 1 poc 0 unit 4\nend pictures 2 shown 2\n";
    ends(rt, alloc, &[], &[SPS, PPS, IDR, T0], 0, end);
    let end = "show 0 poc 0 unit 3\nend pictures 1 shown 1\n";
    reports(rt, alloc, &[SPS, PPS, IDR], 0, &[SEQ, PICTURE_0, end]);
    reports(rt, alloc, &[PPS, SPS, IDR], 0, &[SEQ, PICTURE_0, end]);
    let end = "show 0 poc 0 unit 4\nend pictures 1 shown 1\n";
    reports(rt, alloc, &[VPS, SPS, PPS, IDR], 0, &[SEQ, PICTURE_0, end]);
}

#[test]
fn what_waits_at_a_refused_unit_is_not_shown(rt: HostRuntime) {
    let rt = &rt;
    let refused = "refused unit 4 OutOfBits\n";
    for length in 59..=62 {
        let mut bytes = stream(rt, rt.alloc(), &[SPS, PPS, IDR, P4, P2]);
        bytes.truncate(length);
        let text = [SEQ, PICTURE_0, BEGUN_P4, refused];
        reports_on(rt, rt.alloc(), bytes, 1, &text);
    }
    let refused = "refused unit 4 MissingPps 1\n";
    let other_set: &[u8] = &[0x26, 0x01, 0x97, 0x80];
    reports(
        rt,
        rt.alloc(),
        &[SPS, PPS, IDR, P4, other_set],
        1,
        &[SEQ, PICTURE_0, BEGUN_P4, refused],
    );
}

#[test]
fn a_stream_of_an_encoder_is_decoded(rt: HostRuntime) {
    let alloc = rt.alloc();
    let message: &[u8] = &[
        0x4e, 0x01, 0x05, 0x10, 0xa5, 0xa5, 0xa5, 0xa5, 0xa5, 0xa5, 0xa5, 0xa5, 0xa5, 0xa5, 0xa5,
        0xa5, 0xa5, 0xa5, 0xa5, 0xa5, 0x80,
    ];
    let units = [VPS, SPS, PPS, message, IDR, P4, B2];
    let bytes = joined(&rt, alloc, &[0x00, 0x00, 0x00, 0x01], &units);
    let end =
        "show 0 poc 0 unit 6\nshow 2 poc 2 unit 7\nshow 1 poc 4 unit 7\nend pictures 3 shown 3\n";
    reports_on(&rt, alloc, bytes, 0, &[SEQ, PICTURE_0, P4_1, B2_2, end]);
}

#[test]
fn reference_lists_are_printed(rt: HostRuntime) {
    let rt = &rt;
    let alloc = rt.alloc();
    let missing: &[u8] = &[0x02, 0x01, 0xd2, 0x37, 0x80];
    let picture =
        "pic 1 type 1 poc 4 output 1\nslice 1 at 0 size 5 list0 x list1 -\nsubmit 1 handle 1\n";
    let end = "show 0 poc 0 unit 4\nshow 1 poc 4 unit 4\nend pictures 2 shown 2\n";
    reports(
        rt,
        alloc,
        &[SPS, PPS, IDR, missing],
        0,
        &[SEQ, PICTURE_0, picture, end],
    );
    let picture =
        "pic 2 type 1 poc 8 output 1\nslice 2 at 0 size 8 list0 1,0 list1 -\nsubmit 2 handle 2\n";
    let end =
        "show 0 poc 0 unit 4\nshow 1 poc 4 unit 5\nshow 2 poc 8 unit 5\nend pictures 3 shown 3\n";
    reports(
        rt,
        alloc,
        &[SPS, PPS, IDR, P4, P8],
        0,
        &[SEQ, PICTURE_0, P4_1, picture, end],
    );
    let picture =
        "pic 0 type 19 poc 0 output 1\nslice 0 at 0 size 5 list0 x list1 x\nsubmit 0 handle 0\n";
    let end = "show 0 poc 0 unit 3\nend pictures 1 shown 1\n";
    reports(rt, alloc, &[SPS, PPS, B_SLICE], 0, &[SEQ, picture, end]);
    let picture =
        "pic 0 type 19 poc 0 output 1\nslice 0 at 0 size 5 list0 c list1 -\nsubmit 0 handle 0\n";
    reports(
        rt,
        alloc,
        &[SPS, CURRENT_PICTURE_PPS, P_SLICE],
        0,
        &[SEQ, picture, end],
    );
}

#[test]
fn pictures_are_shown_or_discarded(rt: HostRuntime) {
    let rt = &rt;
    let alloc = rt.alloc();
    let end = "show 1 poc 0 unit 4\nend pictures 2 shown 1\n";
    reports(
        rt,
        alloc,
        &[SPS, PPS, IDR, DISCARDING_IDR],
        0,
        &[SEQ, PICTURE_0, PICTURE_1, end],
    );
    let end = "show 1 poc 0 unit 4\nshow 2 poc 0 unit 5\nend pictures 3 shown 2\n";
    reports(
        rt,
        alloc,
        &[SPS, PPS, IDR, DISCARDING_IDR, IDR],
        0,
        &[SEQ, PICTURE_0, PICTURE_1, PICTURE_2, end],
    );
    let shown = "show 0 poc 0 unit 3\nshow 2 poc 0 unit 5\nshow 4 poc 0 unit 7\n";
    reports(
        rt,
        alloc,
        &[SPS, PPS, IDR, IDR, DISCARDING_IDR, IDR, DISCARDING_IDR],
        0,
        &[
            SEQ,
            PICTURE_0,
            PICTURE_1,
            PICTURE_2,
            PICTURE_3,
            PICTURE_4,
            shown,
            "end pictures 5 shown 3\n",
        ],
    );
}

#[test]
fn hidden_pictures_are_not_shown(rt: HostRuntime) {
    let alloc = rt.alloc();
    let picture =
        "pic 0 type 19 poc 0 output 0\nslice 0 at 0 size 4 list0 - list1 -\nsubmit 0 handle 0\n";
    let end = "end pictures 1 shown 0\n";
    reports(
        &rt,
        alloc,
        &[SPS, OUTPUT_FLAG_PPS, HIDDEN_IDR],
        0,
        &[SEQ, picture, end],
    );
}

#[test]
fn leading_pictures_are_skipped(rt: HostRuntime) {
    let alloc = rt.alloc();
    let skipped: &[u8] = &[0x12, 0x01, 0xdb, 0x3c, 0x80];
    let later: &[u8] = &[0x12, 0x01, 0x5b, 0x3c, 0x80];
    let second: &[u8] = &[0x12, 0x01, 0xda, 0x3c, 0x80];
    let picture =
        "pic 0 type 21 poc 8 output 1\nslice 0 at 0 size 5 list0 - list1 -\nsubmit 0 handle 0\n";
    let end = "show 0 poc 8 unit 6\nend pictures 3 shown 1\n";
    reports(
        &rt,
        alloc,
        &[SPS, PPS, CRA, skipped, later, second],
        0,
        &[SEQ, picture, end],
    );
}

#[test]
fn sequences_and_bitstreams_end(rt: HostRuntime) {
    let rt = &rt;
    let alloc = rt.alloc();
    let end = "show 0 poc 0 unit 5\nshow 2 poc 8 unit 6\nend pictures 3 shown 2\n";
    ends(
        rt,
        alloc,
        &[],
        &[SPS, PPS, IDR, P4, END_OF_SEQUENCE, CRA],
        0,
        end,
    );
    let end =
        "show 0 poc 0 unit 5\nshow 1 poc 4 unit 5\nshow 2 poc 8 unit 6\nend pictures 3 shown 3\n";
    ends(
        rt,
        alloc,
        &[],
        &[SPS, PPS, IDR, P4, END_OF_BITSTREAM, CRA],
        0,
        end,
    );
}

#[test]
fn a_changed_format_is_negotiated(rt: HostRuntime) {
    let rt = &rt;
    let alloc = rt.alloc();
    let sequence = "seq 32x16 profile 1 depth 8 8 chroma 1 buffer 16\n";
    let end = "show 0 poc 0 unit 5\nshow 1 poc 0 unit 6\nend pictures 2 shown 2\n";
    reports(
        rt,
        alloc,
        &[SPS, PPS, IDR, WIDE_SPS, PPS, IDR],
        0,
        &[SEQ, PICTURE_0, sequence, PICTURE_1, end],
    );
    // What is needed for output is output as the format changes, before a picture could discard it.
    let units = [SPS, PPS, IDR, P4, TEN_BIT_LUMA, PPS, DISCARDING_IDR];
    let sequence = "seq 16x16 profile 1 depth 10 8 chroma 1 buffer 16\n";
    let end =
        "show 0 poc 0 unit 6\nshow 1 poc 4 unit 6\nshow 2 poc 0 unit 7\nend pictures 3 shown 3\n";
    reports(
        rt,
        alloc,
        &units,
        0,
        &[SEQ, PICTURE_0, P4_1, sequence, PICTURE_2, end],
    );
    let end = "refused unit 5 ChangedMidPicture\n";
    reports(
        rt,
        alloc,
        &[
            SPS,
            PPS,
            IDR,
            WIDE_SPS,
            PPS,
            &[0x26, 0x01, 0x37, 0x80, 0x80],
        ],
        1,
        &[SEQ, BEGUN_0, end],
    );
}

#[test]
fn a_picture_has_several_slices(rt: HostRuntime) {
    let rt = &rt;
    let alloc = rt.alloc();
    let begun = "slice 0 at 0 size 4 list0 - list1 -\nsubmit 0 handle 0\n";
    let end = "show 0 poc 0 unit 4\nend pictures 1 shown 1\n";
    reports(
        rt,
        alloc,
        &[SPS, PPS, IDR, LATER_SLICE],
        0,
        &[SEQ, BEGUN_0, begun, end],
    );
    reports(
        rt,
        alloc,
        &[SPS, DEPENDENT_SLICES_PPS, IDR, DEPENDENT_SLICE],
        0,
        &[SEQ, BEGUN_0, begun, end],
    );
    let end = "refused unit 2 NoIndependentSlice\n";
    reports(
        rt,
        alloc,
        &[SPS, DEPENDENT_SLICES_PPS, DEPENDENT_SLICE],
        1,
        &[SEQ, end],
    );
}

#[test]
fn a_full_buffer_is_refused(rt: HostRuntime) {
    let alloc = rt.alloc();
    let end = "submit 6 handle 6\nrefused unit 9 DpbFull\n";
    ends(
        &rt,
        alloc,
        &[],
        &[LARGE_SPS, PPS, IDR, T0, T0, T0, T0, T0, T0],
        1,
        end,
    );
}

#[test]
fn broken_units_are_refused(rt: HostRuntime) {
    let alloc = rt.alloc();
    for (unit, end) in [
        ([0x42].as_slice(), "refused unit 0 TruncatedNalu\n"),
        (
            [0x7c, 0x01, 0x80].as_slice(),
            "refused unit 0 InvalidNaluType 62\n",
        ),
        (
            [0x40, 0x00, 0x80].as_slice(),
            "refused unit 0 OutOfRange 0 1\n",
        ),
        (
            [0x48, 0x00, 0x05].as_slice(),
            "refused unit 0 OutOfRange 0 1\n",
        ),
    ] {
        reports(&rt, alloc, &[unit], 1, &[end]);
    }
}

#[test]
fn sequence_sets_out_of_range_are_refused(rt: HostRuntime) {
    let alloc = rt.alloc();
    for (unit, end) in [
        (EIGHT_SUB_LAYERS, "refused unit 0 OutOfRange 5 2\n"),
        (LEVEL_61, "refused unit 0 OutOfRange 2 27\n"),
        (LATENCY_256, "refused unit 0 OutOfRange 5 19\n"),
    ] {
        reports(&rt, alloc, &[unit], 1, &[end]);
    }
}

#[test]
fn broken_slices_are_refused(rt: HostRuntime) {
    let rt = &rt;
    let alloc = rt.alloc();
    let end = "refused unit 3 OutOfBits\n";
    reports(
        rt,
        alloc,
        &[SPS, PPS, IDR, &[0x02, 0x01, 0xd2]],
        1,
        &[SEQ, BEGUN_0, end],
    );
    reports(
        rt,
        alloc,
        &[SPS, PPS, &[0x26, 0x01, 0x8d, 0x80]],
        1,
        &[SEQ, "refused unit 2 MissingPps 5\n"],
    );
    // Its reference picture set is one of the sequence set's, which has none.
    let end = "refused unit 3 OutOfRange 14 11\n";
    reports(
        rt,
        alloc,
        &[SPS, PPS, IDR, &[0x02, 0x01, 0xd8, 0x40, 0x80]],
        1,
        &[SEQ, BEGUN_0, end],
    );
    // The bound of the quantiser is that of the sequence set that the picture set was read with.
    reports(
        rt,
        alloc,
        &[SPS, PPS, TEN_BIT_LUMA, QUANTISER_MINUS_6],
        1,
        &[SEQ, "refused unit 3 OutOfRange 14 36\n"],
    );
}

/// The worked stream of three pictures, cut to each length from one to another, ends so.
fn cuts_end(rt: &impl Abort, alloc: Global, first: usize, last: usize, status: u8, end: &str) {
    for length in first..=last {
        let mut bytes = stream(rt, alloc, &[SPS, PPS, IDR, P4, P2]);
        bytes.truncate(length);
        ends_on(rt, alloc, &[], bytes, status, end);
    }
}

#[test]
fn cut_streams_are_decoded_up_to_the_cut(rt: HostRuntime) {
    for (first, last, end) in [
        (0, 2, "end pictures 0 shown 0\n"),
        (28, 31, "end pictures 0 shown 0\n"),
        (34, 40, "end pictures 0 shown 0\n"),
        (44, 47, "end pictures 1 shown 1\n"),
        (53, 56, "end pictures 2 shown 2\n"),
        (63, 64, "end pictures 3 shown 3\n"),
    ] {
        cuts_end(&rt, rt.alloc(), first, last, 0, end);
    }
}

#[test]
fn units_cut_within_their_headers_are_refused(rt: HostRuntime) {
    for (first, last, end) in [
        (3, 4, "refused unit 0 TruncatedNalu\n"),
        (32, 33, "refused unit 1 TruncatedNalu\n"),
        (41, 42, "refused unit 2 TruncatedNalu\n"),
        (48, 49, "refused unit 3 TruncatedNalu\n"),
        (57, 58, "refused unit 4 TruncatedNalu\n"),
    ] {
        cuts_end(&rt, rt.alloc(), first, last, 1, end);
    }
}

#[test]
fn units_cut_within_their_payloads_are_refused(rt: HostRuntime) {
    for (first, last, end) in [
        (5, 27, "refused unit 0 OutOfBits\n"),
        (43, 43, "refused unit 2 OutOfBits\n"),
        (50, 52, "refused unit 3 OutOfBits\n"),
    ] {
        cuts_end(&rt, rt.alloc(), first, last, 1, end);
    }
}

#[test]
fn units_before_a_sequence_set_are_passed_over(rt: HostRuntime) {
    let rt = &rt;
    let alloc = rt.alloc();
    reports(rt, alloc, &[], 0, &["end pictures 0 shown 0\n"]);
    reports(
        rt,
        alloc,
        &[END_OF_SEQUENCE, SPS],
        0,
        &[SEQ, "end pictures 0 shown 0\n"],
    );
    reports(rt, alloc, &[IDR], 0, &["end pictures 0 shown 0\n"]);
}

#[test]
fn other_spellings_of_sets_are_read(rt: HostRuntime) {
    let alloc = rt.alloc();
    // Scaling lists that are enabled without data are the default ones; a set may end without its trailing bits.
    for set in [SCALING_LISTS_ENABLED, &SPS[..SPS.len() - 1]] {
        let end = "show 0 poc 0 unit 3\nend pictures 1 shown 1\n";
        reports(&rt, alloc, &[set, PPS, IDR], 0, &[SEQ, PICTURE_0, end]);
    }
}

#[test]
fn cra_pictures_are_handled_as_bla_pictures(rt: HostRuntime) {
    let rt = &rt;
    let alloc = rt.alloc();
    let end =
        "show 0 poc 0 unit 4\nshow 1 poc 4 unit 5\nshow 2 poc 8 unit 5\nend pictures 3 shown 3\n";
    ends(rt, alloc, &[], &[SPS, PPS, IDR, P4, CRA], 0, end);
    for words in [
        ["cra"].as_slice(),
        &["layer", "6", "cra"],
        &["cra", "layer", "6"],
    ] {
        let end =
            "submit 2 handle 2\nshow 0 poc 0 unit 4\nshow 2 poc 8 unit 5\nend pictures 3 shown 2\n";
        ends(rt, alloc, words, &[SPS, PPS, IDR, P4, CRA], 0, end);
    }
}

#[test]
fn upper_sub_layers_are_left_out(rt: HostRuntime) {
    let rt = &rt;
    let alloc = rt.alloc();
    let end =
        "submit 1 handle 1\nshow 0 poc 0 unit 5\nshow 1 poc 4 unit 5\nend pictures 2 shown 2\n";
    ends(
        rt,
        alloc,
        &["layer", "0"],
        &[SPS, PPS, IDR, P4, UPPER_P2],
        0,
        end,
    );
    let bytes = stream(rt, alloc, &[SPS, PPS, IDR, P4, UPPER_P2]);
    let sink = written_by(rt, alloc, &["layer", "1"], bytes, 0);
    let shown =
        "show 0 poc 0 unit 4\nshow 2 poc 2 unit 5\nshow 1 poc 4 unit 5\nend pictures 3 shown 3\n";
    let whole = ok(
        rt,
        format!(in alloc; "{SEQ}{PICTURE_0}{P4_1}{UPPER_P2_2}{shown}"),
    );
    expect_eq(rt, sink.written(), whole.as_bytes());
}

#[test]
fn upper_layers_are_left_out(rt: HostRuntime) {
    let rt = &rt;
    let alloc = rt.alloc();
    let units = [SPS, PPS, IDR, P4, LAYER_1_P2];
    let end =
        "submit 1 handle 1\nshow 0 poc 0 unit 5\nshow 1 poc 4 unit 5\nend pictures 2 shown 2\n";
    for words in [
        ["base"].as_slice(),
        &["cra", "base"],
        &["layer", "6", "base"],
        &["base", "layer", "0", "cra"],
        &["cra", "layer", "0", "base"],
    ] {
        ends(rt, alloc, words, &units, 0, end);
    }
    let end = "show 2 poc 2 unit 5\nshow 1 poc 4 unit 5\nend pictures 3 shown 3\n";
    ends(rt, alloc, &["layer", "6"], &units, 0, end);
}

#[test]
fn other_words_are_no_command(rt: HostRuntime) {
    let rt = &rt;
    let alloc = rt.alloc();
    for words in [
        ["layer", "7"].as_slice(),
        &["cra", "cra"],
        &["layer"],
        &["layer", "00"],
        &["layer", "0", "0"],
        &["layer", "0", "cra", "cra"],
        &["cra", "layer", "7"],
        &["cra", "cra", "0"],
        &["base", "cra", "base"],
        &["base", "0"],
        &["base", "layer"],
        &["layer", "0", "layer", "1"],
        &["make"],
        &["make", ""],
        &["make", "0"],
        &["make", "01"],
        &["make", "100001"],
        &["make", "4294967297"],
        &["make", "1x"],
        &["make", "+1"],
        &["make", "1", "1"],
        &["mkae", "3"],
        &["--help"],
        &[""],
    ] {
        let bytes = stream(rt, alloc, &[SPS, PPS, IDR]);
        let sink = written_by(rt, alloc, words, bytes, 2);
        expect(rt, sink.written().is_empty());
    }
}

/// A run by `make` and this number reads nothing, ends with status 0, and writes this line.
fn makes(rt: &impl Abort, alloc: Global, number: &str, line: &str) {
    let words = words_of(rt, alloc, &["make", number]);
    let mut source = MemorySource::new(stream(rt, alloc, &[SPS]), ok(rt, vec![in alloc; 1]));
    let mut sink = MemorySink::new(alloc, Vec::new(alloc));
    expect_eq(rt, run(alloc, &words, &mut source, &mut sink), 0);
    expect_eq(rt, sink.written(), line.as_bytes());
}

#[test]
fn made_streams_are_summed_up(rt: HostRuntime) {
    for (number, line) in [
        ("1", "made 1 shown 1 lowest 0 highest 0 falls 0\n"),
        ("2", "made 2 shown 2 lowest 0 highest 8 falls 0\n"),
        ("9", "made 9 shown 9 lowest 0 highest 8 falls 0\n"),
        ("100", "made 100 shown 100 lowest 0 highest 104 falls 0\n"),
        (
            "1000",
            "made 1000 shown 1000 lowest 0 highest 1000 falls 0\n",
        ),
    ] {
        makes(&rt, rt.alloc(), number, line);
    }
}

#[test]
fn a_made_stream_is_a_stream(rt: HostRuntime) {
    let alloc = rt.alloc();
    let bytes = ok(&rt, make_stream(alloc, 2));
    let picture =
        "pic 1 type 1 poc 8 output 1\nslice 1 at 0 size 7 list0 0 list1 -\nsubmit 1 handle 1\n";
    let end = "show 0 poc 0 unit 4\nshow 1 poc 8 unit 4\nend pictures 2 shown 2\n";
    reports_on(&rt, alloc, bytes, 0, &[SEQ, PICTURE_0, picture, end]);
}

#[test]
fn a_made_line_that_is_not_written_is_a_fault(rt: HostRuntime) {
    let rt = &rt;
    let alloc = rt.alloc();
    let words = words_of(rt, alloc, &["make", "9"]);
    let mut source = MemorySource::new(Vec::new(alloc), Vec::new(alloc));
    let mut sink = MemorySink::new(alloc, ok(rt, vec![in alloc; 1]));
    expect_eq(rt, run(alloc, &words, &mut source, &mut sink), 4);
    expect(rt, sink.written().is_empty());
}

/// A run whose reads and writes with these numbers fail ends with this status. It writes the whole report where it
/// succeeds, else not, and nothing where a read fails.
fn fails(rt: &impl Abort, alloc: Global, reads: &[u64], writes: &[u64], status: u8) {
    let bytes = stream(rt, alloc, &[SPS, PPS, IDR, P4, P2]);
    let mut source = MemorySource::new(bytes, ok(rt, Vec::from_slice(alloc, reads)));
    let mut sink = MemorySink::new(alloc, ok(rt, Vec::from_slice(alloc, writes)));
    expect_eq(rt, run(alloc, &[], &mut source, &mut sink), status);
    let end = "end pictures 3 shown 3\n";
    expect_eq(rt, sink.written().ends_with(end.as_bytes()), status == 0);
    expect(rt, status != 3 || sink.written().is_empty());
}

#[test]
fn faults_have_their_statuses(rt: HostRuntime) {
    let rt = &rt;
    let alloc = rt.alloc();
    for (call, status) in [(1, 3), (2, 3), (3, 0)] {
        fails(rt, alloc, &[call], &[], status);
    }
    // The lines of the calls are one write, and the others another.
    for (call, status) in [(1, 4), (2, 4), (3, 0)] {
        fails(rt, alloc, &[], &[call], status);
    }
}
