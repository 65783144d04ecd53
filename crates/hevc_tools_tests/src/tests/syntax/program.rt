//! The program over streams in memory, from the words of the command line to the status. The lines are worked by hand from the syntax of
//! H.265.
use crate::tests::expect::{expect_eq, ok};
use crate::tests::streams::{
    CRA, END_OF_SEQUENCE, IDR, P4, P8, P12, PPS, SPS, T3, TRUNCATED, UNKNOWN_PPS_IDR, stream,
};
use crate::tests::words::words_of;
use hevc_io::{MemorySink, MemorySource};
use hevc_syntax_text::run_syntax;
use std::alloc::Global;
use std::process::Abort;

/// A run by these words over these bytes, whose reads and writes with these numbers fail, ends with
/// this status and writes these bytes.
fn writes(
    rt: &impl Abort,
    alloc: Global,
    texts: &[&str],
    bytes: &[u8],
    reads: Vec<u64>,
    writes: Vec<u64>,
    status: u8,
    written: &str,
) {
    let words = words_of(rt, alloc, texts);
    let mut source = MemorySource::new(ok(rt, Vec::from_slice(alloc, bytes)), reads);
    let mut sink = MemorySink::new(alloc, writes);
    expect_eq(
        rt,
        run_syntax(alloc, &words, &mut source, &mut sink),
        status,
    );
    expect_eq(rt, sink.written(), written.as_bytes());
}

/// A run by these words over these bytes, in which nothing fails.
fn gives(rt: &impl Abort, alloc: Global, texts: &[&str], bytes: &[u8], status: u8, written: &str) {
    let none = Vec::new(alloc);
    let no_writes = Vec::new(alloc);
    writes(rt, alloc, texts, bytes, none, no_writes, status, written);
}

/// The words that ask for all units.
const NONE: &[&str] = &[];

#[test]
fn a_picture_set_has_its_elements(rt: HostRuntime) {
    let rt = &rt;
    let alloc = rt.alloc();
    let bytes = stream(rt, alloc, &[SPS, PPS, IDR]);
    let lines = "\
unit 1 offset 32 size 6 nal_unit_type 34 name PPS_NUT nuh_layer_id 0 TemporalId 0\n\
16 pps_pic_parameter_set_id ue(v) 0\n\
17 pps_seq_parameter_set_id ue(v) 0\n\
18 dependent_slice_segments_enabled_flag u(1) 0\n\
19 output_flag_present_flag u(1) 0\n\
20 num_extra_slice_header_bits u(3) 0\n\
23 sign_data_hiding_enabled_flag u(1) 0\n\
24 cabac_init_present_flag u(1) 0\n\
25 num_ref_idx_l0_default_active_minus1 ue(v) 0\n\
26 num_ref_idx_l1_default_active_minus1 ue(v) 0\n\
27 init_qp_minus26 se(v) 0\n\
28 constrained_intra_pred_flag u(1) 0\n\
29 transform_skip_enabled_flag u(1) 0\n\
30 cu_qp_delta_enabled_flag u(1) 0\n\
31 pps_cb_qp_offset se(v) 0\n\
32 pps_cr_qp_offset se(v) 0\n\
33 pps_slice_chroma_qp_offsets_present_flag u(1) 0\n\
34 weighted_pred_flag u(1) 0\n\
35 weighted_bipred_flag u(1) 0\n\
36 transquant_bypass_enabled_flag u(1) 0\n\
37 tiles_enabled_flag u(1) 0\n\
38 entropy_coding_sync_enabled_flag u(1) 0\n\
39 pps_loop_filter_across_slices_enabled_flag u(1) 0\n\
40 deblocking_filter_control_present_flag u(1) 0\n\
41 pps_scaling_list_data_present_flag u(1) 0\n\
42 lists_modification_present_flag u(1) 0\n\
43 log2_parallel_merge_level_minus2 ue(v) 0\n\
44 slice_segment_header_extension_present_flag u(1) 0\n\
45 pps_extension_present_flag u(1) 0\n\
end units 3 refused 0\n";
    gives(rt, alloc, &["type", "34"], &bytes, 0, lines);
    gives(rt, alloc, &["unit", "1", "1"], &bytes, 0, lines);
}

#[test]
fn a_slice_has_lines_of_json(rt: HostRuntime) {
    let rt = &rt;
    let alloc = rt.alloc();
    let bytes = stream(rt, alloc, &[SPS, PPS, IDR]);
    let lines = "\
{\"unit\":2,\"offset\":41,\"size\":4,\"nal_unit_type\":19,\"name\":\"IDR_W_RADL\",\"nuh_layer_id\":0,\"TemporalId\":0}\n\
{\"bit\":16,\"name\":\"first_slice_segment_in_pic_flag\",\"form\":\"u(1)\",\"value\":1}\n\
{\"bit\":17,\"name\":\"no_output_of_prior_pics_flag\",\"form\":\"u(1)\",\"value\":0}\n\
{\"bit\":18,\"name\":\"slice_pic_parameter_set_id\",\"form\":\"ue(v)\",\"value\":0}\n\
{\"bit\":19,\"name\":\"slice_type\",\"form\":\"ue(v)\",\"value\":2}\n\
{\"bit\":22,\"name\":\"slice_qp_delta\",\"form\":\"se(v)\",\"value\":0}\n\
{\"bit\":23,\"name\":\"alignment_bit_equal_to_one\",\"form\":\"u(1)\",\"value\":1}\n\
{\"variable\":\"PicOrderCntVal\",\"value\":0}\n\
{\"variable\":\"SliceQpY\",\"value\":26}\n\
{\"units\":3,\"refused\":0}\n";
    gives(rt, alloc, &["json", "unit", "2", "5"], &bytes, 0, lines);
}

#[test]
fn a_refused_unit_has_its_cause(rt: HostRuntime) {
    let rt = &rt;
    let alloc = rt.alloc();
    let large_id: &[u8] = &[0x44, 0x01, 0x02, 0x0c, 0x80];
    let bytes = stream(rt, alloc, &[large_id, TRUNCATED, UNKNOWN_PPS_IDR]);
    let lines = "\
unit 0 offset 3 size 5 nal_unit_type 34 name PPS_NUT nuh_layer_id 0 TemporalId 0\n\
16 pps_pic_parameter_set_id ue(v) 64\n\
refused OutOfRange table 11 row 1 name pps_pic_parameter_set_id value 64 bounds 0..63\n\
unit 1 offset 11 size 1\n\
refused TruncatedNalu\n\
unit 2 offset 15 size 4 nal_unit_type 19 name IDR_W_RADL nuh_layer_id 0 TemporalId 0\n\
16 first_slice_segment_in_pic_flag u(1) 1\n\
17 no_output_of_prior_pics_flag u(1) 0\n\
18 slice_pic_parameter_set_id ue(v) 5\n\
refused MissingPps id 5\n\
end units 3 refused 3\n";
    gives(rt, alloc, NONE, &bytes, 1, lines);
    let line = "\
{\"unit\":1,\"offset\":11,\"size\":1}\n\
{\"refused\":\"TruncatedNalu\"}\n\
{\"units\":3,\"refused\":1}\n";
    gives(rt, alloc, &["json", "unit", "1", "1"], &bytes, 1, line);
    let last = "end units 3 refused 0\n";
    gives(rt, alloc, &["type", "35"], &bytes, 0, last);
}

#[test]
fn a_picture_set_that_waits_is_read_for_its_slices(rt: HostRuntime) {
    let rt = &rt;
    let alloc = rt.alloc();
    let bytes = stream(rt, alloc, &[PPS, SPS, IDR]);
    let lines = "\
unit 0 offset 3 size 6 nal_unit_type 34 name PPS_NUT nuh_layer_id 0 TemporalId 0\n\
16 pps_pic_parameter_set_id ue(v) 0\n\
17 pps_seq_parameter_set_id ue(v) 0\n\
refused MissingSps id 0\n\
end units 3 refused 1\n";
    gives(rt, alloc, &["unit", "0", "0"], &bytes, 1, lines);
    let last = "end units 3 refused 0\n";
    gives(rt, alloc, &["type", "63"], &bytes, 0, last);
    let line = "\
{\"unit\":2,\"offset\":41,\"size\":4,\"nal_unit_type\":19,\"name\":\"IDR_W_RADL\",\"nuh_layer_id\":0,\"TemporalId\":0}\n\
{\"bit\":16,\"name\":\"first_slice_segment_in_pic_flag\",\"form\":\"u(1)\",\"value\":1}\n\
{\"bit\":17,\"name\":\"no_output_of_prior_pics_flag\",\"form\":\"u(1)\",\"value\":0}\n\
{\"bit\":18,\"name\":\"slice_pic_parameter_set_id\",\"form\":\"ue(v)\",\"value\":0}\n\
{\"bit\":19,\"name\":\"slice_type\",\"form\":\"ue(v)\",\"value\":2}\n\
{\"bit\":22,\"name\":\"slice_qp_delta\",\"form\":\"se(v)\",\"value\":0}\n\
{\"bit\":23,\"name\":\"alignment_bit_equal_to_one\",\"form\":\"u(1)\",\"value\":1}\n\
{\"variable\":\"PicOrderCntVal\",\"value\":0}\n\
{\"variable\":\"SliceQpY\",\"value\":26}\n\
{\"units\":3,\"refused\":0}\n";
    gives(rt, alloc, &["json", "type", "19"], &bytes, 0, line);
}

#[test]
fn pictures_have_their_order_counts(rt: HostRuntime) {
    let rt = &rt;
    let alloc = rt.alloc();
    let units = &[SPS, PPS, IDR, P4, P8, P12, T3, END_OF_SEQUENCE, CRA];
    let bytes = stream(rt, alloc, units);
    // The low bits are 3, the count before is 12, and 16 counts have others. After the end the low bits alone count.
    let lines = "\
unit 6 offset 77 size 5 nal_unit_type 1 name TRAIL_R nuh_layer_id 0 TemporalId 0\n\
16 first_slice_segment_in_pic_flag u(1) 1\n\
17 slice_pic_parameter_set_id ue(v) 0\n\
18 slice_type ue(v) 2\n\
21 slice_pic_order_cnt_lsb u(4) 3\n\
25 short_term_ref_pic_set_sps_flag u(1) 0\n\
26 num_negative_pics ue(v) 0\n\
27 num_positive_pics ue(v) 0\n\
28 slice_qp_delta se(v) 0\n\
29 alignment_bit_equal_to_one u(1) 1\n\
30 alignment_bit_equal_to_zero u(1) 0\n\
31 alignment_bit_equal_to_zero u(1) 0\n\
variable PicOrderCntVal 19\n\
variable SliceQpY 26\n\
unit 7 offset 85 size 2 nal_unit_type 36 name EOS_NUT nuh_layer_id 0 TemporalId 0\n\
unit 8 offset 90 size 5 nal_unit_type 21 name CRA_NUT nuh_layer_id 0 TemporalId 0\n\
16 first_slice_segment_in_pic_flag u(1) 1\n\
17 no_output_of_prior_pics_flag u(1) 0\n\
18 slice_pic_parameter_set_id ue(v) 0\n\
19 slice_type ue(v) 2\n\
22 slice_pic_order_cnt_lsb u(4) 8\n\
26 short_term_ref_pic_set_sps_flag u(1) 0\n\
27 num_negative_pics ue(v) 0\n\
28 num_positive_pics ue(v) 0\n\
29 slice_qp_delta se(v) 0\n\
30 alignment_bit_equal_to_one u(1) 1\n\
31 alignment_bit_equal_to_zero u(1) 0\n\
variable PicOrderCntVal 8\n\
variable SliceQpY 26\n\
end units 9 refused 0\n";
    gives(rt, alloc, &["unit", "6", "8"], &bytes, 0, lines);
}

#[test]
fn messages_have_their_types_and_sizes(rt: HostRuntime) {
    let rt = &rt;
    let alloc = rt.alloc();
    // payloadType 137 and three bytes, before the last of which 03 prevents emulation; and payloadType 300 and none
    let sei: &[u8] = &[
        0x4e, 0x01, 0x89, 0x03, 0x00, 0x00, 0x03, 0x01, 0xff, 0x2d, 0x00, 0x80,
    ];
    let bytes = stream(rt, alloc, &[sei]);
    let lines = "\
unit 0 offset 3 size 12 nal_unit_type 39 name PREFIX_SEI_NUT nuh_layer_id 0 TemporalId 0\n\
sei payloadType 137 name mastering_display_colour_volume payloadSize 3\n\
sei payloadType 300 name reserved_sei_message payloadSize 0\n\
end units 1 refused 0\n";
    gives(rt, alloc, NONE, &bytes, 0, lines);
    let cut = stream(rt, alloc, &[&sei[..9]]);
    let lines = "\
{\"unit\":0,\"offset\":3,\"size\":9,\"nal_unit_type\":39,\"name\":\"PREFIX_SEI_NUT\",\"nuh_layer_id\":0,\"TemporalId\":0}\n\
{\"sei\":true,\"payloadType\":137,\"name\":\"mastering_display_colour_volume\",\"payloadSize\":3}\n\
{\"units\":1,\"refused\":0}\n";
    gives(rt, alloc, &["json"], &cut, 0, lines);
}

#[test]
fn other_words_are_refused(rt: HostRuntime) {
    let alloc = rt.alloc();
    let bytes = stream(&rt, alloc, &[SPS]);
    for texts in [
        ["text"].as_slice(),
        &[""],
        &["json", "json"],
        &["type"],
        &["type", ""],
        &["type", "x"],
        &["type", "1", "2"],
        &["unit", "1"],
        &["unit", "1", "-1"],
        &["unit", "1", "18446744073709551616"],
        &["type", "1", "json"],
    ] {
        gives(&rt, alloc, texts, &bytes, 2, "");
    }
}

#[test]
fn faults_have_their_statuses(rt: HostRuntime) {
    let rt = &rt;
    let alloc = rt.alloc();
    let bytes = stream(rt, alloc, &[SPS, PPS, IDR]);
    for call in 1..3u64 {
        let reads = ok(rt, vec![in alloc; call]);
        writes(rt, alloc, NONE, &bytes, reads, Vec::new(alloc), 3, "");
    }
    let first = ok(rt, vec![in alloc; 1]);
    writes(rt, alloc, NONE, &bytes, Vec::new(alloc), first, 4, "");
}

/// A long text is written in blocks, each of which is there where a later write fails.
#[test]
fn a_long_text_is_written_as_it_is_made(rt: HostRuntime) {
    let rt = &rt;
    let alloc = rt.alloc();
    let bytes = stream(rt, alloc, &[SPS; 40]);
    let words = words_of(rt, alloc, NONE);
    let mut source = MemorySource::new(ok(rt, Vec::from_slice(alloc, &bytes)), Vec::new(alloc));
    let mut whole = MemorySink::new(alloc, Vec::new(alloc));
    let status = run_syntax(alloc, &words, &mut source, &mut whole);
    expect_eq(rt, status, 0);
    let mut again = MemorySource::new(bytes, Vec::new(alloc));
    let mut front = MemorySink::new(alloc, ok(rt, vec![in alloc; 2]));
    let second = run_syntax(alloc, &words, &mut again, &mut front);
    expect_eq(rt, second, 4);
    expect_eq(rt, front.written().len() >= 65_536, true);
    expect_eq(rt, front.written().len() < whole.written().len(), true);
    expect_eq(rt, whole.written().starts_with(front.written()), true);
}
