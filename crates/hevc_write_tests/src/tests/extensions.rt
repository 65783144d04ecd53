//! Worked extensions of sets (7.3.2.2, 7.3.2.3), written.
use crate::tests::expect::ok;
use crate::tests::written::assert_written;
use hevc_bit_writer::BitWriter;
use hevc_sequence_set::{Sps, SpsRangeExtension, SpsSccExtension};
use hevc_set_parts::{PpsRangeExtension, PpsSccExtension};
use hevc_write_extensions::{
    write_pps_range_extension, write_pps_scc_extension, write_sps_range_extension,
    write_sps_scc_extension,
};

#[test]
fn flags_are_written_in_order(rt: HostRuntime) {
    let mut x = SpsRangeExtension::new();
    x.transform_skip_rotation_enabled_flag = true;
    x.implicit_rdpcm_enabled_flag = true;
    x.extended_precision_processing_flag = true;
    x.high_precision_offsets_enabled_flag = true;
    x.cabac_bypass_alignment_enabled_flag = true;
    let mut w = BitWriter::new(rt.alloc());
    ok(&rt, write_sps_range_extension(&mut w, &x));
    // 101010101, and 1 0 .. 0
    assert_written(&rt, rt.alloc(), &mut w, &[0xaa, 0xc0]);
}

#[test]
fn offsets_are_written_in_pairs(rt: HostRuntime) {
    let mut x = PpsRangeExtension::new();
    x.log2_max_transform_skip_block_size_minus2 = 1;
    x.cross_component_prediction_enabled_flag = true;
    x.chroma_qp_offset_list_enabled_flag = true;
    x.chroma_qp_offset_list_len_minus1 = 1;
    x.cb_qp_offset_list[0] = 1;
    x.cr_qp_offset_list[0] = -1;
    x.cb_qp_offset_list[1] = 2;
    x.cr_qp_offset_list[1] = -2;
    let mut w = BitWriter::new(rt.alloc());
    ok(&rt, write_pps_range_extension(&mut w, true, &x));
    // 010 1 1 | 1 010 | 010 011 00100 00101 | 1 1, and 1 0 .. 0
    assert_written(&rt, rt.alloc(), &mut w, &[0x5d, 0x26, 0x42, 0xf0]);
}

#[test]
fn predictors_of_a_picture_set(rt: HostRuntime) {
    let sps = Sps::new(rt.alloc());
    let mut x = PpsSccExtension::new();
    x.curr_pic_ref_enabled_flag = true;
    x.palette_predictor_initializers_present_flag = true;
    x.num_palette_predictor_initializers = 2;
    x.monochrome_palette_flag = true;
    x.palette_predictor_initializer[0][0] = 5;
    x.palette_predictor_initializer[0][1] = 255;
    let mut w = BitWriter::new(rt.alloc());
    ok(&rt, write_pps_scc_extension(&mut w, &sps, &x));
    // 1 0 1 | 011 1 1 | 00000101 11111111, and 1 0 .. 0
    assert_written(&rt, rt.alloc(), &mut w, &[0xaf, 0x05, 0xff, 0x80]);
}

#[test]
fn predictors_of_a_sequence_set(rt: HostRuntime) {
    let mut x = SpsSccExtension::new();
    x.curr_pic_ref_enabled_flag = true;
    x.palette_mode_enabled_flag = true;
    x.palette_max_size = 2;
    x.delta_palette_max_predictor_size = 1;
    x.palette_predictor_initializers_present_flag = true;
    x.palette_predictor_initializer[0][0] = 7;
    x.motion_vector_resolution_control_idc = 2;
    let mut sps = Sps::new(rt.alloc());
    sps.scc_extension = x;
    let mut w = BitWriter::new(rt.alloc());
    ok(&rt, write_sps_scc_extension(&mut w, &sps));
    // 1 1 | 011 010 1 | 1 00000111 | 10 0, and 1 0 .. 0
    assert_written(&rt, rt.alloc(), &mut w, &[0xda, 0xc1, 0xe4]);
}
