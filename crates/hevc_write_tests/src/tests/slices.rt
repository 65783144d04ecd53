//! Worked parts of slice segment headers (7.3.6.2, 7.3.6.3), written.
use crate::tests::expect::ok;
use crate::tests::written::assert_written;
use hevc_bit_writer::BitWriter;
use hevc_elements::ElementReader;
use hevc_slice_parts::read_ref_pic_list_modification;
use hevc_video_set::PredWeightTable;
use hevc_write_slice_parts::{write_pred_weight_table, write_ref_pic_list_modification};

/// Of five pictures: 1 | 100 000 | 1 | 011, and 1 0 .. 0.
const BOTH_LISTS: &[u8] = &[0xc1, 0x70];

#[test]
fn lists_are_written_as_they_were(rt: HostRuntime) {
    let rt = &rt;
    let mut r = ElementReader::new(BOTH_LISTS);
    let mut w = BitWriter::new(rt.alloc());
    let lists = ok(rt, read_ref_pic_list_modification(&mut r, true, 5, 1, 0));
    ok(rt, write_ref_pic_list_modification(&mut w, true, 5, &lists));
    assert_written(rt, rt.alloc(), &mut w, BOTH_LISTS);
}

#[test]
fn weights_of_one_place(rt: HostRuntime) {
    let mut x = PredWeightTable::new();
    x.luma_log2_weight_denom = 3;
    x.chroma_log2_weight_denom = 3;
    x.luma_weight_l0_flag[0] = true;
    x.chroma_weight_l0_flag[0] = true;
    x.delta_luma_weight_l0[0] = -2;
    x.delta_chroma_weight_l0[0] = [1, 0];
    x.delta_chroma_offset_l0[0] = [0, -1];
    let mut w = BitWriter::new(rt.alloc());
    ok(&rt, write_pred_weight_table(&mut w, true, false, 0, 0, &x));
    // 00100 1 | 1 1 | 00101 1 | 010 1 1 011, and 1 0 .. 0
    assert_written(&rt, rt.alloc(), &mut w, &[0x27, 0x2d, 0x6e]);
}
