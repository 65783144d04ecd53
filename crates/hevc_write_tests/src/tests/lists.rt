//! Scaling lists (7.3.4) and short-term reference picture sets (7.3.7), written.
use crate::tests::expect::{expect, expect_eq, expect_fewer, ok};
use crate::tests::written::assert_written;
use hevc_bit_writer::BitWriter;
use hevc_elements::ElementReader;
use hevc_readers::{default_scaling_lists, read_scaling_list_data, read_short_term_set};
use hevc_set_parts::ShortTermRefPicSet;
use hevc_worked_units::sets::neighbours;
use hevc_write_scaling::write_scaling_list_data;
use hevc_write_short_term::write_short_term_ref_pic_set;

#[test]
fn predicted_lists_get_entries_of_their_own(rt: HostRuntime) {
    let rt = &rt;
    let lists = default_scaling_lists();
    let mut w = BitWriter::new(rt.alloc());
    ok(rt, write_scaling_list_data(&mut w, &lists));
    ok(rt, w.write_trailing_bits());
    // Each flag is 1, so the first entry of the first matrix, 16, comes as 8 after 8: 1 000010000.
    let bytes = w.as_bytes();
    assert!(rt; !bytes.is_empty());
    expect_fewer(rt, bytes, 10_000);
    expect_eq(rt, bytes[0], 0x84);
    let mut r = ElementReader::new(bytes);
    let read = ok(rt, read_scaling_list_data(&mut r));
    expect(rt, read == lists);
}

#[test]
fn members_are_written_out(rt: HostRuntime) {
    let mut x = ShortTermRefPicSet::new();
    x.num_negative_pics = 2;
    x.num_positive_pics = 1;
    x.num_delta_pocs = 3;
    x.delta_poc_s0[0] = -1;
    x.delta_poc_s0[1] = -5;
    x.delta_poc_s1[0] = 2;
    x.used_by_curr_pic_s0[0] = true;
    x.used_by_curr_pic_s1[0] = true;
    let mut w = BitWriter::new(rt.alloc());
    ok(&rt, write_short_term_ref_pic_set(&mut w, &[], 0, 0, &x));
    // 011 | 010 | 1 1 | 00100 0 | 010 1, and 1 0 .. 0
    assert_written(&rt, rt.alloc(), &mut w, &[0x6b, 0x21, 0x60]);
}

#[test]
fn a_shift_onto_the_picture_is_no_member(rt: HostRuntime) {
    let rt = &rt;
    // 1 | 0 | 1 | 1 1 1: the member that is shifted onto the picture itself is used, which means
    // nothing.
    let mut r = ElementReader::new(&[0xbc]);
    let mut w = BitWriter::new(rt.alloc());
    let set = ok(rt, read_short_term_set(&mut r, &[neighbours()], 2, 16, 1));
    ok(
        rt,
        write_short_term_ref_pic_set(&mut w, &[neighbours()], 2, 1, &set),
    );
    // 1 | 0 | 1 | 00 1 1, and 1
    assert_written(rt, rt.alloc(), &mut w, &[0xa7]);
}
