//! Lines of elements, worked by hand from the syntax of H.265.
use crate::tests::expect::{expect_eq, ok};
use hevc_element_lines::{Style, push_elements};
use hevc_elements::{Descriptor, Told};
use hevc_spec::Row;
use std::alloc::Global;
use std::process::Abort;

/// An element.
fn told(table: u8, row: u8, descriptor: Descriptor, value: i64) -> Told {
    Told {
        row: Row(table, row),
        descriptor,
        value,
    }
}

/// A flag.
fn flag(table: u8, row: u8, value: i64) -> Told {
    told(table, row, Descriptor::U(1), value)
}

/// Expects that elements have these lines.
fn expect_lines(rt: &impl Abort, alloc: Global, style: Style, all: &[Told], lines: &str) {
    let mut text = Vec::new(alloc);
    ok(rt, push_elements(alloc, &mut text, style, all));
    expect_eq(rt, text.as_slice(), lines.as_bytes());
}

#[test]
fn a_schedule_of_hrd_parameters(rt: HostRuntime) {
    let all = [
        told(1, 22, Descriptor::Ue, 0),
        flag(3, 1, 1),
        flag(3, 1, 0),
        flag(3, 10, 1),
        told(4, 1, Descriptor::Ue, 9),
        told(4, 1, Descriptor::Ue, 8),
        flag(4, 3, 0),
    ];
    let lines =
        "16 hrd_layer_set_idx[0] ue(v) 0\n17 nal_hrd_parameters_present_flag u(1) 1\n18 vcl_hrd_parameters_present_flag u(1) 0\n19 fixed_pic_rate_general_flag[0] u(1) 1\n20 bit_rate_value_minus1[0] ue(v) 9\n27 cpb_size_value_minus1[0] ue(v) 8\n34 cbr_flag[0] u(1) 0\n";
    expect_lines(&rt, rt.alloc(), Style::Words, &all, lines);
}

#[test]
fn weights_of_the_second_picture(rt: HostRuntime) {
    let all = [
        flag(16, 3, 0),
        flag(16, 3, 1),
        flag(16, 4, 1),
        flag(16, 4, 0),
        told(16, 7, Descriptor::Se, -1),
        told(16, 8, Descriptor::Se, 0),
        told(16, 7, Descriptor::Se, 2),
        told(16, 5, Descriptor::Se, 1),
    ];
    let lines =
        "16 luma_weight_l0_flag[0] u(1) 0\n17 luma_weight_l0_flag[1] u(1) 1\n18 chroma_weight_l0_flag[0] u(1) 1\n19 chroma_weight_l0_flag[1] u(1) 0\n20 delta_chroma_weight_l0[0][0] se(v) -1\n23 delta_chroma_offset_l0[0][0] se(v) 0\n24 delta_chroma_weight_l0[0][1] se(v) 2\n29 delta_luma_weight_l0[1] se(v) 1\n";
    expect_lines(&rt, rt.alloc(), Style::Words, &all, lines);
}

#[test]
fn a_predicted_set(rt: HostRuntime) {
    let all = [flag(7, 1, 1), flag(7, 5, 0), flag(7, 5, 1), flag(7, 5, 1)];
    let lines =
        "{\"bit\":16,\"name\":\"inter_ref_pic_set_prediction_flag\",\"form\":\"u(1)\",\"value\":1}\n{\"bit\":17,\"name\":\"used_by_curr_pic_flag[0]\",\"form\":\"u(1)\",\"value\":0}\n{\"bit\":18,\"name\":\"use_delta_flag[0]\",\"form\":\"u(1)\",\"value\":1}\n{\"bit\":19,\"name\":\"used_by_curr_pic_flag[1]\",\"form\":\"u(1)\",\"value\":1}\n";
    expect_lines(&rt, rt.alloc(), Style::Json, &all, lines);
}
