//! Names and bounds of rows in the room of a caller's.
use crate::tests::expect::expect_eq;
use hevc_element_calls::{element_bounds, element_name};

#[test]
fn a_name_is_ended_by_zeros(rt: HostRuntime) {
    let rt = &rt;
    let mut room = [7; 24];
    expect_eq(rt, element_name(0, 1, &mut room), 21);
    expect_eq(rt, &room[..], &b"nuh_temporal_id_plus1\0\0\0"[..]);
    let mut room = [7; 22];
    expect_eq(rt, element_name(0, 1, &mut room), 21);
    expect_eq(rt, &room[..], &b"nuh_temporal_id_plus1\0"[..]);
}

#[test]
fn a_name_that_is_too_long_is_cut(rt: HostRuntime) {
    let rt = &rt;
    let mut room = [7; 5];
    expect_eq(rt, element_name(0, 1, &mut room), 21);
    expect_eq(rt, &room[..], &b"nuh_\0"[..]);
    expect_eq(rt, element_name(0, 1, &mut []), 21);
}

#[test]
fn bounds_are_those_of_the_row(rt: HostRuntime) {
    let rt = &rt;
    let mut room = [7; 8];
    expect_eq(rt, element_bounds(14, 37, &mut room), 7);
    expect_eq(rt, &room[..], &b"-12..12\0"[..]);
}

#[test]
fn other_numbers_have_neither(rt: HostRuntime) {
    let rt = &rt;
    for (table, row) in [(0, 0), (0, 2), (2, 16), (17, 1), (255, 255)] {
        let mut room = [7; 3];
        expect_eq(rt, element_name(table, row, &mut room), 0);
        expect_eq(rt, room, [0; 3]);
        expect_eq(rt, element_bounds(table, row, &mut room), 0);
        expect_eq(rt, room, [0; 3]);
    }
}
