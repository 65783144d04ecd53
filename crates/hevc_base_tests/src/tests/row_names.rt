//! The names that H.265 has for some rows, and their clauses.
use crate::tests::expect::expect_eq;
use hevc_row_names::{RowName, row_name};

/// The element and the clause of a row, if there is such a row.
fn told(table: u8, row: u8) -> Option<(&'static str, &'static str)> {
    match row_name(table, row) {
        Some(RowName { element, clause }) => Some((element, clause)),
        None => None,
    }
}

#[test]
fn rows_have_their_elements_and_clause(rt: HostRuntime) {
    let rt = &rt;
    let rows = [
        (0, 1, "nuh_temporal_id_plus1", "7.3.1.2"),
        (1, 12, "vps_max_dec_pic_buffering_minus1[ i ]", "7.3.2.1"),
        (2, 27, "general_level_idc", "7.3.3"),
        (8, 16, "vui_num_units_in_tick, vui_time_scale", "E.2.1"),
        (14, 37, "slice_cb_qp_offset", "7.3.6.1"),
        (16, 14, "delta_chroma_offset_l1[ i ][ j ]", "7.3.6.3"),
    ];
    for (table, row, element, clause) in rows {
        expect_eq(rt, told(table, row), Some((element, clause)));
    }
}

#[test]
fn other_numbers_have_none(rt: HostRuntime) {
    let rt = &rt;
    for (table, row) in [(0, 0), (0, 2), (2, 16), (2, 26), (16, 15), (17, 1)] {
        expect_eq(rt, told(table, row), None);
    }
}
