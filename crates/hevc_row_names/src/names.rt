//! The name of a row.
ghost use Rattle.std.specs.Prelude.{◌≡◌, ◌≤◌, ◌<◌, ◌↔◌, ◌-◌, [], length, map, true, is_some};
ghost use Rattle.std.specs.Prelude.{IfSome, IsSome, slice_index_or};
ghost use Rattle.hevc_row_names.specs.Rows.{is_row, is_among};
ghost use Rattle.hevc_row_names.specs.Texts.{clause_of, text_of};

use crate::rows::{
    CLAUSES, TABLE_0, TABLE_1, TABLE_2, TABLE_3, TABLE_4, TABLE_5, TABLE_6, TABLE_7, TABLE_8,
    TABLE_9, TABLE_10, TABLE_11, TABLE_12, TABLE_13, TABLE_14, TABLE_15, TABLE_16,
};

/// What H.265 calls a row, and where it has it.
#[derive(Clone, Copy)]
pub struct RowName {
    /// The syntax elements of the row with their indices, as `cu_chroma_qp_offset_enabled_flag`.
    /// Where the row is a condition, those that it is about.
    pub element: &'static str,
    /// The clause that has the table's syntax, as `7.3.6.1`.
    pub clause: &'static str,
}

/// What H.265 calls a row of a table, both by their numbers in docs/TABLES.md. There is a name for
/// each row, and none for other numbers.
pub fn row_name(table: u8, row: u8) -> Option<RowName>
    ensures rows { is_some result ≡ is_row table row }
    ensures element { IfSome result (λ name. name.element.now ≡ text_of table row) }
    ensures clause { IfSome result (λ name. name.clause.now ≡ clause_of table) }
{
    let element = element_of(table, row)?;
    let clause = CLAUSES[usize::from(table)];
    Some(RowName { element, clause })
}

/// The elements of a row of a table.
fn element_of(table: u8, row: u8) -> Option<&'static str>
    ensures rows { is_some result ≡ is_row table row }
    ensures text { IfSome result (λ text. text.now ≡ text_of table row) }
    ensures tables { IfSome result (λ _. table ≤ 16) }
{
    match table {
        0 => nth(&TABLE_0, row),
        1 => nth(&TABLE_1, row),
        2 => profile_element(row),
        3 => nth(&TABLE_3, row),
        4 => nth(&TABLE_4, row),
        5 => nth(&TABLE_5, row),
        6 => nth(&TABLE_6, row),
        7 => nth(&TABLE_7, row),
        8 => nth(&TABLE_8, row),
        9 => nth(&TABLE_9, row),
        10 => nth(&TABLE_10, row),
        11 => nth(&TABLE_11, row),
        12 => nth(&TABLE_12, row),
        13 => nth(&TABLE_13, row),
        14 => nth(&TABLE_14, row),
        15 => nth(&TABLE_15, row),
        16 => nth(&TABLE_16, row),
        _ => None,
    }
}

/// The elements of a row of table 2, which has no rows 16 to 26.
fn profile_element(row: u8) -> Option<&'static str>
    ensures rows { is_some result ≡ is_row 2 row }
    ensures text { IfSome result (λ text. text.now ≡ text_of 2 row) }
{
    if (16..27).contains(&row) {
        None
    } else {
        nth(&TABLE_2, row)
    }
}

/// The elements of row 1 and those after it, by the number of the row.
fn nth(rows: &[&'static str], row: u8) -> Option<&'static str>
    ensures some { is_some result ≡ is_among (length rows.now) row }
    ensures text { IfSome result (λ text.
        text.now ≡ slice_index_or (map (λ t. t.now) rows.now) (row - 1) []) }
{
    let index = usize::from(row).checked_sub(1)?;
    rows.get(index).copied()
}
