//! Modifications of reference picture lists (7.3.6.2, table 15).
ghost use Rattle.std.specs.Prelude.{◌≡◌, ◌+◌, ◌≤◌, ◌^◌, [], IfOk, OnOk, IsTrue};
ghost use Rattle.hevc_elements.specs.Words.{when, Reads, Fills, ReadsTable};
ghost use Rattle.hevc_tables.specs.RefPicListModificationTable as table;
ghost use Rattle.hevc_set_parts.specs.RefPicListModification.{plain_ref_pic_list_modification};
ghost use Rattle.hevc_slice_parts.specs.Entries.{HasEntries};

use crate::logarithm::ceil_log2;
use arrayvec::ArrayVec;
use hevc_elements::rows::{bits_u32, flag};
use hevc_elements::{ElementReader, ParseError};
use hevc_set_parts::RefPicListModification;
use hevc_spec::Row;

/// Reads how the reference picture lists of a P or B slice are ordered, by table 15 (7.3.6.2).
///
/// `num_pic_total_curr` is NumPicTotalCurr (7-55), at least 1 and at most 2^31; the counts are
/// those of active places, less 1, 0 to 14. Only a B slice has a list 1.
///
/// Errors: `OutOfBits` where the payload ends within an element, and `OutOfRange` with table and
/// row of an entry that isn't below `num_pic_total_curr`. The reader then is where that element
/// begins.
#[tactic(auto, using(hevc_elements::proofs::Meaning::meanings))]
pub fn read_ref_pic_list_modification(
    r: &mut ElementReader<'_>,
    is_b: bool,
    num_pic_total_curr: u32,
    num_ref_idx_l0_active_minus1: u8,
    num_ref_idx_l1_active_minus1: u8,
) -> Result<RefPicListModification, ParseError>
    requires pictures { (1 ≤ num_pic_total_curr) × (num_pic_total_curr ≤ 2 ^ 31) }
    requires places { (num_ref_idx_l0_active_minus1 ≤ 14) × (num_ref_idx_l1_active_minus1 ≤ 14) }
    ensures rows { ReadsTable plain_ref_pic_list_modification (table.ref_pic_list_modification is_b
        num_pic_total_curr num_ref_idx_l0_active_minus1 num_ref_idx_l1_active_minus1) result r.old
        r.new }
    // A list whose order is signalled has an entry for each active place, each below
    // NumPicTotalCurr.
    ensures entries_l0 { IfOk result
        (λ m. IsTrue m.ref_pic_list_modification_flag_l0
        → HasEntries num_pic_total_curr num_ref_idx_l0_active_minus1 m.list_entry_l0.items) }
    ensures entries_l1 { IfOk result
        (λ m. IsTrue m.ref_pic_list_modification_flag_l1
        → HasEntries num_pic_total_curr num_ref_idx_l1_active_minus1 m.list_entry_l1.items) }
{
    read_rows(
        r,
        is_b,
        num_pic_total_curr,
        num_ref_idx_l0_active_minus1,
        num_ref_idx_l1_active_minus1,
    )
}

/// Rows 1 to 4 of table 15.
#[tactic(auto, unfolding(hevc_tables::specs::RefPicListModificationTable::ref_pic_list_modification, hevc_spec::specs::Rows::when))]
fn read_rows(
    r: &mut ElementReader<'_>,
    is_b: bool,
    num_pic_total_curr: u32,
    active_l0: u8,
    active_l1: u8,
) -> Result<RefPicListModification, ParseError>
    requires pictures { (1 ≤ num_pic_total_curr) × (num_pic_total_curr ≤ 2 ^ 31) }
    requires places { (active_l0 ≤ 14) × (active_l1 ≤ 14) }
    ensures read { Reads plain_ref_pic_list_modification
        (table.ref_pic_list_modification is_b num_pic_total_curr active_l0 active_l1) result r.old
        r.new }
    ensures entries_l0 { IfOk result
        (λ m. IsTrue m.ref_pic_list_modification_flag_l0
        → HasEntries num_pic_total_curr active_l0 m.list_entry_l0.items) }
    ensures entries_l1 { IfOk result
        (λ m. IsTrue m.ref_pic_list_modification_flag_l1
        → HasEntries num_pic_total_curr active_l1 m.list_entry_l1.items) }
{
    let mut m = RefPicListModification::new();
    read_l0(r, num_pic_total_curr, active_l0, &mut m)?;
    if is_b {
        read_l1(r, num_pic_total_curr, active_l1, &mut m)?;
    }
    Ok(m)
}

/// Rows 1 and 2 of table 15.
#[tactic(auto, unfolding(hevc_tables::specs::RefPicListModificationTable::modification_l0))]
fn read_l0(
    r: &mut ElementReader<'_>,
    num_pic_total_curr: u32,
    active_minus1: u8,
    m: &mut RefPicListModification,
) -> Result<(), ParseError>
    requires pictures { (1 ≤ num_pic_total_curr) × (num_pic_total_curr ≤ 2 ^ 31) }
    requires places { active_minus1 ≤ 14 }
    ensures fills { Fills plain_ref_pic_list_modification
        (table.modification_l0 num_pic_total_curr active_minus1) result m.old m.new r.old r.new }
    ensures entries { OnOk result
        (IsTrue m.new.ref_pic_list_modification_flag_l0
        → HasEntries num_pic_total_curr active_minus1 m.new.list_entry_l0.items) }
    ensures same { m.new.ref_pic_list_modification_flag_l1
        ≡ m.old.ref_pic_list_modification_flag_l1 }
{
    let told = flag(r, Row(15, 1))?;
    let entries = read_entries_if(r, told, Row(15, 2), num_pic_total_curr, active_minus1)?;
    m.ref_pic_list_modification_flag_l0 = told;
    m.list_entry_l0 = entries;
    Ok(())
}

/// Rows 3 and 4 of table 15.
#[tactic(auto, unfolding(hevc_tables::specs::RefPicListModificationTable::modification_l1))]
fn read_l1(
    r: &mut ElementReader<'_>,
    num_pic_total_curr: u32,
    active_minus1: u8,
    m: &mut RefPicListModification,
) -> Result<(), ParseError>
    requires pictures { (1 ≤ num_pic_total_curr) × (num_pic_total_curr ≤ 2 ^ 31) }
    requires places { active_minus1 ≤ 14 }
    ensures fills { Fills plain_ref_pic_list_modification
        (table.modification_l1 num_pic_total_curr active_minus1) result m.old m.new r.old r.new }
    ensures entries { OnOk result
        (IsTrue m.new.ref_pic_list_modification_flag_l1
        → HasEntries num_pic_total_curr active_minus1 m.new.list_entry_l1.items) }
    ensures same_flag { m.new.ref_pic_list_modification_flag_l0
        ≡ m.old.ref_pic_list_modification_flag_l0 }
    ensures same_entries { m.new.list_entry_l0 ≡ m.old.list_entry_l0 }
{
    let told = flag(r, Row(15, 3))?;
    let entries = read_entries_if(r, told, Row(15, 4), num_pic_total_curr, active_minus1)?;
    m.ref_pic_list_modification_flag_l1 = told;
    m.list_entry_l1 = entries;
    Ok(())
}

/// The entries of a list, where its order is signalled.
#[tactic(auto, unfolding(hevc_spec::specs::Rows::when))]
fn read_entries_if(
    r: &mut ElementReader<'_>,
    told: bool,
    row: Row,
    num_pic_total_curr: u32,
    active_minus1: u8,
) -> Result<ArrayVec<u32, 15>, ParseError>
    requires pictures { (1 ≤ num_pic_total_curr) × (num_pic_total_curr ≤ 2 ^ 31) }
    requires places { active_minus1 ≤ 14 }
    ensures read { Reads (λ entries. entries.items)
        (when told [] (table.list_entries row num_pic_total_curr (active_minus1 + 1))) result r.old
        r.new }
    ensures entries { IfOk result
        (λ entries. IsTrue told → HasEntries num_pic_total_curr active_minus1 entries.items) }
{
    if told {
        read_entries(r, row, num_pic_total_curr, active_minus1)
    } else {
        Ok(ArrayVec::new())
    }
}

/// The entries of a list, one for each active place.
#[tactic(auto, using(hevc_elements::proofs::Loops::loops), unfolding(hevc_tables::specs::RefPicListModificationTable::list_entries, hevc_tables::specs::RefPicListModificationTable::list_entry))]
fn read_entries(
    r: &mut ElementReader<'_>,
    row: Row,
    num_pic_total_curr: u32,
    active_minus1: u8,
) -> Result<ArrayVec<u32, 15>, ParseError>
    requires pictures { (1 ≤ num_pic_total_curr) × (num_pic_total_curr ≤ 2 ^ 31) }
    requires places { active_minus1 ≤ 14 }
    ensures read { Reads (λ entries. entries.items)
        (table.list_entries row num_pic_total_curr (active_minus1 + 1)) result r.old r.new }
    ensures entries { IfOk result
        (λ entries. HasEntries num_pic_total_curr active_minus1 entries.items) }
{
    let count = usize::from(active_minus1) + 1;
    let num_bits = ceil_log2(num_pic_total_curr);
    let mut entries = ArrayVec::new();
    for i in 0..count {
        let entry = bits_u32(r, row, num_bits, 0, num_pic_total_curr - 1)?;
        entries.push(entry);
    }
    Ok(entries)
}
