//! The long-term pictures that slices may name (7.3.2.2.1, rows 37 to 40 of table 5).
ghost use Rattle.std.specs.Prelude.{◌≡◌, ◌≤◌, ◌<◌, slice_set};
ghost use Rattle.hevc_elements.specs.Words.{Fills};
ghost use Rattle.hevc_tables.specs.SpsTable as table;
ghost use Rattle.hevc_sequence_set.specs.Sps.{plain_sps};

use hevc_elements::rows::{bits_u32, flag, ue_u8_if};
use hevc_elements::{ElementReader, ParseError};
use hevc_sequence_set::Sps;
use hevc_spec::Row;

/// Rows 37 to 40 of table 5.
#[tactic(auto, unfolding(hevc_tables::specs::SpsTable::long_term))]
pub(crate) fn read_long_term(r: &mut ElementReader<'_>, sps: &mut Sps) -> Result<(), ParseError>
    ensures { Fills plain_sps table.long_term result sps.old sps.new r.old r.new }
{
    let present = flag(r, Row(5, 37))?;
    let count = ue_u8_if(r, present, Row(5, 38), 0, 32)?;
    set_long_term(sps, present, count);
    read_pictures(r, sps)
}

/// Fills in rows 37 and 38.
fn set_long_term(sps: &mut Sps, present: bool, count: u8)
    requires { count ≤ 32 }
    ensures { plain_sps sps.new ≡ record (plain_sps sps.old) {
      long_term_ref_pics_present_flag = present;
      num_long_term_ref_pics_sps = count;
    } }
{
    sps.long_term_ref_pics_present_flag = present;
    sps.num_long_term_ref_pics_sps = count;
}

/// Rows 39 and 40 of table 5, for each picture.
#[tactic(auto, using(hevc_elements::proofs::Loops::loops), unfolding(hevc_tables::specs::SpsTable::long_term_pictures))]
fn read_pictures(r: &mut ElementReader<'_>, sps: &mut Sps) -> Result<(), ParseError>
    ensures { Fills plain_sps table.long_term_pictures result sps.old sps.new r.old r.new }
{
    let count = usize::from(sps.num_long_term_ref_pics_sps);
    for i in 0..count {
        read_picture(r, i, sps)?;
    }
    Ok(())
}

/// Rows 39 and 40 of table 5, for one picture.
#[tactic(auto, unfolding(hevc_tables::specs::SpsTable::long_term_picture))]
fn read_picture(r: &mut ElementReader<'_>, i: usize, sps: &mut Sps) -> Result<(), ParseError>
    requires { i < 32 }
    ensures { Fills plain_sps (table.long_term_picture i) result sps.old sps.new r.old r.new }
{
    let num_bits = usize::from(sps.log2_max_pic_order_cnt_lsb_minus4) + 4;
    let lsb = bits_u32(r, Row(5, 39), num_bits, 0, (1u32 << num_bits) - 1)?;
    let used = flag(r, Row(5, 40))?;
    set_picture(sps, i, lsb, used);
    Ok(())
}

/// Fills in rows 39 and 40 of one picture.
fn set_picture(sps: &mut Sps, i: usize, lsb: u32, used: bool)
    requires { i < 32 }
    ensures { plain_sps sps.new ≡ record (plain_sps sps.old) {
      lt_ref_pic_poc_lsb_sps = slice_set sps.old.lt_ref_pic_poc_lsb_sps i lsb;
      used_by_curr_pic_lt_sps_flag = slice_set sps.old.used_by_curr_pic_lt_sps_flag i used;
    } }
{
    sps.lt_ref_pic_poc_lsb_sps[i] = lsb;
    sps.used_by_curr_pic_lt_sps_flag[i] = used;
}
