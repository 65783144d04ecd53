//! Which pictures are kept for reference (7.3.6.1, rows 10 to 21 of table 14).
ghost use Rattle.hevc_elements.specs.Words.{Fills};
ghost use Rattle.hevc_tables.specs.SliceHeaderTable as table;
ghost use Rattle.hevc_sequence_set.specs.Sps.{plain_sps};
ghost use Rattle.hevc_picture_slice.specs.SliceHeader.{plain_slice_header};

use crate::long_term::read_long_term;
use crate::short_term::read_short_term;
use hevc_elements::rows::flag_if;
use hevc_elements::{ElementReader, ParseError};
use hevc_picture_slice::SliceHeader;
use hevc_sequence_set::Sps;
use hevc_spec::Row;

/// Fills in rows 10 to 21 of table 14 (7.3.6.1) of a slice whose picture isn't IDR: its order
/// count, and its short-term and long-term reference pictures.
///
/// Errors: `OutOfBits` where the payload ends within an element, and `OutOfRange` with table and
/// row of the first element that isn't allowed. The reader then is where that element begins.
#[tactic(auto, unfolding(hevc_tables::specs::SliceHeaderTable::reference_pictures, hevc_spec::specs::Rows::when))]
pub fn read_reference_pictures(
    r: &mut ElementReader<'_>,
    sps: &Sps,
    h: &mut SliceHeader,
) -> Result<(), ParseError>
    ensures { Fills plain_slice_header
        (table.reference_pictures (plain_sps sps.now)) result h.old h.new r.old r.new }
{
    read_short_term(r, sps, h)?;
    if sps.long_term_ref_pics_present_flag {
        read_long_term(r, sps, h)?;
    }
    h.temporal_mvp_enabled_flag = flag_if(r, sps.temporal_mvp_enabled_flag, Row(14, 21))?;
    Ok(())
}
