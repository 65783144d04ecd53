//! The slice segment of a picture (7.3.6.1).
ghost use Rattle.std.specs.Prelude.{◌≡◌, ◌≤◌, ◌<◌, ◌%◌, ◌++◌, [], length, IsTrue, OnOk};
ghost use Rattle.hevc_spec.specs.declared.Row.{Row};
ghost use Rattle.hevc_stream_maker.specs.Groups.{are_rising, picture, order_count};
ghost use Rattle.hevc_stream_maker.specs.Slices.{beginning, ending, header, members as members_of};
ghost use Rattle.hevc_stream_maker.specs.Slices.{payload_bits, short_term_set, spelled_elements};

use crate::group::{Member, members_after, members_before, order_count};
use hevc_bit_writer::BitWriter;
use std::alloc::AllocError;

/// Writes the payload of the picture of this number after the first one.
pub(crate) fn write_slice(payload: &mut BitWriter, number: u32) -> Result<(), AllocError>
    requires { payload.old ≡ [] }
    ensures bits { OnOk result
        (payload.new ≡ payload_bits (picture number) (order_count number)) }
    ensures whole { OnOk result (length payload.new % 8 ≡ 0) }
{
    write_header(payload, number)?;
    payload.write_trailing_bits()?;
    payload.write_bits(8, 0x80)
}

/// Writes the slice segment header.
fn write_header(payload: &mut BitWriter, number: u32) -> Result<(), AllocError>
    ensures { OnOk result (payload.new
        ≡ payload.old ++ spelled_elements (header (picture number) (order_count number))) }
{
    write_beginning(payload, number)?;
    write_short_term_set(payload, members_before(number), members_after(number))?;
    write_ending(payload)
}

/// Rows 1 to 11 of table 14: the picture set, and the low bits of the order count.
fn write_beginning(payload: &mut BitWriter, number: u32) -> Result<(), AllocError>
    ensures { OnOk result
        (payload.new ≡ payload.old ++ spelled_elements (beginning (order_count number))) }
{
    // first_slice_segment_in_pic_flag, slice_pic_parameter_set_id, slice_type
    payload.write_flag(true)?;
    payload.write_ue(0)?;
    payload.write_ue(1)?;
    // slice_pic_order_cnt_lsb, short_term_ref_pic_set_sps_flag
    payload.write_bits(8, (order_count(number) % 256) as u32)?;
    payload.write_flag(false)
}

/// Rows 7 to 12 of table 7: a short-term set.
fn write_short_term_set(
    payload: &mut BitWriter,
    before: &[Member],
    after: &[Member],
) -> Result<(), AllocError>
    requires before { IsTrue (are_rising 0 before.now) }
    requires after { IsTrue (are_rising 0 after.now) }
    requires few { (length before.now ≤ 3) × (length after.now ≤ 3) }
    ensures { OnOk result (payload.new
        ≡ payload.old ++ spelled_elements (short_term_set before.now after.now)) }
{
    payload.write_ue(before.len() as u32)?;
    payload.write_ue(after.len() as u32)?;
    write_members(payload, before)?;
    write_members(payload, after)
}

/// Two rows a member: the difference to the one before, less 1, and whether it is used.
fn write_members(payload: &mut BitWriter, members: &[Member]) -> Result<(), AllocError>
    requires { IsTrue (are_rising 0 members.now) }
    ensures { (difference used : Row) → OnOk result (payload.new
        ≡ payload.old ++ spelled_elements (members_of difference used 0 members.now)) }
{
    let mut last = 0;
    for (distance, used) in members {
        payload.write_ue(*distance - last - 1)?;
        payload.write_flag(*used)?;
        last = *distance;
    }
    Ok(())
}

/// Rows 24 to 35 of table 14: no active places of its own, merging, and no difference of
/// quantisers.
fn write_ending(payload: &mut BitWriter) -> Result<(), AllocError>
    ensures { OnOk result (payload.new ≡ payload.old ++ spelled_elements ending) }
{
    // num_ref_idx_active_override_flag, five_minus_max_num_merge_cand, slice_qp_delta
    payload.write_flag(false)?;
    payload.write_ue(0)?;
    payload.write_se(0)
}
