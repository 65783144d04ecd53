//! What a first slice tells of its picture (8.1.3, 8.3.1).
ghost use Rattle.std.specs.Prelude.{◌≡◌, ◌&&◌, ◌<◌, ◌+◌, ◌-◌, ◌^◌, pos, true, false, Some, IfOk};
ghost use Rattle.std.specs.Prelude.{OnOk, OnErr, if◌then◌else◌};
ghost use Rattle.hevc_spec.specs.UnitTypes.{is_rasl};
ghost use Rattle.hevc_bits.specs.NaluType.{nalu_type_number};
ghost use Rattle.hevc_sequence_set.specs.Sps.{plain_sps};
ghost use Rattle.hevc_walk_inputs.specs.Sequences.{format_of_set};
ghost use Rattle.hevc_backend.specs.Handed.{first_picture, plain_picture};
ghost use Rattle.hevc_backend.specs.Negotiation.{info_of};
ghost use Rattle.hevc_picture_slice.specs.declared.pps.Pps.{Pps};
ghost use Rattle.hevc_walk.specs.Pictures.{head, order_count_in_range};
ghost use Rattle.hevc_walk_units.specs.Units.{context_behind, tid0_behind};
ghost use Rattle.hevc_pictures.specs.OrderCounts.{IsMaxPicOrderCntLsb};
ghost use Rattle.hevc_driver.specs.Heads.{head_of, context_of};
ghost use Rattle.hevc_driver.specs.Slices.{slice_of};

use crate::head::{Context, Head};
use hevc_bits::NaluType;
use hevc_dpb::{Limits, PictureData};
use hevc_options::Options;
use hevc_picture_slice::Slice;
use hevc_pictures::PocOutOfRange;
use hevc_sequence_set::Sps;

/// MaxPicOrderCntLsb of a sequence set (7-8): 16 to 65536.
pub fn max_pic_order_cnt_lsb(sps: &Sps) -> i32
    ensures max { IsMaxPicOrderCntLsb result }
    ensures value { result ≡ pos (2 ^ ((plain_sps sps.now).log2_max_pic_order_cnt_lsb_minus4 + 4)) }
{
    1 << (sps.log2_max_pic_order_cnt_lsb_minus4 + 4)
}

/// What a picture's first slice tells of it.
///
/// Errors: its order count, or its most significant bits, isn't a 32-bit number.
pub fn head_of_first(
    next: &Context,
    options: Options,
    slice: &Slice<'_>,
    sps: &Sps,
) -> Result<Head, PocOutOfRange>
    ensures head { (pps : Pps) → IfOk result (λ h. head_of h
        ≡ head (context_of next.now) (slice_of options slice.now sps.now pps)) }
    ensures picture { (pps : Pps) → IfOk result (λ h. plain_picture h.picture
        ≡ first_picture (context_of next.now) (slice_of options slice.now sps.now pps)
        slice.now.header.st_rps_bits) }
    ensures number { IfOk result (λ h. h.number ≡ next.now.number) }
    ensures format { IfOk result (λ h. h.format ≡ info_of (format_of_set (plain_sps sps.now))) }
    ensures within { (pps : Pps) → OnOk result (order_count_in_range
        (head (context_of next.now) (slice_of options slice.now sps.now pps)) ≡ true) }
    ensures outside { (pps : Pps) → OnErr result (order_count_in_range
        (head (context_of next.now) (slice_of options slice.now sps.now pps)) ≡ false) }
{
    let nalu_type = slice.nalu().header().nalu_type();
    let picture = PictureData::new_after(
        slice,
        next.first_picture_in_bitstream,
        next.first_picture_after_eos,
        next.prev_tid0_count,
        max_pic_order_cnt_lsb(sps),
        options.handle_cra_as_bla,
    )?;
    Ok(Head {
        number: next.number,
        picture,
        skipped: is_skipped(nalu_type, next.latest_irap_no_rasl),
        latest_irap_no_rasl: latest_irap_no_rasl(&picture, next.latest_irap_no_rasl),
        format: sps.into(),
        limits: Limits::of(sps, options.highest_tid),
    })
}

/// Whether a picture isn't decoded: RASL, where the latest IRAP picture has NoRaslOutputFlag
/// (8.1.3).
fn is_skipped(nalu_type: NaluType, latest_irap_no_rasl: bool) -> bool
    ensures { result ≡ (is_rasl (nalu_type_number nalu_type) && latest_irap_no_rasl) }
{
    nalu_type.is_rasl() && latest_irap_no_rasl
}

/// NoRaslOutputFlag of the latest IRAP picture, up to this one.
fn latest_irap_no_rasl(picture: &PictureData, earlier: bool) -> bool
    ensures { result
        ≡ (if picture.now.is_irap then picture.now.no_rasl_output_flag else earlier) }
{
    if picture.is_irap {
        picture.no_rasl_output_flag
    } else {
        earlier
    }
}

/// What the pictures with this one mean for the next.
pub(crate) fn behind(next: &Context, head: &Head) -> Context
    requires { head.now.number < 2 ^ 64 - 1 }
    ensures { context_of result ≡ context_behind (head_of head.now) (context_of next.now) }
{
    Context {
        number: head.number + 1,
        first_picture_in_bitstream: false,
        first_picture_after_eos: false,
        prev_tid0_count: next.prev_tid0_count,
        latest_irap_no_rasl: head.latest_irap_no_rasl,
    }
}

/// The order count of prevTid0Pic, once this picture is over (8.3.1).
pub(crate) fn tid0_behind(head: &Head, earlier: Option<i32>) -> Option<i32>
    ensures { result ≡ tid0_behind (Some (head_of head.now)) earlier }
{
    if !head.skipped && head.picture.valid_for_prev_tid0_pic {
        Some(head.picture.pic_order_cnt_val)
    } else {
        earlier
    }
}
