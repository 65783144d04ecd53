//! What a picture is decoded with: `struct v4l2_ctrl_hevc_decode_params`.
ghost use Rattle.std.specs.Prelude.{◌≡◌, ◌≤◌, map, slice_index_or, IfOk};
ghost use Rattle.std.specs.Result.{result_err};
ghost use Rattle.hevc_records.specs.ShortTermRefPicSet.{default_short_term_ref_pic_set};
ghost use Rattle.hevc_set_parts.specs.ShortTermRefPicSet.{plain_short_term_ref_pic_set};
ghost use Rattle.hevc_sequence_set.specs.Sps.{plain_sps};
ghost use Rattle.hevc_picture_slice.specs.SliceHeader.{plain_slice_header};
ghost use Rattle.hevc_dpb.specs.Views.{stored_entries};
ghost use Rattle.hevc_refs.specs.Sets.{plain_set};
ghost use Rattle.hevc_v4l2.specs.Decode.{control_of_decoding, decode_flags, indices_of};
ghost use Rattle.hevc_v4l2.specs.Decode.{num_delta_pocs_of_ref_rps, short_term_error};

use crate::buffer::{V4l2HevcDpbEntry, entry_places, member_indices, reference_controls};
use crate::error::ControlError;
use crate::long_term::long_term_size;
use hevc_dpb::Dpb;
use hevc_events::flag_bits;
use hevc_picture_slice::{Slice, SliceHeader};
use hevc_pictures::PictureData;
use hevc_refs::RefPicSet;
use hevc_sequence_set::Sps;
use hevc_set_parts::ShortTermRefPicSet;

/// `struct v4l2_ctrl_hevc_decode_params`: a picture, the buffer and its reference picture set
/// (8.3.2).
#[repr(C)]
#[derive(Clone, Copy)]
pub struct V4l2CtrlHevcDecodeParams {
    /// PicOrderCntVal.
    pub pic_order_cnt_val: i32,
    /// The bits of the short-term reference picture set in the header of the first slice.
    pub short_term_ref_pic_set_size: u16,
    /// The bits of that header's part on long-term reference pictures.
    pub long_term_ref_pic_set_size: u16,
    /// How many places of `dpb` hold a picture.
    pub num_active_dpb_entries: u8,
    /// How many members RefPicSetStCurrBefore has.
    pub num_poc_st_curr_before: u8,
    /// How many members RefPicSetStCurrAfter has.
    pub num_poc_st_curr_after: u8,
    /// How many members RefPicSetLtCurr has.
    pub num_poc_lt_curr: u8,
    /// For each member of RefPicSetStCurrBefore, which of `dpb` it is; 255 where there is no such
    /// picture, and after the members.
    pub poc_st_curr_before: [u8; 16],
    /// The same of RefPicSetStCurrAfter.
    pub poc_st_curr_after: [u8; 16],
    /// The same of RefPicSetLtCurr.
    pub poc_lt_curr: [u8; 16],
    /// NumDeltaPocs of the set that the header's own short-term set is predicted from (7-61), 0
    /// without one.
    pub num_delta_pocs_of_ref_rps_idx: u8,
    /// Zeros.
    pub reserved: [u8; 3],
    /// The reference pictures of the buffer, in stored order.
    pub dpb: [V4l2HevcDpbEntry; 16],
    /// `V4L2_HEVC_DECODE_PARAM_FLAG_*`, from bit 0 on.
    pub flags: u64,
}

const _: () = prove!(size_of::<V4l2CtrlHevcDecodeParams>() == 328);

/// The indices of the members that the picture may refer to.
#[derive(Clone, Copy)]
struct Members {
    st_curr_before: [u8; 16],
    st_curr_after: [u8; 16],
    lt_curr: [u8; 16],
}

/// A picture as a stateless decoder takes it: with its first slice, the sequence set, the buffer as
/// its slices find it and its reference picture set over that. The handle of each stored picture is
/// the timestamp of the buffer that it is decoded into.
///
/// Errors: `ShortTermSize`.
pub fn decode_control(
    picture: &PictureData,
    slice: &Slice<'_>,
    sps: &Sps,
    dpb: &Dpb<u64>,
    rps: &RefPicSet,
) -> Result<V4l2CtrlHevcDecodeParams, ControlError>
    ensures filled { IfOk result (λ control. control
        ≡ control_of_decoding picture.now slice.now (plain_sps sps.now)
        (stored_entries dpb.now) (plain_set rps.now)) }
    ensures refused { result_err result ≡ short_term_error (plain_slice_header slice.now.header) }
{
    if slice.header.st_rps_bits > 65535 {
        return Err(ControlError::ShortTermSize);
    }
    Ok(small_control(picture, slice, sps, dpb, rps))
}

/// The same, of a short-term set whose size fits 16 bits.
fn small_control(
    picture: &PictureData,
    slice: &Slice<'_>,
    sps: &Sps,
    dpb: &Dpb<u64>,
    rps: &RefPicSet,
) -> V4l2CtrlHevcDecodeParams
    requires { slice.now.header.st_rps_bits ≤ 65535 }
    ensures { result
        ≡ control_of_decoding picture.now slice.now (plain_sps sps.now)
        (stored_entries dpb.now) (plain_set rps.now) }
{
    let references = reference_controls(dpb);
    let Members {
        st_curr_before,
        st_curr_after,
        lt_curr,
    } = members_of(dpb, rps);
    let places = entry_places(references.as_slice());
    V4l2CtrlHevcDecodeParams {
        pic_order_cnt_val: picture.pic_order_cnt_val,
        short_term_ref_pic_set_size: slice.header.st_rps_bits as u16,
        long_term_ref_pic_set_size: long_term_size(slice, sps),
        num_active_dpb_entries: references.len() as u8,
        num_poc_st_curr_before: rps.st_curr_before().len() as u8,
        num_poc_st_curr_after: rps.st_curr_after().len() as u8,
        num_poc_lt_curr: rps.lt_curr().len() as u8,
        poc_st_curr_before: st_curr_before,
        poc_st_curr_after: st_curr_after,
        poc_lt_curr: lt_curr,
        num_delta_pocs_of_ref_rps_idx: num_delta_pocs_of_ref_rps(&slice.header, sps),
        reserved: [0; 3],
        dpb: places,
        flags: decode_flags(picture),
    }
}

/// The indices of the three lists of a reference picture set.
fn members_of(dpb: &Dpb<u64>, rps: &RefPicSet) -> Members
    ensures before { result.st_curr_before
        ≡ indices_of (stored_entries dpb.now) (plain_set rps.now).st_curr_before }
    ensures after { result.st_curr_after
        ≡ indices_of (stored_entries dpb.now) (plain_set rps.now).st_curr_after }
    ensures long_term { result.lt_curr
        ≡ indices_of (stored_entries dpb.now) (plain_set rps.now).lt_curr }
{
    let numbers = dpb.get_all_references();
    Members {
        st_curr_before: member_indices(rps.st_curr_before(), numbers.as_slice()),
        st_curr_after: member_indices(rps.st_curr_after(), numbers.as_slice()),
        lt_curr: member_indices(rps.lt_curr(), numbers.as_slice()),
    }
}

/// NumDeltaPocs[ RefRpsIdx ] of the header's own set (7-59), 0 where it isn't predicted.
fn num_delta_pocs_of_ref_rps(header: &SliceHeader, sps: &Sps) -> u8
    ensures { result
        ≡ num_delta_pocs_of_ref_rps (plain_sps sps.now) (plain_slice_header header.now) }
{
    let set = &header.short_term_ref_pic_set;
    if header.short_term_ref_pic_set_sps_flag || !set.inter_ref_pic_set_prediction_flag {
        return 0;
    }
    let back = usize::from(set.delta_idx_minus1) + 1;
    let index = usize::from(sps.num_short_term_ref_pic_sets).saturating_sub(back);
    num_delta_pocs(sps.short_term_ref_pic_set.as_slice(), index)
}

/// How many members the set at a place has.
fn num_delta_pocs(sets: &[ShortTermRefPicSet], index: usize) -> u8
    ensures { result
        ≡ (slice_index_or (map plain_short_term_ref_pic_set sets.now) index
        default_short_term_ref_pic_set).num_delta_pocs }
{
    match sets.get(index) {
        Some(set) => set.num_delta_pocs as u8,
        None => 0,
    }
}

/// The flags, in the order of their bits.
fn decode_flags(picture: &PictureData) -> u64
    ensures { result ≡ decode_flags picture.now }
{
    flag_bits(&[
        picture.is_irap,
        picture.nalu_type.is_idr(),
        picture.no_output_of_prior_pics_flag,
    ])
}
