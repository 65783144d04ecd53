//! What is known of pictures as they begin.
ghost use Rattle.std.specs.Prelude.{◌≡◌, ◌≤ℤ◌, ◌&&◌, pos, true};

use hevc_backend::NegotiationInfo;
use hevc_dpb::{Limits, PictureData};

/// What a picture's first slice tells of it, with the sets that are active (8.1.3, 8.3.1).
#[derive(Clone, Copy)]
pub struct Head {
    /// Its number: pictures are numbered from 0 in decoding order.
    pub number: u64,
    /// Its flags and its order count.
    pub picture: PictureData,
    /// A RASL picture isn't decoded where the latest IRAP picture has NoRaslOutputFlag (8.1.3).
    pub skipped: bool,
    /// NoRaslOutputFlag of the latest IRAP picture, up to this one.
    pub latest_irap_no_rasl: bool,
    /// The format of its sequence set.
    pub format: NegotiationInfo,
    /// What its sequence set declares for the highest sub-layer that is decoded (C.5.2.2).
    pub limits: Limits,
    ghost lsb: { pos 0 ≤ℤ picture.slice_pic_order_cnt_lsb },
    ghost prior: { picture.no_output_of_prior_pics_flag ≡ true → (picture.is_irap && picture.no_rasl_output_flag) ≡ true },
}

/// What the pictures so far mean for the next one (8.1.3, 8.3.1).
#[derive(Clone, Copy)]
pub struct Context {
    /// Its number.
    pub number: u64,
    /// It is the first one in the bitstream.
    pub first_picture_in_bitstream: bool,
    /// It is the first one after an end of sequence.
    pub first_picture_after_eos: bool,
    /// The order count of prevTid0Pic, if there is one.
    pub prev_tid0_count: Option<i32>,
    /// NoRaslOutputFlag of the latest IRAP picture, false where there is none.
    pub latest_irap_no_rasl: bool,
}
