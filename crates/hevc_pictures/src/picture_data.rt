//! What is known of a picture.
ghost use Rattle.std.specs.Prelude.{◌≡◌, ◌&&◌};
ghost use Rattle.hevc_pictures.specs.Marks.{is_reference};

use crate::reference::Reference;
use hevc_bits::NaluType;

/// What its first slice tells of a picture, and how it is in the decoded picture buffer.
#[derive(Clone, Copy, Default, PartialEq, Eq)]
pub struct PictureData {
    /// The type of its slices' units.
    pub nalu_type: NaluType,
    /// NoRaslOutputFlag (8.1.3).
    pub no_rasl_output_flag: bool,
    /// PicOutputFlag (8.1.3).
    pub pic_output_flag: bool,
    /// Whether it can be prevTid0Pic, from which later pictures take their order counts (8.3.1).
    pub valid_for_prev_tid0_pic: bool,
    /// The low bits of its order count, slice_pic_order_cnt_lsb.
    pub slice_pic_order_cnt_lsb: i32,
    /// PicOrderCntMsb, the order count less its low bits.
    pub pic_order_cnt_msb: i32,
    /// PicOrderCntVal, the order count.
    pub pic_order_cnt_val: i32,
    /// NoOutputOfPriorPicsFlag (C.5.2.2), which isn't inferred from a changed size.
    pub no_output_of_prior_pics_flag: bool,
    /// Whether it is an intra random access point picture.
    pub is_irap: bool,
    /// Whether it is the first picture after an end of sequence.
    pub first_picture_after_eos: bool,
    /// PicLatencyCount: how many pictures were stored after it.
    pub pic_latency_cnt: i32,
    /// PicOutputFlag as it is stored, until it is output: whether it is needed for output.
    pub needed_for_output: bool,
    /// The payload bits of the short-term set in its first slice's header.
    pub short_term_ref_pic_set_size_bits: u32,
    reference: Reference,
}

impl PictureData {
    ghost use Rattle.hevc_pictures.specs.Marks.{reference_of, with_reference};

    /// Whether it begins a coded video sequence: an IRAP picture with NoRaslOutputFlag (8.1.3).
    pub fn starts_sequence(&self) -> bool
        ensures { result ≡ (self.now.is_irap && self.now.no_rasl_output_flag) }
    {
        self.is_irap && self.no_rasl_output_flag
    }

    /// Whether it is marked as used for reference.
    pub fn is_ref(&self) -> bool
        ensures { result ≡ is_reference (reference_of self.now) }
    {
        match self.reference {
            Reference::None => false,
            Reference::ShortTerm | Reference::LongTerm => true,
        }
    }

    /// Marks it.
    pub fn set_reference(&mut self, reference: Reference)
        ensures { self.new ≡ with_reference reference self.old }
    {
        self.reference = reference;
    }

    /// How it is marked.
    pub fn reference(&self) -> &Reference
        ensures { result.now ≡ reference_of self.now }
    {
        &self.reference
    }
}
