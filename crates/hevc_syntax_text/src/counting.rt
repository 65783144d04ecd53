//! Picture order counts, from unit to unit (8.3.1).
ghost use Rattle.std.specs.Prelude.{◌≡◌, ◌^◌, ◌+◌, pos};
ghost use Rattle.hevc_bits.specs.NaluType.{nalu_type_number};
ghost use Rattle.hevc_sequence_set.specs.Sps.{plain_sps};
ghost use Rattle.hevc_records.specs.Pps.{PlainPps};
ghost use Rattle.hevc_picture_slice.specs.SliceHeader.{plain_slice_header};
ghost use Rattle.hevc_pictures.specs.OrderCounts.{IsMaxPicOrderCntLsb};

use hevc_bits::NaluType;
use hevc_picture_slice::Slice;
use hevc_pictures::PictureData;
use hevc_sequence_set::Sps;

/// What the units so far say of the order count of the picture that begins next.
#[derive(Clone, Copy)]
pub(crate) struct Counting {
    /// Whether it is the first picture of the bitstream.
    pub(crate) first_in_bitstream: bool,
    /// Whether it is the first picture after an end of sequence.
    pub(crate) first_after_end: bool,
    /// PicOrderCntVal of prevTid0Pic, if there is such a picture.
    pub(crate) prev_tid0_count: Option<i32>,
}

impl Counting {
    ghost use Rattle.hevc_syntax_text.specs.Order.{at_first, behind_end, behind_picture, head_at};
    ghost use Rattle.hevc_syntax_text.specs.Variables.{told_count};

    /// Before the first picture.
    pub(crate) fn new() -> Counting
        ensures { result ≡ at_first }
    {
        Counting {
            first_in_bitstream: true,
            first_after_end: true,
            prev_tid0_count: None,
        }
    }

    /// A picture begins with a slice segment: its order count, if it is a 32-bit number.
    pub(crate) fn begin(&mut self, slice: &Slice<'_>, sps: &Sps) -> Option<i32>
        ensures count { (pps : PlainPps) → result ≡ told_count
            (head_at self.old slice.now.nalu (plain_slice_header slice.now.header)
            (record { sps = plain_sps sps.now; pps = pps })) }
        ensures behind { (pps : PlainPps) → self.new ≡ behind_picture
            (head_at self.old slice.now.nalu (plain_slice_header slice.now.header)
            (record { sps = plain_sps sps.now; pps = pps })) self.old }
    {
        // That its bytes parse to its header, `header` says.
        let _header = slice.nalu().header();
        match PictureData::new_after(
            slice,
            self.first_in_bitstream,
            self.first_after_end,
            self.prev_tid0_count,
            max_pic_order_cnt_lsb(sps),
            false,
        ) {
            Ok(picture) => {
                self.first_in_bitstream = false;
                self.first_after_end = false;
                if picture.valid_for_prev_tid0_pic {
                    self.prev_tid0_count = Some(picture.pic_order_cnt_val);
                }
                Some(picture.pic_order_cnt_val)
            }
            Err(_) => None,
        }
    }

    /// After a unit of this type that is no slice segment.
    pub(crate) fn end(&mut self, nalu_type: NaluType)
        ensures { self.new ≡ behind_end (nalu_type_number nalu_type) self.old }
    {
        match nalu_type {
            NaluType::EosNut => self.first_after_end = true,
            NaluType::EobNut => self.first_in_bitstream = true,
            _ => {}
        }
    }
}

/// MaxPicOrderCntLsb of a sequence set (7-8).
fn max_pic_order_cnt_lsb(sps: &Sps) -> i32
    ensures max { IsMaxPicOrderCntLsb result }
    ensures value { result ≡ pos (2 ^ ((plain_sps sps.now).log2_max_pic_order_cnt_lsb_minus4 + 4)) }
{
    1 << (sps.log2_max_pic_order_cnt_lsb_minus4 + 4)
}
