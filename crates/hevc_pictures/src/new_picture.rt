//! What a picture's first slice tells of it (8.1.3, 8.3.1).
ghost use Rattle.std.specs.Prelude.{◌≡◌, ◌↔◌, ◌||◌, ◌&&◌, ◌==◌, ◌+◌, not, false, ℕ, IfOk, IsErr};
ghost use Rattle.std.specs.Prelude.{option_map};
ghost use Rattle.std.specs.Option.{option_copied};
ghost use Rattle.hevc_spec.specs.UnitTypes.{is_idr, is_bla, is_cra, is_irap, is_radl, is_rasl};
ghost use Rattle.hevc_spec.specs.UnitTypes.{is_slnr};
ghost use Rattle.hevc_bits.specs.NaluType.{nalu_type_number};

use crate::order_count::{PocOutOfRange, order_count};
use crate::picture_data::PictureData;
use hevc_bits::NaluType;
use hevc_picture_slice::Slice;

/// NoRaslOutputFlag (8.1.3), which holds for every picture that is first after an end of sequence.
fn no_rasl_output(
    nalu_type: NaluType,
    first_in_bitstream: bool,
    first_after_eos: bool,
    handled_as_bla: bool,
) -> bool
    ensures { result ≡ (is_idr (nalu_type_number nalu_type) || is_bla (nalu_type_number nalu_type)
        || (is_cra (nalu_type_number nalu_type) && (first_in_bitstream || handled_as_bla))
        || first_after_eos) }
{
    nalu_type.is_idr()
        || nalu_type.is_bla()
        || (nalu_type.is_cra() && (first_in_bitstream || handled_as_bla))
        || first_after_eos
}

/// Whether a picture begins a coded video sequence: an IRAP picture with NoRaslOutputFlag.
fn begins_sequence(nalu_type: NaluType, no_rasl_output_flag: bool) -> bool
    ensures { result ≡ (is_irap (nalu_type_number nalu_type) && no_rasl_output_flag) }
{
    nalu_type.is_irap() && no_rasl_output_flag
}

/// PicOutputFlag (8.1.3), where a RASL picture goes by its own NoRaslOutputFlag.
fn is_output(nalu_type: NaluType, no_rasl_output_flag: bool, pic_output_flag: bool) -> bool
    ensures { result
        ≡ (pic_output_flag && not (is_rasl (nalu_type_number nalu_type) && no_rasl_output_flag)) }
{
    pic_output_flag && !(nalu_type.is_rasl() && no_rasl_output_flag)
}

/// NoOutputOfPriorPicsFlag (C.5.2.2).
fn discards_prior(
    nalu_type: NaluType,
    begins_sequence: bool,
    first_in_bitstream: bool,
    no_output_of_prior_pics_flag: bool,
) -> bool
    ensures { result ≡ (begins_sequence && not first_in_bitstream
        && (is_cra (nalu_type_number nalu_type) || no_output_of_prior_pics_flag)) }
{
    begins_sequence && !first_in_bitstream && (nalu_type.is_cra() || no_output_of_prior_pics_flag)
}

/// Whether later pictures may take their order counts from a picture of this type and temporal id
/// (8.3.1).
fn is_valid_for_prev_tid0(nalu_type: NaluType, temporal_id_plus1: u8) -> bool
    ensures { (temporal_id : ℕ) → temporal_id_plus1 ≡ temporal_id + 1
        → result ≡ (temporal_id == 0 && not (is_radl (nalu_type_number nalu_type)
        || is_rasl (nalu_type_number nalu_type) || is_slnr (nalu_type_number nalu_type))) }
{
    temporal_id_plus1 == 1 && !(nalu_type.is_radl() || nalu_type.is_rasl() || nalu_type.is_slnr())
}

/// The order count of a picture, if there is one.
fn order_count_of(picture: Option<&PictureData>) -> Option<i32>
    ensures { result ≡ option_map (λ p. p.pic_order_cnt_val) (option_copied picture.entry) }
{
    match picture {
        None => None,
        Some(picture) => Some(picture.pic_order_cnt_val),
    }
}

impl PictureData {
    ghost use Rattle.hevc_walk.specs.Meanings as walk;
    ghost use Rattle.hevc_walk.specs.Pictures.{Context, head, order_count_in_range};
    ghost use Rattle.hevc_pictures.specs.OrderCounts.{IsMaxPicOrderCntLsb};
    ghost use Rattle.hevc_pictures.specs.NewPicture.{IsContext, IsFirstSlice, IsNewPicture};

    /// The picture that begins with a slice segment. `max_pic_order_cnt_lsb` is MaxPicOrderCntLsb
    /// of its sequence set, and `prev_tid0_pic` prevTid0Pic (8.3.1), if there is such a picture.
    ///
    /// Errors: its order count, or the most significant bits of it, isn't a 32-bit number.
    pub fn new_from_slice(
        slice: &Slice<'_>,
        first_picture_in_bitstream: bool,
        first_picture_after_eos: bool,
        prev_tid0_pic: Option<&PictureData>,
        max_pic_order_cnt_lsb: i32,
        handle_cra_as_bla: bool,
    ) -> Result<PictureData, PocOutOfRange>
        requires { IsMaxPicOrderCntLsb max_pic_order_cnt_lsb }
        ensures told { (c : Context) (s : walk.Slice)
            → IsContext c first_picture_in_bitstream first_picture_after_eos
            (option_map (λ p. p.pic_order_cnt_val) (option_copied prev_tid0_pic.entry))
            → IsFirstSlice s slice.now max_pic_order_cnt_lsb handle_cra_as_bla
            → IfOk result (IsNewPicture c s slice.now.header.st_rps_bits) }
        ensures refused { (c : Context) (s : walk.Slice)
            → IsContext c first_picture_in_bitstream first_picture_after_eos
            (option_map (λ p. p.pic_order_cnt_val) (option_copied prev_tid0_pic.entry))
            → IsFirstSlice s slice.now max_pic_order_cnt_lsb handle_cra_as_bla
            → IsErr result ↔ (order_count_in_range (head c s) ≡ false) }
    {
        PictureData::new_after(
            slice,
            first_picture_in_bitstream,
            first_picture_after_eos,
            order_count_of(prev_tid0_pic),
            max_pic_order_cnt_lsb,
            handle_cra_as_bla,
        )
    }

    /// The same, where `prev_tid0_count` is the order count of prevTid0Pic (8.3.1), if there is
    /// such a picture.
    ///
    /// Errors: its order count, or the most significant bits of it, isn't a 32-bit number.
    pub fn new_after(
        slice: &Slice<'_>,
        first_picture_in_bitstream: bool,
        first_picture_after_eos: bool,
        prev_tid0_count: Option<i32>,
        max_pic_order_cnt_lsb: i32,
        handle_cra_as_bla: bool,
    ) -> Result<PictureData, PocOutOfRange>
        requires { IsMaxPicOrderCntLsb max_pic_order_cnt_lsb }
        ensures told { (c : Context) (s : walk.Slice)
            → IsContext c first_picture_in_bitstream first_picture_after_eos prev_tid0_count
            → IsFirstSlice s slice.now max_pic_order_cnt_lsb handle_cra_as_bla
            → IfOk result (IsNewPicture c s slice.now.header.st_rps_bits) }
        ensures refused { (c : Context) (s : walk.Slice)
            → IsContext c first_picture_in_bitstream first_picture_after_eos prev_tid0_count
            → IsFirstSlice s slice.now max_pic_order_cnt_lsb handle_cra_as_bla
            → IsErr result ↔ (order_count_in_range (head c s) ≡ false) }
    {
        let header = slice.header();
        let unit = slice.nalu().header();
        let nalu_type = unit.nalu_type();
        let no_rasl_output_flag = no_rasl_output(
            nalu_type,
            first_picture_in_bitstream,
            first_picture_after_eos,
            handle_cra_as_bla,
        );
        let begins_sequence = begins_sequence(nalu_type, no_rasl_output_flag);
        let lsb = header.pic_order_cnt_lsb as i32;
        let count = order_count(begins_sequence, prev_tid0_count, lsb, max_pic_order_cnt_lsb)?;
        let mut picture = PictureData::default();
        picture.nalu_type = nalu_type;
        picture.no_rasl_output_flag = no_rasl_output_flag;
        picture.pic_output_flag = is_output(nalu_type, no_rasl_output_flag, header.pic_output_flag);
        picture.valid_for_prev_tid0_pic = is_valid_for_prev_tid0(
            nalu_type,
            unit.temporal_id_plus1(),
        );
        picture.slice_pic_order_cnt_lsb = lsb;
        picture.pic_order_cnt_msb = count.msb;
        picture.pic_order_cnt_val = count.val;
        picture.no_output_of_prior_pics_flag = discards_prior(
            nalu_type,
            begins_sequence,
            first_picture_in_bitstream,
            header.no_output_of_prior_pics_flag,
        );
        picture.is_irap = nalu_type.is_irap();
        picture.first_picture_after_eos = first_picture_after_eos;
        picture.short_term_ref_pic_set_size_bits = header.st_rps_bits;
        Ok(picture)
    }
}
