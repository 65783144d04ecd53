//! The calls of a backend, as a log keeps them.
use crate::negotiation::NegotiationInfo;
use hevc_bits::NaluType;
use hevc_refs::RefPicListEntry;
use hevc_set_parts::Items;

/// A call that a backend took, with what it was given; `SubmitPicture` with what it gave.
///
/// Pictures have numbers, from 0 upwards in decoding order, and no number is used twice.
#[derive(Drop)]
pub enum Call<H> {
    /// A sequence of this format begins.
    NewSequence {
        info: NegotiationInfo,
    },
    /// A picture begins and takes a frame: with the type of its first slice (Table 7-1), its order
    /// count PicOrderCntVal (8.3.1), its PicOutputFlag (8.1.3), and the timestamp that came with
    /// its first slice.
    NewPicture {
        number: u64,
        nalu_type: NaluType,
        pic_order_cnt_val: i32,
        pic_output_flag: bool,
        timestamp: u64,
    },
    /// The picture's slices come. Its reference picture set is five lists of picture numbers, None
    /// where there is no such picture (8.3.2).
    BeginPicture {
        number: u64,
        st_curr_before: Items<Option<u64>>,
        st_curr_after: Items<Option<u64>>,
        st_foll: Items<Option<u64>>,
        lt_curr: Items<Option<u64>>,
        lt_foll: Items<Option<u64>>,
    },
    /// A slice of the picture, at its SliceAddrRs (7.4.7.1) in coding tree blocks in raster scan,
    /// with the unit's bytes from its header on and its two reference picture lists (8.3.4).
    DecodeSlice {
        number: u64,
        address: u32,
        bytes: Items<u8>,
        list0: Items<Option<RefPicListEntry>>,
        list1: Items<Option<RefPicListEntry>>,
    },
    /// The picture is whole, and has this handle from here on.
    SubmitPicture {
        number: u64,
        handle: H,
    },
}
