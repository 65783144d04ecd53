//! Pictures that are output.
ghost use Rattle.std.specs.Prelude.{◌≡◌};
ghost use Rattle.hevc_bumping.specs.Frames.{frame_of};

use hevc_dpb::DpbEntry;

/// A picture that is output.
#[derive(Clone, Copy)]
pub struct Frame<H> {
    /// Its number: pictures are numbered from 0 in decoding order.
    pub number: u64,
    /// What the backend gave for it as it was submitted.
    pub handle: H,
    /// Its order count, PicOrderCntVal (8.3.1).
    pub order_count: i32,
}

impl<H: Copy> Frame<H> {
    /// The frame of a stored picture.
    pub(crate) fn of(entry: &DpbEntry<H>) -> Frame<H>
        ensures { result ≡ frame_of entry.now }
    {
        Frame {
            number: entry.number,
            handle: entry.handle,
            order_count: entry.picture.pic_order_cnt_val,
        }
    }
}
