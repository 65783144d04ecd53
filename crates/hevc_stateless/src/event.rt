//! What a decoder tells its caller.
use hevc_driver::Frame;

/// What a decoder tells its caller.
#[derive(Drop)]
pub enum DecoderEvent<H: Copy> {
    /// A picture was output.
    FrameReady(Frame<H>),
    /// Another format was negotiated, and is to be accepted.
    FormatChanged,
}
