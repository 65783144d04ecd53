//! The standing between two calls.
use crate::current::Current;
use crate::head::Context;
use hevc_backend::NegotiationInfo;
use hevc_bumping::Frame;
use hevc_dpb::Dpb;
use hevc_picture_slice::SliceHeader;
use hevc_refs::RefPicSet;
use std::collections::VecDeque;

/// All but the backend and the parameter sets. While a format is awaited it counts as accepted
/// here.
#[derive(Drop)]
pub struct Standing<H: Copy, P> {
    /// The format that was negotiated last.
    pub accepted: Option<NegotiationInfo>,
    /// The decoded picture buffer.
    pub dpb: Dpb<H>,
    /// The picture whose slices come.
    pub current: Current<P>,
    /// The reference picture set of the open picture over what is stored (8.3.2). Its room is used
    /// again.
    pub set: RefPicSet,
    /// The header of the latest independent slice segment (7.4.7.1).
    pub kept: Option<SliceHeader>,
    /// The context of the next picture.
    pub next: Context,
    /// The pictures that were output.
    pub queue: VecDeque<Frame<H>>,
}
