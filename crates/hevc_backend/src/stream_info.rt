//! What a backend tells of a sequence.
use crate::negotiation::Resolution;

/// What a backend tells of the sequence that began last.
#[derive(Clone, Copy, Default, PartialEq, Eq)]
pub struct StreamInfo {
    /// The size of a picture.
    pub coded_resolution: Resolution,
    /// The size of the part of a picture that is shown (7.4.3.2.1).
    pub display_resolution: Resolution,
    /// How many frames decoding needs.
    pub min_num_frames: usize,
}
