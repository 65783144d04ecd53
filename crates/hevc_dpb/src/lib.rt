//! The decoded picture buffer: pictures that are needed for output or are used for reference
//! (C.5.2).
#![tactic(auto)]

mod bumping;
mod dpb;
mod entry;
mod finds;
mod order;
mod output;
mod pictures;

pub use dpb::{Dpb, DpbFull};
pub use entry::DpbEntry;
pub use finds::Sought;
pub use hevc_pictures::{Limits, PictureData, PocOutOfRange, Reference};
pub use pictures::Pictures;
