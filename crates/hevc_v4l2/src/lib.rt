//! What Linux's stateless decoders take of a picture: sets, slices and the buffer as the structs of
//! `linux/v4l2-controls.h`.
#![tactic(auto)]

mod arrays;
mod buffer;
mod decode;
mod entry_points;
mod error;
mod laws;
mod long_term;
mod picture_set;
mod scaling;
mod sequence_set;
mod slice;
mod weights;

pub use buffer::V4l2HevcDpbEntry;
pub use decode::{V4l2CtrlHevcDecodeParams, decode_control};
pub use entry_points::write_entry_points;
pub use error::ControlError;
pub use laws::long_term_size_is_what_is_read;
pub use picture_set::{V4l2CtrlHevcPps, pps_control};
pub use scaling::{V4l2CtrlHevcScalingMatrix, scaling_control};
pub use sequence_set::{V4l2CtrlHevcSps, sps_control};
pub use slice::{SliceControls, V4l2CtrlHevcSliceParams, slice_controls};
pub use weights::{ChromaOffsets, V4l2HevcPredWeightTable, chroma_offsets_of};
