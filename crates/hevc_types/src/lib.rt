//! All records of H.265 syntax in one place: of what sets share, of video, sequence and picture
//! sets, and of slices (7.3, Annex E).
#![tactic(auto)]

pub use hevc_boxed::Boxed;
pub use hevc_picture_slice::{NotDependent, Pps, Slice, SliceHeader};
pub use hevc_sequence_set::{Point, Rect, Sps, SpsRangeExtension, SpsSccExtension};
pub use hevc_set_parts::{
    Items, Level, PpsRangeExtension, PpsSccExtension, Profile, ProfileTierLevel,
    RefPicListModification, ScalingLists, ShortTermRefPicSet, SliceType,
};
pub use hevc_video_set::{HrdParams, PredWeightTable, SublayerHrdParameters, Vps, VuiParams};
