//! Parameter sets and slices, written as units.
#![tactic(auto)]

mod picture_unit;
mod piece;
mod program;
mod rewriting;
mod sequence_set;
mod slice_unit;
mod syntax;
mod unit;
mod unit_type;
mod video_set;

pub use hevc_write_units::WriteError;
pub use picture_unit::PictureUnit;
pub use program::run_write;
pub use rewriting::rewrite;
pub use slice_unit::SliceUnit;
pub use syntax::Syntax;
pub use unit::write_unit;
