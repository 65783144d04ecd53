//! What is known of a picture: what its first slice tells, how it is marked, and what its sequence
//! set declares of order (8.1.3, 8.3.1, 8.3.2, 7.4.3.2.1).
#![tactic(auto)]

pub mod comparisons;
mod limits;
mod new_picture;
mod order_count;
mod picture_data;
mod reference;

pub use limits::Limits;
pub use order_count::PocOutOfRange;
pub use picture_data::PictureData;
pub use reference::Reference;
