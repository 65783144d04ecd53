//! A backend that puts its calls into a queue, as plain events that a caller takes one after
//! another.
#![tactic(auto)]

mod asked;
mod backend;
mod controls;
mod given;
mod places;

pub use backend::QueueBackend;
pub use controls::{BegunControls, Controls, PictureControls, SegmentControls};
pub use given::{BegunPicture, Given, GivenSlice};
