//! What the plain structs for C are made of: what a backend was asked for as events, and the queue
//! in which they wait; flags in one number, and scaling lists in raster order.
#![tactic(auto)]

mod event;
mod flags;
mod queue;
mod raster;
mod scan;

pub use event::{Event, Places, Sequence, Window, event_of_picture, no_places, no_window};
pub use flags::flag_bits;
pub use queue::EventQueue;
pub use raster::{raster_list, raster_lists};
pub use scan::{SCAN_PLACES_4X4, SCAN_PLACES_8X8, scans_are_permutations};
