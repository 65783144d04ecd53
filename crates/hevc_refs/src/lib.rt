//! Reference picture sets with the marks that they leave, and reference picture lists (8.3.2,
//! 8.3.4).
#![tactic(auto)]

pub mod comparisons;
mod derive;
mod long_term;
mod marking;
mod ref_pic_list;
mod ref_pic_lists;
mod ref_pic_set;
mod short_term;

pub use derive::{derive_and_mark, derive_into};
pub use ref_pic_list::{RefPicList, RefPicListEntry, ReferencePicLists};
pub use ref_pic_lists::build_ref_pic_lists;
pub use ref_pic_set::RefPicSet;
