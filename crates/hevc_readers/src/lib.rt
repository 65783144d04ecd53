//! Readers of parameter sets (7.3.2), and of the parts that are in them (7.3.3, 7.3.4, 7.3.7, Annex
//! E).
//!
//! A reader of a set reads it out of its unit; those of video and sequence sets want memory for
//! their lists, and the latter one place for the set. A reader of a part reads at a reader of
//! elements, takes no memory, and answers `OutOfBits` or `OutOfRange` alone besides its record.
//! Parts of many kilobytes, HRD parameters and usability information, are filled where they are.
//! `tell_..` lists the elements of a set as they are read.
#![tactic(auto)]

pub use hevc_elements::{Descriptor, ElementReader, ParseError, Told};
pub use hevc_hrd::read_hrd_parameters;
pub use hevc_pps::{read_pps, tell_pps};
pub use hevc_profile::read_profile_tier_level;
pub use hevc_scaling::{default_scaling_lists, read_scaling_list_data};
pub use hevc_short_term::read_short_term_set;
pub use hevc_sps::{read_sps, tell_sps};
pub use hevc_vps::{read_vps, tell_vps};
pub use hevc_vui::read_vui_parameters;
