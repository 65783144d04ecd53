//! The sets that a slice makes active.
use hevc_picture_slice::Pps;
use hevc_sequence_set::Sps;

/// The parameter sets that a slice makes active: the picture set that its header names, and the
/// sequence set that this one names (7.4.2.4.2).
#[derive(Clone, Copy)]
pub struct ActiveSets<'a> {
    pub sps: &'a Sps,
    pub pps: &'a Pps,
}
