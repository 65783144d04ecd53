//! What the derived comparisons answer, `==` equality of all fields, and what `default()` is.
//!
//! Each function is the operator at one type, with its meaning as a contract, for proofs that rest
//! on it.
ghost use Rattle.std.specs.Prelude.{◌≡◌, ◌↔◌, IsTrue};
ghost use Rattle.hevc_backend.specs.Negotiation.{format_of, no_format};

use crate::{NegotiationInfo, Resolution, StreamInfo};

/// Whether two sizes are the same, as `==` answers.
pub fn resolution_eq(a: Resolution, b: Resolution) -> bool
    ensures { IsTrue result ↔ (a ≡ b) }
{
    a == b
}

/// The size of 0 by 0 luma samples, as `default()` gives.
pub fn resolution_default() -> Resolution
    ensures width { result.width ≡ 0 }
    ensures height { result.height ≡ 0 }
{
    Resolution::default()
}

/// Whether two formats are equal in all fields, as `==` answers.
pub fn negotiation_info_eq(a: &NegotiationInfo, b: &NegotiationInfo) -> bool
    ensures { IsTrue result ↔ (a.now ≡ b.now) }
{
    *a == *b
}

/// The format all of whose numbers are 0, as `default()` gives.
pub fn negotiation_info_default() -> NegotiationInfo
    ensures { format_of result ≡ no_format }
{
    NegotiationInfo::default()
}

/// Whether two answers on a sequence are equal in all fields, as `==` answers.
pub fn stream_info_eq(a: &StreamInfo, b: &StreamInfo) -> bool
    ensures { IsTrue result ↔ (a.now ≡ b.now) }
{
    *a == *b
}

/// The answer of no frames, for pictures of 0 by 0 luma samples, as `default()` gives.
pub fn stream_info_default() -> StreamInfo
    ensures coded_width { result.coded_resolution.width ≡ 0 }
    ensures coded_height { result.coded_resolution.height ≡ 0 }
    ensures display_width { result.display_resolution.width ≡ 0 }
    ensures display_height { result.display_resolution.height ≡ 0 }
    ensures frames { result.min_num_frames ≡ 0 }
{
    StreamInfo::default()
}
