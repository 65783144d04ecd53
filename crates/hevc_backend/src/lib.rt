//! What decodes the pictures: the calls that a hardware decoder is driven by, a backend that
//! records them, and one that keeps nothing.
#![tactic(auto)]

mod backend;
mod call;
pub mod comparisons;
mod error;
mod laws;
mod negotiation;
mod recording;
mod silent;
mod stream_info;

pub use backend::StatelessH265DecoderBackend;
pub use call::Call;
pub use error::BackendError;
pub use laws::references_are_stored;
pub use negotiation::{NegotiationInfo, Resolution};
pub use recording::Backend;
pub use silent::SilentBackend;
pub use stream_info::StreamInfo;
