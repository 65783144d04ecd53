//! The stateless decoder: it takes one unit after another, and tells what came of them by events.
#![tactic(auto)]

mod decoder;
mod event;
mod refusal;
mod session;
mod state;
mod units;

pub use decoder::StatelessDecoder;
pub use event::DecoderEvent;
pub use hevc_driver::{
    DecodeError, Frame, Head, MAX_OUTPUTS_OF_UNIT, Options, StatelessH265DecoderBackend,
};
pub use state::State;
