//! Whole streams: from bytes to the calls of a backend and the pictures that are output.
#![tactic(auto)]

mod decoded;
mod feed;
mod source;
mod steps;
mod stream;
mod units;
mod window;

pub use decoded::{Decoded, Refused, Shown};
pub use hevc_stateless::{
    DecodeError, DecoderEvent, Frame, Head, Options, StatelessDecoder, StatelessH265DecoderBackend,
};
pub use source::decode_source_with;
pub use steps::{begin_stream, decode_next_unit, end_stream};
pub use stream::{decode_stream, decode_stream_with, judge_stream};
