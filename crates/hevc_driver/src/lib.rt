//! What drives a backend through the pictures of a stream: slices with the sets that they make
//! active come in, pictures are begun, decoded and stored, and those that are output are in a queue
//! (8.1.3, 8.3, C.5.2).
#![tactic(auto)]

mod beginning;
mod current;
mod decode_error;
mod driver;
mod ends;
mod finish;
mod head;
mod kept;
mod negotiation;
mod open;
mod references;
mod room;
mod slices;
mod standing;

pub use beginning::{head_of_first, max_pic_order_cnt_lsb};
pub use current::{Current, Open};
pub use decode_error::DecodeError;
pub use driver::{Driver, MAX_OUTPUTS_OF_UNIT};
pub use head::{Context, Head};
pub use hevc_backend::{BackendError, NegotiationInfo, StatelessH265DecoderBackend, StreamInfo};
pub use hevc_bumping::Frame;
pub use hevc_options::Options;
pub use kept::{complete_header, keep_header};
pub use references::reference_set;
pub use standing::Standing;
