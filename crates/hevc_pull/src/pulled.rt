//! What came of units.
use crate::counted::Counted;
use hevc_driver::Frame;
use hevc_events::Event;

/// What came of units.
#[derive(Drop)]
pub enum Pulled {
    /// A call of the decoder on its backend.
    Asked(Event),
    /// A picture was output; and what is known of it.
    Output(Frame<u64>, Counted),
    /// A picture that began, and that was to be output, never will be.
    Dropped(Counted),
    /// A picture was counted, and isn't decoded.
    Skipped(Counted),
    /// Another format was negotiated, and is to be accepted.
    FormatChanged,
}
