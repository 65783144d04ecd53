//! What a decoder waits for.

/// What a decoder waits for.
#[derive(Clone, Copy, PartialEq, Eq)]
pub enum State {
    /// The first sequence parameter set.
    AwaitingStreamInfo,
    /// That a format is accepted that was negotiated.
    AwaitingFormat,
    /// Nothing.
    Decoding,
    /// A slice of an IDR picture, or a sequence parameter set.
    Reset,
}
